// Makes a record, one field's info after another. The state remembers a bad info and a field too far out, and `record` tells the first of these refusals.
ghost use Rattle.std.specs.Prelude.{◌≡◌, map};
ghost use Rattle.types.specs.Leaves.{record_answer};
ghost use Rattle.types.specs.Means.{leaf, abi_means};
ghost use Rattle.types.specs.States.{record_means, no_fields, add_field, close_fields};

use crate::both::Both;
use crate::extent::Extent;
use crate::flat::add_flat;
use crate::info::CanonicalAbiInfo;
use crate::refusal::Refusal;

// The flag is no Option of the rest: `field` tells the extents of a record with a bad info too, and nothing branches for each field.
#[derive(Clone, Copy)]
pub struct RecordState {
    extents: Both<Extent>,
    flat: Option<u8>,
    bad: bool,
}

impl RecordState {
    pub fn start() -> RecordState
        ensures { record_means result ≡ no_fields }
    {
        RecordState {
            extents: Both::<Extent>::EMPTY,
            flat: Some(0),
            bad: false,
        }
    }

    #[tactic(auto, unfolding(crate::specs::States::add_field))]
    pub fn field(self, info: CanonicalAbiInfo) -> RecordState
        ensures { record_means result ≡ add_field (record_means self) (abi_means info) }
    {
        RecordState {
            extents: self.extents.member(info.layouts()).extents(),
            flat: add_flat(self.flat, info.flat_count),
            bad: self.bad | !info.is_good(),
        }
    }
}

impl CanonicalAbiInfo {
    // Refuses BadRow if any info was bad, then TooLarge in either memory.
    #[tactic(auto, unfolding(crate::specs::States::close_fields, crate::specs::Leaves::given))]
    pub fn record(fields: RecordState) -> Result<CanonicalAbiInfo, Refusal>
        ensures { leaf abi_means result ≡ close_fields (record_means fields) }
    {
        if fields.bad {
            return Err(Refusal::BadRow);
        }
        CanonicalAbiInfo::fitted(fields.extents.close(), fields.flat)
    }

    // Does the same over infos that are lent, and refuses as `record` does.
    #[tactic(auto, using(crate::proofs::RecordLaws::record_answer_lem), unfolding(crate::specs::States::add_fields))]
    pub fn record_static(fields: &[CanonicalAbiInfo]) -> Result<CanonicalAbiInfo, Refusal>
        ensures { leaf abi_means result ≡ record_answer (map abi_means fields.now) }
    {
        let mut state = RecordState::start();
        for field in fields {
            state = state.field(*field);
        }
        CanonicalAbiInfo::record(state)
    }
}
