// Makes a variant, one case after another. The state counts its cases and remembers a bad info, and `VariantInfo::new` tells the first refusal.
ghost use Rattle.std.specs.Prelude.{◌≡◌};
ghost use Rattle.std.proofs.Math.Option.{none, some};
ghost use Rattle.types.specs.Leaves.{info_alone};
ghost use Rattle.types.specs.Means.{leaf, bytes_of, abi_means, variant_means};
ghost use Rattle.types.specs.States.{cases_means, one_more, no_cases, add_case, sized_cases, close_cases};

use crate::both::Both;
use crate::discriminant::DiscriminantSize;
use crate::extent::{Extent, Layout};
use crate::flat::{add_flat, max_flat};
use crate::info::CanonicalAbiInfo;
use crate::refusal::Refusal;

// This is the first number of cases whose discriminant takes four bytes; a count above it tells nothing more.
const ENOUGH: u32 = 65537;

// The flag is no Option of the rest, as in a RecordState.
#[derive(Clone, Copy)]
pub struct VariantState {
    layouts: Both<Layout>,
    flat: Option<u8>,
    count: u32,
    bad: bool,
}

#[derive(Clone, Copy)]
pub struct VariantInfo {
    pub size: DiscriminantSize,
    pub payload_offset32: u32,
    pub payload_offset64: u32,
}

fn one_more(count: u32) -> u32
    ensures { result ≡ one_more count }
{
    count.saturating_add(1).min(ENOUGH)
}

impl VariantState {
    pub fn start() -> VariantState
        ensures { cases_means result ≡ no_cases }
    {
        VariantState {
            layouts: Both::<Layout>::EMPTY,
            flat: Some(0),
            count: 0,
            bad: false,
        }
    }

    // Adds a case without a payload.
    #[tactic(auto, unfolding(crate::specs::States::add_case))]
    pub fn bare(self) -> VariantState
        ensures { cases_means result ≡ add_case (cases_means self) none }
    {
        VariantState {
            count: one_more(self.count),
            ..self
        }
    }

    // Adds a case that holds what the info is of.
    #[tactic(auto, unfolding(crate::specs::States::add_case))]
    pub fn payload(self, info: CanonicalAbiInfo) -> VariantState
        ensures { cases_means result ≡ add_case (cases_means self) (some (abi_means info)) }
    {
        VariantState {
            layouts: self.layouts.widest(info.layouts()),
            flat: max_flat(self.flat, info.flat_count),
            count: one_more(self.count),
            bad: self.bad | !info.is_good(),
        }
    }
}

impl VariantInfo {
    // Refuses BadRow if any info was bad, then BadCount for no case, then TooLarge in either memory.
    #[tactic(auto, unfolding(crate::specs::States::close_cases, crate::specs::Leaves::given, canon::specs::Answer::and_then))]
    pub fn new(cases: VariantState) -> Result<(VariantInfo, CanonicalAbiInfo), Refusal>
        ensures { leaf variant_means result ≡ close_cases (cases_means cases) }
    {
        if cases.bad {
            return Err(Refusal::BadRow);
        }
        VariantInfo::sized(DiscriminantSize::from_count(cases.count)?, cases)
    }

    // Makes the variant whose discriminant has this size.
    #[tactic(auto, using(crate::proofs::VariantLaws::variant_fits), unfolding(crate::specs::States::sized_cases, canon::specs::Answer::and_then))]
    fn sized(
        size: DiscriminantSize,
        cases: VariantState,
    ) -> Result<(VariantInfo, CanonicalAbiInfo), Refusal>
        ensures { leaf variant_means result ≡ sized_cases (bytes_of size) (cases_means cases) }
    {
        let steps = Both::<Extent>::variant(size, cases.layouts);
        let whole = steps.extents().fitted()?;
        let variant = VariantInfo {
            size,
            payload_offset32: steps.in32.start as u32,
            payload_offset64: steps.in64.start as u32,
        };
        // The discriminant is one core type more.
        let count = add_flat(Some(1), cases.flat);
        Ok((variant, CanonicalAbiInfo::of(whole, count)))
    }
}

impl CanonicalAbiInfo {
    // Refuses as `VariantInfo::new` does.
    #[tactic(auto, unfolding(crate::specs::Leaves::info_alone))]
    pub fn variant(cases: VariantState) -> Result<CanonicalAbiInfo, Refusal>
        ensures { leaf abi_means result ≡ info_alone (close_cases (cases_means cases)) }
    {
        let (_, info) = VariantInfo::new(cases)?;
        Ok(info)
    }
}
