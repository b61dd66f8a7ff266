// What a reference in a definition stands for: a type without a definition, or an earlier row. Only here are rows read back, so here they are
// counted.
ghost use Rattle.std.specs.Prelude.{◌≡◌, [], ◌∷◌, ◌≤◌};
ghost use Rattle.canon.specs.Cost.{rows_among};
ghost use Rattle.table.specs.Means.{info_means};
ghost use Rattle.build.specs.Steps.{case_look};

use crate::counted::Counted;
use table::{DefinitionIndex, FIRST_DEFINITION, Info, plain_info_by_shifts, row_info};
use types::Refusal;

// The mark means "no payload" in a variant or result.
const NO_PAYLOAD: u32 = 4294967295;

// The rows before a definition: its references may name no other.
#[derive(Clone, Copy)]
pub(crate) struct Earlier<'a> {
    pub(crate) table: &'a [u32],
    pub(crate) index: DefinitionIndex,
    pub(crate) ghost within: { index.0 ≤ 1024 },
}

impl Earlier<'_> {
    ghost use Rattle.build.specs.Means.{look_in, counted, ReadBack, payload_means};

    #[tactic(auto, using(crate::proofs::LookLaws::plain_look, crate::proofs::LookLaws::earlier_look, crate::proofs::LookLaws::later_look, canon::proofs::Costs::plain_unread, canon::proofs::Costs::earlier_read))]
    pub(crate) fn member(self, reference: u32) -> Result<Counted<Info>, Refusal>
        ensures value { counted info_means result ≡ look_in self.entry reference }
        ensures reads { ReadBack result (rows_among (reference ∷ [])) }
    {
        if reference < FIRST_DEFINITION {
            return Ok(Counted::unread(plain_info_by_shifts(reference)?));
        }
        let earlier = reference - FIRST_DEFINITION;
        if earlier < self.index.0 {
            Ok(Counted {
                value: row_info(self.table, DefinitionIndex(earlier)),
                reads: 1,
            })
        } else {
            Err(Refusal::BadRef)
        }
    }

    // Gives the payload of a case, if it has one.
    #[tactic(auto, using(crate::proofs::LookLaws::bare_look, crate::proofs::LookLaws::held_look, canon::proofs::Costs::mark_unread), unfolding(canon::specs::Answer::and_then))]
    pub(crate) fn case(self, reference: u32) -> Result<Counted<Option<Info>>, Refusal>
        ensures value { counted payload_means result ≡ case_look (look_in self.entry) reference }
        ensures reads { ReadBack result (rows_among (reference ∷ [])) }
    {
        if reference == NO_PAYLOAD {
            return Ok(Counted::unread(None));
        }
        Ok(self.member(reference)?.map(Some))
    }
}
