// Places one member after another.
ghost use Rattle.std.specs.Prelude.{◌≡◌};
ghost use Rattle.canon.specs.Cost.{reported};
ghost use Rattle.types.specs.Means.{layout_means};
ghost use Rattle.table.specs.Means.{answer, member_place};
ghost use Rattle.questions.specs.Means.{whole_means, whole_reads, after_means};
ghost use Rattle.questions.specs.Steps.{next_place, finished, finished_gap};

use crate::answer::Whole;
use crate::read::refused;
use table::{MemberPosition, Refused};
use types::{Extent, FOUR_GIB, Layout, Refusal};

// Holds the extent of the members so far, where the last of them starts, the gap before it, and the last that begins before the extent is too
// large: where it is, the one that passed.
#[derive(Clone, Copy)]
pub(crate) struct Placed {
    extent: Extent,
    pub(crate) offset: u32,
    pub(crate) gap: u32,
    over: MemberPosition,
}

impl Placed {
    pub(crate) const NONE: Placed = Placed {
        extent: Extent::EMPTY,
        offset: 0,
        gap: 0,
        over: MemberPosition(0),
    };

    // A start past the memory is cut: its placement is refused, and the offset is not written. Both cases return all of a placement: with the
    // position chosen first a placement of 2,048 took 1.2 of the time.
    #[tactic(auto, unfolding(crate::specs::Steps::next_place))]
    pub(crate) fn next(self, member: Layout, position: MemberPosition) -> Placed
        ensures { result ≡ next_place self (layout_means member) position }
    {
        let step = self.extent.member(member);
        let placed = Placed {
            extent: step.extent,
            offset: (step.start % FOUR_GIB) as u32,
            gap: step.skipped,
            over: position,
        };
        if self.extent.is_large() {
            return Placed {
                over: self.over,
                ..placed
            };
        }
        placed
    }

    // Answers, with the rows that were read back and the gap after the last if all is placed.
    #[tactic(auto, unfolding(canon::specs::Answer::then, crate::specs::Steps::finished, crate::specs::Steps::finished_gap))]
    pub(crate) fn finish(self, reads: u32) -> Result<Whole, Refused<MemberPosition>>
        ensures value { answer member_place whole_means result ≡ finished self }
        ensures reads { whole_reads result ≡ reported (finished self) reads }
        ensures after { after_means result ≡ finished_gap self }
    {
        if self.extent.is_large() {
            return Err(Refused {
                why: Refusal::TooLarge,
                at: self.over,
            });
        }
        let closing = self.extent.closing();
        if closing.extent.is_large() {
            return Err(refused(Refusal::TooLarge));
        }
        Ok(Whole {
            reads,
            layout: Layout {
                size: closing.extent.end as u32,
                align: closing.extent.align,
            },
            after: closing.skipped,
        })
    }
}
