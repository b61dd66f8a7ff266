// Places members one after another in one memory, by where the last of them ends and the greatest alignment.
ghost use Rattle.std.specs.Prelude.{◌≡◌, ◌*◌, min};
ghost use Rattle.canon.specs.Placement.{four_gib};
ghost use Rattle.canon.specs.Row.{good_layout};
ghost use Rattle.types.specs.Means.{leaf, layout_means, bytes_of};
ghost use Rattle.types.specs.Extents.{extent_at, is_large, fitted_layout, member_of, closing, close_of, variant_step, widest};

use crate::discriminant::DiscriminantSize;
use crate::refusal::Refusal;
use crate::round::{LARGEST, fitting, is_alignment, round_up};

#[derive(Clone, Copy)]
pub struct Layout {
    pub size: u32,
    pub align: u32,
}

// The end stops at 4 GiB, which every rounding keeps: too large stays too large.
#[derive(Clone, Copy)]
pub struct Extent {
    pub end: u64,
    pub align: u32,
}

// Tells where a member starts, the bytes skipped before it, and the extent with it.
#[derive(Clone, Copy)]
pub struct Step {
    pub start: u64,
    pub skipped: u32,
    pub extent: Extent,
}

// This is one more than 01's greatest start, end or size.
pub const FOUR_GIB: u64 = LARGEST + 1;

fn stopped(end: u64) -> u64
    ensures { result ≡ min end four_gib }
{
    end.min(FOUR_GIB)
}

impl Layout {
    #[tactic(auto, using(crate::proofs::RoundLaws::aligned), unfolding(canon::specs::Row::good_layout))]
    pub(crate) fn is_good(self) -> bool
        ensures { result ≡ good_layout (layout_means self) }
    {
        is_alignment(self.align) && self.size & (self.align - 1) == 0
    }

    // Gives what is as large and as aligned as either: the room for a variant's payloads.
    pub(crate) fn widest(self, other: Layout) -> Layout
        ensures { layout_means result ≡ widest (layout_means self) (layout_means other) }
    {
        Layout {
            size: self.size.max(other.size),
            align: self.align.max(other.align),
        }
    }

    // Puts `count` of them one after another.
    #[tactic(auto, unfolding(crate::specs::Extents::extent_at))]
    pub(crate) fn repeat(self, count: u32) -> Extent
        ensures { result ≡ extent_at (self.size * count) self.align }
    {
        Extent {
            end: stopped(u64::from(self.size) * u64::from(count)),
            align: self.align,
        }
    }
}

impl Extent {
    pub const EMPTY: Extent = Extent { end: 0, align: 1 };

    pub fn is_large(self) -> bool
        ensures { result ≡ is_large self }
    {
        self.end > LARGEST
    }

    // Refuses TooLarge, as for a number.
    pub(crate) fn fitted(self) -> Result<Layout, Refusal>
        ensures { leaf layout_means result ≡ fitted_layout self }
    {
        Ok(Layout {
            size: fitting(self.end)?,
            align: self.align,
        })
    }

    // An end that no step gave may be any number, so it is stopped here too.
    #[tactic(auto, using(crate::proofs::RoundLaws::rounded_between), unfolding(crate::specs::Extents::member_of, crate::specs::Extents::extent_at))]
    pub fn member(self, member: Layout) -> Step
        ensures { result ≡ member_of self (layout_means member) }
    {
        let up = round_up(stopped(self.end), member.align);
        let end = up.value + u64::from(member.size);
        Step {
            start: up.value,
            skipped: up.skipped,
            extent: Extent {
                end: stopped(end),
                align: self.align.max(member.align),
            },
        }
    }

    // A member of no size moves the end on to the size, and skips the bytes after the last.
    #[tactic(auto, unfolding(crate::specs::Extents::closing))]
    pub fn closing(self) -> Step
        ensures { result ≡ closing self }
    {
        self.member(Layout {
            size: 0,
            align: self.align,
        })
    }

    // The end becomes the size.
    pub fn close(self) -> Extent
        ensures { result ≡ close_of self }
    {
        self.closing().extent
    }

    // Places a discriminant, and room for the payloads at the next place where the whole may be aligned.
    #[tactic(auto, unfolding(crate::specs::Extents::variant_step))]
    pub(crate) fn variant(size: DiscriminantSize, payload: Layout) -> Step
        ensures { result ≡ variant_step (bytes_of size) (layout_means payload) }
    {
        let bytes = size.byte_size();
        let align = bytes.max(payload.align);
        let discriminant = Extent {
            end: u64::from(bytes),
            align,
        };
        let step = discriminant.member(Layout {
            size: payload.size,
            align,
        });
        Step {
            extent: step.extent.close(),
            ..step
        }
    }
}
