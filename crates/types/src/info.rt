// An info holds what the canonical ABI says of a type, for both memories.
ghost use Rattle.std.specs.Prelude.{◌≡◌, true, ◌≤◌};
ghost use Rattle.canon.specs.Layout.{mem32, mem64};
ghost use Rattle.canon.specs.Row.{is_alignment, good_abi};
ghost use Rattle.types.specs.Means.{leaf, memory_of, count_means, layout_means, layouts_means, each, abi_means, field_means};
ghost use Rattle.types.specs.Leaves.{scalar_abi, grouped_abi, fixed_answer, field_after, next_field, flags_answer, enum_answer};
ghost use Rattle.types.specs.States.{fitted_abi};

use crate::both::Both;
use crate::discriminant::DiscriminantSize;
use crate::extent::{Extent, Layout};
use crate::flags::{MAX_FLAGS, flag_groups};
use crate::flat::{is_good_count, times_flat};
use crate::memory::Memory;
use crate::refusal::Refusal;

// The numbers are the words 1 to 5 of a row, under 01's names, and so not two layouts.
#[derive(Clone, Copy)]
pub struct CanonicalAbiInfo {
    pub size32: u32,
    pub align32: u32,
    pub size64: u32,
    pub align64: u32,
    pub flat_count: Option<u8>,
}

// Tells where a field starts, where the next may at the earliest, and the bytes skipped before the field.
#[derive(Clone, Copy)]
pub struct NextField {
    pub offset: u32,
    pub end: u32,
    pub skipped: u32,
}

impl CanonicalAbiInfo {
    // Types of no size have this info.
    pub const ZERO: CanonicalAbiInfo = CanonicalAbiInfo {
        size32: 0,
        align32: 1,
        size64: 0,
        align64: 1,
        flat_count: Some(0),
    };

    // Scalars take one, two, four or eight bytes, and are aligned to their size. Each is written out, as a constant cannot call `scalar`.
    pub const SCALAR1: CanonicalAbiInfo = CanonicalAbiInfo {
        size32: 1,
        align32: 1,
        size64: 1,
        align64: 1,
        flat_count: Some(1),
    };

    pub const SCALAR2: CanonicalAbiInfo = CanonicalAbiInfo {
        size32: 2,
        align32: 2,
        size64: 2,
        align64: 2,
        flat_count: Some(1),
    };

    pub const SCALAR4: CanonicalAbiInfo = CanonicalAbiInfo {
        size32: 4,
        align32: 4,
        size64: 4,
        align64: 4,
        flat_count: Some(1),
    };

    pub const SCALAR8: CanonicalAbiInfo = CanonicalAbiInfo {
        size32: 8,
        align32: 8,
        size64: 8,
        align64: 8,
        flat_count: Some(1),
    };

    fn scalar(size: u32) -> CanonicalAbiInfo
        ensures { abi_means result ≡ scalar_abi size }
    {
        CanonicalAbiInfo {
            size32: size,
            align32: size,
            size64: size,
            align64: size,
            flat_count: Some(1),
        }
    }

    // Lists and strings are a pointer and a length, of four or of eight bytes each.
    pub const POINTER_PAIR: CanonicalAbiInfo = CanonicalAbiInfo {
        size32: 8,
        align32: 4,
        size64: 16,
        align64: 8,
        flat_count: Some(2),
    };

    pub fn layouts(self) -> Both<Layout>
        ensures { result ≡ record { in32 = record { size = self.size32; align = self.align32 }; in64 = record { size = self.size64; align = self.align64 } } }
    {
        Both {
            in32: Layout {
                size: self.size32,
                align: self.align32,
            },
            in64: Layout {
                size: self.size64,
                align: self.align64,
            },
        }
    }

    pub(crate) fn of(layouts: Both<Layout>, flat: Option<u8>) -> CanonicalAbiInfo
        ensures { abi_means result ≡ record { layouts = layouts_means layouts; flats = count_means flat } }
    {
        CanonicalAbiInfo {
            size32: layouts.in32.size,
            align32: layouts.in32.align,
            size64: layouts.in64.size,
            align64: layouts.in64.align,
            flat_count: flat,
        }
    }

    // Tells whether the five numbers keep the rules of a row.
    #[tactic(auto, unfolding(canon::specs::Row::good_abi))]
    pub fn is_good(self) -> bool
        ensures { result ≡ good_abi (abi_means self) }
    {
        self.layouts().is_good() && is_good_count(self.flat_count)
    }

    // Gives the info of what ends so in the two memories.
    #[tactic(auto, unfolding(crate::specs::States::fitted_abi, canon::specs::Answer::and_then))]
    pub(crate) fn fitted(
        extents: Both<Extent>,
        flat: Option<u8>,
    ) -> Result<CanonicalAbiInfo, Refusal>
        ensures { leaf abi_means result ≡ fitted_abi (each extents) (count_means flat) }
    {
        Ok(CanonicalAbiInfo::of(extents.fitted()?, flat))
    }

    // Refuses BadRow for a bad info, then TooLarge for the size in either memory.
    #[tactic(auto, using(crate::proofs::AnswerLaws::fixed_answer_lem), unfolding(crate::specs::Leaves::fixed_answer, crate::specs::Leaves::given))]
    pub fn fixed_length_list(self, count: u32) -> Result<CanonicalAbiInfo, Refusal>
        ensures { leaf abi_means result ≡ fixed_answer (abi_means self) count }
    {
        if !self.is_good() {
            return Err(Refusal::BadRow);
        }
        CanonicalAbiInfo::fitted(
            self.layouts().repeat(count),
            times_flat(self.flat_count, count),
        )
    }

    // Refuses BadRow for a bad info, then TooLarge for the start or the end.
    pub fn next_field32(self, offset: u32) -> Result<NextField, Refusal>
        ensures { leaf field_means result ≡ next_field mem32 (abi_means self) offset }
    {
        self.next_field(Memory::Memory32, offset)
    }

    // Refuses as `next_field32` does.
    pub fn next_field64(self, offset: u32) -> Result<NextField, Refusal>
        ensures { leaf field_means result ≡ next_field mem64 (abi_means self) offset }
    {
        self.next_field(Memory::Memory64, offset)
    }

    #[tactic(auto, using(crate::proofs::AnswerLaws::good_aligned), unfolding(crate::specs::Leaves::next_field, crate::specs::Leaves::given))]
    fn next_field(self, memory: Memory, offset: u32) -> Result<NextField, Refusal>
        ensures { leaf field_means result ≡ next_field (memory_of memory) (abi_means self) offset }
    {
        if !self.is_good() {
            return Err(Refusal::BadRow);
        }
        field_after(offset, self.layouts().in_memory(memory))
    }

    // Refuses BadCount above 512 labels. Up to 8 have one byte, up to 16 two, more four for each group of 32 that they start.
    #[tactic(auto, unfolding(crate::specs::Leaves::flags_answer, crate::specs::Leaves::given))]
    pub fn flags(count: u32) -> Result<CanonicalAbiInfo, Refusal>
        ensures { leaf abi_means result ≡ flags_answer count }
    {
        if count > MAX_FLAGS {
            return Err(Refusal::BadCount);
        }
        Ok(match count {
            0 => CanonicalAbiInfo::ZERO,
            1..=8 => CanonicalAbiInfo::SCALAR1,
            9..=16 => CanonicalAbiInfo::SCALAR2,
            _ => CanonicalAbiInfo::grouped(flag_groups(count)),
        })
    }

    // Gives each group of labels four bytes and one I32.
    fn grouped(groups: u32) -> CanonicalAbiInfo
        requires { groups ≤ 16 }
        ensures { abi_means result ≡ grouped_abi groups }
    {
        let size = 4 * groups;
        CanonicalAbiInfo {
            size32: size,
            align32: 4,
            size64: size,
            align64: 4,
            flat_count: Some(groups as u8),
        }
    }

    // Refuses BadCount for no case.
    #[tactic(auto, using(crate::proofs::AnswerLaws::enum_answer_lem), unfolding(canon::specs::Answer::and_then))]
    pub fn enum_(cases: u32) -> Result<CanonicalAbiInfo, Refusal>
        ensures { leaf abi_means result ≡ enum_answer cases }
    {
        let size = DiscriminantSize::from_count(cases)?;
        Ok(CanonicalAbiInfo::scalar(size.byte_size()))
    }
}

// Places a field after an end, in one memory.
#[tactic(auto, using(crate::proofs::AnswerLaws::field_step, crate::proofs::ExtentLaws::member_fits, canon::proofs::Rounding::alignment_tested))]
fn field_after(end: u32, field: Layout) -> Result<NextField, Refusal>
    requires { is_alignment field.align ≡ true }
    ensures { leaf field_means result ≡ field_after end (layout_means field) }
{
    let before = Extent {
        end: u64::from(end),
        align: 1,
    };
    let step = before.member(field);
    let next = step.extent.fitted()?;
    Ok(NextField {
        offset: step.start as u32,
        end: next.size,
        skipped: step.skipped,
    })
}
