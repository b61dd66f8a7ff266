// These calls put the leaves over numbers. A refusal is its number alone, as 01 says of leaf calls.
ghost use Rattle.std.specs.Prelude.{◌≡◌, max};
ghost use Rattle.canon.specs.Flat.{add_flat, max_flat};
ghost use Rattle.canon.specs.Row.{count_word};
ghost use Rattle.types.specs.Leaves.{align_to, next_field, discriminant_answer, flags_answer, enum_answer, fixed_answer};
ghost use Rattle.types.specs.Means.{leaf, abi_means, field_means};
ghost use Rattle.host.specs.Numbers.{memory_at, flat_at, abi_at, leaf_number, itself, chosen, abi_words, rounding_number, field_words};

use crate::given::{flat_at, info_of, memory_at};
use crate::packing::{discriminant_number, field_number, flat_number, info_number, rounded_number};
use types::{CanonicalAbiInfo, DiscriminantSize, Memory, NextField, Refusal};

// Refuses BadRow for what is no alignment, then TooLarge for the rounded number.
#[unsafe(no_mangle)]
pub extern "C" fn lampughjata_align_to(a: u32, b: u32) -> u64
    ensures { result ≡ leaf_number rounding_number (align_to a b) }
{
    rounded_number(types::align_to(a, b))
}

// Refuses nothing.
#[unsafe(no_mangle)]
pub extern "C" fn lampughjata_max(a: u32, b: u32) -> u64
    ensures { result ≡ max a b }
{
    u64::from(types::max(a, b))
}

// Refuses nothing.
#[unsafe(no_mangle)]
pub extern "C" fn lampughjata_add_flat(a: u32, b: u32) -> u64
    ensures { result ≡ count_word (add_flat (flat_at a) (flat_at b)) }
{
    u64::from(flat_number(types::add_flat(flat_at(a), flat_at(b))))
}

// Refuses nothing.
#[unsafe(no_mangle)]
pub extern "C" fn lampughjata_max_flat(a: u32, b: u32) -> u64
    ensures { result ≡ count_word (max_flat (flat_at a) (flat_at b)) }
{
    u64::from(flat_number(types::max_flat(flat_at(a), flat_at(b))))
}

fn next_field(memory: u32, info: CanonicalAbiInfo, end: u32) -> Result<NextField, Refusal>
    ensures { leaf field_means result ≡ next_field (memory_at memory) (abi_means info) end }
{
    match memory_at(memory) {
        Memory::Memory32 => info.next_field32(end),
        Memory::Memory64 => info.next_field64(end),
    }
}

// Refuses BadRow for a bad info, then TooLarge for a start or an end in that memory.
#[unsafe(no_mangle)]
pub extern "C" fn lampughjata_next_field(
    memory: u32,
    size32: u32,
    align32: u32,
    size64: u32,
    align64: u32,
    flat: u32,
    end: u32,
    k: u32,
) -> u64
    ensures { result ≡ leaf_number (λ f. chosen k (field_words f)) (next_field (memory_at memory) (abi_at size32 align32 size64 align64 flat) end) }
{
    let info = info_of(size32, align32, size64, align64, flat);
    field_number(next_field(memory, info, end), k)
}

// Refuses BadCount above 512 labels.
#[unsafe(no_mangle)]
pub extern "C" fn lampughjata_flags(count: u32, k: u32) -> u64
    ensures { result ≡ leaf_number (λ a. chosen k (abi_words a)) (flags_answer count) }
{
    info_number(CanonicalAbiInfo::flags(count), k)
}

// Refuses BadCount for no case.
#[unsafe(no_mangle)]
pub extern "C" fn lampughjata_enum(count: u32, k: u32) -> u64
    ensures { result ≡ leaf_number (λ a. chosen k (abi_words a)) (enum_answer count) }
{
    info_number(CanonicalAbiInfo::enum_(count), k)
}

// Refuses BadRow for a bad info, then TooLarge for the size in either memory.
#[unsafe(no_mangle)]
pub extern "C" fn lampughjata_fixed_length_list(
    size32: u32,
    align32: u32,
    size64: u32,
    align64: u32,
    flat: u32,
    count: u32,
    k: u32,
) -> u64
    ensures { result ≡ leaf_number (λ a. chosen k (abi_words a)) (fixed_answer (abi_at size32 align32 size64 align64 flat) count) }
{
    let info = info_of(size32, align32, size64, align64, flat);
    info_number(info.fixed_length_list(count), k)
}

// Refuses BadCount for no case.
#[unsafe(no_mangle)]
pub extern "C" fn lampughjata_discriminant(count: u32) -> u64
    ensures { result ≡ leaf_number itself (discriminant_answer count) }
{
    discriminant_number(DiscriminantSize::from_count(count))
}
