// Says what the numbers that a host passes stand for (docs/HOST.md).
ghost use Rattle.std.specs.Prelude.{◌≡◌};
ghost use Rattle.types.specs.Means.{memory_of, count_means, abi_means};
ghost use Rattle.signature.specs.Means.{context_means, side_means};
ghost use Rattle.host.specs.Numbers.{memory_at, side_at, context_at, flat_at, info_flat_at, abi_at};

use signature::{Context, Side};
use types::{CanonicalAbiInfo, MAX_FLAT_TYPES, Memory, NO_FLAT_COUNT};

// A memory is 0 for 32-bit, any other number for 64-bit.
pub(crate) fn memory_at(memory: u32) -> Memory
    ensures { memory_of result ≡ memory_at memory }
{
    if memory == 0 {
        Memory::Memory32
    } else {
        Memory::Memory64
    }
}

// Async is 0 for sync, any other number for async.
pub(crate) fn side_at(memory: u32, async_: u32) -> Side
    ensures { side_means result ≡ side_at memory async_ }
{
    Side {
        memory: memory_at(memory),
        async_: async_ != 0,
    }
}

// Lower is 0 for a lift, any other number for a lower.
pub(crate) fn context_at(lower: u32) -> Context
    ensures { context_means result ≡ context_at lower }
{
    if lower == 0 {
        Context::Lift
    } else {
        Context::Lower
    }
}

// None is 255, as in word 5 of a row, and every number above.
pub(crate) fn flat_at(flat: u32) -> Option<u8>
    ensures { count_means result ≡ flat_at flat }
{
    if flat < NO_FLAT_COUNT {
        Some(flat as u8)
    } else {
        None
    }
}

// Of the counts above 01's most, the next one stands for all: such an info is bad, whichever it is.
const BAD_COUNT: u32 = MAX_FLAT_TYPES + 1;

fn info_flat_at(flat: u32) -> Option<u8>
    ensures { count_means result ≡ info_flat_at flat }
{
    if flat == NO_FLAT_COUNT {
        None
    } else {
        Some(flat.min(BAD_COUNT) as u8)
    }
}

pub(crate) fn info_of(
    size32: u32,
    align32: u32,
    size64: u32,
    align64: u32,
    flat: u32,
) -> CanonicalAbiInfo
    ensures { abi_means result ≡ abi_at size32 align32 size64 align64 flat }
{
    CanonicalAbiInfo {
        size32,
        align32,
        size64,
        align64,
        flat_count: info_flat_at(flat),
    }
}
