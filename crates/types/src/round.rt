// Rounds up to an alignment and tells the bytes skipped, and takes the greater of two numbers.
ghost use Rattle.std.specs.Prelude.{◌≡◌, ◌≤◌, max};
ghost use Rattle.canon.specs.Placement.{four_gib};
ghost use Rattle.canon.specs.Row.{is_alignment};
ghost use Rattle.types.specs.Means.{leaf, rounding_of};
ghost use Rattle.types.specs.Leaves.{align_to};
ghost use Rattle.types.specs.Extents.{unit_of, rounded_up, fitted_number};

use crate::Refusal;

// No start, end or size may be above this, as 01 says of refusal 6.
pub(crate) const LARGEST: u64 = 4294967295;

// Tells what a number is rounded up to, a u32, or a u64 where it may be past the memory, and the bytes skipped on the way.
#[derive(Clone, Copy)]
pub struct Rounded<N> {
    pub value: N,
    pub skipped: u32,
}

// The alignments 1, 2, 4 and 8 are the bits of 0x116, so that nothing branches on which one it is.
#[tactic(auto, using(crate::proofs::RoundLaws::alignment_bit, crate::proofs::RoundLaws::alignment_small))]
pub(crate) fn is_alignment(a: u32) -> bool
    ensures { result ≡ is_alignment a }
{
    a <= 8 && (0x116u32 >> a) % 2 == 1
}

// The unit is the greatest of 1, 2, 4 and 8 that divides the number, an alignment's its own: the lowest bit once the bit 8 is set. One less turns that bit
// to 0, so `&` drops it and `^` leaves it alone. So no division is by zero, and nothing branches on which unit it is.
#[tactic(auto, using(crate::proofs::RoundLaws::or_eight, crate::proofs::RoundLaws::lowest_bit))]
fn unit_of(a: u32) -> u64
    ensures { result ≡ unit_of a }
{
    let bits = u64::from(a) | 8;
    bits ^ (bits & (bits - 1))
}

// A number is whole units and a rest. What the rest lacks to a whole unit is skipped.
#[tactic(auto, using(crate::proofs::RoundLaws::rounding), unfolding(crate::specs::Extents::rounded))]
pub(crate) fn round_up(a: u64, b: u32) -> Rounded<u64>
    requires { a ≤ four_gib }
    ensures { result ≡ rounded_up a b }
{
    let unit = unit_of(b);
    let quotient = a / unit;
    let rest = a % unit;
    let skipped = if rest == 0 { 0 } else { unit - rest };
    Rounded {
        value: quotient * unit + (rest + skipped),
        skipped: skipped as u32,
    }
}

// Refuses TooLarge for what no start, end or size may be.
pub(crate) fn fitting(n: u64) -> Result<u32, Refusal>
    ensures { leaf (λ m. m) result ≡ fitted_number n }
{
    u32::try_from(n).map_err(|_| Refusal::TooLarge)
}

// Refuses BadRow for what is no alignment, then TooLarge for the rounded number.
#[tactic(auto, using(crate::proofs::RoundLaws::aligned), unfolding(crate::specs::Leaves::align_to, crate::specs::Leaves::given, crate::specs::Leaves::fitting))]
pub fn align_to(a: u32, b: u32) -> Result<Rounded<u32>, Refusal>
    ensures { leaf rounding_of result ≡ align_to a b }
{
    if !is_alignment(b) {
        return Err(Refusal::BadRow);
    }
    let up = round_up(u64::from(a), b);
    Ok(Rounded {
        value: fitting(up.value)?,
        skipped: up.skipped,
    })
}

pub fn max(a: u32, b: u32) -> u32
    ensures { result ≡ max a b }
{
    a.max(b)
}
