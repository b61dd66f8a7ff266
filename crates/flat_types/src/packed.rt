// Works on packed types as a number: of one list, or of both memories' lists, one in each half of 64 bits.
ghost use Rattle.std.specs.Prelude.{◌≡◌, ◌/◌, ◌^◌, ◌≤◌, eqb};
ghost use Rattle.canon.specs.Layout.{both, within};
ghost use Rattle.canon.specs.Pack.{pack, unpack};
ghost use Rattle.flat_types.specs.Lists.{halves, whole};

// Is the value of the high half's first bit.
pub(crate) const HALF: u64 = 0x1_0000_0000;

// Has a one in each half: a product with it puts one memory's word into both.
pub(crate) const BOTH: u64 = 0x1_0000_0001;

// Keeps the first types of each half and clears the bits above them.
#[tactic(auto, using(crate::proofs::Halves::masked_both))]
pub(crate) fn used(count: u32, words: u64) -> u64
    requires { count ≤ 16 }
    ensures { result ≡ whole (both (λ m. pack (unpack count (within m (halves words))))) }
{
    let ones = (1u64 << (count * 2)) - 1;
    words & (ones * BOTH)
}

// Tells whether nothing lies above the first types of a word.
#[tactic(auto, using(crate::proofs::Masks::pow4))]
pub(crate) fn unused_zero(count: u32, word: u32) -> bool
    requires { count ≤ 16 }
    ensures { result ≡ eqb (word / 4 ^ count) 0 }
{
    u64::from(word) >> (count * 2) == 0
}
