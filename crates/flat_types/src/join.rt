// Joins both memories' lists place by place, all places at once.
ghost use Rattle.std.specs.Prelude.{◌≡◌, ◌≤◌};
ghost use Rattle.flat_types.specs.Places.{join_word};

use crate::packed::used;

// Has the low bit of each of 32 places (16 in each half).
const LOW: u64 = 0x5555_5555_5555_5555;

// Has the high bit of each of them.
const HIGH: u64 = 0xAAAA_AAAA_AAAA_AAAA;

// Takes the bits of either; but in the first n places, which both lists have, the high bit goes where the two differ
// (I32 and F32 give I32, every other two types I64).
#[tactic(auto, using(crate::proofs::Copying::high_bits))]
pub(crate) fn join_words(n: u32, a: u64, b: u64) -> u64
    requires { n ≤ 16 }
    ensures { result ≡ join_word n a b }
{
    let shared = used(n, HIGH);
    let apart = a ^ b;
    let differ = apart | ((apart & LOW) * 2);
    let either = a | b;
    either ^ (either & (differ & shared))
}
