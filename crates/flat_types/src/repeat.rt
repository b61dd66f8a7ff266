// Copies both memories' lists by one multiplication.
ghost use Rattle.std.specs.Prelude.{◌≡◌, ◌*◌, ◌/◌, ◌^◌, ◌≤◌};
ghost use Rattle.canon.specs.Flat.{copies};
ghost use Rattle.canon.specs.Layout.{both, within};
ghost use Rattle.canon.specs.Pack.{pack, unpack};
ghost use Rattle.flat_types.specs.Lists.{halves, whole};
ghost use Rattle.flat_types.specs.Places.{ones};

use crate::packed::used;

// Has a one at the first place of each copy, for as many copies as 16 types hold: every 2nd bit, every 4th, every 6th ..
#[tactic(auto, using(crate::proofs::Copying::one_copy))]
fn every(count: u32) -> u64
    requires { count ≤ 16 }
    ensures { result ≡ ones (16 / count) (4 ^ count) }
{
    match count {
        0 => 0,
        1 => 0x5555_5555,
        2 => 0x1111_1111,
        3 => 0x0104_1041,
        4 => 0x0101_0101,
        5 => 0x0010_0401,
        6 => 0x1001,
        7 => 0x4001,
        8 => 0x1_0001,
        _ => 1,
    }
}

// Keeps the first n copies of as many as 16 types hold.
#[tactic(auto, using(crate::proofs::Copying::repeated_fits, crate::proofs::Copying::repeated_both))]
pub(crate) fn repeat_words(m: u32, words: u64, n: u32) -> u64
    requires { (m ≤ 16) × (m * n ≤ 16) }
    ensures { result ≡ whole (both (λ i. pack (copies n (unpack m (within i (halves words)))))) }
{
    let all = used(m, words) * every(m);
    used(m * n, all)
}
