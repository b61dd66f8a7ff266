// Answers the signatures of a call's start and of its return.
ghost use Rattle.std.specs.Prelude.{◌≡◌};
ghost use Rattle.canon.specs.Signature.{at_most, start_of, behind_pointer, return_of, async_start_answer, async_return_answer};
ghost use Rattle.flat_types.specs.Lists.{flat};
ghost use Rattle.table.specs.Means.{answer, member_place};
ghost use Rattle.signature.specs.Means.{side_means, signature_means};
ghost use Rattle.signature.specs.Packs.{packed_signature, packed_answer};

use crate::lists::CleanList;
use crate::side::{MAX_FLAT_PARAMS, MAX_FLAT_RESULTS, Side};
use crate::two::asked;
use flat_types::FlatList;
use table::{MemberPosition, Refused};

#[derive(Clone, Copy)]
pub struct Signature {
    pub params: FlatList,
    pub results: FlatList,
}

#[tactic(auto, unfolding(canon::specs::Signature::start_of))]
fn start_of(lower: Side, params: CleanList, lift: Side, results: CleanList) -> Signature
    ensures { signature_means result ≡ packed_signature (start_of (side_means lower) (flat params.list) (side_means lift) (flat results.list)) }
{
    Signature {
        params: params.or_pointer(lower.memory, lower.params_max()),
        results: results.or_pointer(lift.memory, MAX_FLAT_PARAMS),
    }
}

// Refuses TooLong for either list, then BadRow for the table, then the first bad reference of lower's list, then of lift's.
#[inline(always)]
pub fn async_start_signature(
    table: &[u32],
    n: u32,
    lower: Side,
    lowered: &[u32],
    lift: Side,
    lifted: &[u32],
) -> Result<Signature, Refused<MemberPosition>>
    ensures { answer member_place signature_means result ≡ packed_answer (async_start_answer table.now n (side_means lower) lowered.now (side_means lift) lifted.now) }
{
    let made = |params, results| start_of(lower, params, lift, results);
    asked(table, n, lower.memory, lowered, lift.memory, lifted, made)
}

// Whether lower's results go behind a pointer: an async lower takes none on the stack.
#[tactic(auto, using(crate::proofs::Maxima::behind_is), unfolding(canon::specs::Signature::behind_pointer))]
fn behind_pointer(async_: bool, empty: bool, lowered: CleanList) -> bool
    ensures { result ≡ behind_pointer async_ empty (at_most 1 (flat lowered.list)) }
{
    if async_ {
        !empty
    } else {
        lowered.at_most(MAX_FLAT_RESULTS).is_none()
    }
}

// `empty` is whether lower has no references: a record of nothing is one.
#[tactic(auto, using(crate::proofs::Maxima::pointer_behind), unfolding(canon::specs::Signature::return_of, canon::specs::Signature::returned, canon::specs::Pack::pack))]
fn return_of(
    lift: Side,
    lifted: CleanList,
    lower: Side,
    lowered: CleanList,
    empty: bool,
) -> Signature
    ensures { signature_means result ≡ packed_signature (return_of (side_means lift) (flat lifted.list) (side_means lower) (flat lowered.list) empty) }
{
    let params = lifted.or_pointer(lift.memory, lift.lifting_max());
    if behind_pointer(lower.async_, empty, lowered) {
        // The source pushes lift's pointer here, not lower's.
        Signature {
            params: params.with_pointer(lift.memory),
            results: FlatList::EMPTY,
        }
    } else {
        Signature {
            params,
            results: lowered.or_nothing(),
        }
    }
}

// Refuses TooLong for either list, then BadRow for the table, then the first bad reference of lift's list, then of lower's.
#[inline(always)]
pub fn async_return_signature(
    table: &[u32],
    n: u32,
    lift: Side,
    lifted: &[u32],
    lower: Side,
    lowered: &[u32],
) -> Result<Signature, Refused<MemberPosition>>
    ensures { answer member_place signature_means result ≡ packed_answer (async_return_answer table.now n (side_means lift) lifted.now (side_means lower) lowered.now) }
{
    let empty = lowered.is_empty();
    let made = |params, results| return_of(lift, params, lower, results, empty);
    asked(table, n, lift.memory, lifted, lower.memory, lowered, made)
}
