// Answers the core signature of a function that is lifted or lowered without an adapter.
ghost use Rattle.std.specs.Prelude.{◌≡◌};
ghost use Rattle.canon.specs.Functype.{lift_results, lower_params, lower_results, functype_of, functype_answer};
ghost use Rattle.flat_types.specs.Lists.{words, flat};
ghost use Rattle.table.specs.Means.{answer, member_place};
ghost use Rattle.signature.specs.Means.{context_means, side_means, signature_means};
ghost use Rattle.signature.specs.Packs.{packed_list, packed_signature, packed_answer};

use crate::lists::CleanList;
use crate::side::{MAX_FLAT_PARAMS, MAX_FLAT_RESULTS, Side};
use crate::signatures::Signature;
use crate::two::asked;
use flat_types::FlatList;
use table::{MemberPosition, Refused};

// Which end of a call a function is compiled for. The word is the standard's.
#[derive(Clone, Copy)]
pub enum Context {
    Lift,
    Lower,
}

// What an async lower returns, and an async lift with a callback, is no pointer: it is I32 in either memory.
const STATUS: FlatList = FlatList { count: 1, types: 0 };

// An async lift hands its results to a built-in function, so their types play no part.
#[tactic(auto, unfolding(canon::specs::Pack::pack))]
fn lift_results(side: Side, callback: bool, results: CleanList) -> FlatList
    ensures { words result ≡ packed_list (lift_results (side_means side) callback (flat results.list)) }
{
    if side.async_ {
        if callback { STATUS } else { FlatList::EMPTY }
    } else {
        results.or_pointer(side.memory, MAX_FLAT_RESULTS)
    }
}

// Results that lie in memory have a pointer behind the parameters; those of an async lower lie there as soon as they have a flat type.
#[tactic(auto, using(crate::proofs::Maxima::memory_kept, crate::proofs::Maxima::pointer_behind))]
fn lower_params(side: Side, params: CleanList, results: CleanList) -> FlatList
    ensures { words result ≡ packed_list (lower_params (side_means side) (flat params.list) (flat results.list)) }
{
    let passed = params.or_pointer(side.memory, side.params_max());
    match results.at_most(side.lowering_max()) {
        Some(_) => passed,
        None => passed.with_pointer(side.memory),
    }
}

#[tactic(auto, unfolding(canon::specs::Pack::pack))]
fn lower_results(async_: bool, results: CleanList) -> FlatList
    ensures { words result ≡ packed_list (lower_results async_ (flat results.list)) }
{
    if async_ { STATUS } else { results.or_nothing() }
}

#[tactic(auto, unfolding(canon::specs::Functype::functype_of))]
fn functype_of(
    context: Context,
    side: Side,
    callback: bool,
    params: CleanList,
    results: CleanList,
) -> Signature
    ensures { signature_means result ≡ packed_signature (functype_of (context_means context) (side_means side) callback (flat params.list) (flat results.list)) }
{
    match context {
        Context::Lift => Signature {
            params: params.or_pointer(side.memory, MAX_FLAT_PARAMS),
            results: lift_results(side, callback, results),
        },
        Context::Lower => Signature {
            params: lower_params(side, params, results),
            results: lower_results(side.async_, results),
        },
    }
}

// Refuses TooLong for either list, then BadRow for the table, then the first bad reference of the parameters, then of the results.
#[inline(always)]
pub fn flatten_functype(
    context: Context,
    side: Side,
    callback: bool,
    table: &[u32],
    n: u32,
    params: &[u32],
    results: &[u32],
) -> Result<Signature, Refused<MemberPosition>>
    ensures { answer member_place signature_means result ≡ packed_answer (functype_answer table.now n (context_means context) (side_means side) callback params.now results.now) }
{
    let made = |params, results| functype_of(context, side, callback, params, results);
    asked(table, n, side.memory, params, side.memory, results, made)
}
