// Answers the questions on one list.
ghost use Rattle.std.specs.Prelude.{◌≡◌};
ghost use Rattle.canon.specs.Question.{borrow_answer};
ghost use Rattle.canon.specs.Signature.{flatten_answer, lowering_answer, lifting_answer};
ghost use Rattle.types.specs.Means.{number_of, memory_of};
ghost use Rattle.table.specs.Means.{answer, member_place};
ghost use Rattle.signature.specs.Means.{side_means, flattened_means};
ghost use Rattle.signature.specs.Packs.{packed_flattened, bad_maximum};

use crate::lists::CleanList;
use crate::side::Side;
use flat_types::FlatList;
use questions::{gather, no_table, too_many};
use table::{MemberPosition, Refused};
use types::{MAX_FLAT_TYPES, Memory, Refusal};

// Why a question with a bad maximum is refused: by the tests before the maximum's, or by its own.
#[tactic(auto, unfolding(crate::specs::Packs::bad_maximum))]
fn bad_maximum(table: &[u32], n: u32, references: &[u32]) -> Refusal
    ensures { number_of result ≡ bad_maximum table.now n references.now }
{
    if too_many(references) {
        Refusal::TooLong
    } else if no_table(table, n) {
        Refusal::BadRow
    } else {
        Refusal::BadCount
    }
}

// Answers the list, or `None` where it lies in memory. Refuses TooLong, then BadRow for the table, then BadCount for the maximum, then the first
// bad reference.
#[inline(always)]
#[tactic(auto, using(crate::proofs::Asking::flatten_refused, crate::proofs::Asking::maximum_bad))]
pub fn flatten_types(
    memory: Memory,
    max: u32,
    table: &[u32],
    n: u32,
    references: &[u32],
) -> Result<Option<FlatList>, Refused<MemberPosition>>
    ensures { answer member_place flattened_means result ≡ packed_flattened (flatten_answer (memory_of memory) max table.now n references.now) }
{
    if max > MAX_FLAT_TYPES {
        return Err(Refused {
            why: bad_maximum(table, n, references),
            at: MemberPosition(0),
        });
    }
    let all = gather(memory, table, n, references)?;
    Ok(CleanList { list: all.flat }.at_most(max))
}

// Refuses TooLong, then BadRow for the table, then the first bad reference; its maximum is good.
pub fn flatten_lowering_types(
    side: Side,
    table: &[u32],
    n: u32,
    references: &[u32],
) -> Result<Option<FlatList>, Refused<MemberPosition>>
    ensures { answer member_place flattened_means result ≡ packed_flattened (lowering_answer (side_means side) table.now n references.now) }
{
    flatten_types(side.memory, side.lowering_max(), table, n, references)
}

// Refuses TooLong, then BadRow for the table, then the first bad reference; its maximum is good.
pub fn flatten_lifting_types(
    side: Side,
    table: &[u32],
    n: u32,
    references: &[u32],
) -> Result<Option<FlatList>, Refused<MemberPosition>>
    ensures { answer member_place flattened_means result ≡ packed_flattened (lifting_answer (side_means side) table.now n references.now) }
{
    flatten_types(side.memory, side.lifting_max(), table, n, references)
}

// Refuses TooLong, then BadRow for the table, then the first bad reference.
#[tactic(auto, using(crate::proofs::Asking::borrow_refused, crate::proofs::Asking::borrow_given))]
pub fn contains_borrow_resource(
    table: &[u32],
    n: u32,
    references: &[u32],
) -> Result<bool, Refused<MemberPosition>>
    ensures { answer member_place (λ b. b) result ≡ borrow_answer table.now n references.now }
{
    // A Borrow is reached in both memories alike, so either will do.
    let all = gather(Memory::Memory32, table, n, references)?;
    Ok(all.borrow)
}
