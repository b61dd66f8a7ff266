// Reads two lists, one after the other.
ghost use Rattle.std.specs.Prelude.{◌≡◌};
ghost use Rattle.types.specs.Means.{memory_of};
ghost use Rattle.table.specs.Means.{answer, member_place};
ghost use Rattle.questions.specs.Means.{two_means};
ghost use Rattle.questions.specs.Gathers.{gather_two_answer};
ghost use Rattle.questions.specs.Steps.{two_refs};

use crate::list::{Gathering, gather_all};
use crate::read::{References, Rows, refused};
use table::{MemberPosition, Refused};
use types::{Memory, Refusal};

// The positions of the second list count on from the first.
#[tactic(auto, unfolding(canon::specs::Answer::then))]
fn gather_both(
    rows: Rows,
    first_memory: Memory,
    first: References,
    second_memory: Memory,
    second: References,
) -> Result<(Gathering, Gathering), Refused<MemberPosition>>
    ensures { answer member_place two_means result ≡ two_refs rows.entry.table.now rows.entry.n (memory_of first_memory) first.entry.words.now (memory_of second_memory) second.entry.words.now }
{
    let one = gather_all(rows, first_memory, first, 0)?;
    let other = gather_all(rows, second_memory, second, first.words.len() as u32)?;
    Ok((one, other))
}

// Refuses TooLong for either list, then BadRow for the table, then the first bad reference of the first list, then of the second.
#[inline(always)]
#[tactic(auto, unfolding(canon::specs::Answer::unless, canon::specs::Question::ask_two))]
pub fn gather_two(
    table: &[u32],
    n: u32,
    first_memory: Memory,
    first: &[u32],
    second_memory: Memory,
    second: &[u32],
) -> Result<(Gathering, Gathering), Refused<MemberPosition>>
    ensures { answer member_place two_means result ≡ gather_two_answer table.now n (memory_of first_memory) first.now (memory_of second_memory) second.now }
{
    let Some(first) = References::of(first) else {
        return Err(refused(Refusal::TooLong));
    };
    let Some(second) = References::of(second) else {
        return Err(refused(Refusal::TooLong));
    };
    let Some(rows) = Rows::of(table, n) else {
        return Err(refused(Refusal::BadRow));
    };
    gather_both(rows, first_memory, first, second_memory, second)
}
