// What the references of a list give together: the flat list in one memory, and whether they reach a Borrow.
ghost use Rattle.std.specs.Prelude.{◌≡◌, ◌≤◌};
ghost use Rattle.canon.specs.Answer.{ok, then};
ghost use Rattle.canon.specs.Question.{read, infos};
ghost use Rattle.types.specs.Means.{memory_of, leaf};
ghost use Rattle.table.specs.Means.{answer, member_place};
ghost use Rattle.questions.specs.Means.{gathering_means};
ghost use Rattle.questions.specs.Gathers.{together, gather_answer};
ghost use Rattle.questions.specs.Steps.{part, alone, with_more};

use crate::read::{References, Rows, refused};
use flat_types::FlatList;
use table::{FIRST_DEFINITION, MemberPosition, Refused, plain_info, row_flat, row_reach};
use types::{Memory, Refusal};

#[derive(Clone, Copy)]
pub struct Gathering {
    pub flat: FlatList,
    pub borrow: bool,
}

impl Gathering {
    const NOTHING: Gathering = Gathering {
        flat: FlatList::EMPTY,
        borrow: false,
    };

    // Adds what one more reference gives.
    fn with(self, next: Gathering) -> Gathering
        ensures { gathering_means result ≡ with_more (gathering_means self) (gathering_means next) }
    {
        Gathering {
            flat: self.flat.append(next.flat),
            borrow: self.borrow || next.borrow,
        }
    }
}

#[tactic(auto, using(crate::proofs::References::read_plain, crate::proofs::WellFormed::read_alone), unfolding(canon::specs::Answer::and_then))]
fn read_next(rows: Rows, memory: Memory, reference: u32) -> Result<Gathering, Refusal>
    ensures { leaf gathering_means result ≡ part (alone (memory_of memory)) (read rows.entry.table.now rows.entry.n reference) }
{
    if reference < FIRST_DEFINITION {
        let info = plain_info(reference)?;
        return Ok(Gathering {
            flat: info.flat.in_memory(memory),
            borrow: info.reach.is_borrow(),
        });
    }
    let index = rows.good_row(reference)?;
    Ok(Gathering {
        flat: row_flat(rows.table, index, memory),
        borrow: row_reach(rows.table, index).is_borrow(),
    })
}

// Reads each reference in order; the first is at the position `first`. It is compiled into its callers: what it answers would else go through the
// stack, and the processor waits for it.
#[inline(always)]
pub(crate) fn gather_all(
    rows: Rows,
    memory: Memory,
    references: References,
    first: u32,
) -> Result<Gathering, Refused<MemberPosition>>
    requires { first ≤ 16384 }
    ensures { answer member_place gathering_means result ≡ then (infos (read rows.entry.table.now rows.entry.n) first references.entry.words.now) (λ is'. ok (together (memory_of memory) is')) }
{
    let mut all = Gathering::NOTHING;
    for (k, reference) in references.words.iter().enumerate() {
        let at = MemberPosition(first + k as u32);
        let next = read_next(rows, memory, *reference).map_err(|why| Refused { why, at })?;
        all = all.with(next);
    }
    Ok(all)
}

// Makes the one pass over a list. Refuses TooLong, then BadRow for the table, then the first bad reference; positions count from 0.
#[inline(always)]
#[tactic(auto, unfolding(canon::specs::Answer::unless, crate::specs::Gathers::gather_answer))]
pub fn gather(
    memory: Memory,
    table: &[u32],
    n: u32,
    references: &[u32],
) -> Result<Gathering, Refused<MemberPosition>>
    ensures { answer member_place gathering_means result ≡ gather_answer (memory_of memory) table.now n references.now }
{
    let Some(references) = References::of(references) else {
        return Err(refused(Refusal::TooLong));
    };
    let Some(rows) = Rows::of(table, n) else {
        return Err(refused(Refusal::BadRow));
    };
    gather_all(rows, memory, references, 0)
}
