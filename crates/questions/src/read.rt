// What is tested before any reference is read, and what has passed: the references, which are not too many, and the rows, which are there.
ghost use Rattle.std.specs.Prelude.{◌≡◌, true, false, MatchOption, ◌-◌, ◌<◌, ◌≤◌, length, IfOk};
ghost use Rattle.canon.specs.Answer.{and_then};
ghost use Rattle.canon.specs.Row.{row_info};
ghost use Rattle.canon.specs.Question.{read, read_row, too_many, no_table};
ghost use Rattle.types.specs.Means.{leaf};
ghost use Rattle.table.specs.Rows.{row_in};

use table::{DefinitionIndex, FIRST_DEFINITION, MemberPosition, Refused, capacity, is_good_row};
use types::Refusal;

// A list of references has at most so many.
pub const MOST_REFERENCES: usize = 16384;

pub fn too_many(references: &[u32]) -> bool
    ensures { result ≡ too_many references.now }
{
    references.len() > MOST_REFERENCES
}

// Whether a table of so many rows is not there.
#[tactic(auto, unfolding(canon::specs::Question::no_table))]
pub fn no_table(table: &[u32], n: u32) -> bool
    ensures { result ≡ no_table table.now n }
{
    capacity(table.len()) < n as usize
}

// Refuses with no reference at fault: the position is 0.
pub(crate) fn refused(why: Refusal) -> Refused<MemberPosition>
    ensures { result ≡ record { why = why; at = record { 0 = 0 } } }
{
    Refused {
        why,
        at: MemberPosition(0),
    }
}

#[derive(Clone, Copy)]
pub(crate) struct References<'a> {
    pub(crate) words: &'a [u32],
    ghost few: { length words.now ≤ 16384 },
}

impl<'a> References<'a> {
    // Answers none for too many. As a Result beside a position it would go through the stack, and the processor would wait for it.
    pub(crate) fn of(words: &'a [u32]) -> Option<References<'a>>
        ensures { MatchOption result (too_many words.now ≡ true) (λ references. (too_many words.now ≡ false) × (references.words.now ≡ words.now)) }
    {
        if too_many(words) {
            return None;
        }
        Some(References { words })
    }
}

// A table, and how many of its rows count.
#[derive(Clone, Copy)]
pub(crate) struct Rows<'a> {
    pub(crate) table: &'a [u32],
    pub(crate) n: u32,
    ghost there: { no_table table.now n ≡ false },
}

impl<'a> Rows<'a> {
    // Answers none where the table is not there.
    pub(crate) fn of(table: &'a [u32], n: u32) -> Option<Rows<'a>>
        ensures { MatchOption result (no_table table.now n ≡ true) (λ rows. (no_table table.now n ≡ false) × (rows.table.now ≡ table.now) × (rows.n ≡ n)) }
    {
        if no_table(table, n) {
            return None;
        }
        Some(Rows { table, n })
    }

    // Finds the row that a reference names, and leaves its form to be tested. Refuses BadRef.
    #[tactic(auto, using(crate::proofs::References::read_named, crate::proofs::References::read_past), unfolding(canon::specs::Answer::and_then))]
    pub(crate) fn row_named(self, reference: u32) -> Result<DefinitionIndex, Refusal>
        requires { 64 ≤ reference }
        ensures row { and_then (leaf (λ index. row_in self.entry.table.now index.0) result) read_row ≡ read self.entry.table.now self.entry.n reference }
        ensures earlier { IfOk result (λ index. reference - 64 < self.entry.n) }
    {
        let index = DefinitionIndex(reference - FIRST_DEFINITION);
        if index.0 < self.n {
            Ok(index)
        } else {
            Err(Refusal::BadRef)
        }
    }

    // Finds the row that a reference names. Refuses BadRef, then BadRow. It is compiled into both of its callers, the loop of the lists and the type
    // question; is_good_row, which both then call, is not (docs/BENCHMARKS.md).
    #[tactic(auto, unfolding(canon::specs::Answer::and_then, canon::specs::Question::read_row))]
    #[inline(always)]
    pub(crate) fn good_row(self, reference: u32) -> Result<DefinitionIndex, Refusal>
        requires { 64 ≤ reference }
        ensures { leaf (λ index. row_info (row_in self.entry.table.now index.0)) result ≡ read self.entry.table.now self.entry.n reference }
    {
        let index = self.row_named(reference)?;
        if is_good_row(self.table, index) {
            Ok(index)
        } else {
            Err(Refusal::BadRow)
        }
    }
}
