// Reads the layout of one reference in one memory, off the table or out of a memo of what was read before.
ghost use Rattle.std.specs.Prelude.{◌≡◌, cond, [], ◌∷◌, leb, IfOk};
ghost use Rattle.canon.specs.Cost.{rows_among};
ghost use Rattle.canon.specs.Question.{size_align_answer};
ghost use Rattle.types.specs.Means.{memory_of, layout_means, leaf};
ghost use Rattle.table.specs.Means.{answer, member_place};
ghost use Rattle.questions.specs.Means.{member_means};
ghost use Rattle.questions.specs.Steps.{member_layout, Remembers, Recalled};

use crate::read::{Rows, refused};
use table::{
    FIRST_DEFINITION, MOST_ROWS, MemberPosition, Refused, good_first_words, good_later_words,
    plain_info, row_layout,
};
use types::{Layout, Memory, Refusal};

// Holds the layout, and how many rows were read back for it.
#[derive(Clone, Copy)]
pub(crate) struct Member {
    pub(crate) layout: Layout,
    pub(crate) reads: u32,
}

// Tests a row in two halves: each is short enough for the compiler to put it into the loop of a placement, where the columns are then found once
// (docs/BENCHMARKS.md).
#[tactic(auto, using(crate::proofs::References::read_plain, crate::proofs::References::row_halves, crate::proofs::References::layout_within, canon::proofs::Costs::plain_unread, canon::proofs::Costs::earlier_read, canon::proofs::Cells::rows_most), unfolding(canon::specs::Answer::and_then))]
#[inline(always)]
pub(crate) fn read_member(rows: Rows, memory: Memory, reference: u32) -> Result<Member, Refusal>
    ensures result_value { leaf member_means result ≡ member_layout (memory_of memory) rows.entry.table.now rows.entry.n reference }
    ensures member_reads { IfOk result (λ member. member.reads ≡ rows_among (reference ∷ [])) }
{
    if reference < FIRST_DEFINITION {
        let info = plain_info(reference)?;
        return Ok(Member {
            layout: info.layouts.in_memory(memory),
            reads: 0,
        });
    }
    let index = rows.row_named(reference)?;
    if good_first_words(rows.table, index) && good_later_words(rows.table, index) {
        Ok(Member {
            layout: row_layout(rows.table, index, memory),
            reads: 1,
        })
    } else {
        Err(Refusal::BadRow)
    }
}

// Answers size and alignment in one memory. Refuses BadRow for the table, then BadRef for the reference, then BadRow for its row.
#[tactic(auto, unfolding(canon::specs::Answer::unless, canon::specs::Answer::at_position, canon::specs::Answer::then, canon::specs::Answer::and_then, canon::specs::Question::type_answer, canon::specs::Question::size_align_answer))]
pub fn size_align(
    memory: Memory,
    table: &[u32],
    n: u32,
    reference: u32,
) -> Result<Layout, Refused<MemberPosition>>
    ensures { answer member_place layout_means result ≡ size_align_answer (memory_of memory) table.now n reference }
{
    let Some(rows) = Rows::of(table, n) else {
        return Err(refused(Refusal::BadRow));
    };
    let member = read_member(rows, memory, reference).map_err(refused)?;
    Ok(member.layout)
}

// A memo has a place for each reference up to the last row that a table can have: the layout that was read there, if it was.
pub(crate) const MEMO: usize = FIRST_DEFINITION as usize + MOST_ROWS;

// Counts the row of a reference that was looked up, in the table or in the memo.
fn reads_of(reference: u32) -> u32
    ensures { result ≡ cond (leb 64 reference) 1 0 }
{
    if reference < FIRST_DEFINITION { 0 } else { 1 }
}

// Answers what the memo has; else reads the reference, and remembers it.
pub(crate) fn recall(
    rows: Rows,
    memory: Memory,
    reference: u32,
    memo: &mut [Option<Layout>; MEMO],
) -> Result<Member, Refusal>
    requires { Remembers (member_layout (memory_of memory) rows.table.now rows.n) memo.old }
    ensures result_value { leaf member_means result ≡ member_layout (memory_of memory) rows.entry.table.now rows.entry.n reference }
    ensures member_reads { IfOk result (λ member. member.reads ≡ rows_among (reference ∷ [])) }
    ensures recalled { Recalled (member_layout (memory_of memory) rows.entry.table.now rows.entry.n) reference memo.old memo.new }
{
    let at = reference as usize;
    if let Some(Some(layout)) = memo.get(at).copied() {
        return Ok(Member {
            layout,
            reads: reads_of(reference),
        });
    }
    let member = read_member(rows, memory, reference)?;
    memo[at] = Some(member.layout);
    Ok(member)
}
