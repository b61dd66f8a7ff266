// Answers a placement in one memory. Up to 2,048 offsets and gaps are staged, and copied when all is accepted. More are placed twice: the first pass
// judges and remembers each layout, the second writes. The two lent buffers are two parameters throughout, since each promise tells what is left in each.
ghost use Rattle.std.specs.Prelude.{◌≡◌, ◌++◌, ◌≤◌, length, take, drop};
ghost use Rattle.canon.specs.Answer.{ok};
ghost use Rattle.canon.specs.Layout.{starts};
ghost use Rattle.canon.specs.Question.{placement_answer, offsets_after};
ghost use Rattle.canon.specs.Cost.{placement_reads};
ghost use Rattle.canon.specs.Gaps as canon_gaps;
ghost use Rattle.canon.specs.Gaps.{Padded, room_of, gaps_after, after_answer};
ghost use Rattle.types.specs.Means.{memory_of};
ghost use Rattle.table.specs.Means.{answer, member_place};
ghost use Rattle.questions.specs.Means.{whole_means, whole_reads, after_means};
ghost use Rattle.questions.specs.Steps.{padded_refs, Answers, staged_offsets, staged_gaps, Stages, member_layout, Remembers, known, AllKnown, Ready, Places};

use crate::answer::Whole;
use crate::member::{MEMO, read_member, recall};
use crate::placed::Placed;
use crate::read::{References, Rows, refused};
use table::{MemberPosition, Refused};
use types::{Layout, Memory, Refusal};

// A member's offset, and the gap before it.
#[derive(Clone, Copy)]
struct Staged {
    offset: u32,
    gap: u32,
}

impl Staged {
    const NONE: Staged = Staged { offset: 0, gap: 0 };
}

// Answers, and puts each reference's offset into the stage, with the gap before it.
fn fill(
    rows: Rows,
    memory: Memory,
    references: References,
    stage: &mut [Staged],
) -> Result<Whole, Refused<MemberPosition>>
    requires { length references.words.now ≤ length stage.old }
    ensures answers { Answers (memory_of memory) rows.entry.table.now rows.entry.n references.entry.words.now result }
    ensures stages { (q : Padded) → padded_refs (memory_of memory) rows.entry.table.now rows.entry.n references.entry.words.now ≡ ok q → Stages (take (length references.entry.words.now) stage.new) q }
{
    let mut placed = Placed::NONE;
    let mut reads: u32 = 0;
    for (k, reference) in references.words.iter().enumerate() {
        let at = MemberPosition(k as u32);
        let member = read_member(rows, memory, *reference).map_err(|why| Refused { why, at })?;
        reads += member.reads;
        placed = placed.next(member.layout, at);
        stage[k] = Staged {
            offset: placed.offset,
            gap: placed.gap,
        };
    }
    placed.finish(reads)
}

// Puts what is staged in front of the lent buffers.
fn copy(stage: &[Staged], out: &mut [u32], gaps: &mut [u32])
    requires out { length stage.now ≤ length out.old }
    requires gaps { length stage.now ≤ length gaps.old }
    ensures out_after { out.new ≡ staged_offsets stage.now ++ drop (length stage.now) out.old }
    ensures gaps_after { gaps.new ≡ staged_gaps stage.now ++ drop (length stage.now) gaps.old }
{
    for (k, staged) in stage.iter().enumerate() {
        out[k] = staged.offset;
        gaps[k] = staged.gap;
    }
}

fn place_over(
    rows: Rows,
    memory: Memory,
    references: References,
    stage: &mut [Staged],
    out: &mut [u32],
    gaps: &mut [u32],
) -> Result<Whole, Refused<MemberPosition>>
    requires stage { length references.words.now ≤ length stage.old }
    requires out { length references.words.now ≤ length out.old }
    requires gaps { length references.words.now ≤ length gaps.old }
    ensures { Places (memory_of memory) rows.entry.table.now rows.entry.n references.entry.words.now out.old gaps.old result out.new gaps.new }
{
    let whole = fill(rows, memory, references, stage)?;
    copy(&stage[..references.words.len()], out, gaps);
    Ok(whole)
}

// Places at most `MOST` references.
fn place_staged<const MOST: usize>(
    rows: Rows,
    memory: Memory,
    references: References,
    out: &mut [u32],
    gaps: &mut [u32],
) -> Result<Whole, Refused<MemberPosition>>
    requires most { MOST ≤ 2048 }
    requires stage { length references.words.now ≤ MOST }
    requires out { length references.words.now ≤ length out.old }
    requires gaps { length references.words.now ≤ length gaps.old }
    ensures { Places (memory_of memory) rows.entry.table.now rows.entry.n references.entry.words.now out.old gaps.old result out.new gaps.new }
{
    let mut stage = [Staged::NONE; MOST];
    place_over(rows, memory, references, &mut stage, out, gaps)
}

// Answers, and leaves each reference's layout in the memo. One function for this loop and that of fill would be lent what reads a member and what
// keeps it, and promise of both what they leave behind: more than the loops say.
fn judge(
    rows: Rows,
    memory: Memory,
    references: References,
    memo: &mut [Option<Layout>; MEMO],
) -> Result<Whole, Refused<MemberPosition>>
    requires { Remembers (member_layout (memory_of memory) rows.table.now rows.n) memo.old }
    ensures answers { Answers (memory_of memory) rows.entry.table.now rows.entry.n references.entry.words.now result }
    ensures ready { (q : Padded) → padded_refs (memory_of memory) rows.entry.table.now rows.entry.n references.entry.words.now ≡ ok q → Ready memo.new references.entry.words.now q }
{
    let mut placed = Placed::NONE;
    let mut reads: u32 = 0;
    for (k, reference) in references.words.iter().enumerate() {
        let at = MemberPosition(k as u32);
        let member = recall(rows, memory, *reference, memo).map_err(|why| Refused { why, at })?;
        reads += member.reads;
        placed = placed.next(member.layout, at);
    }
    placed.finish(reads)
}

// Writes the offsets and gaps of references whose layouts the memo has.
fn write(references: References, memo: &[Option<Layout>; MEMO], out: &mut [u32], gaps: &mut [u32])
    requires out { length references.words.now ≤ length out.old }
    requires gaps { length references.words.now ≤ length gaps.old }
    requires known { AllKnown memo.now references.words.now }
    ensures out_after { out.new ≡ starts 0 (known memo.now references.entry.words.now) ++ drop (length references.entry.words.now) out.old }
    ensures gaps_after { gaps.new ≡ canon_gaps.gaps 0 (known memo.now references.entry.words.now) ++ drop (length references.entry.words.now) gaps.old }
{
    let mut placed = Placed::NONE;
    for (k, reference) in references.words.iter().enumerate() {
        let layout = memo[*reference as usize].unwrap();
        placed = placed.next(layout, MemberPosition(k as u32));
        out[k] = placed.offset;
        gaps[k] = placed.gap;
    }
}

fn place_long(
    rows: Rows,
    memory: Memory,
    references: References,
    out: &mut [u32],
    gaps: &mut [u32],
) -> Result<Whole, Refused<MemberPosition>>
    requires out { length references.words.now ≤ length out.old }
    requires gaps { length references.words.now ≤ length gaps.old }
    ensures { Places (memory_of memory) rows.entry.table.now rows.entry.n references.entry.words.now out.old gaps.old result out.new gaps.new }
{
    let mut memo = [None; MEMO];
    let whole = judge(rows, memory, references, &mut memo)?;
    write(references, &memo, out, gaps);
    Ok(whole)
}

// A short list has a small array: an array is cleared first, and the largest, of 16 KiB, takes longer than a short list. More than 2,048 references are
// placed twice, over a memo. The compiler puts all arrays into one frame.
fn place_all(
    rows: Rows,
    memory: Memory,
    references: References,
    out: &mut [u32],
    gaps: &mut [u32],
) -> Result<Whole, Refused<MemberPosition>>
    requires out { length references.words.now ≤ length out.old }
    requires gaps { length references.words.now ≤ length gaps.old }
    ensures { Places (memory_of memory) rows.entry.table.now rows.entry.n references.entry.words.now out.old gaps.old result out.new gaps.new }
{
    match references.words.len() {
        0..=24 => place_staged::<24>(rows, memory, references, out, gaps),
        25..=64 => place_staged::<64>(rows, memory, references, out, gaps),
        65..=256 => place_staged::<256>(rows, memory, references, out, gaps),
        257..=1024 => place_staged::<1024>(rows, memory, references, out, gaps),
        1025..=2048 => place_staged::<2048>(rows, memory, references, out, gaps),
        _ => place_long(rows, memory, references, out, gaps),
    }
}

// Refuses TooLong, then BadRow for the table, then NoRoom for the offsets or the gaps, then the first bad reference, then TooLarge.
pub fn placement(
    memory: Memory,
    table: &[u32],
    n: u32,
    references: &[u32],
    out: &mut [u32],
    gaps: &mut [u32],
) -> Result<Whole, Refused<MemberPosition>>
    ensures answer { answer member_place whole_means result ≡ placement_answer (memory_of memory) table.now n references.now (room_of out.old gaps.old) }
    ensures out_after { out.new ≡ offsets_after (memory_of memory) table.now n references.now (room_of out.old gaps.old) out.old }
    ensures reads { whole_reads result ≡ placement_reads (memory_of memory) table.now n references.now (room_of out.old gaps.old) }
    ensures gaps_after { gaps.new ≡ gaps_after (memory_of memory) table.now n references.now (room_of out.old gaps.old) gaps.old }
    ensures after { after_means result ≡ after_answer (memory_of memory) table.now n references.now (room_of out.old gaps.old) }
{
    let Some(references) = References::of(references) else {
        return Err(refused(Refusal::TooLong));
    };
    let Some(rows) = Rows::of(table, n) else {
        return Err(refused(Refusal::BadRow));
    };
    if out.len() < references.words.len() || gaps.len() < references.words.len() {
        return Err(refused(Refusal::NoRoom));
    }
    place_all(rows, memory, references, out, gaps)
}
