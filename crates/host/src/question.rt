// A question on lists is a value, so that what is lent as bytes is decoded in one place: with a closure for a question, its arrays of 192 KiB and all that
// fills them would be compiled once for each call.
ghost use Rattle.std.specs.Prelude.{◌≡◌, ◌/◌, ◌≤◌, length};
ghost use Rattle.words.specs.Words.{whole_words};
ghost use Rattle.host.specs.Questions.{question_number};

use crate::lent::decoded;
use crate::packing::{refused, signature_number};
use crate::pick::{LentRows, PICKED_WORDS, SHORT_LIST, SLOTS, TABLE_BYTES};
use crate::signatures::{
    lampughjata_contains_borrow, lampughjata_flatten, lampughjata_lifting, lampughjata_lowering,
};
use questions::MOST_REFERENCES;
use signature::{SignatureQuestion, signature_of};
use table::TABLE_WORDS;
use types::Refusal;

// The slots of the second list come after those of the first.
const BOTH_SLOTS: u32 = 2 * SLOTS;

// Each has what the call of its name takes beside the table and the lists; a signature has its question and k.
#[derive(Clone, Copy)]
pub(crate) enum Question {
    Flatten(u32, u32),
    Lowering(u32, u32),
    Lifting(u32, u32),
    Signature(SignatureQuestion, u32),
    ContainsBorrow,
}

// A question on one list leaves the other unread.
#[tactic(auto, using(crate::proofs::Short::question_short))]
fn ask(question: Question, table: &[u32], rows: u32, first: &[u32], second: &[u32]) -> u64
    ensures { result ≡ question_number question table.now rows first.now second.now }
{
    match question {
        Question::Flatten(memory, max) => lampughjata_flatten(memory, max, table, rows, first),
        Question::Lowering(memory, async_) => lampughjata_lowering(
            memory, async_, table, rows, first,
        ),
        Question::Lifting(memory, async_) => lampughjata_lifting(
            memory, async_, table, rows, first,
        ),
        Question::Signature(asked, k) => {
            signature_number(signature_of(asked, table, rows, first, second), k)
        }
        Question::ContainsBorrow => lampughjata_contains_borrow(table, rows, first),
    }
}

// No question reads beyond the word 16,384 of a table; a list of 16,385 references is too long already.
fn ask_long(question: Question, table: &[u8], rows: u32, first: &[u8], second: &[u8]) -> u64
    ensures { result ≡ question_number question (whole_words table.now) rows (whole_words first.now) (whole_words second.now) }
{
    let mut ts = [0u32; TABLE_WORDS];
    let mut vs = [0u32; MOST_REFERENCES + 1];
    let mut ws = [0u32; MOST_REFERENCES + 1];
    ask(
        question,
        decoded(table, &mut ts),
        rows,
        decoded(first, &mut vs),
        decoded(second, &mut ws),
    )
}

fn ask_short(question: Question, table: &[u8], rows: u32, first: &[u8], second: &[u8]) -> u64
    requires { (length first.now / 4 ≤ 16) × (length second.now / 4 ≤ 16) }
    ensures { result ≡ question_number question (whole_words table.now) rows (whole_words first.now) (whole_words second.now) }
{
    let Some(lent) = LentRows::of(table, rows) else {
        return refused(Refusal::BadRow, 0);
    };
    let mut picked = [0u32; 2 * PICKED_WORDS];
    let mut vs = [0u32; SHORT_LIST];
    let mut ws = [0u32; SHORT_LIST];
    let firsts = lent.pick_rows(first, &mut picked, 0, &mut vs);
    let seconds = lent.pick_rows(second, &mut picked, SLOTS, &mut ws);
    ask(question, &picked, BOTH_SLOTS, firsts, seconds)
}

// A longer table answers as its first 65,536 bytes do. It is cut by a call of itself, since the compiler takes no large frame into a function that
// calls itself: a short list does not pay for the long one's arrays.
pub(crate) fn ask_bytes(
    question: Question,
    table: &[u8],
    rows: u32,
    first: &[u8],
    second: &[u8],
) -> u64
    ensures { result ≡ question_number question (whole_words table.now) rows (whole_words first.now) (whole_words second.now) }
{
    if table.len() > TABLE_BYTES {
        return ask_bytes(question, &table[..TABLE_BYTES], rows, first, second);
    }
    if first.len() / 4 > SHORT_LIST || second.len() / 4 > SHORT_LIST {
        return ask_long(question, table, rows, first, second);
    }
    ask_short(question, table, rows, first, second)
}
