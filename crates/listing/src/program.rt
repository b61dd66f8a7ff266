// Says what is printed for which bytes.
ghost use Rattle.std.specs.Prelude.{◌≡◌, ◌≤◌, length};
ghost use Rattle.listing.specs.Text.{described, printed, most_bytes, shown, written};
ghost use Rattle.listing.specs.Told.{Adds, HasRoom};

use crate::lines::{ANSWER_BYTES, LINE_BYTES};
use crate::numbers::Output;
use build::{MAX_BYTES, MAX_WORDS, accepted, build};
use table::{DefinitionIndex, MOST_ROWS, TABLE_WORDS};
use types::Refusal;
use words::words_of;

// The longest text is a line for each row, then the answer's.
pub const MOST_BYTES: usize = MOST_ROWS * LINE_BYTES + ANSWER_BYTES;

// One byte more than a description may have shows that it is too long.
pub const INPUT_BYTES: usize = MAX_BYTES + 1;

#[tactic(auto, using(crate::proofs::Telling::few_rows, crate::proofs::Telling::description_told, crate::proofs::Writing::texts))]
fn describe(words: &[u32], output: &mut Output<'_>)
    requires { HasRoom output.old most_bytes }
    ensures { Adds output.old output.new (described words.now) most_bytes }
{
    let mut table = [0u32; TABLE_WORDS];
    let answer = build(words, &mut table);
    output.put_rows(&table, accepted(answer));
    output.put_answer(answer);
}

#[tactic(auto, using(crate::proofs::Telling::printed_long, crate::proofs::Telling::printed_odd))]
fn print(bytes: &[u8], output: &mut Output<'_>)
    requires { HasRoom output.old most_bytes }
    ensures { Adds output.old output.new (printed bytes.now) most_bytes }
{
    if bytes.len() > MAX_BYTES {
        output.put_refused(Refusal::TooLong, DefinitionIndex(0));
    } else if bytes.len() % 4 > 0 {
        output.put_refused(Refusal::Truncated, DefinitionIndex(0));
    } else {
        let mut words = [0u32; MAX_WORDS];
        let count = words_of(bytes, &mut words);
        describe(&words[..count], output);
    }
}

// Writes what the program prints for these bytes into the front of `out` and answers its length. Where `out` has not the room that the
// longest text may take, nothing is written.
#[tactic(auto, using(crate::proofs::Writing::texts), unfolding(crate::specs::Text::shown, crate::specs::Text::written))]
pub fn report(bytes: &[u8], out: &mut [u8]) -> usize
    ensures { (result ≡ length (shown (length out.old) bytes.now)) × (result ≤ length out.new) × (out.new ≡ written out.old 0 (shown (length out.old) bytes.now)) }
{
    if out.len() < MOST_BYTES {
        return 0;
    }
    let mut output = Output::new(out);
    print(bytes, &mut output);
    output.len()
}
