// Replays a list of recorded answers against `build` and prints how many were compared and how many differ.
//
// The list is little-endian words: the format's number, how many entries follow, and the entries. An entry is its kind, the number of words
// after these two, and those words. Compared are the kinds
//    1 description: w, the w words, n, then n rows of 16 words
//   11 refused description: the number, the index, w, then words that are repeated until there are w
// and every other kind, a question about the table before it, is passed over.
#![tactic(auto)]

ghost use Rattle.std.specs.Prelude.{◌<◌, ◌+◌, ◌≤◌, length, take, IfOk, IfSome};
ghost use Rattle.std.specs.Io.KnownBytes.{Consumes, IsAtEnd};

use build::{MAX_BYTES, MAX_WORDS, build};
use std::io;
use std::io::{Input, Print, Read};
use table::{MOST_ROWS, ROW_WORDS, TABLE_WORDS};
use words::words_of;

#[derive(Clone, Copy)]
struct Tally {
    compared: usize,
    different: usize,
}

// The list has rows one after another, the table a run for each word of a row. There are as many rows as were built, so each has its cells.
fn holds(table: &[u32], rows: &[u32]) -> bool {
    let (runs, _) = table.as_chunks::<MOST_ROWS>();
    let (rows, _) = rows.as_chunks::<ROW_WORDS>();
    rows.iter().enumerate().all(|(i, row)| {
        row.iter()
            .zip(runs)
            .all(|(word, run)| run.get(i) == Some(word))
    })
}

// Answers the description of an entry, and the rows that were made of it.
fn described(entry: &[u32]) -> Option<(&[u32], &[u32])> {
    let (count, rest) = entry.split_first()?;
    let (description, rest) = rest.split_at_checked(*count as usize)?;
    let (_, rows) = rest.split_first()?;
    Some((description, rows))
}

fn is_built(entry: &[u32]) -> bool {
    let Some((description, rows)) = described(entry) else {
        return false;
    };
    let mut table = [0u32; TABLE_WORDS];
    build(description, &mut table).is_ok_and(|built| {
        built.rows as usize * ROW_WORDS == rows.len() && holds(&table, rows)
    })
}

fn repeat(pattern: &[u32], words: &mut [u32]) {
    for (word, known) in words.iter_mut().zip(pattern.iter().cycle()) {
        *word = *known;
    }
}

fn is_refused(entry: &[u32]) -> bool {
    let Some(([number, index, count], pattern)) = entry.split_first_chunk::<3>() else {
        return false;
    };
    let mut words = [0u32; MAX_WORDS + 1];
    let Some(description) = words.get_mut(..*count as usize) else {
        return false;
    };
    repeat(pattern, description);
    let mut table = [0u32; TABLE_WORDS];
    build(description, &mut table).is_err_and(|refused| {
        refused.why.number() == *number && refused.at.0 == *index
    })
}

// Tells whether an entry is answered as it was; `None` for a kind that is passed over.
fn compare(kind: u32, entry: &[u32]) -> Option<bool> {
    match kind {
        1 => Some(is_built(entry)),
        11 => Some(is_refused(entry)),
        _ => None,
    }
}

// Answers the first entry's kind, its words and the list after it; `None` where the list ends within the entry.
fn first_entry(list: &[u32]) -> Option<(u32, &[u32], &[u32])>
    ensures { IfSome result (λ r. length r.2.now + 2 ≤ length list.now) }
{
    let ([kind, size], rest) = list.split_first_chunk::<2>()?;
    let (entry, rest) = rest.split_at_checked(*size as usize)?;
    Some((*kind, entry, rest))
}

// A list that ends within an entry, or before or after as many as it tells, ends with a difference.
fn replay(words: &[u32]) -> Tally {
    let mut tally = Tally {
        compared: 0,
        different: 0,
    };
    let mut entries: usize = 0;
    let mut list = words.get(2..).unwrap_or(&[]);
    while !list.is_empty() {
        let Some((kind, entry, rest)) = first_entry(list) else {
            tally.different += 1;
            return tally;
        };
        entries += 1;
        if let Some(same) = compare(kind, entry) {
            tally.compared += 1;
            tally.different += usize::from(!same);
        }
        list = rest;
    }
    if words.get(1).copied().unwrap_or(0) as usize != entries {
        tally.different += 1;
    }
    tally
}

// Reads until `bytes` is full or the input ends, and answers how many bytes were read. A read that fails ends it, an interrupted one too:
// what was read before is lost.
fn read_full<R: Read>(input: &mut R, bytes: &mut [u8]) -> io::Result<usize>
    ensures fits { IfOk result (λ n. n ≤ length bytes.new) }
    ensures front { IfOk result (λ n. Consumes (R.remaining input.old) (R.remaining input.new) (take n bytes.new)) }
    ensures end { IfOk result (λ n. n < length bytes.new → IsAtEnd (R.remaining input.new)) }
{
    let mut count = 0;
    while count < bytes.len() {
        match input.read(&mut bytes[count..])? {
            0 => break,
            read => count += read,
        }
    }
    Ok(count)
}

fn main(rt: HostRuntime) -> io::Result<()> {
    let mut bytes = [0u8; MAX_BYTES];
    let count = read_full(&mut rt.reader(), &mut bytes)?;
    let mut words = [0u32; MAX_WORDS];
    let whole = words_of(&bytes[..count], &mut words);
    let tally = replay(&words[..whole]);
    println!(rt; "{} compared", tally.compared)?;
    println!(rt; "{} differ", tally.different)
}
