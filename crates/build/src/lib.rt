// Makes the rows of a table from a description's words, one definition after another.
#![tactic(auto)]

mod cases;
mod counted;
mod define;
mod gather;
mod members;
mod reference;
mod row;
mod simple;

ghost use Rattle.std.specs.Prelude.{◌≡◌};
ghost use Rattle.canon.specs.Description.{build_answer, table_after};
ghost use Rattle.canon.specs.Cost.{build_reads};
ghost use Rattle.build.specs.Means.{built_means, built_reads, accepted};

use crate::define::define;
use crate::reference::Earlier;
use table::{DefinitionIndex, Refused, capacity, put_row};
use types::Refusal;

// A description has at most so many words.
pub const MAX_WORDS: usize = 16384;

// Lent as bytes, it has at most so many.
pub const MAX_BYTES: usize = 4 * MAX_WORDS;

// Tells how many rows were written, and how many were read back.
#[derive(Clone, Copy)]
pub struct Built {
    pub rows: u32,
    pub reads: u32,
}

// Counts the rows that were written: a build is refused at its first bad definition.
pub fn accepted(answer: Result<Built, Refused<DefinitionIndex>>) -> u32
    ensures { result ≡ accepted (built_means answer) }
{
    match answer {
        Ok(built) => built.rows,
        Err(refused) => refused.at.0,
    }
}

// Writes a row for each definition, up to the first that is refused. Refuses TooLong for the description, then for each definition NoRoom,
// BadKind, Truncated, BadCount, BadRef, TooDeep, TooLarge.
pub fn build(words: &[u32], table: &mut [u32]) -> Result<Built, Refused<DefinitionIndex>>
    ensures { (built_means result ≡ build_answer words.now table.old) × (table.new ≡ table_after words.now table.old) × (built_reads result ≡ build_reads words.now table.old) }
{
    if MAX_WORDS < words.len() {
        return Err(Refused {
            why: Refusal::TooLong,
            at: DefinitionIndex(0),
        });
    }
    let room = capacity(table.len()) as u32;
    let mut rows: u32 = 0;
    let mut reads: u32 = 0;
    let mut at: usize = 0;
    // Where the next definition begins, only the head of this one tells.
    while at < words.len() {
        let index = DefinitionIndex(rows);
        if room <= rows {
            return Err(Refused {
                why: Refusal::NoRoom,
                at: index,
            });
        }
        let earlier = Earlier { table, index };
        let defined = define(words, at, earlier).map_err(|why| Refused { why, at: index })?;
        put_row(table, index, defined.value.row);
        reads += defined.reads;
        at = defined.value.next;
        rows += 1;
    }
    Ok(Built { rows, reads })
}
