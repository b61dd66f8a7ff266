// Copies the rows of lent bytes that references name to a table of their own: a short list costs what it names.
ghost use Rattle.std.specs.Prelude.{◌≡◌, true, false, ◌+◌, ◌/◌, ◌≤◌, ◌<◌, length, MatchOption};
ghost use Rattle.canon.specs.Table.{capacity};
ghost use Rattle.canon.specs.Question.{read, no_table};
ghost use Rattle.words.specs.Words.{whole_words};
ghost use Rattle.host.specs.Picked.{read_picked, Keeps, Names};

use table::{DefinitionIndex, FIRST_DEFINITION, ROW_WORDS, TABLE_WORDS, capacity, take_row};
use words::word_at;

// No call reads more bytes of a table, so that a longer one is cut.
pub(crate) const TABLE_BYTES: usize = 4 * TABLE_WORDS;

// The most references of a list whose rows are picked, each to a slot of its own.
pub(crate) const SHORT_LIST: usize = 16;

pub(crate) const SLOTS: u32 = SHORT_LIST as u32;

// The picked rows of one list take so many.
pub(crate) const PICKED_WORDS: usize = SHORT_LIST * ROW_WORDS;

// Names no type: 01 has plain references up to 17, and definitions from 64 on.
const BAD_REFERENCE: u32 = 63;

// A lent table with the rows that it is said to have.
#[derive(Clone, Copy)]
pub(crate) struct LentRows<'a> {
    table: &'a [u8],
    rows: u32,
    ghost there: { no_table (whole_words table.now) rows ≡ false },
}

impl<'a> LentRows<'a> {
    // Answers none where the table has no room for so many rows.
    #[tactic(auto, using(words::proofs::Laws::length_whole), unfolding(canon::specs::Question::no_table))]
    pub(crate) fn of(table: &'a [u8], rows: u32) -> Option<LentRows<'a>>
        ensures { MatchOption result (no_table (whole_words table.now) rows ≡ true) (λ lent. (lent.table.now ≡ table.now) × (lent.rows ≡ rows)) }
    {
        if capacity(table.len() / 4) < rows as usize {
            return None;
        }
        Some(LentRows { table, rows })
    }

    // Copies the row that a reference names, if it names one, to a slot, and answers the reference's new name.
    pub(crate) fn pick_row(self, reference: u32, picked: &mut [u32], slot: u32) -> u32
        requires { slot < capacity (length picked.old) }
        ensures upper_bound { (result < 64 + (slot + 1)) × (read_picked picked.new result ≡ read (whole_words self.entry.table.now) self.entry.rows reference) }
        ensures keeps { Keeps slot picked.old picked.new }
    {
        if reference < FIRST_DEFINITION {
            return reference;
        }
        let index = DefinitionIndex(reference - FIRST_DEFINITION);
        if index.0 < self.rows {
            take_row(self.table, index, picked, DefinitionIndex(slot));
            return FIRST_DEFINITION + slot;
        }
        BAD_REFERENCE
    }

    // Copies the rows of a list to the slots from `slot` on, one for each reference, and answers their new names, which it puts into the front of
    // `names`.
    pub(crate) fn pick_rows<'b>(
        self,
        list: &[u8],
        picked: &mut [u32],
        slot: u32,
        names: &'b mut [u32],
    ) -> &'b [u32]
        requires { (slot + length list.now / 4 ≤ capacity (length picked.old)) × (length list.now / 4 ≤ length names.old) }
        ensures names { Names (slot + length list.now / 4) picked.new result.now (whole_words self.entry.table.now) self.entry.rows (whole_words list.now) }
        ensures keeps { Keeps slot picked.old picked.new }
    {
        let count = list.len() / 4;
        for (k, name) in names[..count].iter_mut().enumerate() {
            *name = self.pick_row(word_at(list, k), picked, slot + k as u32);
        }
        &names[..count]
    }
}
