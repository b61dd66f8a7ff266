// Gives a row of a table to a table of lent bytes.
ghost use Rattle.std.specs.Prelude.{◌≡◌};
ghost use Rattle.words.specs.Words.{whole_words, put_words};
ghost use Rattle.table.specs.Rows.{row_in, table_with};

use crate::cells::{Cells, ROW_WORDS};
use crate::info::DefinitionIndex;
use words::put_word_at;

// Where either has no room for the row, nothing is written. The two may have room for more rows the one than the other.
pub fn give_row(table: &[u32], index: DefinitionIndex, bytes: &mut [u8])
    ensures { bytes.new ≡ put_words 0 (table_with (whole_words bytes.old) index.0 (row_in table.now index.0)) bytes.old }
{
    let Some(source) = Cells::of(table.len(), index) else {
        return;
    };
    let Some(slot) = Cells::of(bytes.len() / 4, index) else {
        return;
    };
    for k in 0..ROW_WORDS {
        put_word_at(bytes, slot.place(k), table[source.place(k)]);
    }
}
