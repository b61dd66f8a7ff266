// Takes a row of a table in lent bytes into a table of words.
ghost use Rattle.std.specs.Prelude.{◌≡◌};
ghost use Rattle.words.specs.Words.{whole_words};
ghost use Rattle.table.specs.Rows.{row_in, table_with};

use crate::cells::{Cells, ROW_WORDS};
use crate::info::DefinitionIndex;
use words::from_le_bytes;

// Writes nothing where either table has no room for its row. The two may have room for more rows the one than the other.
pub fn take_row(bytes: &[u8], from: DefinitionIndex, table: &mut [u32], to: DefinitionIndex)
    ensures { table.new ≡ table_with table.old to.0 (row_in (whole_words bytes.now) from.0) }
{
    let (words, _) = bytes.as_chunks::<4>();
    let Some(source) = Cells::of(words.len(), from) else {
        return;
    };
    let Some(slot) = Cells::of(table.len(), to) else {
        return;
    };
    for k in 0..ROW_WORDS {
        let [a, b, c, d] = words[source.place(k)];
        table[slot.place(k)] = from_le_bytes(a, b, c, d);
    }
}
