// Puts the sixteen words of a row into a table.
ghost use Rattle.std.specs.Prelude.{◌≡◌};
ghost use Rattle.table.specs.Means.{row_means};
ghost use Rattle.table.specs.Rows.{table_with};

use crate::cells::{Cells, ROW_WORDS};
use crate::info::{DefinitionIndex, Info};
use types::{Both, Layout};

// Words 8 to 14: what lies inside a variant or a map.
#[derive(Clone, Copy)]
pub struct Inner {
    pub discriminant: u32,
    pub offset32: u32,
    pub offset64: u32,
    pub entries: Both<Layout>,
}

#[derive(Clone, Copy)]
pub struct Row {
    pub kind: u32,
    pub info: Info,
    pub inner: Inner,
}

fn row_words(row: Row) -> [u32; ROW_WORDS]
    ensures { result ≡ row_means row }
{
    [
        row.kind,
        row.info.layouts.in32.size,
        row.info.layouts.in32.align,
        row.info.layouts.in64.size,
        row.info.layouts.in64.align,
        row.info.flat.count,
        row.info.flat.word32(),
        row.info.flat.word64(),
        row.inner.discriminant,
        row.inner.offset32,
        row.inner.offset64,
        row.inner.entries.in32.size,
        row.inner.entries.in32.align,
        row.inner.entries.in64.size,
        row.inner.entries.in64.align,
        row.info.reach.0,
    ]
}

// Where the table has no room for the row, nothing is written.
pub fn put_row(table: &mut [u32], index: DefinitionIndex, row: Row)
    ensures { table.new ≡ table_with table.old index.0 (row_means row) }
{
    let Some(cells) = Cells::of(table.len(), index) else {
        return;
    };
    for (k, word) in row_words(row).iter().enumerate() {
        table[cells.place(k)] = *word;
    }
}
