// Tests whether a row has a good form, and reads what a question needs of it. A row that the table has no room for reads as zeros.
ghost use Rattle.std.specs.Prelude.{◌≡◌, ◌&&◌, ◌+◌, ◌<◌};
ghost use Rattle.canon.specs.Layout.{within};
ghost use Rattle.canon.specs.Reach.{good_reach};
ghost use Rattle.canon.specs.Row.{word, row_abi, row_info, is_discriminant, is_good};
ghost use Rattle.types.specs.Means.{memory_of, layout_means, layouts_means};
ghost use Rattle.flat_types.specs.Lists.{words};
ghost use Rattle.table.specs.Means.{info_means};
ghost use Rattle.table.specs.Rows.{row_in, RowTypes, row_packed, good_first_words, good_later_words};

use crate::cells::Cells;
use crate::info::{DefinitionIndex, Info};
use crate::reach::Reach;
use flat_types::{FlatList, FlatTypes};
use types::{Both, Layout, Memory};

// Where the words of a layout begin in a row, its size and then its alignment.
const LAYOUT: Both<usize> = Both { in32: 1, in64: 3 };

// Where the flat types stand, behind their count.
const FLAT: Both<usize> = Both { in32: 6, in64: 7 };

#[tactic(auto, using(crate::proofs::Reading::word_there, crate::proofs::Reading::word_missing))]
fn word(table: &[u32], index: DefinitionIndex, k: usize) -> u32
    requires { k < 16 }
    ensures { result ≡ word (row_in table.now index.0) k }
{
    match Cells::of(table.len(), index) {
        Some(cells) => table[cells.place(k)],
        None => 0,
    }
}

fn layout_at(table: &[u32], index: DefinitionIndex, at: usize) -> Layout
    requires { at < 15 }
    ensures { layout_means result ≡ record { size = word (row_in table.now index.0) at; align = word (row_in table.now index.0) (at + 1) } }
{
    Layout {
        size: word(table, index, at),
        align: word(table, index, at + 1),
    }
}

fn row_layouts(table: &[u32], index: DefinitionIndex) -> Both<Layout>
    ensures { layouts_means result ≡ (row_abi (row_in table.now index.0)).layouts }
{
    Both {
        in32: layout_at(table, index, LAYOUT.in32),
        in64: layout_at(table, index, LAYOUT.in64),
    }
}

fn row_types(table: &[u32], index: DefinitionIndex) -> FlatTypes
    ensures { RowTypes result (row_in table.now index.0) }
{
    FlatTypes::of(
        word(table, index, 5),
        word(table, index, FLAT.in32),
        word(table, index, FLAT.in64),
    )
}

// Tests words 8 and 15: the discriminant's size is 0, 1, 2 or 4, and the reach is good.
#[tactic(auto, unfolding(canon::specs::Row::is_discriminant))]
fn good_rest(table: &[u32], index: DefinitionIndex) -> bool
    ensures { result ≡ is_discriminant (word (row_in table.now index.0) 8) && good_reach (word (row_in table.now index.0) 15) }
{
    matches!(word(table, index, 8), 0 | 1 | 2 | 4) && row_reach(table, index).is_good()
}

// Tests words 0 to 4: the kind is 1 to 10, and the layouts are good.
#[tactic(auto, unfolding(crate::specs::Rows::good_first_words))]
pub fn good_first_words(table: &[u32], index: DefinitionIndex) -> bool
    ensures { result ≡ good_first_words (row_in table.now index.0) }
{
    matches!(row_kind(table, index), 1..=10) && row_layouts(table, index).is_good()
}

// Tests words 5 to 8 and 15, the flat types and the rest.
#[tactic(auto, unfolding(crate::specs::Rows::good_later_words, flat_types::specs::Lists::good_flat))]
pub fn good_later_words(table: &[u32], index: DefinitionIndex) -> bool
    ensures { result ≡ good_later_words (row_in table.now index.0) }
{
    row_types(table, index).is_good() && good_rest(table, index)
}

#[tactic(auto, using(crate::proofs::Reading::good_halves))]
pub fn is_good_row(table: &[u32], index: DefinitionIndex) -> bool
    ensures { result ≡ is_good (row_in table.now index.0) }
{
    good_first_words(table, index) && good_later_words(table, index)
}

pub fn row_kind(table: &[u32], index: DefinitionIndex) -> u32
    ensures { result ≡ word (row_in table.now index.0) 0 }
{
    word(table, index, 0)
}

// Each memory has its arm: with `LAYOUT.in_memory` a loop over rows takes a quarter longer.
pub fn row_layout(table: &[u32], index: DefinitionIndex, memory: Memory) -> Layout
    ensures { layout_means result ≡ within (memory_of memory) (row_abi (row_in table.now index.0)).layouts }
{
    match memory {
        Memory::Memory32 => layout_at(table, index, LAYOUT.in32),
        Memory::Memory64 => layout_at(table, index, LAYOUT.in64),
    }
}

// Gives the count and the word as they stand: in a row of good form nothing lies above the types.
pub fn row_flat(table: &[u32], index: DefinitionIndex, memory: Memory) -> FlatList
    ensures { words result ≡ row_packed (memory_of memory) (row_in table.now index.0) }
{
    FlatList {
        count: word(table, index, 5),
        types: u64::from(word(table, index, FLAT.in_memory(memory))),
    }
}

pub fn row_reach(table: &[u32], index: DefinitionIndex) -> Reach
    ensures { result ≡ record { 0 = word (row_in table.now index.0) 15 } }
{
    Reach(word(table, index, 15))
}

pub fn row_info(table: &[u32], index: DefinitionIndex) -> Info
    ensures { info_means result ≡ row_info (row_in table.now index.0) }
{
    Info {
        layouts: row_layouts(table, index),
        flat: row_types(table, index),
        reach: row_reach(table, index),
    }
}
