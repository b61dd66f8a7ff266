// A table in a lent buffer has a row of sixteen words for each definition, stored by columns; a reference without a definition stands for a
// type of its own.
#![tactic(auto)]

mod cells;
mod from_bytes;
mod info;
mod plain;
mod reach;
mod read;
mod refused;
mod row;
mod to_bytes;

pub use cells::{MOST_ROWS, ROW_WORDS, TABLE_WORDS, capacity};
pub use from_bytes::take_row;
pub use info::{DefinitionIndex, FIRST_DEFINITION, Info, MemberPosition, NO_LAYOUTS};
pub use plain::{plain_info, plain_info_by_shifts};
pub use reach::Reach;
pub use read::{
    good_first_words, good_later_words, is_good_row, row_flat, row_info, row_kind, row_layout,
    row_reach,
};
pub use refused::Refused;
pub use row::{Inner, Row, put_row};
pub use to_bytes::give_row;
