// The questions put to a table: what a reference stands for, and what a list of references does together.
#![tactic(auto)]

mod answer;
mod ask;
mod list;
mod member;
mod placed;
mod placing;
mod read;
mod two;

pub use answer::{TypeInfo, Whole};
pub use ask::canonical_abi;
pub use list::{Gathering, gather};
pub use member::size_align;
pub use placing::placement;
pub use read::{MOST_REFERENCES, no_table, too_many};
pub use two::gather_two;
