// Reads little-endian words from lent bytes, and puts words into them.
#![tactic(auto)]

mod reading;
mod writing;

pub use reading::{from_le_bytes, word_at, words_of};
pub use writing::{put_word_at, put_words};
