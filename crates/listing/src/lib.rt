// Writes the text that tells what a build made of a description's bytes.
#![tactic(auto)]

mod lines;
mod numbers;
mod program;

pub use program::{INPUT_BYTES, MOST_BYTES, report};
