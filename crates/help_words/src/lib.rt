//! What is told of the program itself: its words, its version, and of words that ask for nothing.
#![tactic(auto)]

mod help;
mod rows;
mod usage;
mod wrong;

pub use help::help_word;
pub use usage::{USAGE, VERSION};
pub use wrong::wrong_words;
