//! The word `lanes`: up to 64 feeds in one input, each served on its own.
#![tactic(auto)]

mod hosting;
mod lanes;
mod lines;

pub use lanes::lanes_word;
