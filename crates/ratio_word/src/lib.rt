//! The word `ratio`: the least ratio that the jobs of a feed keep, or the tasks of a text.
#![tactic(auto)]

mod answering;
mod intake;
mod line_reading;
mod lines;
mod reading;
mod word;

pub use lines::TextLine;
pub use word::ratio_word;
