//! What the program says on standard error of its input and its words, beside what `dover` writes. No clause speaks of
//! it: it is for people, and is tested.
#![tactic(auto)]

mod answers;
mod declared;
mod forms;
mod jobs;
mod kept;
mod numerals;
mod said;
mod tail;
mod texts;
mod verdicts;
mod watched;
mod words;

pub use texts::waits_for;
pub use watched::Watched;
pub use words::near_words;
