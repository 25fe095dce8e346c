//! The word `judge`: a text is read, judged as a trace, and the verdict is written as one line.
mod judging;
mod lines;
mod telling;
mod word;

pub use lines::{put_verdict, status_of};
pub use telling::Teller;
pub use word::{judge_and_tell, judge_word};
