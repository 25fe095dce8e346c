//! The words that read a task text: which one it is, and what the reading loop calls.
mod question;
mod talker;
mod word;

pub use question::TaskQuestion;
pub use word::tasks_word;
