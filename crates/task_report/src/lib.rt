//! The word `report tasks`: what became of the jobs of each task, as lines or as a picture.
#![tactic(auto)]

mod counting;
mod drawing;
mod form;
mod lines;
mod sorting;
mod talker;
mod tally;
mod telling;
mod word;

pub use form::TaskForm;
pub use tally::Tally;
pub use word::task_report_word;
