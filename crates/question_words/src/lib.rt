//! The words that answer on the jobs of a feed, once its end was read.
#![tactic(auto)]

mod answer;
mod asking;
mod best;
mod bounding;
mod compare;
mod completing;
mod feasible;
mod limits;
mod loss;
mod observing;
mod question;
mod replaying;

pub use question::{Question, question_word};
