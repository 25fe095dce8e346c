//! Periodic tasks, their text, and the words that read it.
#![tactic(auto)]

pub mod asking;
pub mod budget;
pub mod reading;
pub mod sure;
pub mod tasks;
pub mod unroll;
