//! The words that read a trace: `judge` and `report`.
#![tactic(auto)]

pub mod judge;
pub mod report;
pub mod schedule;
