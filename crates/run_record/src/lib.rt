//! What is kept of a run, step by step: its intervals, and the jobs that are under way with their rooms.
#![tactic(auto)]

pub mod intervals;
pub mod ledger;
