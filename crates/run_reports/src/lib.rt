//! Reports on a run: as lines and tables, and for a viewer, a reader and a terminal.
#![tactic(auto)]

pub mod report;
pub mod views;
