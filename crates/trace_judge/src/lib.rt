//! A judge of recorded traces.
#![tactic(auto)]

mod judge;
pub mod laws;
mod lines;
mod reader;
mod says;
mod stage;
mod verdict;

pub use judge::{Closed, Judge};
pub use verdict::{Expected, Verdict};
