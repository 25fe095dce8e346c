//! Other policies over lists of jobs, to compare with the rules.
#![tactic(auto)]

mod bench;
mod lab;
mod laws;
mod policy;
mod standard;
mod tally;

pub use lab::{Outcome, run_policy};
pub use laws::policies_are_on_line;
pub use policy::Policy;
pub use standard::{Dense, Edf};
