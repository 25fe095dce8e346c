//! Several processors: the machine, as definitions, and the competitive bound.
#![tactic(auto)]

pub mod bound_laws;
pub mod run_laws;
pub mod settled_laws;
