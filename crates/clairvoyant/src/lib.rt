//! What a scheduler that knows all jobs can do: meet all deadlines, or complete the best set of few jobs; and what an
//! overload costs it at most.
#![tactic(auto)]

pub mod best;
pub mod feasible;
pub mod overload;
