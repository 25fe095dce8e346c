//! The word that asks about tasks for all time, and its demand test: whether a window can have more work than ticks.
#![tactic(auto)]

mod answering;
mod answers;
mod asking;
mod laws;
mod looking;
mod periods;
mod shares;
mod testing;
mod word;

pub use answers::Demand;
pub use laws::what_the_demand_test_tells;
pub use testing::demand_test;
pub use word::demand_word;
