//! The words that serve a feed: `serve` and `pause`, and `resume` from a snapshot.
#![tactic(auto)]

pub mod resume;
pub mod serve;
