//! Jobs that are stated by numbers: those that a seed makes up, those that bait the rules, and those of a duel.
#![tactic(auto)]

pub mod bait;
pub mod duel;
pub mod trial;
