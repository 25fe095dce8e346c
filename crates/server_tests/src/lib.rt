//! Tests of what the server stands on: `root_compare`, `held_stack` and `place_heap`, of a port over streams, and of an
//! engine that is restarted.
#![tactic(auto)]

#[cfg(test)]
mod failing_streams;
#[cfg(test)]
mod held_jobs;
#[cfg(test)]
mod items_at_places;
#[cfg(test)]
mod restarts;
#[cfg(test)]
mod roots;
