//! Jobs with firm deadlines, and the definitions of the machine that schedules them.
#![tactic(auto)]

pub mod bound_laws;
pub mod events;
pub mod factors;
pub mod horizon;
pub mod jobs;
mod kind;
pub mod packed;
pub mod pieces;
pub mod ratios;
pub mod rest_laws;
pub mod run_laws;
pub mod trace_laws;

pub use events::{Entry, Event, Refusal, Role, Task, Version};
pub use factors::Factor;
pub use horizon::Horizon;
pub use jobs::Job;
pub use packed::PackedEvent;
pub use pieces::Piece;
pub use ratios::Ratio;
use std::alloc::{AllocError, AllocFailed};
use thiserror::Error;

/// Want of memory.
#[derive(Clone, Copy, Debug, PartialEq, Eq, Error)]
#[error("out of memory")]
pub struct Memory;

impl From<AllocError> for Memory {
    fn from(_: AllocError) -> Self {
        Memory
    }
}

impl<T: Drop> From<AllocFailed<T>> for Memory {
    fn from(_: AllocFailed<T>) -> Self {
        Memory
    }
}
