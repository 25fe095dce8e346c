//! The server for a program that calls it step by step: each call is total, and what may not be asked is refused with
//! its cause.
#![tactic(auto)]

pub mod causes;
pub mod decision;
mod earned;
pub mod engine;
pub mod laws;

pub use causes::{NotAdmitted, NotDone, NotMade, NotRestarted, NotStepped};
pub use decision::Decision;
pub use engine::Engine;
