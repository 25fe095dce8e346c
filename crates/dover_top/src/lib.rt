//! The one call that the program makes.
#![tactic(auto)]

mod carrying;
mod request;
mod top;

pub use request::Request;
pub use top::dover;
