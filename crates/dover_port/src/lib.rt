//! The two ends of a program: where its input comes from and where its output goes.
#![tactic(auto)]

mod calls;
mod counted;
mod memory;
mod output;
mod port;
mod puts;
mod status;
mod stream;
mod told;

pub use calls::Calls;
pub use memory::MemoryPort;
pub use output::{OUTPUT_BYTES, Output};
pub use port::{Failed, Port};
pub use puts::put_all;
pub use status::Status;
pub use stream::StreamPort;
