//! The on-line server that forgets each job as it is over, and lists of jobs that are served to the end.
#![tactic(auto)]

pub mod roster;
mod running;
pub mod server;
mod source;
mod watcher;

pub use roster::{ListedFinish, Roster};
pub use running::{finish_job, run_list, serve_jobs, show_to};
pub use server::ReadyServer;
pub use source::JobSource;
pub use watcher::Watcher;
