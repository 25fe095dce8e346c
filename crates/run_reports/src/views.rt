//! Reports on a run for a terminal, and on what happened to one job, as texts.
mod signs;
mod stays;
mod story;
pub mod template;
mod terminal;
mod threshold;
mod window;

pub use story::{Asked, why};
pub use terminal::{grouped_timeline, schedule_timeline, timeline};
pub use window::Window;
