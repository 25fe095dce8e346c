//! Pictures of a run for a browser: as SVG, and as events for a viewer of traces. What they look like is tested, and
//! not proved: a call is safe and ends, and want of memory is its only error.
#![tactic(auto)]

mod columns;
mod drawing;
mod events;
mod frame;
mod heads;
mod labels;
mod lanes;
mod legends;
mod marks;
mod outline;
mod panels;
mod processor;
mod ready;
mod scale;
mod seen;
mod sheet;
mod sizes;
mod windows;

pub use drawing::{grouped_picture, picture, schedule_picture};
pub use events::chrome;
