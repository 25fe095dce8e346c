//! One feed, or many in one input, each with a server of its own.
#![tactic(auto)]

mod feed;
mod lane;
mod lane_input;
mod lanes;
mod reading;
mod refusal;

pub use feed::Feed;
pub use lane::Lane;
pub use lane_input::{LaneInput, RefusedInput};
pub use lanes::{LaneFault, LaneStep, Lanes};
pub use refusal::InputRefusal;
