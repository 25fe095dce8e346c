//! What an overload costs at most: caps on what schedules are worth.
mod caps;
mod costing;
mod laws;
mod layers;
mod overfull;
mod released;
mod stretch;

pub use costing::{cost_of, value_inside};
pub use laws::laws_of_caps;
pub use stretch::{Costed, Stretch};
