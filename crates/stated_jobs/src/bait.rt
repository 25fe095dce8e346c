//! The baiting feed, against which a run completes as little as the bound allows.
mod feed;
mod laws;
mod links;

pub use feed::Bait;
pub use laws::laws_of_baits;
