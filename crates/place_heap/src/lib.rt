//! A heap of items in one order, from which each can be taken out by its place.
#![tactic(auto)]

pub mod heap;
pub mod item;
pub mod orders;
pub mod rank;
mod sift;

pub use heap::Heap;
pub use item::Item;
pub use orders::{dense_items_come_as_jobs, items_come_as_entries, tie_of};
pub use rank::{LongRank, Rank, ShortRank};
