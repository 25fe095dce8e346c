//! The duel: no on-line scheduler can promise more than the rules save, and a list of jobs that shows it.
mod asking;
mod coming;
mod counting;
mod laws;
mod links;

pub use asking::{NoDuel, front_count};
pub use coming::{Coming, Next};
pub use laws::laws_of_duels;
pub use links::Share;
