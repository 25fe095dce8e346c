//! The words `trial` and `bait`, a stated list of jobs and what its run comes to, and `duel` and `draw`, a list as a
//! feed.
#![tactic(auto)]

mod bait;
mod draw;
mod drawn;
mod dueling;
mod tally;
mod trial;

pub use bait::bait_word;
pub use draw::draw_word;
pub use dueling::duel_word;
pub use trial::trial_word;
