//! Comparisons with a root, exact in whole numbers.
#![tactic(auto)]

mod compare;
mod laws;
mod root;

pub use compare::{bound, heavy, least_heavy, long_bound};
pub use laws::{forms_of_rows, light_values_exceed_by_little, numbers_below_a_root};
pub use root::isqrt;
