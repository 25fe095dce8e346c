//! What an overload costs: the intervals of a run, and the bound over every schedule.
mod book;
mod charge;
mod interval;
mod totals;

pub use charge::Charge;
pub use interval::Interval;
pub use totals::JobTotals;
