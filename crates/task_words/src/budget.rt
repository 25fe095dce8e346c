//! The word `budget`: works of tasks are made budgets that pay for changes of hands.
mod answering;
mod densities;
mod gets;
mod laws;
mod lines;
mod paying;

pub(crate) use answering::answer;
pub use laws::budgets_of_tasks_are_enough;
