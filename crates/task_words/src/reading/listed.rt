//! The tasks of a text.
use crate::tasks::PeriodicTask;
use dover_model::{Ratio, Version};

/// The ratio and the version that the first line of a task text declared, and the tasks since, in order.
#[derive(Drop)]
pub struct ListedTasks {
    /// The declared ratio.
    pub ratio: Ratio,
    /// The declared version.
    pub version: Version,
    /// The tasks, in the order of their lines.
    pub tasks: Vec<PeriodicTask>,
}
