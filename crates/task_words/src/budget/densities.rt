//! Whether tasks are within the ratio of each other.
ghost use Rattle.std.specs.Prelude.{◌≡◌, ◌<◌, length, false, IfSome, IsNone};
ghost use Rattle.task_words.specs.budget.Budgets.{task_at};
ghost use Rattle.task_words.specs.budget.Kept.{AreModest, IsModest};
ghost use Rattle.task_words.specs.budget.Lines.{KeepUpTo, KeepsUpTo, keeps_ratio};

use crate::tasks::PeriodicTask;
use dover_model::Ratio;

/// Whether the value of the task by its work is at most the ratio times that of the other.
fn keeps_ratio(task: &PeriodicTask, other: &PeriodicTask, ratio: Ratio) -> bool
    requires modest { IsModest task.now }
    requires other { IsModest other.now }
    ensures { result ≡ keeps_ratio ratio task.now other.now }
{
    let (p, q) = (u128::from(ratio.p()), u128::from(ratio.q()));
    q * u128::from(task.value) * u128::from(other.work)
        <= p * u128::from(other.value) * u128::from(task.work)
}

/// The number of the first task with which the task of this number breaks the ratio.
fn broken_with(tasks: &[PeriodicTask], number: usize, ratio: Ratio) -> Option<usize>
    requires modest { AreModest tasks.now }
    requires number { number < length tasks.now }
    ensures some { IfSome result (λ m. (m < length tasks.now)
        × KeepsUpTo ratio tasks.now (task_at tasks.now number) m
        × (keeps_ratio ratio (task_at tasks.now number) (task_at tasks.now m) ≡ false)) }
    ensures none { IsNone result → KeepsUpTo ratio tasks.now (task_at tasks.now number) (length tasks.now) }
{
    for other in 0..tasks.len() {
        if !keeps_ratio(&tasks[number], &tasks[other], ratio) {
            return Some(other);
        }
    }
    None
}

/// Two tasks that break the ratio with each other.
#[derive(Clone, Copy)]
pub(crate) struct Breakers {
    /// The number of the one whose value by its work is too great.
    pub(crate) number: usize,
    /// The number of the other.
    pub(crate) other: usize,
}

/// The first task that breaks the ratio with another, and the first such other.
pub(crate) fn find_breakers(tasks: &[PeriodicTask], ratio: Ratio) -> Option<Breakers>
    requires modest { AreModest tasks.now }
    ensures some { IfSome result (λ two. (two.number < length tasks.now) × KeepUpTo ratio tasks.now two.number
        × (two.other < length tasks.now) × KeepsUpTo ratio tasks.now (task_at tasks.now two.number) two.other
        × (keeps_ratio ratio (task_at tasks.now two.number) (task_at tasks.now two.other) ≡ false)) }
    ensures none { IsNone result → KeepUpTo ratio tasks.now (length tasks.now) }
{
    for number in 0..tasks.len() {
        match broken_with(tasks, number, ratio) {
            Some(other) => return Some(Breakers { number, other }),
            None => {}
        }
    }
    None
}
