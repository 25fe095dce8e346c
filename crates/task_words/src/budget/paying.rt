//! The budgets of tasks.
ghost use Rattle.std.specs.Prelude.{◌≡◌, ◌<◌, ◌≤◌, ◌+◌, ◌*◌, length, IfOk, IfErr};
ghost use Rattle.task_words.specs.budget.Budgets.{budgeted, most_gets, task_at, with_budget};
ghost use Rattle.task_words.specs.budget.Lines.{FitUpTo};
ghost use Rattle.task_words.specs.budget.Kept.{IsUnpaidBy};
ghost use Rattle.task_words.specs.sure.Kept.{AreSmall};
ghost use Rattle.task_words.specs.sure.Streams.{streams_of};

use crate::budget::gets::most_gets;
use crate::tasks::PeriodicTask;
use dover_model::Ratio;
use std::alloc::Global;

/// Why tasks have no budgets.
#[derive(Clone, Copy)]
pub(crate) enum Unpaid {
    /// The budget of the task of this number is above its deadline: a job of it gets the processor so often at most.
    Window(u64, u64),
    /// There was no memory for them.
    NoMemory,
}

/// The task of this number with its budget. If that is above its deadline: how often a job of it gets the processor.
fn with_budget(
    tasks: &[PeriodicTask],
    number: usize,
    ratio: Ratio,
    cost: u64,
) -> Result<PeriodicTask, u64>
    requires small { AreSmall (streams_of tasks.now) }
    requires number { number < length tasks.now }
    ensures paid { IfOk result (λ task. (task ≡ with_budget ratio cost tasks.now (task_at tasks.now number))
        × (task.work ≤ task.deadline)) }
    ensures unpaid { IfErr result (λ gets. (gets ≡ most_gets ratio tasks.now (task_at tasks.now number))
        × ((task_at tasks.now number).deadline < (task_at tasks.now number).work + cost * gets)) }
{
    let task = tasks[number];
    let gets = most_gets(tasks, number, ratio);
    let budget = u128::from(task.work) + u128::from(cost) * u128::from(gets);
    if budget > u128::from(task.deadline) {
        return Err(gets);
    }
    let name = task.name;
    Ok(PeriodicTask {
        offset: task.offset,
        period: task.period,
        work: budget as u64,
        deadline: task.deadline,
        value: task.value,
        name,
    })
}

/// The tasks with their budgets, or why they have none.
pub(crate) fn pay(
    alloc: Global,
    tasks: &[PeriodicTask],
    ratio: Ratio,
    cost: u64,
) -> Result<Vec<PeriodicTask>, Unpaid>
    requires small { AreSmall (streams_of tasks.now) }
    ensures paid { IfOk result (λ budgets. budgets.items ≡ budgeted ratio cost tasks.now) }
    ensures fit { IfOk result (λ budgets. FitUpTo budgets.items (length budgets.items)) }
    ensures unpaid { IfErr result (λ unpaid. IsUnpaidBy ratio cost tasks.now unpaid) }
{
    let mut budgets = Vec::new(alloc);
    for number in 0..tasks.len() {
        match with_budget(tasks, number, ratio, cost) {
            Ok(task) => match budgets.push(task) {
                Ok(()) => {}
                Err(_) => return Err(Unpaid::NoMemory),
            },
            Err(gets) => return Err(Unpaid::Window(number as u64, gets)),
        }
    }
    Ok(budgets)
}
