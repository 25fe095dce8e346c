//! Of which task each job is.
ghost use Rattle.std.specs.Prelude.{◌≡◌, map, IfOk};
ghost use Rattle.task_report.specs.Tallies as model;

use dover_model::{Job, Memory};
use std::alloc::Global;
use task_words::tasks::PeriodicTask;

/// Whether the job has the work of the task, its deadline, counted from the release, and its value.
fn has_numbers(task: &PeriodicTask, job: &Job) -> bool
    ensures { result ≡ model.has_numbers task.now job.now }
{
    job.work() == task.work
        && u128::from(job.deadline()) == u128::from(job.release()) + u128::from(task.deadline)
        && job.value() == task.value
}

/// Whether the job has them, and is released at a tick at which the task releases a job.
fn is_unrolled(task: &PeriodicTask, job: &Job) -> bool
    ensures { result ≡ model.is_unrolled task.now job.now }
{
    has_numbers(task, job)
        && task.period != 0
        && task.offset <= job.release()
        && (job.release() - task.offset) % task.period == 0
}

/// The number of the task that the job is of, or how many tasks there are where it is of none.
fn task_of(tasks: &[PeriodicTask], job: &Job) -> usize
    ensures { result ≡ model.task_of tasks.now job.now }
{
    let at = tasks
        .iter()
        .take_while(|task| !is_unrolled(task, job))
        .count();
    if at < tasks.len() {
        return at;
    }
    tasks
        .iter()
        .take_while(|task| !has_numbers(task, job))
        .count()
}

/// Of each job the number of its task.
pub(crate) fn sort_jobs(
    alloc: Global,
    tasks: &[PeriodicTask],
    jobs: &[Job],
) -> Result<Vec<usize>, Memory>
    ensures { IfOk result (λ of. of.items ≡ map (model.task_of tasks.now) jobs.now) }
{
    let mut of = Vec::new(alloc);
    for job in jobs {
        of.push(task_of(tasks, job))?;
    }
    Ok(of)
}
