//! The jobs of a schedule, as its lines so far tell of them.
ghost use Rattle.std.specs.Prelude.{◌≡◌, ◌≤◌, sum_by};
ghost use Rattle.std.specs.List.{list_all};
ghost use Rattle.dover_model.specs.Limits.{most_value};
ghost use Rattle.schedule_judge.specs.Jobs as model;

use dover_model::Job;

/// What became of a job.
#[derive(Clone, Copy, PartialEq, Eq)]
pub enum JobState {
    /// It may run.
    Open,
    /// It completed.
    Completed,
    /// It was abandoned.
    Abandoned,
}

/// A job, as the lines so far tell of it.
#[derive(Clone, Copy)]
pub struct ToldJob {
    /// The job.
    pub job: Job,
    /// The ticks of work that it still needed when it last lost the processor.
    pub left: u64,
    /// What became of it.
    pub state: JobState,
}

/// A job at its release.
pub(crate) fn fresh(job: &Job) -> ToldJob
    ensures { result ≡ model.fresh job.now }
{
    ToldJob {
        job: *job,
        left: job.work(),
        state: JobState::Open,
    }
}

/// The job of this number had so many ticks more, if there is one.
pub(crate) fn use_up(jobs: &mut [ToldJob], number: usize, ticks: u64)
    ensures { jobs.new ≡ model.told_of (model.ran ticks) jobs.old number }
{
    if number < jobs.len() {
        jobs[number].left = jobs[number].left.saturating_sub(ticks);
    }
}

/// This became of the job of this number, if there is one.
pub(crate) fn settle(jobs: &mut [ToldJob], number: usize, state: JobState)
    ensures { jobs.new ≡ model.told_of (model.settled state) jobs.old number }
{
    if number < jobs.len() {
        jobs[number].state = state;
    }
}

/// The job may run.
fn is_open(told: &ToldJob) -> bool
    ensures { result ≡ model.is_open told.now }
{
    matches!(told.state, JobState::Open)
}

/// The job of this number is released, and may run.
pub(crate) fn may_run(jobs: &[ToldJob], number: u32) -> bool
    ensures { result ≡ model.may_run jobs.now number }
{
    match jobs.get(number as usize) {
        Some(told) => is_open(told),
        None => false,
    }
}

/// No job may run any more.
pub(crate) fn are_over(jobs: &[ToldJob]) -> bool
    ensures { result ≡ list_all model.is_over jobs.now }
{
    jobs.iter().all(|told| !is_open(told))
}

/// The value of the job, if it completed.
fn value_done(told: &ToldJob) -> u64
    ensures is { result ≡ model.value_done told.now }
    ensures modest { result ≤ most_value }
{
    let value = told.job.value();
    match told.state {
        JobState::Completed => value,
        _ => 0,
    }
}

/// The value of the completed jobs.
pub(crate) fn completed_value(jobs: &[ToldJob]) -> u128
    ensures { result ≡ sum_by model.value_done jobs.now }
{
    let mut sum: u128 = 0;
    for told in jobs {
        sum += u128::from(value_done(told));
    }
    sum
}
