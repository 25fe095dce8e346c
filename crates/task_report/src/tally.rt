//! What became of some jobs, added up.
ghost use Rattle.std.specs.Prelude.{◌≡◌, ◌<◌, ◌+◌, ◌-◌, ◌^◌, ℕ, Option};
ghost use Rattle.run_reports.specs.declared.report.endings.Ending.{Ending};
ghost use Rattle.task_report.specs.Tallies as model;
ghost use Rattle.task_report.specs.Keeping.{IsOfAtMost};

use dover_model::Job;
use run_reports::report::endings::Ending;

/// What became of some jobs. Times are in ticks.
#[derive(Clone, Copy)]
pub struct Tally {
    /// How many jobs these are.
    pub jobs: u64,
    /// How many of them completed.
    pub completed: u64,
    /// How many were lost.
    pub lost: u64,
    /// What those that completed are worth.
    pub value: u128,
    /// What those that were lost are worth.
    pub lost_value: u128,
    /// The longest time from a release to the completion, 0 where none completed.
    pub longest: u64,
    /// All these times in sum.
    pub responses: u128,
    /// How often a job lost the processor before it was done.
    pub preempted: u128,
    /// The least time from a completion to the deadline, if a job completed.
    pub slack: Option<u64>,
}

/// No job.
pub(crate) fn no_jobs() -> Tally
    ensures is { result ≡ model.no_jobs }
    ensures few { IsOfAtMost 0 result }
{
    Tally {
        jobs: 0,
        completed: 0,
        lost: 0,
        value: 0,
        lost_value: 0,
        longest: 0,
        responses: 0,
        preempted: 0,
        slack: None,
    }
}

/// A job that ended so, or not at all, and got the processor so often.
pub(crate) fn of_job(job: &Job, ending: Option<Ending>, gets: u64) -> Tally
    ensures is { result ≡ model.of_job job.now ending gets }
    ensures few { IsOfAtMost 1 result }
{
    let mut tally = no_jobs();
    tally.jobs = 1;
    tally.preempted = u128::from(gets);
    match ending {
        None => {}
        Some(Ending::Abandoned(_)) => {
            tally.lost = 1;
            tally.lost_value = u128::from(job.value());
        }
        Some(Ending::Completed(at)) => {
            tally.completed = 1;
            tally.value = u128::from(job.value());
            tally.longest = at.saturating_sub(job.release());
            tally.responses = u128::from(tally.longest);
            tally.preempted = u128::from(gets.saturating_sub(1));
            tally.slack = Some(job.deadline().saturating_sub(at));
        }
    }
    tally
}

/// The least of the times that there are.
fn least(a: Option<u64>, b: Option<u64>) -> Option<u64>
    ensures { result ≡ model.least a b }
{
    match (a, b) {
        (Some(a), Some(b)) => Some(a.min(b)),
        (Some(a), None) => Some(a),
        (None, b) => b,
    }
}

/// The jobs of both.
pub(crate) fn together(a: &Tally, b: &Tally) -> Tally
    requires { (n : ℕ) × (n + 1 < 2 ^ 64) × IsOfAtMost n a.now × IsOfAtMost 1 b.now }
    ensures is { result ≡ model.together a.now b.now }
    ensures few { (n : ℕ) → IsOfAtMost n a.now → IsOfAtMost 1 b.now → IsOfAtMost (n + 1) result }
{
    Tally {
        jobs: a.jobs + b.jobs,
        completed: a.completed + b.completed,
        lost: a.lost + b.lost,
        value: a.value + b.value,
        lost_value: a.lost_value + b.lost_value,
        longest: a.longest.max(b.longest),
        responses: a.responses + b.responses,
        preempted: a.preempted + b.preempted,
        slack: least(a.slack, b.slack),
    }
}
