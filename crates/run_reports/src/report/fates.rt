//! What a schedule comes to, whichever policy made it.
ghost use Rattle.std.specs.Prelude.{◌≡◌, ◌≤◌, length};
ghost use Rattle.dover_model.specs.Limits.{most_value};
ghost use Rattle.run_reports.specs.report.Counts.{value_lost};
ghost use Rattle.run_reports.specs.report.Fates as model;

use crate::report::counts::value_of;
use dover_model::{Event, Job, PackedEvent};
use run_record::intervals::JobTotals;

/// What a schedule comes to: how its jobs ended, and their values.
#[derive(Clone, Copy)]
pub struct Fates {
    /// How many jobs were released.
    pub jobs: u64,
    /// How many completed.
    pub completed: u64,
    /// The value of those.
    pub value: u64,
    /// How many were abandoned.
    pub abandoned: u64,
    /// The value of those.
    pub lost: u64,
    /// How many took the processor.
    pub taken: u64,
}

/// What a schedule of these jobs with these steps comes to.
pub fn fates_of(jobs: &[Job], run: &[PackedEvent]) -> Fates
    requires { length run.now ≤ 5_000_001 }
    ensures { result ≡ model.fates_of jobs.now run.now }
{
    let totals = JobTotals::of(run);
    let mut value = 0;
    let mut lost = 0;
    for event in run {
        value += done_at(jobs, event);
        lost += lost_at(jobs, event);
    }
    Fates {
        jobs: totals.jobs,
        completed: totals.completed,
        value,
        abandoned: totals.abandoned,
        lost,
        taken: totals.taken,
    }
}

/// The value of the job that a step completes, and 0 for another step.
fn done_at(jobs: &[Job], event: &PackedEvent) -> u64
    ensures is { result ≡ model.value_done jobs.now event.now }
    ensures modest { result ≤ most_value }
{
    match event.event() {
        Event::Complete { number, .. } => value_of(jobs, number),
        _ => 0,
    }
}

/// The value of the job that a step abandons, and 0 for another step.
fn lost_at(jobs: &[Job], event: &PackedEvent) -> u64
    ensures is { result ≡ value_lost jobs.now event.now }
    ensures modest { result ≤ most_value }
{
    match event.event() {
        Event::Abandon { number, .. } => value_of(jobs, number),
        _ => 0,
    }
}
