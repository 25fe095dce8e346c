//! What a report counts among the printed steps of a run.
ghost use Rattle.std.specs.Prelude.{◌≡◌, ◌≤◌, ◌++◌, List, count_by, OnOk, IfOk, option_to_list};
ghost use Rattle.dover_model.specs.declared.events.Event.{Event as PrintedStep};
ghost use Rattle.dover_model.specs.Common.{Instance, most_value, completed_value};
ghost use Rattle.run_record.specs.intervals.Rows.{IsRunOf};
ghost use Rattle.run_record.specs.intervals.Totals.{is_release, totals_of};
ghost use Rattle.run_reports.specs.report.Counts.{job_released, jobs_released, value_in, counts_of};

use dover_model::{Event, Job, Memory, PackedEvent, Ratio};
use root_compare::long_bound;
use run_record::intervals::{Charge, JobTotals};
use std::alloc::Global;

/// What a report says of a run: counts of jobs and of changes of hands, and sums of values.
#[derive(Clone, Copy)]
pub struct Counts {
    /// How many jobs were released.
    pub jobs: u64,
    /// How many completed.
    pub completed: u64,
    /// The value of those.
    pub value: u64,
    /// How many were abandoned.
    pub abandoned: u64,
    /// The value of those.
    pub lost: u64,
    /// How many took the processor.
    pub taken: u64,
    /// How often the processor changed hands.
    pub changes: u64,
    /// How often one job preempted another.
    pub preempted: u64,
    /// What no schedule of the jobs is worth more than.
    pub bound: u128,
}

/// The counts of a run, by its charge. What isn't completed is lost.
pub fn count(k: Ratio, charge: &Charge) -> Counts
    requires { (run : List PrintedStep) × (J : Instance) × IsRunOf k run J × (charge.now.totals ≡ totals_of run)
        × (charge.now.value ≡ completed_value J) }
    ensures { (run : List PrintedStep) (J : Instance) → IsRunOf k run J → charge.now.totals ≡ totals_of run
        → charge.now.value ≡ completed_value J → result ≡ counts_of k run (jobs_released run) charge.now.value }
{
    count_by(k, charge.totals(), charge.value())
}

/// The same by what the steps of the run tell of its jobs, and the value that it completes.
pub fn count_by(k: Ratio, totals: JobTotals, value: u64) -> Counts
    requires { (run : List PrintedStep) × (J : Instance) × IsRunOf k run J × (totals ≡ totals_of run)
        × (value ≡ completed_value J) }
    ensures { (run : List PrintedStep) (J : Instance) → IsRunOf k run J → totals ≡ totals_of run
        → value ≡ completed_value J → result ≡ counts_of k run (jobs_released run) value }
{
    Counts {
        jobs: totals.jobs,
        completed: totals.completed,
        value,
        abandoned: totals.abandoned,
        lost: (totals.worth - u128::from(value)) as u64,
        taken: totals.taken,
        changes: totals.changes,
        preempted: totals.preempted,
        bound: long_bound(value, k),
    }
}

/// The jobs that these steps release, by number.
pub fn released(alloc: Global, run: &[PackedEvent]) -> Result<Vec<Job>, Memory>
    ensures { IfOk result (λ jobs. jobs.items ≡ jobs_released run.now) }
{
    let mut jobs = Vec::new(alloc);
    for event in run {
        keep_released(&mut jobs, event)?;
    }
    Ok(jobs)
}

/// Appends the job that the step releases, if it releases one.
fn keep_released(jobs: &mut Vec<Job>, event: &PackedEvent) -> Result<(), Memory>
    ensures { OnOk result (jobs.new.items ≡ jobs.old.items ++ option_to_list (job_released event.now)) }
{
    if let Event::Release { job, .. } = event.event() {
        jobs.push(job)?;
    }
    Ok(())
}

/// How many jobs these steps release.
pub(crate) fn releases(run: &[PackedEvent]) -> usize
    ensures { result ≡ count_by is_release run.now }
{
    run.iter()
        .filter(|event| matches!(event.event(), Event::Release { .. }))
        .count()
}

/// The value of the job of this number, 0 for none.
pub(crate) fn value_of(jobs: &[Job], number: u32) -> u64
    ensures is { result ≡ value_in jobs.now number }
    ensures modest { result ≤ most_value }
{
    match jobs.get(number as usize) {
        Some(job) => job.value(),
        None => 0,
    }
}
