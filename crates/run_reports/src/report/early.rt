//! The jobs that completed with work left.
ghost use Rattle.std.specs.Prelude.{◌≡◌, ◌≤◌, ◌++◌, length, slice_index_or, true, OnOk, IfOk};
ghost use Rattle.dover_model.specs.Common.{Fraction, Instance, most_work, in_lines};
ghost use Rattle.dover_model.specs.Observed as observed;
ghost use Rattle.run_record.specs.intervals.Rows.{IsRunOf};
ghost use Rattle.run_reports.specs.report.Counts.{jobs_released};
ghost use Rattle.run_reports.specs.report.Early.{early_of, left_in, left_at, with_left, HasRoom};
ghost use Rattle.run_reports.specs.report.Early as lines;

use crate::report::counts::released;
use crate::report::lines::put_line;
use dover_model::{Event, Job, Memory, PackedEvent};
use run_record::ledger::served;
use std::alloc::Global;

/// The jobs that completed with work left.
#[derive(Clone, Copy)]
pub(crate) struct Early {
    /// How many there are.
    jobs: u64,
    /// The ticks of work that are left of them.
    left: u64,
}

impl Early {
    /// Those that these steps complete, by the ticks that each job had.
    fn of(jobs: &[Job], served: &[u64], run: &[PackedEvent]) -> Early
        requires { length run.now ≤ 5_000_001 }
        ensures { result ≡ early_of jobs.now served.now run.now }
    {
        let mut early = Early { jobs: 0, left: 0 };
        for event in run {
            early.add(left_at(jobs, served, event));
        }
        early
    }

    /// Counts one that has so much left, if any is.
    fn add(&mut self, left: u64)
        requires room { HasRoom self.old }
        requires modest { left ≤ most_work }
        ensures { self.new ≡ with_left self.old left }
    {
        self.left += left;
        if left > 0 {
            self.jobs += 1;
        }
    }
}

/// The ticks that each job of the run has had, by number, where `early` is true, and else none.
pub(crate) fn served_where(
    alloc: Global,
    early: bool,
    run: &[PackedEvent],
) -> Result<Vec<u64>, Memory>
    requires { (k : Fraction) × ((J : Instance) × IsRunOf k run.now J) }
    ensures { (k : Fraction) (J : Instance) → IsRunOf k run.now J → early ≡ true
        → IfOk result (λ served. served.items ≡ observed.served J) }
{
    if !early {
        return Ok(Vec::new(alloc));
    }
    let jobs = released(alloc, run)?;
    served(alloc, &jobs, run)
}

/// Those that these steps complete with work left, where `early` is true, and else none.
pub(crate) fn early_where(alloc: Global, early: bool, run: &[PackedEvent]) -> Result<Early, Memory>
    requires { (k : Fraction) × ((J : Instance) × IsRunOf k run.now J) }
    ensures { (k : Fraction) (J : Instance) → IsRunOf k run.now J → early ≡ true
        → IfOk result (λ it. it ≡ early_of (jobs_released run.now) (observed.served J) run.now) }
{
    if !early {
        return Ok(Early { jobs: 0, left: 0 });
    }
    let jobs = released(alloc, run)?;
    let served = served(alloc, &jobs, run)?;
    Ok(Early::of(&jobs, &served, run))
}

/// Appends their line, where `early` is true.
pub(crate) fn put_early(text: &mut Vec<u8>, early: bool, it: Early) -> Result<(), Memory>
    ensures { OnOk result (text.new.items ≡ text.old.items ++ in_lines (lines.lines_where early it)) }
{
    if early {
        return put_line(text, b"early", &[it.jobs, it.left]);
    }
    Ok(())
}

/// The ticks that the job of this number had, where `early` is true.
pub(crate) fn had_at(early: bool, served: &[u64], number: usize) -> Option<u64>
    ensures { result ≡ lines.had_at early served.now number }
{
    if early {
        return Some(had_of(served, number));
    }
    None
}

/// The ticks that the job of this number had, 0 for none.
fn had_of(served: &[u64], number: usize) -> u64
    ensures { result ≡ slice_index_or served.now number 0 }
{
    match served.get(number) {
        Some(had) => *had,
        None => 0,
    }
}

/// The work that is left of the job that a step completes, in ticks, and 0 for another step.
pub(crate) fn left_at(jobs: &[Job], served: &[u64], event: &PackedEvent) -> u64
    ensures is { result ≡ left_at jobs.now served.now event.now }
    ensures modest { result ≤ most_work }
{
    match event.event() {
        Event::Complete { number, .. } => left_of(jobs, served, number as usize),
        _ => 0,
    }
}

/// The work that is left of the job of this number, in ticks, by the ticks that the jobs had; 0 where there is none.
fn left_of(jobs: &[Job], served: &[u64], number: usize) -> u64
    ensures is { result ≡ left_in jobs.now served.now number }
    ensures modest { result ≤ most_work }
{
    match jobs.get(number) {
        Some(job) => job.work().saturating_sub(had_of(served, number)),
        None => 0,
    }
}
