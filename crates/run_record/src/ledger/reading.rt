//! What a fresh job's work is tested against, step by step.
ghost use Rattle.std.specs.Prelude.{◌≡◌, ◌≤◌, ◌<◌, ◌^◌, ◌++◌, IfOk, OnOk, length, map};
ghost use Rattle.std.specs.List.{AllByRecursion, enumerate_from};
ghost use Rattle.run_record.specs.intervals.Rows.{IsRunOf};
ghost use Rattle.run_record.specs.intervals.Rows as rows;
ghost use Rattle.dover_model.specs.declared.events.Role.TheVariants.{Coming};
ghost use Rattle.dover_model.specs.Common.{entry_of, Fraction, Instance, most_total};
ghost use Rattle.dover_model.specs.declared.events.Version.TheVariants.{Two};
ghost use Rattle.dover_model.specs.Observed as observed;
ghost use Rattle.run_record.specs.ledger.Pages.{entries_by, entries_of, had_in, page_of};
ghost use Rattle.run_record.specs.ledger.Rooms as tests;

use crate::ledger::under_way::JobsUnderWay;
use dover_model::{Entry, Event, Job, Memory, PackedEvent, Ratio};
use std::alloc::Global;

/// What the running and the held jobs are worth before each of the printed steps of a run, in one pass over them. The
/// jobs of the run are valid for the ratio `k`, and within the limits of version Two. Want of memory is the only error.
pub fn weights(alloc: Global, k: Ratio, run: &[PackedEvent]) -> Result<Vec<u64>, Memory>
    requires { (J : Instance) × IsRunOf k run.now J }
    ensures are { (J : Instance) → IsRunOf k run.now J → IfOk result (λ worths. worths.items ≡ rows.weights J) }
    ensures small { IfOk result (λ worths. AllByRecursion (λ worth. worth ≤ most_total Two) worths.items) }
{
    let mut under_way = before_run(alloc, run)?;
    let mut worths = Vec::new(alloc);
    for event in run {
        worths.push(under_way.worth())?;
        under_way.read(alloc, event)?;
    }
    Ok(worths)
}

/// At each printed step of a run that is a release or a preemption the room that the running and the held jobs leave a
/// fresh job, and at each other one 0, in one pass over the steps. The jobs of the run are valid for the ratio `k`, and
/// within the limits of version Two. Want of memory is the only error.
pub fn rooms(alloc: Global, k: Ratio, run: &[PackedEvent]) -> Result<Vec<u64>, Memory>
    requires { (J : Instance) × IsRunOf k run.now J }
    ensures { (J : Instance) → IsRunOf k run.now J → IfOk result (λ rooms. rooms.items ≡ tests.rooms J) }
{
    let mut under_way = before_run(alloc, run)?;
    let mut rooms = Vec::new(alloc);
    for event in run {
        rooms.push(under_way.room(event))?;
        under_way.read(alloc, event)?;
    }
    Ok(rooms)
}

/// How many ticks each job has had by the end of a run, by number, in one pass over its printed steps. The jobs of the
/// run are these, valid for some ratio, and within the limits of version Two. Want of memory is the only error.
pub fn served(alloc: Global, jobs: &[Job], run: &[PackedEvent]) -> Result<Vec<u64>, Memory>
    requires { (k : Fraction) × ((J : Instance) × IsRunOf k run.now J × (jobs.now ≡ J.jobs)) }
    ensures { (k : Fraction) (J : Instance) → IsRunOf k run.now J → jobs.now ≡ J.jobs
        → IfOk result (λ served. served.items ≡ observed.served J) }
{
    let mut under_way = before_run(alloc, run)?;
    for event in run {
        under_way.read(alloc, event)?;
    }
    had_by(alloc, jobs, &under_way)
}

/// The jobs that these steps release, by number, before the first of them.
pub(crate) fn before_run(alloc: Global, run: &[PackedEvent]) -> Result<JobsUnderWay, Memory>
    requires { length run.now < 2 ^ 32 }
    ensures { IfOk result (λ under_way. under_way ≡ page_of (entries_of run.now)) }
{
    let mut entries = Vec::new(alloc);
    for event in run {
        put_entry(&mut entries, event)?;
    }
    JobsUnderWay::new(alloc, entries)
}

/// Appends the job that a step releases, if it releases one, with the next number.
fn put_entry(entries: &mut Vec<Entry>, event: &PackedEvent) -> Result<(), Memory>
    requires { length entries.old.items < 2 ^ 32 }
    ensures { OnOk result (entries.new.items
        ≡ entries.old.items ++ entries_by (length entries.old.items) event.now) }
{
    if let Event::Release { job, .. } = event.event() {
        let entry = fresh(entries.len() as u32, &job);
        entries.push(entry)?;
    }
    Ok(())
}

/// How many ticks each job has had, where none runs.
fn had_by(alloc: Global, jobs: &[Job], under_way: &JobsUnderWay) -> Result<Vec<u64>, Memory>
    ensures { IfOk result (λ served. served.items ≡ map (had_in under_way.now.entries) (enumerate_from 0 jobs.now)) }
{
    let mut served = Vec::new(alloc);
    for (number, job) in jobs.iter().enumerate() {
        served.push(under_way.had(number, job))?;
    }
    Ok(served)
}

/// A job before it runs.
fn fresh(number: u32, job: &Job) -> Entry
    ensures { result ≡ entry_of (record { number = number; job = job.now; role = Coming; had = 0 }) }
{
    Entry {
        number,
        deadline: job.deadline(),
        latest: job.deadline().saturating_sub(job.work()),
        left: job.work(),
        value: job.value(),
    }
}
