//! A feed whose jobs may finish early, served again once its end was read.
ghost use Rattle.std.specs.Prelude.{◌≡◌, ◌≤◌, ℕ, [], IfOk, OnOk, length, get_or, false};
ghost use Rattle.dover_model.specs.Common.{Instance, IsListable, IsValid, with_jobs, no_jobs, observed};
ghost use Rattle.dover_model.specs.Common.{completed_value, printed, CostsAtMost};
ghost use Rattle.dover_model.specs.declared.horizon.Horizon.{Horizon};
ghost use Rattle.dover_model.specs.declared.horizon.Horizon.TheVariants.{Mark};
ghost use Rattle.event_feed.specs.Listing.{listed_instance, StandAmong};
ghost use Rattle.ready_server.specs.Running.{HasShown, CanFeed, HasFed};
ghost use Rattle.ready_server.specs.Serving.{HasPaid};
ghost use Rattle.question_words.specs.Loss.{is_completed};
ghost use Rattle.question_words.specs.Replaying.{HasRecorded, with_work, job_seen, jobs_seen};
ghost use Rattle.question_words.specs.Watching.{HasSeen};

use crate::completing::Completion;
use comparison_count::Comparisons;
use dover_model::{Event, Horizon, Job, Memory, PackedEvent};
use event_feed::Listed;
use ready_server::{ReadyServer, Watcher, finish_job, serve_jobs, show_to};
use run_record::ledger::served;
use std::alloc::Global;
use std::sync::ledger::Ledger;

/// The printed steps of a run, and whether one was lost for want of memory.
#[derive(Drop)]
struct Recorded {
    events: Vec<PackedEvent>,
    lost: bool,
}

impl Watcher for Recorded {
    ghost seen = { HasRecorded };

    fn see(&mut self, event: &Event) {
        match self.events.push(PackedEvent::new(event)) {
            Ok(()) => {}
            Err(_) => self.lost = true,
        }
    }
}

/// Serves some jobs.
fn serve_part<L: Ledger>(
    server: &mut ReadyServer,
    part: &[Job],
    run: &mut Recorded,
    comparisons: &mut Comparisons<L>,
) -> Result<(), Memory>
    requires { (J : Instance) × (from : Horizon) × HasShown HasRecorded server.old run.old J from
        × CanFeed J from part.now }
    ensures fed { (J : Instance) (from : Horizon) → HasShown HasRecorded server.old run.old J from
        → CanFeed J from part.now → OnOk result (HasFed HasRecorded server.new run.new J from part.now) }
    ensures paid { (start : ℕ) → HasPaid server.old start comparisons.old → HasPaid server.new start comparisons.new }
    ensures count { (J : Instance) (from : Horizon) (start : ℕ) → HasShown HasRecorded server.old run.old J from
        → CanFeed J from part.now → HasPaid server.old start comparisons.old
        → CostsAtMost (length (with_jobs J part.now).jobs) start comparisons.new }
{
    let mut jobs = part;
    serve_jobs::<&[Job], Recorded, L>(server, &mut jobs, run, comparisons)
}

/// Serves the listed jobs, with their finishes, to the end of their run. No job was served before.
fn serve_listed<L: Ledger>(
    server: &mut ReadyServer,
    listed: &Listed,
    run: &mut Recorded,
    comparisons: &mut Comparisons<L>,
) -> Result<(), Memory>
    requires valid { IsValid (listed_instance listed.now) }
    requires among { StandAmong listed.now.jobs.items listed.now.done_lines.items }
    requires begins { HasShown HasRecorded server.old run.old (no_jobs listed.now.version listed.now.ratio) (Mark 0) }
    requires paid { HasPaid server.old comparisons.old comparisons.old }
    ensures run { OnOk result (HasRecorded run.new (printed (listed_instance listed.now))) }
    ensures count { CostsAtMost (length listed.now.jobs.items) comparisons.old comparisons.new }
{
    ReadyServer::laws();
    let mut count = 0;
    for done in &listed.done_lines {
        serve_part(server, &listed.jobs[count..done.behind], run, comparisons)?;
        finish_job(server, done.at, done.number, run, comparisons);
        count = done.behind;
    }
    serve_part(server, &listed.jobs[count..], run, comparisons)?;
    show_to(server, Horizon::End, run, comparisons);
    Ok(())
}

/// Serves the listed jobs, with their finishes, by a server of their own.
fn serve_alone<L: Ledger>(
    alloc: Global,
    listed: &Listed,
    run: &mut Recorded,
    comparisons: &mut Comparisons<L>,
) -> Result<(), Memory>
    requires valid { IsValid (listed_instance listed.now) }
    requires among { StandAmong listed.now.jobs.items listed.now.done_lines.items }
    requires begins { HasRecorded run.old [] }
    ensures run { OnOk result (HasRecorded run.new (printed (listed_instance listed.now))) }
    ensures count { CostsAtMost (length listed.now.jobs.items) comparisons.old comparisons.new }
{
    let mut server = ReadyServer::new(alloc, listed.version, listed.ratio)?;
    serve_listed(&mut server, listed, run, comparisons)
}

/// The printed steps of the run of the listed jobs, with their finishes. Memory is taken for the steps, and for the
/// jobs that are ready at once.
///
/// # Errors
///
/// `Memory` where there is none.
fn record<L: Ledger>(
    alloc: Global,
    listed: &Listed,
    comparisons: &mut Comparisons<L>,
) -> Result<Vec<PackedEvent>, Memory>
    requires valid { IsValid (listed_instance listed.now) }
    requires among { StandAmong listed.now.jobs.items listed.now.done_lines.items }
    ensures run { IfOk result (λ events. events.items ≡ printed (listed_instance listed.now)) }
    ensures count { CostsAtMost (length listed.now.jobs.items) comparisons.old comparisons.new }
{
    let mut run = Recorded {
        events: Vec::new(alloc),
        lost: false,
    };
    serve_alone(alloc, listed, &mut run, comparisons)?;
    if run.lost {
        return Err(Memory);
    }
    Ok(run.events)
}

/// What these steps complete, of so many jobs.
fn completed_by(alloc: Global, run: &[PackedEvent], count: usize) -> Result<Completion, Memory>
    requires { length run.now ≤ 5_000_001 }
    ensures seen { IfOk result (λ it. HasSeen it run.now) }
    ensures whole { IfOk result (λ it. it.lost ≡ false) }
{
    let mut completion = Completion::none(alloc, count)?;
    for event in run {
        completion.see(&event.event());
    }
    if completion.lost {
        return Err(Memory);
    }
    Ok(completion)
}

/// The job with so much work, if that is a job.
fn with_work(job: &Job, work: u64) -> Job
    ensures { result ≡ with_work work job.now }
{
    match Job::new(job.release(), work, job.deadline(), job.value()) {
        Some(seen) => seen,
        None => *job,
    }
}

/// The job of a number, with what it had if it is done.
fn job_seen(done: &[bool], served: &[u64], number: usize, job: &Job) -> Job
    ensures { result ≡ job_seen done.now served.now (number, job.now) }
{
    if done.get(number).copied().unwrap_or(false) {
        return with_work(job, served.get(number).copied().unwrap_or(0));
    }
    *job
}

/// The jobs, each with what it had if it is done.
fn jobs_seen(alloc: Global, done: &[bool], served: &[u64], jobs: &[Job]) -> Result<Vec<Job>, Memory>
    ensures { IfOk result (λ seen. seen.items ≡ jobs_seen done.now served.now jobs.now) }
{
    let mut seen = Vec::new(alloc);
    for (number, job) in jobs.iter().enumerate() {
        seen.push(job_seen(done, served, number, job))?;
    }
    Ok(seen)
}

/// What these steps of the run of the listed jobs complete, and the jobs as the run observed them. Memory is taken for
/// the jobs.
fn told_by(
    alloc: Global,
    listed: &Listed,
    run: &[PackedEvent],
) -> Result<(Completion, Vec<Job>), Memory>
    requires valid { IsValid (listed_instance listed.now) }
    requires listable { IsListable (listed_instance listed.now) }
    requires run { run.now ≡ printed (listed_instance listed.now) }
    ensures value { IfOk result (λ it. it.0.value ≡ completed_value (listed_instance listed.now)) }
    ensures done { IfOk result (λ it. (n : ℕ) →
        get_or it.0.done.items n false ≡ is_completed (listed_instance listed.now) n) }
    ensures jobs { IfOk result (λ it. it.1.items ≡ (observed (listed_instance listed.now)).jobs) }
{
    let completion = completed_by(alloc, run, listed.jobs.len())?;
    let served = served(alloc, &listed.jobs, run)?;
    let seen = jobs_seen(alloc, &completion.done, &served, &listed.jobs)?;
    Ok((completion, seen))
}

/// What the run of the listed jobs completes, with their finishes, and the jobs as it observed them. Memory is taken
/// for the printed steps, and for the jobs.
///
/// # Errors
///
/// `Memory` where there is none.
pub(crate) fn replayed<L: Ledger>(
    alloc: Global,
    listed: &Listed,
    comparisons: &mut Comparisons<L>,
) -> Result<(Completion, Vec<Job>), Memory>
    requires valid { IsValid (listed_instance listed.now) }
    requires listable { IsListable (listed_instance listed.now) }
    requires among { StandAmong listed.now.jobs.items listed.now.done_lines.items }
    ensures value { IfOk result (λ it. it.0.value ≡ completed_value (listed_instance listed.now)) }
    ensures done { IfOk result (λ it. (n : ℕ) →
        get_or it.0.done.items n false ≡ is_completed (listed_instance listed.now) n) }
    ensures jobs { IfOk result (λ it. it.1.items ≡ (observed (listed_instance listed.now)).jobs) }
    ensures count { CostsAtMost (length listed.now.jobs.items) comparisons.old comparisons.new }
{
    let run = record(alloc, listed, comparisons)?;
    told_by(alloc, listed, &run)
}
