//! A list of jobs, served to the end.
ghost use Rattle.std.specs.Prelude.{ℕ, [], ◌∷◌, length, OnOk};
ghost use Rattle.dover_model.specs.Common.{Instance, IsValid, with_jobs, jobs_under, printed, MayFollow, due_by};
ghost use Rattle.dover_model.specs.Common.{CostsAtMost};
ghost use Rattle.dover_model.specs.declared.horizon.Horizon.{Horizon};
ghost use Rattle.dover_model.specs.declared.horizon.Horizon.TheVariants.{Mark};
ghost use Rattle.ready_server.specs.Running.{HasShown, CanFeed, HasFed, finished_at};
ghost use Rattle.ready_server.specs.Serving.{Rests, HasPlace, HasPaid};

use crate::server::ReadyServer;
use crate::source::JobSource;
use crate::watcher::Watcher;
use comparison_count::Comparisons;
use dover_model::{Horizon, Job, Memory, Ratio, Version};
use std::alloc::Global;
use std::sync::ledger::Ledger;

/// Takes the run to a horizon, and shows each step that is printed on the way.
pub fn show_to<W: Watcher, L: Ledger>(
    server: &mut ReadyServer,
    to: Horizon,
    watcher: &mut W,
    comparisons: &mut Comparisons<L>,
)
    requires { (J : Instance) × (from : Horizon) × HasShown W.seen server.old watcher.old J from
        × MayFollow from to }
    ensures shown { (J : Instance) (from : Horizon) → HasShown W.seen server.old watcher.old J from
        → MayFollow from to → Rests server.new J to × W.seen watcher.new (due_by J to) }
    ensures room { HasPlace server.old → HasPlace server.new }
    ensures paid { (start : ℕ) → HasPaid server.old start comparisons.old → HasPaid server.new start comparisons.new }
{
    ReadyServer::laws();
    for _ in 0..u64::MAX {
        match server.step(to, comparisons) {
            Some(event) => watcher.see(&event),
            None => return,
        }
    }
    unreachable!()
}

/// Takes the run to a job's release, admits the job, for which there is room, and shows each step that is printed.
fn serve_job<W: Watcher, L: Ledger>(
    server: &mut ReadyServer,
    job: Job,
    watcher: &mut W,
    comparisons: &mut Comparisons<L>,
)
    requires room { HasPlace server.old }
    requires shown { (J : Instance) × (from : Horizon) × HasShown W.seen server.old watcher.old J from
        × MayFollow from (Mark job.release) × IsValid (with_jobs J (job ∷ [])) }
    ensures shown { (J : Instance) (from : Horizon) → HasShown W.seen server.old watcher.old J from
        → MayFollow from (Mark job.release) → IsValid (with_jobs J (job ∷ []))
        → HasShown W.seen server.new watcher.new (with_jobs J (job ∷ [])) (Mark job.release) }
    ensures paid { (start : ℕ) → HasPaid server.old start comparisons.old → HasPaid server.new start comparisons.new }
{
    ReadyServer::laws();
    show_to(server, Horizon::Mark(job.release()), watcher, comparisons);
    watcher.see(&server.admit(job));
}

/// Serves jobs of a list one by one, each at its release, and shows each step that is printed. Memory is taken for the
/// jobs that are ready at once.
///
/// # Errors
///
/// `Memory` where there is none.
pub fn serve_jobs<S: JobSource, W: Watcher, L: Ledger>(
    server: &mut ReadyServer,
    jobs: &mut S,
    watcher: &mut W,
    comparisons: &mut Comparisons<L>,
) -> Result<(), Memory>
    requires { (J : Instance) × (from : Horizon) × HasShown W.seen server.old watcher.old J from
        × CanFeed J from (S.jobs jobs.old) }
    ensures fed { (J : Instance) (from : Horizon) → HasShown W.seen server.old watcher.old J from
        → CanFeed J from (S.jobs jobs.old)
        → OnOk result (HasFed W.seen server.new watcher.new J from (S.jobs jobs.old)) }
    ensures paid { (start : ℕ) → HasPaid server.old start comparisons.old → HasPaid server.new start comparisons.new }
    ensures count { (J : Instance) (from : Horizon) (start : ℕ) → HasShown W.seen server.old watcher.old J from
        → CanFeed J from (S.jobs jobs.old) → HasPaid server.old start comparisons.old
        → CostsAtMost (length (with_jobs J (S.jobs jobs.old)).jobs) start comparisons.new }
{
    ReadyServer::laws();
    while let Some(job) = jobs.next_job() {
        server.make_room()?;
        serve_job(server, job, watcher, comparisons);
    }
    Ok(())
}

/// Takes the run to a tick, at which the job of a number finishes if that is right, and shows each printed step.
pub fn finish_job<W: Watcher, L: Ledger>(
    server: &mut ReadyServer,
    at: u64,
    number: u64,
    watcher: &mut W,
    comparisons: &mut Comparisons<L>,
)
    requires { (J : Instance) × (from : Horizon) × HasShown W.seen server.old watcher.old J from
        × MayFollow from (Mark at) }
    ensures shown { (J : Instance) (from : Horizon) → HasShown W.seen server.old watcher.old J from
        → MayFollow from (Mark at) → HasShown W.seen server.new watcher.new (finished_at J at number) (Mark at) }
    ensures paid { (start : ℕ) → HasPaid server.old start comparisons.old → HasPaid server.new start comparisons.new }
{
    ReadyServer::laws();
    show_to(server, Horizon::Mark(at), watcher, comparisons);
    if let Some(event) = server.finish(at, number) {
        watcher.see(&event);
    }
}

/// Serves the jobs of a list, which are valid, to the end, and shows each printed step of their run. Memory is taken
/// for the jobs that are ready at once.
///
/// # Errors
///
/// `Memory` where there is none.
pub fn run_list<S: JobSource, W: Watcher, L: Ledger>(
    alloc: Global,
    version: Version,
    k: Ratio,
    jobs: &mut S,
    watcher: &mut W,
    comparisons: &mut Comparisons<L>,
) -> Result<(), Memory>
    requires valid { IsValid (jobs_under version k (S.jobs jobs.old)) }
    requires unseen { W.seen watcher.old [] }
    ensures seen { OnOk result (W.seen watcher.new (printed (jobs_under version k (S.jobs jobs.old)))) }
    ensures count { CostsAtMost (length (S.jobs jobs.old)) comparisons.old comparisons.new }
{
    ReadyServer::laws();
    let mut server = ReadyServer::new(alloc, version, k)?;
    serve_jobs(&mut server, jobs, watcher, comparisons)?;
    show_to(&mut server, Horizon::End, watcher, comparisons);
    Ok(())
}
