//! Earliest deadline first, from one release or completion to the next.
ghost use Rattle.std.specs.Prelude.{◌≡◌, ◌+◌, ◌^◌, ◌<◌, ◌≤◌, ◌⊎◌, length, IfOk, OnOk};
ghost use Rattle.std.specs.Bool.{OnTrue, OnFalse};
ghost use Rattle.dover_model.specs.Common.{IsInOrder, last_deadline, last_tick_in, most_jobs};
ghost use Rattle.dover_model.specs.declared.events.Version.TheVariants.{Two};
ghost use Rattle.clairvoyant.specs.feasible.Progress.{StandsAt, HasFew, IsPending, NoneBefore, RunsUntil, IsWhole};
ghost use Rattle.clairvoyant.specs.feasible.Progress.{with_late};
ghost use Rattle.clairvoyant.specs.feasible.Queue.{IsFirst};

use crate::feasible::pieces::add_piece;
use crate::feasible::queue::{DueJob, DueQueue};
use dover_model::{Job, Memory, Piece};
use std::alloc::Global;

/// Where the schedule stands at a tick.
#[derive(Drop)]
pub struct Simulation {
    /// The tick.
    pub clock: u64,
    /// The jobs that are released by now and not done.
    pub queue: DueQueue,
    /// The stretches of the schedule so far.
    pub pieces: Vec<Piece>,
    /// The least deadline of a job that ran although it can't be done in time.
    pub late: Option<u64>,
}

impl Simulation {
    /// Makes the jobs ready that are released by now.
    fn release(&mut self, jobs: &[Job]) -> Result<(), Memory>
        requires order { IsInOrder jobs.now }
        requires count { length jobs.now ≤ most_jobs Two }
        requires due { last_deadline jobs.now ≤ last_tick_in Two }
        requires stands { StandsAt jobs.now self.old self.old.clock }
        ensures stands { OnOk result (StandsAt jobs.now self.new (self.new.clock + 1)) }
        ensures clock { self.new.clock ≡ self.old.clock }
        ensures rises { self.old.queue.released ≤ self.new.queue.released }
        ensures few { OnOk result (length self.new.pieces.items + length self.new.queue.kept + self.old.queue.released
            ≤ length self.old.pieces.items + length self.old.queue.kept + self.new.queue.released) }
        ensures moves { IsPending jobs.now self.old.clock self.old.queue.released
            → OnOk result (self.old.queue.released < self.new.queue.released) }
    {
        while let Some(job) = jobs.get(self.queue.released()) {
            if self.clock < job.release() {
                break;
            }
            self.queue.release(job.deadline(), job.work())?;
        }
        Ok(())
    }

    /// The tick to which a job runs that has `left` ticks left: its end, or the next release.
    fn until(&self, jobs: &[Job], left: u64) -> u64
        requires some { 1 ≤ left }
        requires fits { self.now.clock + left < 2 ^ 64 }
        requires none { NoneBefore jobs.now (self.now.clock + 1) self.now.queue.released }
        ensures { RunsUntil jobs.now self.now.clock self.now.queue.released left result }
    {
        let done = self.clock + left;
        match jobs.get(self.queue.released()) {
            Some(next) => done.min(next.release()),
            None => done,
        }
    }

    /// Runs the job that is due first to its end or to the next release.
    fn run(&mut self, jobs: &[Job], job: DueJob) -> Result<(), Memory>
        requires order { IsInOrder jobs.now }
        requires count { length jobs.now ≤ most_jobs Two }
        requires stands { StandsAt jobs.now self.old (self.old.clock + 1) }
        requires first { IsFirst ((job.deadline, job.number), job.left) self.old.queue.kept }
        ensures stands { OnOk result (StandsAt jobs.now self.new self.new.clock) }
        ensures later { OnOk result (self.old.clock < self.new.clock) }
        ensures released { self.new.queue.released ≡ self.old.queue.released }
        ensures few { OnOk result (
            (length self.new.pieces.items + length self.new.queue.kept
            ≤ length self.old.pieces.items + length self.old.queue.kept)
            ⊎ ((length self.new.pieces.items + length self.new.queue.kept
            ≤ length self.old.pieces.items + length self.old.queue.kept + 1)
            × IsPending jobs.now self.new.clock self.new.queue.released)) }
    {
        let done = self.clock + job.left;
        let until = self.until(jobs, job.left);
        add_piece(
            &mut self.pieces,
            Piece {
                from: self.clock,
                until,
                number: job.number,
            },
        )?;
        self.queue.leave(job.number, done - until);
        self.late = with_late(self.late, job.deadline, done);
        self.clock = until;
        Ok(())
    }

    /// Goes on to the next release or completion. False where there is neither.
    fn step(&mut self, jobs: &[Job]) -> Result<bool, Memory>
        requires order { IsInOrder jobs.now }
        requires count { length jobs.now ≤ most_jobs Two }
        requires due { last_deadline jobs.now ≤ last_tick_in Two }
        requires stands { StandsAt jobs.now self.old (self.old.clock + 1) }
        requires few { HasFew self.old }
        ensures stands { IfOk result (λ more. OnTrue more (StandsAt jobs.now self.new (self.new.clock + 1))) }
        ensures few { IfOk result (λ more. OnTrue more (HasFew self.new)) }
        ensures later { IfOk result (λ more. OnTrue more (self.old.clock < self.new.clock)) }
        ensures whole { IfOk result (λ more. OnFalse more (IsWhole jobs.now self.new.pieces.items self.new.late)) }
    {
        match self.queue.first() {
            Some(job) => self.run(jobs, job)?,
            None => match jobs.get(self.queue.released()) {
                Some(next) => self.clock = next.release(),
                None => return Ok(false),
            },
        }
        self.release(jobs)?;
        Ok(true)
    }
}

/// The least deadline of a late job, where a job of this deadline is done at the tick `done` at the earliest.
fn with_late(late: Option<u64>, deadline: u64, done: u64) -> Option<u64>
    ensures { result ≡ with_late late deadline done }
{
    if done <= deadline {
        return late;
    }
    Some(late.map_or(deadline, |least| least.min(deadline)))
}

/// The whole schedule.
///
/// # Errors
///
/// `Memory` where there is none.
pub fn simulate(alloc: Global, jobs: &[Job]) -> Result<Simulation, Memory>
    requires order { IsInOrder jobs.now }
    requires count { length jobs.now ≤ most_jobs Two }
    requires due { last_deadline jobs.now ≤ last_tick_in Two }
    ensures { IfOk result (λ s. IsWhole jobs.now s.pieces.items s.late) }
{
    let mut simulation = Simulation {
        clock: 0,
        queue: DueQueue::new(alloc),
        pieces: Vec::new(alloc),
        late: None,
    };
    simulation.release(jobs)?;
    while simulation.step(jobs)? {}
    Ok(simulation)
}
