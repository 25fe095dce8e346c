//! A policy's run under way, from one release or completion to the next.
ghost use Rattle.std.specs.Prelude.{◌≡◌, ◌≤◌, ◌<◌, ◌+◌, ◌^◌, ◌∷◌, [], length, slice_get, Some, IsPermutation};
ghost use Rattle.std.specs.Prelude.{IfOk, OnOk, IfSome, IfNone};
ghost use Rattle.std.specs.Bool.{OnTrue, OnFalse};
ghost use Rattle.std.specs.BinaryHeap.{heap_items, IsHeap, KeepsHeap};
ghost use Rattle.dover_model.specs.declared.events.Version.TheVariants.{Two};
ghost use Rattle.dover_model.specs.Common.{idle, most_total, most_jobs, JobFacts, IsJob, IsInOrder, total_value};
ghost use Rattle.dover_model.specs.Common.{Each};
ghost use Rattle.clairvoyant.specs.feasible.Progress.{NoneBefore};
ghost use Rattle.policy_lab.specs.Ranks.{turn_by};
ghost use Rattle.policy_lab.specs.Bench.{entry_with, kept_of, turn_cmp, tasks_at, IsNext, HasEnded};
ghost use Rattle.policy_lab.specs.Standing.{StandsAt};

use crate::policy::Policy;
use crate::tally::Tally;
use clairvoyant::feasible::add_piece;
use dover_model::{Entry, Job, Memory, Piece};
use std::alloc::Global;
use std::cmp::Reverse;
use std::collections::BinaryHeap;

/// What one of a rank counts for in a turn: there are fewer numbers.
const NUMBERS: u128 = 1 << 20;

/// What a run has come to before a tick.
#[derive(Drop)]
pub struct Bench {
    /// The tick.
    pub clock: u64,
    /// How many jobs are released.
    pub released: usize,
    /// Those of them that have work left, but for some that can't be done in time any more.
    pub waiting: BinaryHeap<Reverse<(u128, u64)>>,
    /// What the run has come to in numbers.
    pub tally: Tally,
    /// The stretches so far.
    pub pieces: Vec<Piece>,
}

/// Puts a job into the queue, of which so much is left.
fn put<P: Policy>(
    waiting: &mut BinaryHeap<Reverse<(u128, u64)>>,
    policy: &P,
    number: u32,
    job: &Job,
    left: u64,
) -> Result<(), Memory>
    requires few { number < 2 ^ 20 }
    requires some { 1 ≤ left }
    requires fits { left ≤ job.now.work }
    ensures { OnOk result (
        (IsPermutation
        ((turn_by (P.ranks policy.now) (entry_with number left job.now), left) ∷ kept_of (heap_items waiting.old))
        (kept_of (heap_items waiting.new)))
        × KeepsHeap turn_cmp (heap_items waiting.old) (heap_items waiting.new)) }
{
    let deadline = job.deadline();
    let entry = Entry {
        number,
        deadline,
        latest: deadline - left,
        left,
        value: job.value(),
    };
    let turn = policy.rank(&entry) * NUMBERS + u128::from(number);
    waiting.push(Reverse((turn, left)))?;
    Ok(())
}

impl Bench {
    /// Before the first tick.
    fn new(alloc: Global) -> Bench
        ensures clock { result.clock ≡ 0 }
        ensures released { result.released ≡ 0 }
        ensures waiting { heap_items result.waiting ≡ [] }
        ensures ordered { IsHeap turn_cmp (heap_items result.waiting) }
        ensures tally { result.tally ≡ record { value = 0; completed = 0; stops = 0; last = idle } }
        ensures pieces { result.pieces.items ≡ [] }
    {
        Bench {
            clock: 0,
            released: 0,
            waiting: BinaryHeap::new(alloc),
            tally: Tally::none(),
            pieces: Vec::new(alloc),
        }
    }

    /// Makes the jobs ready that are released by now.
    fn release<P: Policy>(&mut self, policy: &P, jobs: &[Job]) -> Result<(), Memory>
        requires in_order { IsInOrder jobs.now }
        requires each { Each IsJob jobs.now }
        requires count { length jobs.now ≤ most_jobs Two }
        requires run { StandsAt (P.picks policy.now) (P.ranks policy.now) jobs.now self.old.clock idle self.old }
        ensures run { OnOk result
            (StandsAt (P.picks policy.now) (P.ranks policy.now) jobs.now (self.new.clock + 1) idle self.new) }
        ensures clock { self.new.clock ≡ self.old.clock }
    {
        while let Some(job) = jobs.get(self.released) {
            if self.clock < job.release() {
                break;
            }
            put(
                &mut self.waiting,
                policy,
                self.released as u32,
                job,
                job.work(),
            )?;
            self.released += 1;
        }
        Ok(())
    }

    /// Takes out the first of the jobs that can still be done in time, and lets those go before it that can't: its
    /// number, and what is left of it.
    fn take_first<P: Policy>(&mut self, _policy: &P, jobs: &[Job]) -> Option<(u32, u64)>
        requires in_order { IsInOrder jobs.now }
        requires each { Each IsJob jobs.now }
        requires count { length jobs.now ≤ most_jobs Two }
        requires run { StandsAt (P.picks _policy.now) (P.ranks _policy.now) jobs.now
            (self.old.clock + 1) idle self.old }
        ensures clock { self.new.clock ≡ self.old.clock }
        ensures released { self.new.released ≡ self.old.released }
        ensures some { IfSome result (λ x.
            StandsAt (P.picks _policy.now) (P.ranks _policy.now) jobs.now (self.new.clock + 1) x.0 self.new) }
        ensures next { IfSome result (λ x. IsNext (P.ranks _policy.now) self.new.clock self.new.released x.0 x.1
            (tasks_at (P.picks _policy.now) jobs.now self.new.clock)) }
        ensures none { IfNone result
            (StandsAt (P.picks _policy.now) (P.ranks _policy.now) jobs.now (self.new.clock + 1) idle self.new) }
        ensures empty { IfNone result (heap_items self.new.waiting ≡ []) }
    {
        while let Some(Reverse((turn, left))) = self.waiting.pop() {
            let number = (turn % NUMBERS) as u32;
            let latest = jobs[number as usize].deadline() - left;
            if self.clock <= latest {
                return Some((number, left));
            }
        }
        None
    }

    /// The tick to which a job runs that has `left` ticks left: its end, or the next release.
    fn until(&self, jobs: &[Job], left: u64) -> u64
        requires some { 1 ≤ left }
        requires fits { self.now.clock + left < 2 ^ 64 }
        requires later { (j : JobFacts) → slice_get jobs.now self.now.released ≡ Some j → self.now.clock < j.release }
        ensures later { self.now.clock < result }
        ensures within { result ≤ self.now.clock + left }
        ensures none { NoneBefore jobs.now result self.now.released }
    {
        let done = self.clock + left;
        match jobs.get(self.released) {
            Some(next) => done.min(next.release()),
            None => done,
        }
    }

    /// Runs the job of this number, which is out of the queue and has so much left, to its end or to the next release.
    fn run<P: Policy>(
        &mut self,
        policy: &P,
        jobs: &[Job],
        number: u32,
        left: u64,
    ) -> Result<(), Memory>
        requires in_order { IsInOrder jobs.now }
        requires each { Each IsJob jobs.now }
        requires count { length jobs.now ≤ most_jobs Two }
        requires total { total_value jobs.now ≤ most_total Two }
        requires run { StandsAt (P.picks policy.now) (P.ranks policy.now) jobs.now
            (self.old.clock + 1) number self.old }
        requires next { IsNext (P.ranks policy.now) self.old.clock self.old.released number left
            (tasks_at (P.picks policy.now) jobs.now self.old.clock) }
        ensures run { OnOk result
            (StandsAt (P.picks policy.now) (P.ranks policy.now) jobs.now self.new.clock idle self.new) }
        ensures later { OnOk result (self.old.clock < self.new.clock) }
    {
        let until = self.until(jobs, left);
        let from = self.clock;
        let piece = Piece {
            from,
            until,
            number,
        };
        match add_piece(&mut self.pieces, piece) {
            Ok(()) => {}
            Err(Memory) => return Err(Memory),
        }
        self.clock = until;
        let job = &jobs[number as usize];
        if until - from == left {
            self.tally.complete(number, job.value());
            return Ok(());
        }
        self.tally.run(number);
        let rest = left - (until - from);
        put(&mut self.waiting, policy, number, job, rest)
    }

    /// Goes to the next release. False where there is none.
    fn wait<P: Policy>(&mut self, _policy: &P, jobs: &[Job]) -> bool
        requires in_order { IsInOrder jobs.now }
        requires each { Each IsJob jobs.now }
        requires count { length jobs.now ≤ most_jobs Two }
        requires run { StandsAt (P.picks _policy.now) (P.ranks _policy.now) jobs.now
            (self.old.clock + 1) idle self.old }
        requires empty { heap_items self.old.waiting ≡ [] }
        ensures run { OnTrue result
            (StandsAt (P.picks _policy.now) (P.ranks _policy.now) jobs.now self.new.clock idle self.new) }
        ensures later { OnTrue result (self.old.clock < self.new.clock) }
        ensures ends { OnFalse result
            (HasEnded (P.picks _policy.now) jobs.now self.new.tally self.new.pieces.items) }
    {
        match jobs.get(self.released) {
            Some(next) => {
                self.clock = next.release();
                true
            }
            None => false,
        }
    }

    /// Makes the jobs ready that are released by now, and goes on to the next release or completion. False where there
    /// is neither.
    fn step<P: Policy>(&mut self, policy: &P, jobs: &[Job]) -> Result<bool, Memory>
        requires in_order { IsInOrder jobs.now }
        requires each { Each IsJob jobs.now }
        requires count { length jobs.now ≤ most_jobs Two }
        requires total { total_value jobs.now ≤ most_total Two }
        requires run { StandsAt (P.picks policy.now) (P.ranks policy.now) jobs.now self.old.clock idle self.old }
        ensures run { IfOk result (λ more. OnTrue more
            (StandsAt (P.picks policy.now) (P.ranks policy.now) jobs.now self.new.clock idle self.new)) }
        ensures later { IfOk result (λ more. OnTrue more (self.old.clock < self.new.clock)) }
        ensures ends { IfOk result (λ more. OnFalse more
            (HasEnded (P.picks policy.now) jobs.now self.new.tally self.new.pieces.items)) }
    {
        match self.release(policy, jobs) {
            Ok(()) => {}
            Err(Memory) => return Err(Memory),
        }
        match self.take_first(policy, jobs) {
            Some((number, left)) => match self.run(policy, jobs, number, left) {
                Ok(()) => Ok(true),
                Err(Memory) => Err(Memory),
            },
            None => Ok(self.wait(policy, jobs)),
        }
    }
}

/// What the policy's schedule comes to in numbers, and its stretches.
///
/// # Errors
///
/// `Memory` where there is none.
pub fn run_events<P: Policy>(
    alloc: Global,
    policy: &P,
    jobs: &[Job],
) -> Result<(Tally, Vec<Piece>), Memory>
    requires in_order { IsInOrder jobs.now }
    requires each { Each IsJob jobs.now }
    requires count { length jobs.now ≤ most_jobs Two }
    requires total { total_value jobs.now ≤ most_total Two }
    ensures { IfOk result (λ outcome. HasEnded (P.picks policy.now) jobs.now outcome.0 outcome.1.items) }
{
    let mut bench = Bench::new(alloc);
    while bench.step(policy, jobs)? {}
    let Bench {
        clock: _,
        released: _,
        waiting: _,
        tally,
        pieces,
    } = bench;
    Ok((tally, pieces))
}
