//! A schedule so far.
ghost use Rattle.std.specs.Prelude.{◌≡◌};
ghost use Rattle.std.specs.Option.{option_or};
ghost use Rattle.schedule_judge.specs.Legal as legal;

use crate::causes::Cause;
use crate::jobs::{JobState, ToldJob, are_over, completed_value, fresh, may_run, settle, use_up};
use dover_model::{Event, Job, Memory, PackedEvent};
use std::alloc::Global;
use std::marker::Model;

/// The job that runs, and from which tick.
#[derive(Clone, Copy)]
pub struct Turn {
    /// Its number.
    pub number: u32,
    /// The tick from which it has the processor.
    pub from: u64,
}

/// A schedule so far: its jobs by number, the one that runs, the tick of the last line that has one, and the steps.
#[derive(Drop)]
pub(crate) struct Book {
    jobs: Vec<ToldJob>,
    turn: Option<Turn>,
    clock: u64,
    steps: Vec<PackedEvent>,
}

impl Model for Book {
    ghost use Rattle.schedule_judge.specs.Legal.{Schedule};

    ghost Value = { Schedule };

    ghost view = { λ b. record { jobs = b.jobs.items; turn = b.turn; clock = b.clock; steps = b.steps.items } };
}

/// Why a job that has the processor from a tick on can't have run up to another one.
fn ran_cause(told: &ToldJob, from: u64, at: u64) -> Option<Cause>
    ensures { result ≡ legal.ran_cause told.now from at }
{
    if told.job.deadline() < at {
        return Some(Cause::Late);
    }
    if told.left < at.saturating_sub(from) {
        return Some(Cause::Work);
    }
    None
}

/// The cause, where this doesn't hold.
fn unless(holds: bool, cause: Cause) -> Option<Cause>
    ensures { result ≡ legal.unless holds cause }
{
    if holds { None } else { Some(cause) }
}

/// The first of two causes.
fn first_of(one: Option<Cause>, other: Option<Cause>) -> Option<Cause>
    ensures { result ≡ option_or one other }
{
    match one {
        Some(cause) => Some(cause),
        None => other,
    }
}

impl Book {
    ghost use Rattle.std.specs.Prelude.{◌≡◌, ◌<◌, length, OnOk};

    /// No line came yet.
    pub(crate) fn new(alloc: Global) -> Book
        ensures { result ≡ legal.blank }
    {
        Book {
            jobs: Vec::new(alloc),
            turn: None,
            clock: 0,
            steps: Vec::new(alloc),
        }
    }

    /// How many jobs are released.
    pub(crate) fn count(&self) -> usize
        ensures { result ≡ length self.now.jobs }
    {
        self.jobs.len()
    }

    /// The steps.
    pub(crate) fn into_steps(self) -> Vec<PackedEvent>
        ensures { result.items ≡ self.steps }
    {
        self.steps
    }

    /// Why the job that runs, if one does, can't have run up to this tick.
    fn turn_cause(&self, at: u64) -> Option<Cause>
        ensures { result ≡ legal.turn_cause self.now at }
    {
        let Some(turn) = self.turn else {
            return None;
        };
        match self.jobs.get(turn.number as usize) {
            Some(told) => ran_cause(told, turn.from, at),
            None => None,
        }
    }

    /// Why no line can have this tick.
    fn tick_cause(&self, at: u64) -> Option<Cause>
        ensures { result ≡ legal.tick_cause self.now at }
    {
        if at < self.clock {
            return Some(Cause::Order);
        }
        self.turn_cause(at)
    }

    /// The job of this number runs.
    fn runs(&self, number: u32) -> bool
        ensures { result ≡ legal.runs self.now number }
    {
        match self.turn {
            Some(turn) => turn.number == number,
            None => false,
        }
    }

    /// No job runs.
    fn is_idle(&self) -> bool
        ensures { result ≡ legal.is_idle self.now }
    {
        self.turn.is_none()
    }

    /// The job of this number has no work left at this tick, if it runs from a tick on.
    fn is_served(&self, at: u64, number: u32) -> bool
        ensures { result ≡ legal.is_served self.now at number }
    {
        let Some(turn) = self.turn else {
            return false;
        };
        match self.jobs.get(number as usize) {
            Some(told) => told.left <= at.saturating_sub(turn.from),
            None => false,
        }
    }

    /// Why this job can't run now.
    fn run_cause(&self, number: u32) -> Option<Cause>
        ensures { result ≡ legal.run_cause self.now number }
    {
        first_of(
            unless(self.is_idle(), Cause::Busy),
            unless(may_run(&self.jobs, number), Cause::Job),
        )
    }

    /// Why this job can't take the processor from that one now.
    fn switch_cause(&self, stops: u32, starts: u32) -> Option<Cause>
        ensures { result ≡ legal.switch_cause self.now stops starts }
    {
        first_of(
            unless(self.runs(stops), Cause::Turn),
            first_of(
                unless(may_run(&self.jobs, starts), Cause::Job),
                unless(stops != starts, Cause::Job),
            ),
        )
    }

    /// Why this job can't complete at this tick.
    fn complete_cause(&self, at: u64, number: u32) -> Option<Cause>
        ensures { result ≡ legal.complete_cause self.now at number }
    {
        first_of(
            unless(self.runs(number), Cause::Turn),
            unless(self.is_served(at, number), Cause::Early),
        )
    }

    /// The job of this number is past its deadline at this tick.
    fn is_past(&self, at: u64, number: u32) -> bool
        ensures { result ≡ legal.is_past self.now.jobs at number }
    {
        match self.jobs.get(number as usize) {
            Some(told) => told.job.deadline() < at,
            None => false,
        }
    }

    /// Why this job can't be abandoned at this tick.
    fn abandon_cause(&self, at: u64, number: u32) -> Option<Cause>
        ensures { result ≡ legal.abandon_cause self.now at number }
    {
        first_of(
            unless(!self.is_past(at, number), Cause::Late),
            unless(may_run(&self.jobs, number), Cause::Job),
        )
    }

    /// Why the schedule can't end with this value.
    fn end_cause(&self, value: u64) -> Option<Cause>
        ensures { result ≡ legal.end_cause self.now value }
    {
        first_of(
            unless(are_over(&self.jobs), Cause::Open),
            unless(
                completed_value(&self.jobs) == u128::from(value),
                Cause::Value,
            ),
        )
    }

    /// Why a step can't come next, if it can't: the first cause.
    pub(crate) fn cause(&self, event: &Event) -> Option<Cause>
        ensures { result ≡ legal.cause_of self.now event.now }
    {
        match event {
            Event::Release { number, job } => first_of(
                self.tick_cause(job.release()),
                unless(*number as usize == self.jobs.len(), Cause::Number),
            ),
            Event::Run { at, number } => first_of(self.tick_cause(*at), self.run_cause(*number)),
            Event::Preempt { at, stops, starts } => {
                first_of(self.tick_cause(*at), self.switch_cause(*stops, *starts))
            }
            Event::Take { at, stops, starts } => {
                first_of(self.tick_cause(*at), self.switch_cause(*stops, *starts))
            }
            Event::Complete { at, number } => {
                first_of(self.tick_cause(*at), self.complete_cause(*at, *number))
            }
            Event::Abandon { at, number } => {
                first_of(self.tick_cause(*at), self.abandon_cause(*at, *number))
            }
            Event::End { value } => self.end_cause(*value),
        }
    }

    /// The job that runs, if one does, stops at this tick.
    fn stop(&mut self, at: u64)
        ensures { self.new ≡ legal.stopped self.old at }
    {
        if let Some(turn) = self.turn {
            use_up(
                &mut self.jobs,
                turn.number as usize,
                at.saturating_sub(turn.from),
            );
        }
        self.turn = None;
    }

    /// A job is released.
    fn release(&mut self, job: &Job) -> Result<(), Memory>
        ensures { OnOk result (self.new ≡ legal.released self.old job.now) }
    {
        self.jobs.push(fresh(job))?;
        self.clock = job.release();
        Ok(())
    }

    /// This job gets the processor at this tick.
    fn start(&mut self, at: u64, number: u32)
        ensures { self.new ≡ legal.started (legal.stopped self.old at) at number }
    {
        self.stop(at);
        self.turn = Some(Turn { number, from: at });
        self.clock = at;
    }

    /// This job completes at this tick.
    fn complete(&mut self, at: u64, number: u32)
        ensures { self.new ≡ legal.completed self.old at number }
    {
        self.stop(at);
        settle(&mut self.jobs, number as usize, JobState::Completed);
        self.clock = at;
    }

    /// This job is abandoned at this tick; if it runs, it stops.
    fn abandon(&mut self, at: u64, number: u32)
        ensures { self.new ≡ legal.abandoned self.old at number }
    {
        if self.runs(number) {
            self.stop(at);
        }
        settle(&mut self.jobs, number as usize, JobState::Abandoned);
        self.clock = at;
    }

    /// Takes the next step.
    fn take(&mut self, event: &Event) -> Result<(), Memory>
        ensures { OnOk result (self.new ≡ legal.moved self.old event.now) }
    {
        match event {
            Event::Release { job, .. } => return self.release(job),
            Event::Run { at, number } => self.start(*at, *number),
            Event::Preempt { at, starts, .. } => self.start(*at, *starts),
            Event::Take { at, starts, .. } => self.start(*at, *starts),
            Event::Complete { at, number } => self.complete(*at, *number),
            Event::Abandon { at, number } => self.abandon(*at, *number),
            Event::End { .. } => {}
        }
        Ok(())
    }

    /// Takes the next step, and keeps it. Want of memory is the only error.
    pub(crate) fn keep(&mut self, event: &Event) -> Result<(), Memory>
        ensures { OnOk result (self.new ≡ legal.after self.old event.now) }
    {
        self.steps.push(PackedEvent::new(event))?;
        self.take(event)
    }
}
