//! The running and the held jobs, kept from the printed steps alone.
ghost use Rattle.std.specs.Prelude.{◌≡◌, ◌<◌, OnOk, IfOk, None, slice_index_or};
ghost use Rattle.held_stack.specs.Stack.{top_of};
ghost use Rattle.run_record.specs.ledger.Pages.{Page, nobody, ran, turn_at, stopped, started, with_hold, without};
ghost use Rattle.run_record.specs.ledger.Pages.{with_event, turn_value, worth, holds_none, value_on};
ghost use Rattle.run_record.specs.ledger.Pages.{empty, had_in, room_on, CanStop, CanPreempt, CanWeigh, IsReadable};
ghost use Rattle.run_record.specs.ledger.Pages as pages;

use dover_model::{Entry, Event, Job, Memory, PackedEvent};
use held_stack::HeldStack;
use std::alloc::Global;
use std::marker::Model;

/// The running and the held jobs, and what the others have left.
#[derive(Drop)]
pub struct JobsUnderWay {
    /// The jobs by number, as they were when they last had the processor.
    entries: Vec<Entry>,
    /// The tick at which the running job was as it stands here.
    since: u64,
    /// The job that runs, if one does.
    turn: Option<Entry>,
    held: HeldStack,
}

impl Model for JobsUnderWay {
    ghost Value = { Page };

    ghost view = { λ u. record { entries = u.entries.items; since = u.since; turn = u.turn; held = u.held } };
}

/// A job that ran for so many ticks more.
fn ran(ticks: u64, entry: &Entry) -> Entry
    ensures { result ≡ ran ticks entry.now }
{
    let left = entry.left.saturating_sub(ticks);
    Entry {
        number: entry.number,
        deadline: entry.deadline,
        latest: entry.deadline.saturating_sub(left),
        left,
        value: entry.value,
    }
}

impl JobsUnderWay {
    /// None runs and none is held; the jobs by number are these.
    pub fn new(alloc: Global, entries: Vec<Entry>) -> Result<JobsUnderWay, Memory>
        ensures { IfOk result (λ u. u ≡ record { entries = entries.items; since = 0; turn = None; held = empty }) }
    {
        Ok(JobsUnderWay {
            entries,
            since: 0,
            turn: None,
            held: HeldStack::new(alloc)?,
        })
    }

    /// Takes the next printed step into account.
    pub fn read(&mut self, alloc: Global, event: &PackedEvent) -> Result<(), Memory>
        requires { IsReadable self.old event.now }
        ensures { OnOk result (self.new ≡ with_event self.old event.now) }
    {
        match event.event() {
            Event::Run { at, number } => self.run(at, number),
            Event::Preempt { at, starts, .. } => return self.preempt(at, starts),
            Event::Take { at, starts, .. } => return self.take(alloc, at, starts),
            Event::Complete { at, .. } => self.stop(at),
            _ => {}
        }
        Ok(())
    }

    /// What a fresh job's work is tested against at the next printed step: at a release and at a preemption the room of
    /// the running and the held jobs.
    pub fn room(&self, event: &PackedEvent) -> u64
        requires { IsReadable self.now event.now }
        ensures { result ≡ room_on self.now event.now }
    {
        match event.event() {
            Event::Release { job, .. } => self.room_at(job.release()),
            Event::Preempt { at, .. } => self.room_at(at),
            _ => 0,
        }
    }

    /// What the running and the held jobs are worth.
    pub fn worth(&self) -> u64
        ensures { result ≡ worth self.now }
    {
        self.turn_value().saturating_add(self.held.value_sum())
    }

    /// Whether no job is held.
    pub fn holds_none(&self) -> bool
        ensures { result ≡ holds_none self.now }
    {
        match self.held.top() {
            Some(_) => false,
            None => true,
        }
    }

    /// The value of the job that the next printed step completes or abandons, and 0 for another step.
    pub fn value(&self, event: &PackedEvent) -> u64
        ensures { result ≡ value_on self.now event.now }
    {
        match event.event() {
            Event::Complete { .. } => self.turn_value(),
            Event::Abandon { number, .. } => self.entry(number).value,
            _ => 0,
        }
    }

    /// The value of the job that runs, 0 where none does.
    fn turn_value(&self) -> u64
        ensures { result ≡ turn_value self.now }
    {
        match &self.turn {
            Some(entry) => entry.value,
            None => 0,
        }
    }

    /// The ticks that the job of this number has had, where it doesn't run.
    pub fn had(&self, number: usize, job: &Job) -> u64
        ensures { result ≡ had_in self.now.entries (number, job.now) }
    {
        match self.entries.get(number) {
            Some(entry) => job.work().saturating_sub(entry.left),
            None => job.work(),
        }
    }

    /// The room of the running and the held jobs at a tick, where one runs.
    fn room_at(&self, at: u64) -> u64
        requires { CanWeigh self.now at }
        ensures { result ≡ pages.room_with at self.now.held (turn_at self.now at) }
    {
        match self.turn_at(at) {
            Some(entry) => self.held.room_with(&entry, at),
            None => 0,
        }
    }

    /// The job that runs, as it is at a tick.
    fn turn_at(&self, at: u64) -> Option<Entry>
        ensures { result ≡ turn_at self.now at }
    {
        match &self.turn {
            Some(entry) => Some(ran(at.saturating_sub(self.since), entry)),
            None => None,
        }
    }

    /// None runs from this tick on.
    fn stop(&mut self, at: u64)
        requires { CanStop self.old at }
        ensures { self.new ≡ stopped self.old at }
    {
        if let Some(entry) = self.turn_at(at) {
            self.entries[entry.number as usize] = entry;
        }
        self.turn = None;
    }

    /// The job of this number runs from this tick on.
    fn start(&mut self, at: u64, number: u32)
        ensures { self.new ≡ started self.old at number }
    {
        self.turn = Some(self.entry(number));
        self.since = at;
    }

    /// The job of this number.
    fn entry(&self, number: u32) -> Entry
        ensures { result ≡ slice_index_or self.now.entries number nobody }
    {
        match self.entries.get(number as usize) {
            Some(entry) => *entry,
            None => Entry {
                number: 0,
                deadline: 0,
                latest: 0,
                left: 0,
                value: 0,
            },
        }
    }

    /// The job of this number runs, which was held where it is the one on top.
    fn run(&mut self, at: u64, number: u32)
        ensures { self.new ≡ started (record self.old
            { held = without number self.old.held (top_of self.old.held.held) }) at number }
    {
        if let Some(top) = self.held.top() {
            if top.number == number {
                let _ = self.held.release_one();
            }
        }
        self.start(at, number);
    }

    /// The running job is held, and the job of this number runs.
    fn preempt(&mut self, at: u64, number: u32) -> Result<(), Memory>
        requires stop { CanStop self.old at }
        requires hold { CanPreempt self.old at }
        ensures { OnOk result (self.new ≡ started (record (stopped self.old at)
            { held = with_hold self.old.held (turn_at self.old at) }) at number) }
    {
        if let Some(entry) = self.turn_at(at) {
            self.held.reserve(1)?;
            self.held.hold(entry);
        }
        self.stop(at);
        self.start(at, number);
        Ok(())
    }

    /// The running and the held jobs are displaced, and the job of this number runs.
    fn take(&mut self, alloc: Global, at: u64, number: u32) -> Result<(), Memory>
        requires { CanStop self.old at }
        ensures { OnOk result (self.new ≡ started (record (stopped self.old at) { held = empty }) at number) }
    {
        self.held = HeldStack::new(alloc)?;
        self.stop(at);
        self.start(at, number);
        Ok(())
    }
}
