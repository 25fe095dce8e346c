//! The stays of the jobs on the processor.
ghost use Rattle.std.specs.Prelude.{◌≡◌, ◌<◌, List, length, OnOk, IfOk};
ghost use Rattle.dover_model.specs.declared.events.Event.{Event};
ghost use Rattle.run_reports.specs.views.Book.{blank, begun, with_step, Keeps};
ghost use Rattle.run_reports.specs.views.Stays.{stays_of};

use dover_model::{Event, Memory, PackedEvent, Version};
use std::alloc::Global;
use std::marker::Model;

/// The ticks from `from` on and before `until`, in which a job has the processor.
#[derive(Clone, Copy)]
pub struct Stay {
    /// The first of the ticks.
    pub from: u64,
    /// The tick behind the last one.
    pub until: u64,
    /// Whether it began with a take.
    pub took: bool,
}

/// A stay, and one more than the place of the job's next one, 0 for none.
#[derive(Clone, Copy)]
pub struct StayLink {
    /// The stay.
    pub stay: Stay,
    /// One more than the place of the next one, or 0.
    pub next: usize,
}

/// The stays of all jobs of a run.
#[derive(Drop)]
pub struct Stays {
    /// From the last stay of the run on.
    links: Vec<StayLink>,
    /// By number, one more than the place of the job's first stay, 0 for none.
    firsts: Vec<usize>,
    /// The tick of the first step, among those that are read, at which the processor changes hands, or the last tick of
    /// version Two.
    switch: u64,
}

impl Model for Stays {
    ghost use Rattle.run_reports.specs.views.Book.{Book};

    ghost Value = { Book };

    ghost view = { λ s. record { links = s.links.items; firsts = s.firsts.items; switch = s.switch } };
}

impl Stays {
    /// The stays of so many jobs in these steps, of which the last is read first.
    pub fn of(alloc: Global, run: &[PackedEvent], count: usize) -> Result<Stays, Memory>
        ensures count { IfOk result (λ stays. length stays.firsts ≡ count) }
        ensures keeps { IfOk result (λ stays. Keeps stays run.now) }
    {
        let mut stays = Stays::new(alloc, count)?;
        let mut left = run.len();
        while left > 0 {
            left -= 1;
            stays.read(&run[left])?;
        }
        Ok(stays)
    }

    /// Of so many jobs, before the last step is read.
    fn new(alloc: Global, count: usize) -> Result<Stays, Memory>
        ensures { IfOk result (λ stays. stays ≡ blank count) }
    {
        let mut firsts = Vec::with_capacity(alloc, count)?;
        firsts.resize(count, 0)?;
        Ok(Stays {
            links: Vec::new(alloc),
            firsts,
            switch: Version::Two.last_tick(),
        })
    }

    /// Takes an earlier step into account.
    fn read(&mut self, event: &PackedEvent) -> Result<(), Memory>
        ensures { OnOk result (self.new ≡ with_step self.old event.now) }
    {
        match event.event() {
            Event::Run { at, number } => self.begin(at, number as usize, false),
            Event::Preempt { at, starts, .. } => self.begin(at, starts as usize, false),
            Event::Take { at, starts, .. } => self.begin(at, starts as usize, true),
            Event::Complete { at, .. } => {
                self.switch = at;
                Ok(())
            }
            _ => Ok(()),
        }
    }

    /// The job of this number gets the processor.
    fn begin(&mut self, at: u64, number: usize, took: bool) -> Result<(), Memory>
        ensures { OnOk result (self.new ≡ begun self.old at number took) }
    {
        if number < self.firsts.len() {
            let stay = Stay {
                from: at,
                until: self.switch,
                took,
            };
            self.links.push(StayLink {
                stay,
                next: self.firsts[number],
            })?;
            self.firsts[number] = self.links.len();
        }
        self.switch = at;
        Ok(())
    }

    /// Puts the stays of the job of this number, in the order of time, in place of those in `own`.
    pub fn copy_to(&self, number: usize, own: &mut Vec<Stay>) -> Result<(), Memory>
        requires known { number < length self.now.firsts }
        requires keeps { (run : List Event) × Keeps self.now run }
        ensures { (run : List Event) → Keeps self.now run → OnOk result (own.new.items ≡ stays_of number run) }
    {
        own.clear();
        let mut place = self.firsts[number];
        while place > 0 {
            let link = self.links[place - 1];
            own.push(link.stay)?;
            place = link.next;
        }
        Ok(())
    }
}
