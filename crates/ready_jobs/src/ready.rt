//! The run of the jobs that were released so far, over those that are ready.
ghost use Rattle.std.specs.Prelude.{◌≡◌, ◌≢◌, ◌↔◌, ◌≤◌, ◌<◌, ◌+◌, ◌*◌, ◌^◌, ◌∷◌, [], ◌++◌, ℕ, ◌&&◌, nat_le, min, max};
ghost use Rattle.std.specs.Prelude.{length, true, false, IsTrue, IfOk, IsOk, OnOk, OnErr, IfSome, IsNone, Some, None};
ghost use Rattle.std.specs.Prelude.{option_map, filter};
ghost use Rattle.dover_model.specs.declared.events.Event.{Event};
ghost use Rattle.dover_model.specs.declared.events.Event.TheVariants.{End};
ghost use Rattle.dover_model.specs.Common.{last_tick, most_jobs, most_ready, most_total, Instance, under, State};
ghost use Rattle.dover_model.specs.Common.{is_held, IsRatio, Prints, open_step, view, waits_for_mark};
ghost use Rattle.dover_model.specs.declared.events.Version.TheVariants.{Three};
ghost use Rattle.waiting_pool.specs.Reordered.{IsReordered};
ghost use Rattle.waiting_pool.specs.Pools.{orders_of, IsByDensity};
ghost use Rattle.ready_jobs.specs.Course.{Course, state_of_course, Follows, IsCourse, Reached, Settled, new_course};
ghost use Rattle.ready_jobs.specs.Course.{fresh_job, IsDue};
ghost use Rattle.ready_jobs.specs.Course.{SettlesAt, StepsBefore, ComesNext, Passes, Takes, with_release, Finishes};
ghost use Rattle.ready_jobs.specs.Course.{Runs, RunsNowhere, successor_of};
ghost use Rattle.ready_jobs.specs.Deeds.{Finds, step_at};
ghost use Rattle.ready_jobs.specs.NextTick.{IsUnderWay, PrintsAt};
ghost use Rattle.ready_jobs.specs.Spending.{HasPaid, HasPaidFreely, CostsOnce, wait_again};

use crate::actions::{Action, DueStep, event_at, prints};
use crate::parts::Parts;
use comparison_count::Comparisons;
use dover_model::jobs::LAST_TICK;
use dover_model::{Event, Job, Memory, Ratio, Version};
use std::alloc::Global;
use std::marker::Model;
use std::sync::ledger::Ledger;

/// For how many ready jobs there may be room.
pub const MOST_READY: u32 = 1_000_000;

/// A run of the jobs that were released so far, up to its last printed step or behind it: its clock, and the jobs that
/// aren't over. Of the others, it knows how many there are and what those done are worth.
#[derive(Drop)]
pub struct Ready {
    parts: Parts,
    ratio: Ratio,
    jobs: u32,
    done: u64,
}

impl Model for Ready {
    ghost use Rattle.waiting_pool.specs.Pools.{orders_of};
    ghost use Rattle.ready_jobs.specs.Course.{Course, IsCourse, course_of};

    ghost Value = { Course };

    ghost view = { λ r. course_of r.ratio r.parts r.jobs r.done };

    ghost invariant = { λ r. IsCourse (course_of r.ratio r.parts r.jobs r.done) };
}

impl Ready {
    /// No jobs, and no room.
    ///
    /// # Errors
    ///
    /// `Memory` where there is none.
    pub fn new(alloc: Global, version: Version, ratio: Ratio) -> Result<Ready, Memory>
        ensures empty { IfOk result (λ c. c ≡ new_course (record { ratio = ratio; version = version }) 0) }
        ensures paid { IfOk result (λ c. (now : ℕ) → HasPaid c now now) }
    {
        // A ratio is known to be one where it is read.
        let _ = ratio.p();
        Ok(Ready {
            parts: Parts::new(alloc, version)?,
            ratio,
            jobs: 0,
            done: 0,
        })
    }

    /// Room for so many ready jobs more, for at most 1,000,000 in all. Want of it leaves all as before.
    ///
    /// # Errors
    ///
    /// `Memory` where there is none.
    pub fn reserve(&mut self, more: u32) -> Result<(), Memory>
        ensures same { self.new ≡ record self.old { room = self.new.room } }
        ensures room { OnOk result (min (length self.old.ready + more) most_ready ≤ self.new.room) }
        ensures grows { self.old.room ≤ self.new.room }
        ensures few { self.new.room ≤ max self.old.room (min (length self.old.ready + more) most_ready) }
        ensures err { OnErr result (self.new.room ≡ self.old.room) }
        ensures enough { length self.old.ready + more ≤ self.old.room → IsOk result }
        ensures paid { (start now : ℕ) → HasPaid self.old start now → HasPaid self.new start now }
    {
        let ready = self.parts.count();
        self.parts
            .reserve(MOST_READY.min(ready.saturating_add(more)))
    }

    /// What holds of each. It does nothing.
    #[inline(always)]
    pub fn laws(&self)
        ensures few { length self.now.ready ≤ self.now.room }
        ensures most { self.now.room ≤ most_ready }
    {
        self.parts.laws();
    }

    /// The clock.
    #[inline(always)]
    pub fn clock(&self) -> u64
        ensures is { result ≡ self.now.clock }
        ensures known { result ≤ last_tick }
    {
        self.parts.clock()
    }

    /// How many jobs are ready.
    pub fn count(&self) -> u32
        ensures { result ≡ length self.now.ready }
    {
        self.parts.count()
    }

    /// For how many ready jobs there is room.
    pub fn room(&self) -> u32
        ensures { result ≡ self.now.room }
    {
        self.parts.room()
    }

    /// The version of the rules.
    #[inline(always)]
    pub fn version(&self) -> Version
        ensures { result ≡ self.now.rules.version }
    {
        self.parts.version()
    }

    /// The ratio of the rules.
    #[inline(always)]
    pub fn ratio(&self) -> Ratio
        ensures { result ≡ self.now.rules.ratio }
    {
        self.ratio
    }

    /// How many jobs were released.
    #[inline(always)]
    pub fn jobs(&self) -> u32
        ensures is { result ≡ self.now.jobs }
        ensures few { result ≤ most_jobs Three }
    {
        self.jobs
    }

    /// The value of the jobs done.
    #[inline(always)]
    pub fn value(&self) -> u64
        ensures is { result ≡ self.now.done }
        ensures modest { result ≤ most_total Three }
    {
        self.done
    }

    /// The tick at which the run prints its next step, where no further job comes. None where no job is ready. It is
    /// known where no job is fresh, and one runs where any is ready.
    pub fn next(&self) -> Option<u64>
        ensures none { IsNone result ↔ (self.now.ready ≡ []) }
        ensures at { IfSome result (λ tick. IsUnderWay self.now → PrintsAt self.now tick) }
    {
        if self.parts.is_empty() {
            return None;
        }
        self.parts.laws();
        let clock = self.parts.clock();
        Some(clock + self.parts.silent_ticks(LAST_TICK - clock))
    }

    /// The rules in place of those of a version Four, whose room serves any, where no job was released yet.
    pub fn declare(&mut self, version: Version, ratio: Ratio)
        requires none { self.old.jobs ≡ 0 }
        requires dense { IsByDensity self.old.rules.version }
        ensures rules { self.new ≡ record self.old { rules = record { ratio = ratio; version = version } } }
        ensures paid { (start now : ℕ) → HasPaid self.old start now → HasPaid self.new start now }
    {
        // A ratio is known to be one where it is read.
        let _ = ratio.p();
        self.parts.declare(version);
        self.ratio = ratio;
    }

    /// Forgets how many jobs there were, and what those done were worth, where none is ready. The clock goes on.
    pub fn renew(&mut self)
        requires { length self.old.ready ≡ 0 }
        ensures renewed { self.new ≡ record self.old { jobs = 0; done = 0 } }
    {
        self.jobs = 0;
        self.done = 0;
    }

    /// Begins anew where none is ready: it is as a new one, with the room that it has. No memory is taken.
    pub fn restart(&mut self)
        requires { length self.old.ready ≡ 0 }
        ensures anew { self.new ≡ new_course self.old.rules self.old.room }
        ensures ratio { IsRatio self.old.rules.ratio }
        ensures paid { (now : ℕ) → HasPaid self.new now now }
    {
        self.jobs = 0;
        self.done = 0;
        self.parts.reset_clock();
    }

    // Takes the silent steps up to the next printed one, or up to the barrier of the mark, and gives what comes there.
    #[inline(always)]
    fn go_on<L: Ledger>(&mut self, mark: u64, comparisons: &mut Comparisons<L>) -> Action
        requires some { 0 < length self.old.ready }
        requires low { self.old.clock ≤ mark }
        requires known { mark ≤ last_tick }
        ensures reached { (J : Instance) (z : State) → Follows self.old J z
            → Reached self.new J z mark (step_at self.new.clock result) }
        ensures step { step_at self.new.clock result
            ≡ open_step (under self.new.rules []) (state_of_course self.new) }
        ensures finds { Finds (view self.new.rules.version (state_of_course self.new)) result }
        ensures kept { self.new ≡ record self.old { clock = self.new.clock; ready = self.new.ready } }
        ensures fewer { length self.new.ready ≡ length self.old.ready }
        ensures low { self.new.clock ≤ mark }
        ensures paid { (start : ℕ) → HasPaid self.old start comparisons.old → HasPaid self.new start comparisons.new }
        ensures freely { (start : ℕ) → HasPaid self.old start comparisons.old
            → (self.new.clock ≡ self.old.clock → HasPaidFreely self.old start comparisons.old)
            → HasPaidFreely self.new start comparisons.new }
        ensures once { (d : ℕ) → length self.old.ready + 1 < 2 ^ d →
            comparisons.new ≤ comparisons.old + 2 * orders_of self.old.rules.version * d }
        ensures held { filter is_held self.new.ready ≡ filter is_held self.old.ready }
    {
        self.parts.laws();
        let action = self.parts.settle(&self.ratio, mark, comparisons);
        self.parts.laws();
        action
    }

    // Takes the silent steps up to the next printed one, which it gives, or up to the barrier of the mark.
    #[inline(always)]
    fn due_before<L: Ledger>(
        &mut self,
        mark: u64,
        comparisons: &mut Comparisons<L>,
    ) -> Option<DueStep>
        requires low { self.old.clock ≤ mark }
        requires known { mark ≤ last_tick }
        ensures settled { SettlesAt self.old mark self.new (option_map (λ due. due.event) result) }
        ensures due { IfSome result (λ due. IsDue self.new due.action due.event) }
        ensures kept { self.new ≡ record self.old { clock = self.new.clock; ready = self.new.ready } }
        ensures fewer { length self.new.ready ≡ length self.old.ready }
        ensures low { self.new.clock ≤ mark }
        ensures paid { (start : ℕ) → HasPaid self.old start comparisons.old → HasPaid self.new start comparisons.new }
        ensures freely { (start : ℕ) → HasPaid self.old start comparisons.old
            → (self.new.clock ≡ self.old.clock → HasPaidFreely self.old start comparisons.old)
            → HasPaidFreely self.new start comparisons.new }
        ensures once { (d : ℕ) → length self.old.ready + 1 < 2 ^ d →
            comparisons.new ≤ comparisons.old + 2 * orders_of self.old.rules.version * d }
        ensures held { filter is_held self.new.ready ≡ filter is_held self.old.ready }
    {
        if self.parts.is_empty() {
            return None;
        }
        let action = self.go_on(mark, comparisons);
        let clock = self.parts.clock();
        match event_at(clock, action) {
            Some(event) => {
                if is_late_at(&event, mark, clock) {
                    None
                } else {
                    Some(DueStep { action, event })
                }
            }
            None => None,
        }
    }

    // Takes the silent steps up to the next printed one, where some job is ready and no further one comes.
    #[inline(always)]
    fn due_next<L: Ledger>(&mut self, comparisons: &mut Comparisons<L>) -> DueStep
        requires some { 0 < length self.old.ready }
        ensures comes { ComesNext self.old self.new result.event }
        ensures due { IsDue self.new result.action result.event }
        ensures kept { self.new ≡ record self.old { clock = self.new.clock; ready = self.new.ready } }
        ensures fewer { length self.new.ready ≡ length self.old.ready }
        ensures paid { (start : ℕ) → HasPaid self.old start comparisons.old → HasPaid self.new start comparisons.new }
        ensures freely { (start : ℕ) → HasPaid self.old start comparisons.old
            → (self.new.clock ≡ self.old.clock → HasPaidFreely self.old start comparisons.old)
            → HasPaidFreely self.new start comparisons.new }
        ensures once { (d : ℕ) → length self.old.ready + 1 < 2 ^ d →
            comparisons.new ≤ comparisons.old + 2 * orders_of self.old.rules.version * d }
        ensures held { filter is_held self.new.ready ≡ filter is_held self.old.ready }
    {
        self.parts.laws();
        let action = self.go_on(LAST_TICK, comparisons);
        match event_at(self.parts.clock(), action) {
            Some(event) => DueStep { action, event },
            None => unreachable!(),
        }
    }

    // Takes the printed step that comes now.
    #[inline(always)]
    fn take<L: Ledger>(&mut self, due: &DueStep, comparisons: &mut Comparisons<L>)
        requires { IsDue self.old due.now.action due.now.event }
        ensures after { Passes self.old due.now.event self.new }
        ensures kept { self.new ≡ record self.old {
          pressed = self.new.pressed;
          ready = self.new.ready;
          done = self.new.done;
        } }
        ensures fewer { length self.new.ready ≤ length self.old.ready }
        ensures paid { (start : ℕ) → HasPaid self.old start comparisons.old → HasPaid self.new start comparisons.new }
        ensures once { (d : ℕ) → length self.old.ready + 1 < 2 ^ d →
            comparisons.new ≤ comparisons.old
            + orders_of self.old.rules.version * d * (4 + wait_again due.now.event (filter is_held self.old.ready)) }
    {
        self.parts.laws();
        let worth = self.parts.apply(due.action, comparisons);
        self.done += worth;
    }

    /// Takes the silent steps up to the next printed one, which it gives, or up to the barrier of the mark.
    #[inline(always)]
    pub fn settle<L: Ledger>(
        &mut self,
        mark: u64,
        comparisons: &mut Comparisons<L>,
    ) -> Option<Event>
        requires low { self.old.clock ≤ mark }
        requires known { mark ≤ last_tick }
        ensures settled { (J : Instance) (z : State) → Follows self.old J z → Settled self.new J z mark result }
        ensures kept { self.new ≡ record self.old { clock = self.new.clock; ready = self.new.ready } }
        ensures fewer { length self.new.ready ≡ length self.old.ready }
        ensures low { self.new.clock ≤ mark }
        ensures paid { (start : ℕ) → HasPaid self.old start comparisons.old → HasPaid self.new start comparisons.new }
        ensures freely { (start : ℕ) → HasPaid self.old start comparisons.old
            → (self.new.clock ≡ self.old.clock → HasPaidFreely self.old start comparisons.old)
            → HasPaidFreely self.new start comparisons.new }
    {
        match self.due_before(mark, comparisons) {
            Some(due) => Some(due.event),
            None => None,
        }
    }

    /// Takes the steps up to the next printed one, and that too, which it gives, or up to the barrier of the mark.
    #[inline(always)]
    pub fn step<L: Ledger>(&mut self, mark: u64, comparisons: &mut Comparisons<L>) -> Option<Event>
        requires low { self.old.clock ≤ mark }
        requires known { mark ≤ last_tick }
        ensures stepped { StepsBefore self.old mark self.new result }
        ensures kept { self.new ≡ record self.old {
          clock = self.new.clock;
          pressed = self.new.pressed;
          ready = self.new.ready;
          done = self.new.done;
        } }
        ensures fewer { length self.new.ready ≤ length self.old.ready }
        ensures paid { (start : ℕ) → HasPaid self.old start comparisons.old → HasPaid self.new start comparisons.new }
        ensures freely { result ≡ None → (start : ℕ) → HasPaid self.old start comparisons.old
            → (self.new.clock ≡ self.old.clock → HasPaidFreely self.old start comparisons.old)
            → HasPaidFreely self.new start comparisons.new }
        ensures once { CostsOnce self.old result comparisons.old comparisons.new }
    {
        match self.due_before(mark, comparisons) {
            Some(due) => {
                self.take(&due, comparisons);
                Some(due.event)
            }
            None => None,
        }
    }

    /// The step that the run prints next, where no further job comes. The silent steps before it are taken.
    #[inline(always)]
    pub fn upcoming<L: Ledger>(&mut self, comparisons: &mut Comparisons<L>) -> Event
        ensures next { ComesNext self.old self.new result }
        ensures kept { self.new ≡ record self.old { clock = self.new.clock; ready = self.new.ready } }
        ensures fewer { length self.new.ready ≡ length self.old.ready }
        ensures paid { (start : ℕ) → HasPaid self.old start comparisons.old → HasPaid self.new start comparisons.new }
        ensures freely { (start : ℕ) → HasPaid self.old start comparisons.old
            → (self.new.clock ≡ self.old.clock → HasPaidFreely self.old start comparisons.old)
            → HasPaidFreely self.new start comparisons.new }
    {
        if self.parts.is_empty() {
            return Event::End { value: self.done };
        }
        self.due_next(comparisons).event
    }

    /// Takes the step that the run prints next, where no further job comes, and gives it.
    #[inline(always)]
    pub fn step_on<L: Ledger>(&mut self, comparisons: &mut Comparisons<L>) -> Event
        ensures taken { Takes self.old result self.new }
        ensures kept { self.new ≡ record self.old {
          clock = self.new.clock;
          pressed = self.new.pressed;
          ready = self.new.ready;
          done = self.new.done;
        } }
        ensures fewer { length self.new.ready ≤ length self.old.ready }
        ensures paid { (start : ℕ) → HasPaid self.old start comparisons.old → HasPaid self.new start comparisons.new }
        ensures once { CostsOnce self.old (Some result) comparisons.old comparisons.new }
    {
        if self.parts.is_empty() {
            return Event::End { value: self.done };
        }
        let due = self.due_next(comparisons);
        self.take(&due, comparisons);
        due.event
    }

    /// Takes the step that the run prints next, where no further job comes, if it is this one. If it is another, only
    /// the silent steps before it are taken.
    #[inline(always)]
    pub fn follow<L: Ledger>(&mut self, event: &Event, comparisons: &mut Comparisons<L>) -> bool
        ensures yes { result ≡ true → Takes self.old event.now self.new }
        ensures no { result ≡ false → (e : Event) × ComesNext self.old self.new e × (e ≢ event.now) }
        ensures kept { self.new ≡ record self.old {
          clock = self.new.clock;
          pressed = self.new.pressed;
          ready = self.new.ready;
          done = self.new.done;
        } }
        ensures fewer { length self.new.ready ≤ length self.old.ready }
        ensures paid { (start : ℕ) → HasPaid self.old start comparisons.old → HasPaid self.new start comparisons.new }
        ensures freely { result ≡ false → (start : ℕ) → HasPaid self.old start comparisons.old
            → (self.new.clock ≡ self.old.clock → HasPaidFreely self.old start comparisons.old)
            → HasPaidFreely self.new start comparisons.new }
    {
        if self.parts.is_empty() {
            return is_end_with(event, self.done);
        }
        let action = self.go_on(LAST_TICK, comparisons);
        if !prints(self.parts.clock(), action, event) {
            return false;
        }
        let event = *event;
        self.take(&DueStep { action, event }, comparisons);
        true
    }

    /// The job of this number finishes now, whatever work it has left: it is done, if it runs. Otherwise all is as
    /// before.
    pub fn finish(&mut self, number: u64) -> bool
        ensures yes { result ≡ true → Finishes self.old number self.new }
        ensures no { result ≡ false → RunsNowhere self.old number × (self.new ≡ self.old) }
        ensures kept { self.new ≡ record self.old {
          pressed = self.new.pressed;
          ready = self.new.ready;
          done = self.new.done;
        } }
        ensures fewer { length self.new.ready ≤ length self.old.ready }
        ensures paid { (start now : ℕ) → HasPaid self.old start now
            → (result ≡ true → HasPaidFreely self.old start now) → HasPaid self.new start now }
    {
        self.parts.laws();
        let Some(r) = self.parts.running() else {
            return false;
        };
        if u64::from(r.number) != number {
            return false;
        }
        self.parts.complete();
        self.done += r.job.value();
        true
    }

    /// Whether the job of this number runs.
    pub fn runs(&self, number: u64) -> bool
        ensures yes { result ≡ true → Runs self.now number }
        ensures no { result ≡ false → RunsNowhere self.now number }
    {
        match self.parts.running() {
            Some(r) => u64::from(r.number) == number,
            None => false,
        }
    }

    /// The number of the job that would get the processor if none ran and none were fresh. None where none is held or
    /// waits. No jobs are compared but the first held and the first waiting one.
    pub fn successor(&self) -> Option<u32>
        ensures { result ≡ successor_of self.now }
    {
        self.parts.laws();
        self.parts.successor()
    }

    /// Takes the release of the next job, to which the clock goes on.
    #[inline(always)]
    pub fn release(&mut self, job: Job)
        requires course { IsCourse (with_release self.old job self.old.room) }
        requires ahead { self.old.clock ≤ job.release }
        requires room { length self.old.ready < self.old.room }
        ensures kept { self.new ≡ record (with_release self.old job self.old.room) { ready = self.new.ready } }
        ensures ready { IsReordered (self.old.ready ++ fresh_job self.old job ∷ []) self.new.ready }
        ensures paid { (start now : ℕ) → HasPaid self.old start now → HasPaid self.new start now }
    {
        self.parts.laws();
        self.parts.come(self.jobs, job);
        self.jobs += 1;
    }
}

// The event is the end, with this value.
#[inline(always)]
fn is_end_with(event: &Event, done: u64) -> bool
    ensures { IsTrue result ↔ (event.now ≡ End done) }
{
    match event {
        Event::End { value } => *value == done,
        _ => false,
    }
}

// The event is a decision at a latest start, at the mark or after it.
#[inline(always)]
fn is_late_at(event: &Event, mark: u64, clock: u64) -> bool
    ensures { result ≡ (waits_for_mark (Prints event.now) && nat_le mark clock) }
{
    match event {
        Event::Take { .. } => mark <= clock,
        Event::Abandon { .. } => mark <= clock,
        Event::Release { .. } => false,
        Event::Run { .. } => false,
        Event::Preempt { .. } => false,
        Event::Complete { .. } => false,
        Event::End { .. } => false,
    }
}
