//! What a printed step does to the ready jobs.
ghost use Rattle.std.specs.Prelude.{◌≡◌, ℕ, ◌+◌, ◌*◌, ◌^◌, ◌<◌, ◌≤◌, length};
ghost use Rattle.dover_model.specs.declared.events.Event.{Event};
ghost use Rattle.dover_model.specs.declared.events.Event.TheVariants.{Run, Preempt, Take, Complete, Abandon};
ghost use Rattle.std.specs.Prelude.{true};
ghost use Rattle.dover_model.specs.Common.{Prints, view, cost_of};
ghost use Rattle.dover_model.specs.Step.{pressed_after};
ghost use Rattle.waiting_pool.specs.Pools.{orders_of};
ghost use Rattle.ready_jobs.specs.Parts.{AreSound, ready_of, state_of};
ghost use Rattle.ready_jobs.specs.Changed.{AreOnce, Leaves, IsNext, printed};
ghost use Rattle.ready_jobs.specs.Deeds.{Finds, Does};
ghost use Rattle.ready_jobs.specs.Spending.{wait_again};
ghost use Rattle.ready_jobs.specs.declared.actions.Action.TheVariants.{Resume, Start, Begin};

use crate::actions::Action;
use crate::parts::Parts;
use comparison_count::Comparisons;
use std::sync::ledger::Ledger;

impl Parts {
    // The running job is done. Answers its value.
    #[inline(always)]
    fn complete_next(&mut self, number: u32) -> u64
        requires sound { AreSound self.old }
        requires once { AreOnce (ready_of self.old) }
        requires next { (at : ℕ) × IsNext self.old (Complete at number) }
        ensures leaves { (at : ℕ) →
            Leaves (printed (Complete at number)) (ready_of self.old) (ready_of self.new) result }
        ensures pressed { (at : ℕ) → self.new.pressed
            ≡ pressed_after (Complete at number) self.old.pressed (ready_of self.new) }
        ensures kept { self.new ≡ record self.old { pressed = self.new.pressed; running = self.new.running } }
    {
        self.laws();
        match self.running() {
            Some(r) => {
                self.complete();
                r.job.value()
            }
            None => unreachable!(),
        }
    }

    // The first held job runs on.
    #[inline(always)]
    fn resume_next(&mut self, number: u32)
        requires once { AreOnce (ready_of self.old) }
        requires next { (at : ℕ) × IsNext self.old (Run at number) }
        requires finds { Finds (view self.old.version (state_of self.old)) (Resume number) }
        ensures leaves { (at : ℕ) → Leaves (printed (Run at number)) (ready_of self.old) (ready_of self.new) 0 }
        ensures kept { self.new ≡ record self.old { running = self.new.running; held = self.new.held } }
    {
        self.laws();
        // That the first of the held jobs stands on top is known where it is looked at. It costs nothing.
        let _ = self.first_held();
        self.resume();
    }

    // The first waiting job runs.
    #[inline(always)]
    fn start_next<L: Ledger>(&mut self, number: u32, comparisons: &mut Comparisons<L>)
        requires sound { AreSound self.old }
        requires once { AreOnce (ready_of self.old) }
        requires next { (at : ℕ) × IsNext self.old (Run at number) }
        requires finds { Finds (view self.old.version (state_of self.old)) (Start number) }
        ensures leaves { (at : ℕ) → Leaves (printed (Run at number)) (ready_of self.old) (ready_of self.new) 0 }
        ensures kept { self.new ≡ record self.old { running = self.new.running; waiting = self.new.waiting } }
        ensures cost { (at d : ℕ) → length (ready_of self.old) + 1 < 2 ^ d →
            comparisons.new ≤ comparisons.old
            + cost_of (orders_of self.old.version) d (state_of self.old) (Prints (Run at number)) }
        ensures once { (d : ℕ) → length (ready_of self.old) + 1 < 2 ^ d →
            comparisons.new ≤ comparisons.old + 3 * orders_of self.old.version * d }
    {
        self.laws();
        self.start(comparisons);
    }

    // The fresh job runs.
    #[inline(always)]
    fn begin_next(&mut self, number: u32)
        requires once { AreOnce (ready_of self.old) }
        requires next { (at : ℕ) × IsNext self.old (Run at number) }
        requires finds { Finds (view self.old.version (state_of self.old)) (Begin number) }
        ensures leaves { (at : ℕ) → Leaves (printed (Run at number)) (ready_of self.old) (ready_of self.new) 0 }
        ensures kept { self.new ≡ record self.old { running = self.new.running; fresh = self.new.fresh } }
    {
        self.laws();
        self.begin();
    }

    // The fresh job preempts the running one.
    #[inline(always)]
    fn preempt_next(&mut self, stops: u32, starts: u32)
        requires sound { AreSound self.old }
        requires once { AreOnce (ready_of self.old) }
        requires next { (at : ℕ) × IsNext self.old (Preempt at stops starts) }
        ensures leaves { (at : ℕ) →
            Leaves (printed (Preempt at stops starts)) (ready_of self.old) (ready_of self.new) 0 }
        ensures kept { self.new ≡ record self.old {
          running = self.new.running;
          fresh = self.new.fresh;
          held = self.new.held;
        } }
    {
        self.laws();
        if let Some(r) = self.running() {
            if let Some(f) = self.fresh() {
                self.preempt(&r, &f);
            }
        }
    }

    // A waiting job takes the processor from the running one.
    fn take_next<L: Ledger>(&mut self, stops: u32, starts: u32, comparisons: &mut Comparisons<L>)
        requires sound { AreSound self.old }
        requires once { AreOnce (ready_of self.old) }
        requires next { (at : ℕ) × IsNext self.old (Take at stops starts) }
        ensures leaves { (at : ℕ) → Leaves (printed (Take at stops starts)) (ready_of self.old) (ready_of self.new) 0 }
        ensures kept { self.new ≡ record self.old {
          running = self.new.running;
          held = self.new.held;
          waiting = self.new.waiting;
        } }
        ensures cost { (at d : ℕ) → length (ready_of self.old) + 1 < 2 ^ d →
            comparisons.new ≤ comparisons.old
            + cost_of (orders_of self.old.version) d (state_of self.old) (Prints (Take at stops starts)) }
        ensures once { (d : ℕ) → length (ready_of self.old) + 1 < 2 ^ d →
            comparisons.new ≤ comparisons.old + orders_of self.old.version * d * (4 + length self.old.held) }
    {
        self.laws();
        if let Some(r) = self.running() {
            if let Some(x) = self.first_late() {
                let x = x.task();
                self.take(&r, &x, comparisons);
            }
        }
    }

    // A waiting job is gone.
    #[inline(always)]
    fn abandon_next<L: Ledger>(&mut self, number: u32, comparisons: &mut Comparisons<L>)
        requires sound { AreSound self.old }
        requires once { AreOnce (ready_of self.old) }
        requires next { (at : ℕ) × IsNext self.old (Abandon at number) }
        ensures leaves { (at : ℕ) → Leaves (printed (Abandon at number)) (ready_of self.old) (ready_of self.new) 0 }
        ensures kept { self.new ≡ record self.old { pressed = true; waiting = self.new.waiting } }
        ensures cost { (at d : ℕ) → length (ready_of self.old) + 1 < 2 ^ d →
            comparisons.new ≤ comparisons.old
            + cost_of (orders_of self.old.version) d (state_of self.old) (Prints (Abandon at number)) }
        ensures once { (d : ℕ) → length (ready_of self.old) + 1 < 2 ^ d →
            comparisons.new ≤ comparisons.old + 3 * orders_of self.old.version * d }
    {
        self.laws();
        self.abandon(comparisons);
    }

    /// Takes the deed that comes now, which is printed, and answers the value of the job that it completes, 0 where
    /// none is.
    #[inline(always)]
    pub fn apply<L: Ledger>(&mut self, action: Action, comparisons: &mut Comparisons<L>) -> u64
        requires sound { AreSound self.old }
        requires once { AreOnce (ready_of self.old) }
        requires does { (e : Event) × Does self.old action e }
        ensures leaves { (e : Event) → Does self.old action e →
            Leaves (printed e) (ready_of self.old) (ready_of self.new) result }
        ensures pressed { (e : Event) → Does self.old action e →
            self.new.pressed ≡ pressed_after e self.old.pressed (ready_of self.new) }
        ensures kept { self.new ≡ record self.old {
          pressed = self.new.pressed;
          running = self.new.running;
          fresh = self.new.fresh;
          held = self.new.held;
          waiting = self.new.waiting;
        } }
        ensures fewer { length (ready_of self.new) ≤ length (ready_of self.old) }
        ensures cost { (e : Event) (d : ℕ) → Does self.old action e → length (ready_of self.old) + 1 < 2 ^ d →
            comparisons.new ≤ comparisons.old
            + cost_of (orders_of self.old.version) d (state_of self.old) (Prints e) }
        ensures once { (e : Event) (d : ℕ) → Does self.old action e → length (ready_of self.old) + 1 < 2 ^ d →
            comparisons.new ≤ comparisons.old + orders_of self.old.version * d * (4 + wait_again e self.old.held) }
    {
        match action {
            Action::Resume { number } => self.resume_next(number),
            Action::Start { number } => self.start_next(number, comparisons),
            Action::Begin { number } => self.begin_next(number),
            Action::Preempt { stops, starts } => self.preempt_next(stops, starts),
            Action::Take { stops, starts } => self.take_next(stops, starts, comparisons),
            Action::Complete { number } => return self.complete_next(number),
            Action::Abandon { number } => self.abandon_next(number, comparisons),
            Action::Wait { .. } | Action::Tick => unreachable!(),
        }
        0
    }
}
