//! The silent steps of the ready jobs: those that print nothing.
ghost use Rattle.std.specs.Prelude.{[], ◌≡◌, ◌≤◌, ◌<◌, ◌+◌, ◌-◌, ◌*◌, ◌^◌, ℕ, length, Some, None, IfSome, IfNone};
ghost use Rattle.dover_model.specs.Common.{last_tick, open_step, view, Ticks, IsSilent};
ghost use Rattle.waiting_pool.specs.Pools.{orders_of};
ghost use Rattle.ready_jobs.specs.Deeds.{step_at, Finds};
ghost use Rattle.ready_jobs.specs.Parts.{ready_of, state_of};
ghost use Rattle.ready_jobs.specs.Following.{IsPart, SettlesFrom};

use crate::actions::Action;
use crate::parts::Parts;
use comparison_count::Comparisons;
use dover_model::Ratio;
use std::sync::ledger::Ledger;

impl Parts {
    // The fresh job, if there is one, gives a printed step, or it waits: no job is fresh any more.
    #[inline(always)]
    fn place<L: Ledger>(&mut self, k: &Ratio, comparisons: &mut Comparisons<L>) -> Option<Action>
        requires { IsPart (record { ratio = k.now; version = self.old.version; finishes = [] }) self.old }
        ensures settles { (mark : ℕ) → SettlesFrom k.now mark self.old self.new }
        ensures some { IfSome result (λ action. step_at self.new.clock action
            ≡ open_step (record { ratio = k.now; version = self.new.version; finishes = [] }) (state_of self.new)) }
        ensures finds { IfSome result (λ action. Finds (view self.new.version (state_of self.new)) action) }
        ensures prints { IfSome result (λ action. IsSilent (step_at self.new.clock action) → ⊥) }
        ensures none { IfNone result (self.new.fresh ≡ None) }
        ensures kept { self.new ≡ record self.old { fresh = self.new.fresh; waiting = self.new.waiting } }
        ensures fewer { length (ready_of self.new) ≡ length (ready_of self.old) }
        ensures count { (d : ℕ) → length self.old.waiting + 1 < 2 ^ d →
            comparisons.new ≤ comparisons.old
            + orders_of self.old.version * d * (length self.new.waiting - length self.old.waiting) }
    {
        self.laws();
        let Some(f) = self.fresh() else {
            return None;
        };
        let action = self.open_step(k);
        match action {
            Action::Wait { .. } => {
                self.stay(&f, comparisons);
                None
            }
            _ => Some(action),
        }
    }

    // Takes the silent ticks that come now, up to the next other step or to the mark. No job is fresh, and one runs or
    // a tick is next.
    #[inline(always)]
    fn tick_on(&mut self, k: &Ratio, mark: u64) -> Action
        requires part { IsPart (record { ratio = k.now; version = self.old.version; finishes = [] }) self.old }
        requires stale { self.old.fresh ≡ None }
        requires ticks { self.old.running ≡ None →
            open_step (record { ratio = k.now; version = self.old.version; finishes = [] }) (state_of self.old)
            ≡ Ticks }
        requires low { self.old.clock ≤ mark }
        requires known { mark ≤ last_tick }
        ensures settles { SettlesFrom k.now mark self.old self.new }
        ensures step { step_at self.new.clock result
            ≡ open_step (record { ratio = k.now; version = self.new.version; finishes = [] }) (state_of self.new) }
        ensures finds { Finds (view self.new.version (state_of self.new)) result }
        ensures stops { let step = step_at self.new.clock result in
            IsSilent step → (step ≡ Ticks) × (mark ≤ self.new.clock) }
        ensures low { self.new.clock ≤ mark }
        ensures kept { self.new ≡ record self.old { clock = self.new.clock; running = self.new.running } }
        ensures fewer { length (ready_of self.new) ≡ length (ready_of self.old) }
    {
        self.laws();
        let clock = self.clock();
        let count = self.silent_ticks(mark - clock);
        self.tick(count);
        self.open_step(k)
    }

    // Takes the silent ticks up to the next other step, or to the mark. No job is fresh. Its one caller takes it in.
    fn tick_to(&mut self, k: &Ratio, mark: u64) -> Action
        requires part { IsPart (record { ratio = k.now; version = self.old.version; finishes = [] }) self.old }
        requires stale { self.old.fresh ≡ None }
        requires low { self.old.clock ≤ mark }
        requires known { mark ≤ last_tick }
        ensures settles { SettlesFrom k.now mark self.old self.new }
        ensures step { step_at self.new.clock result
            ≡ open_step (record { ratio = k.now; version = self.new.version; finishes = [] }) (state_of self.new) }
        ensures finds { Finds (view self.new.version (state_of self.new)) result }
        ensures stops { let step = step_at self.new.clock result in
            IsSilent step → (step ≡ Ticks) × (mark ≤ self.new.clock) }
        ensures low { self.new.clock ≤ mark }
        ensures kept { self.new ≡ record self.old { clock = self.new.clock; running = self.new.running } }
        ensures fewer { length (ready_of self.new) ≡ length (ready_of self.old) }
    {
        self.laws();
        if self.running().is_some() {
            return self.tick_on(k, mark);
        }
        let action = self.open_step(k);
        match action {
            Action::Tick => self.tick_on(k, mark),
            _ => action,
        }
    }

    /// Takes the silent steps up to the next printed one, which it gives, or up to the barrier of the mark. It stands
    /// apart, once, so that all above it stays small enough to be taken into its callers.
    #[inline(never)]
    pub fn settle<L: Ledger>(
        &mut self,
        k: &Ratio,
        mark: u64,
        comparisons: &mut Comparisons<L>,
    ) -> Action
        requires part { IsPart (record { ratio = k.now; version = self.old.version; finishes = [] }) self.old }
        requires low { self.old.clock ≤ mark }
        requires known { mark ≤ last_tick }
        ensures settles { SettlesFrom k.now mark self.old self.new }
        ensures step { step_at self.new.clock result
            ≡ open_step (record { ratio = k.now; version = self.new.version; finishes = [] }) (state_of self.new) }
        ensures finds { Finds (view self.new.version (state_of self.new)) result }
        ensures stops { let step = step_at self.new.clock result in
            IsSilent step → (step ≡ Ticks) × (mark ≤ self.new.clock) }
        ensures low { self.new.clock ≤ mark }
        ensures kept { self.new ≡ record self.old {
          clock = self.new.clock;
          running = self.new.running;
          fresh = self.new.fresh;
          waiting = self.new.waiting;
        } }
        ensures fewer { length (ready_of self.new) ≡ length (ready_of self.old) }
        ensures count { (d : ℕ) → length self.old.waiting + 1 < 2 ^ d →
            comparisons.new ≤ comparisons.old
            + orders_of self.old.version * d * (length self.new.waiting - length self.old.waiting) }
    {
        match self.place(k, comparisons) {
            Some(action) => action,
            None => self.tick_to(k, mark),
        }
    }
}
