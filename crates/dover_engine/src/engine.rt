//! The engine.
ghost use Rattle.std.specs.Prelude.{◌≡◌, ◌≤◌, ◌↔◌, ◌++◌, ◌||◌, ℕ, IsTrue, IfOk, IfErr, OnErr, OnOk, IsNone, IfSome};
ghost use Rattle.std.specs.Prelude.{List, [], Some, None, option_to_list, ◌+◌, option_map};
ghost use Rattle.dover_model.specs.Common.{last_tick, behind, job_of_numbers, Instance, MayFollow, is_ready_after};
ghost use Rattle.dover_model.specs.Common.{is_end_given, no_jobs, due_by, runner_of, settled};
ghost use Rattle.dover_model.specs.declared.events.Event.{Event};
ghost use Rattle.dover_model.specs.declared.horizon.Horizon.TheVariants.{Mark, End};
ghost use Rattle.dover_engine.specs.Life.{spare_of, done_value, clock_of, has_ended, HasPaid, IsReadyFor, room_of};
ghost use Rattle.dover_engine.specs.Life.{CostsOnce, successor_of};
ghost use Rattle.ready_server.specs.Serving.{HasShortValue, Rests};
ghost use Rattle.dover_engine.specs.Decisions.{event_in};
ghost use Rattle.dover_engine.specs.Given.{Gave};
ghost use Rattle.dover_engine.specs.Calls.{not_made, mark_refusal, IsAdmitted, IsCause, BeginsAnew, Decides, IsNext};
ghost use Rattle.dover_engine.specs.Calls.{IsDone, IsNotDone, HasNoProcessor};
ghost use Rattle.dover_engine.specs.Restarts.{IsRestarted, IsNotRestarted};

use crate::causes::{NotAdmitted, NotDone, NotMade, NotRestarted, NotStepped, cause_behind};
use crate::decision::{Decision, decision_in};
use crate::earned::Earned;
use admission::Admission;
use comparison_count::Comparisons;
use dover_model::{Event, Horizon, Ratio, Version};
use ready_jobs::MOST_READY;
use ready_server::ReadyServer;
use std::alloc::Global;
use std::marker::Model;
use std::sync::ledger::Ledger;

// How many jobs may be admitted in all.
const MOST_NUMBERED: u64 = 10_000_000_000_000_000_000;

/// A server with its admission, which takes all its memory when it is made, and forgets each job as it is over. Its
/// capacity is for open jobs, and a job is over at its deadline at the latest: as many are enough as can come within
/// the longest time from a release to its deadline.
#[derive(Drop)]
pub struct Engine {
    server: ReadyServer,
    admission: Admission,
    last: Horizon,
    settled: bool,
    coming: Option<Event>,
    forgotten: u64,
    earned: Earned,
}

impl Model for Engine {
    ghost use Rattle.dover_engine.specs.Life.{Life};

    ghost Value = { Life };

    ghost use Rattle.dover_engine.specs.Kept.{life_of, IsKept};

    ghost view = { life_of };

    ghost invariant = { IsKept };
}

// Whether all that is settled at the horizon was given, where this is the answer.
fn is_ready_after(to: Horizon, event: &Option<Event>) -> bool
    ensures { result ≡ is_ready_after to event.now }
{
    matches!((to, event), (Horizon::Mark(_), None))
}

// Why no step is taken to the mark.
fn mark_refusal(version: Version, last: Horizon, mark: u64) -> Option<NotStepped>
    ensures { result ≡ mark_refusal version last mark }
{
    match last {
        Horizon::End => Some(NotStepped::Finished),
        Horizon::Mark(last) if mark < last => Some(NotStepped::Falls),
        Horizon::Mark(_) if mark > version.last_tick() => Some(NotStepped::Late),
        Horizon::Mark(_) => None,
    }
}

impl Engine {
    /// No job is admitted yet, and there is room for so many open ones: jobs that are released and not over. No later
    /// call takes memory.
    ///
    /// # Errors
    ///
    /// `Capacity` above 1,000,000, and else `Memory` where there is none.
    pub fn new(alloc: Global, version: Version, k: Ratio, capacity: u32) -> Result<Engine, NotMade>
        ensures gave { IfOk result (λ engine. Gave engine (no_jobs version k) []) }
        ensures begins { IfOk result (λ engine. engine.last ≡ Mark 0) }
        ensures room { IfOk result (λ engine. spare_of engine ≡ capacity) }
        ensures paid { (now : ℕ) → IfOk result (λ engine. HasPaid engine now now) }
        ensures err { IfErr result (λ cause. cause ≡ not_made capacity) }
    {
        if capacity > MOST_READY {
            return Err(NotMade::Capacity);
        }
        let Ok(mut server) = ReadyServer::new(alloc, version, k) else {
            return Err(NotMade::Memory);
        };
        if server.reserve(capacity).is_err() {
            return Err(NotMade::Memory);
        }
        Ok(Engine {
            server,
            admission: Admission::new(version, k),
            last: Horizon::Mark(0),
            settled: false,
            coming: None,
            forgotten: 0,
            earned: Earned::nothing(),
        })
    }

    /// Whether all that is settled at the tick was given, so that a job of this release may be admitted.
    pub fn is_ready_for(&self, release: u64) -> bool
        ensures { IsTrue result ↔ IsReadyFor self.now release }
    {
        self.settled && self.last == Horizon::Mark(release)
    }

    /// Admits the job of these numbers under the next number, which is the answer: jobs are numbered from 0 in the
    /// order in which they are admitted. Its release is the next decision. No memory is taken.
    ///
    /// The limits of count, total and ratio are those of the jobs since the last moment of rest: a tick at which `step`
    /// answered None and no job was open. Then the jobs before are forgotten. An engine that never rests refuses jobs
    /// from such a limit on till the open ones are over. The numbers alone are counted over the whole life.
    ///
    /// # Errors
    ///
    /// `NotAdmitted`, with the first cause that holds, and all as before. Since `step` goes to the release before, the
    /// clock has gone there also where the job is refused then.
    pub fn admit(
        &mut self,
        release: u64,
        work: u64,
        deadline: u64,
        value: u64,
    ) -> Result<u64, NotAdmitted>
        ensures ok { IfOk result
            (λ number. IsAdmitted self.old self.new (job_of_numbers release work deadline value) number) }
        ensures kept { OnErr result (self.new ≡ self.old) }
        ensures cause { IfErr result
            (λ cause. IsCause self.old (job_of_numbers release work deadline value) cause) }
        ensures paid { (start now : ℕ) → HasPaid self.old start now → HasPaid self.new start now }
    {
        if !self.is_ready_for(release) {
            return Err(NotAdmitted::Unsettled);
        }
        let job = match self.admission.check(release, work, deadline, value) {
            Ok(job) => job,
            Err(refused) => return Err(cause_behind(self.forgotten, refused)),
        };
        if self.server.spare() == 0 {
            return Err(NotAdmitted::Full);
        }
        let number = self.forgotten + u64::from(self.admission.count());
        if number >= MOST_NUMBERED {
            return Err(NotAdmitted::Numbers);
        }
        let event = self.server.admit(job);
        self.admission.admit(job);
        self.settled = false;
        self.coming = Some(event);
        Ok(number)
    }

    // The number of the job among those since the last moment of rest, if it has the processor.
    fn runner(&self, number: u64) -> Option<u64>
        ensures some { IfSome result (λ own. number ≡ self.now.forgotten + own) }
        ensures runs { IfSome result (λ own. (J : Instance) (mark : ℕ) → Rests self.now.server J (Mark mark)
            → runner_of (settled J mark) ≡ Some own) }
        ensures none { IsNone result → (at : ℕ) → IsReadyFor self.now at → HasNoProcessor self.now number }
    {
        if number < self.forgotten {
            return None;
        }
        let own = number - self.forgotten;
        if self.server.runs(own) {
            Some(own)
        } else {
            None
        }
    }

    /// The job is done though it has work left: it had the processor in the tick that ends at `at`, which was the last
    /// that it needed. Its completion at this tick is the next decision, and is worth all its value. No memory is
    /// taken, and no jobs are compared.
    ///
    /// It is called before the jobs of release `at` are admitted, since a job that comes to it may stop this one. A job
    /// whose work is out by then is completed without this call.
    ///
    /// # Errors
    ///
    /// `NotDone`, with the first cause that holds, and all as before.
    pub fn done(&mut self, at: u64, number: u64) -> Result<(), NotDone>
        ensures ok { OnOk result ((had : ℕ)
            × IsDone self.old self.new at (record { number = number; had = had })) }
        ensures kept { OnErr result (self.new ≡ self.old) }
        ensures cause { IfErr result (λ cause. IsNotDone self.old at number cause) }
        ensures paid { (start now : ℕ) → HasPaid self.old start now → HasPaid self.new start now }
    {
        if !self.server.version().may_finish_early() {
            return Err(NotDone::Version);
        }
        if !self.is_ready_for(at) {
            return Err(NotDone::Unsettled);
        }
        let Some(own) = self.runner(number) else {
            return Err(NotDone::NotRunning);
        };
        let Some(event) = self.server.finish(at, own) else {
            return Err(NotDone::Behind);
        };
        self.settled = false;
        self.coming = Some(event);
        Ok(())
    }

    // The next event before the horizon, of the jobs since the last moment of rest.
    fn advance<L: Ledger>(&mut self, to: Horizon, comparisons: &mut Comparisons<L>) -> Option<Event>
        requires { MayFollow self.old.last to }
        ensures gave { (J : Instance) (events : List Event) → Gave self.old J events →
            Gave self.new J (events ++ option_to_list (option_map (behind self.old.forgotten self.old.earned) result)) }
        ensures prompt { (J : Instance) (events : List Event) → Gave self.old J events →
            IsNone result → events ≡ due_by J to }
        ensures comes { IfSome self.old.coming (λ e. result ≡ Some e) }
        ensures last { self.new.last ≡ to }
        ensures settled { self.new.settled ≡ is_ready_after to result }
        ensures ended { has_ended self.new ≡ (has_ended self.old || is_end_given result) }
        ensures forgotten { self.new.forgotten ≡ self.old.forgotten }
        ensures earned { self.new.earned ≡ self.old.earned }
        ensures short { IfSome result HasShortValue }
        ensures spare { spare_of self.old ≤ spare_of self.new }
        ensures room { room_of self.new ≡ room_of self.old }
        ensures paid { (start : ℕ) → HasPaid self.old start comparisons.old → HasPaid self.new start comparisons.new }
        ensures once { CostsOnce self.old result comparisons.old comparisons.new }
    {
        self.last = to;
        match self.coming {
            Some(event) => {
                self.coming = None;
                self.settled = false;
                Some(event)
            }
            None => {
                let event = self.server.step(to, comparisons);
                self.settled = is_ready_after(to, &event);
                event
            }
        }
    }

    // The decision of an event of the jobs since the last moment of rest.
    fn shown(&self, event: &Option<Event>) -> Option<Decision>
        requires { IfSome event.now HasShortValue }
        ensures { event_in result ≡ option_map (behind self.now.forgotten self.now.earned) event.now }
    {
        decision_in(self.forgotten, self.earned.total(), event)
    }

    // Begins anew where all jobs are over and all that is settled was given: the jobs are forgotten, and the clock and
    // the numbers go on.
    fn renew(&mut self)
        ensures gave { (J : Instance) (events : List Event) → Gave self.old J events → Gave self.new J events }
        ensures last { self.new.last ≡ self.old.last }
        ensures settled { self.new.settled ≡ self.old.settled }
        ensures ended { has_ended self.new ≡ has_ended self.old }
        ensures anew { BeginsAnew self.new }
        ensures value { done_value self.new ≡ done_value self.old }
        ensures spare { spare_of self.new ≡ spare_of self.old }
        ensures room { room_of self.new ≡ room_of self.old }
        ensures paid { (start now : ℕ) → HasPaid self.old start now → HasPaid self.new start now }
    {
        if !self.settled || !self.server.is_idle() {
            return;
        }
        let jobs = u64::from(self.admission.count());
        if jobs == 0 {
            return;
        }
        let value = self.server.value();
        self.server.renew();
        self.admission = Admission::new(self.admission.version(), self.admission.ratio());
        self.forgotten += jobs;
        self.earned.add(value);
    }

    // The next decision before the horizon.
    fn decide<L: Ledger>(
        &mut self,
        to: Horizon,
        comparisons: &mut Comparisons<L>,
    ) -> Option<Decision>
        requires { MayFollow self.old.last to }
        ensures decides { Decides to self.old self.new result }
        ensures paid { (start : ℕ) → HasPaid self.old start comparisons.old → HasPaid self.new start comparisons.new }
        ensures once { CostsOnce self.old (event_in result) comparisons.old comparisons.new }
    {
        let event = self.advance(to, comparisons);
        let decision = self.shown(&event);
        self.renew();
        decision
    }

    /// The next decision that no job can change that is released at the mark or later. None where all that are settled
    /// at the mark were given: then jobs of this release may be admitted. No memory is taken.
    ///
    /// # Errors
    ///
    /// `NotStepped`, with the first cause that holds, and all as before.
    pub fn step<L: Ledger>(
        &mut self,
        mark: u64,
        comparisons: &mut Comparisons<L>,
    ) -> Result<Option<Decision>, NotStepped>
        ensures refusal { IfErr result
            (λ cause. mark_refusal self.old.admission.rules.version self.old.last mark ≡ Some cause) }
        ensures kept { OnErr result (self.new ≡ self.old) }
        ensures free { OnErr result (comparisons.new ≡ comparisons.old) }
        ensures granted { OnOk result (mark_refusal self.old.admission.rules.version self.old.last mark ≡ None) }
        ensures may { OnOk result (MayFollow self.old.last (Mark mark)) }
        ensures decides { IfOk result (λ answer. Decides (Mark mark) self.old self.new answer) }
        ensures paid { (start : ℕ) → HasPaid self.old start comparisons.old → HasPaid self.new start comparisons.new }
        ensures once { IfOk result (λ answer. CostsOnce self.old (event_in answer) comparisons.old comparisons.new) }
    {
        if let Some(cause) = mark_refusal(self.admission.version(), self.last, mark) {
            return Err(cause);
        }
        Ok(self.decide(Horizon::Mark(mark), comparisons))
    }

    /// The next decision, where no further job can come. None after the End. From the first of these calls on no job is
    /// admitted and no step is taken to a mark. No memory is taken.
    pub fn finish<L: Ledger>(&mut self, comparisons: &mut Comparisons<L>) -> Option<Decision>
        ensures decides { Decides End self.old self.new result }
        ensures paid { (start : ℕ) → HasPaid self.old start comparisons.old → HasPaid self.new start comparisons.new }
        ensures once { CostsOnce self.old (event_in result) comparisons.old comparisons.new }
    {
        self.decide(Horizon::End, comparisons)
    }

    /// Begins anew at a moment of rest: the engine is as one that was just made, of the same version and ratio and with
    /// the room that it has. The clock is at 0 again, and numbers and value begin at 0. The answer is the mark of the
    /// last `step`, which is taken off the clock: a tick from now on is so many ticks later in the time before. A
    /// program that adds up what was taken off never comes to the last tick. No memory is taken, and no jobs are
    /// compared.
    ///
    /// # Errors
    ///
    /// `NotRestarted`, with the first cause that holds, and all as before.
    pub fn restart(&mut self) -> Result<u64, NotRestarted>
        ensures ok { IfOk result (λ tick. IsRestarted self.old self.new tick) }
        ensures kept { OnErr result (self.new ≡ self.old) }
        ensures cause { IfErr result (λ cause. IsNotRestarted self.old cause) }
        ensures paid { (now : ℕ) → OnOk result (HasPaid self.new now now) }
    {
        let Horizon::Mark(mark) = self.last else {
            return Err(NotRestarted::Finished);
        };
        if !self.settled {
            return Err(NotRestarted::Unsettled);
        }
        if !self.server.is_idle() {
            return Err(NotRestarted::Open);
        }
        self.server.restart();
        self.admission = Admission::new(self.admission.version(), self.admission.ratio());
        self.last = Horizon::Mark(0);
        self.settled = false;
        self.forgotten = 0;
        self.earned = Earned::nothing();
        Ok(mark)
    }

    /// The tick for which to call next. Where `step` to a mark answered None and no job was admitted or done since, it
    /// is that of the next decision, if no job comes before: till then `step` to a tick before it answers None, and no
    /// call is needed. A completion at it is given by a step to it, a take or an abandonment by a step to the tick
    /// behind it. Otherwise it is the clock: a step is to be taken first. None where no job is open. No memory is
    /// taken.
    pub fn next(&self) -> Option<u64>
        ensures { IsNext self.now result }
    {
        let next = self.server.next()?;
        if self.settled {
            Some(next)
        } else {
            Some(self.clock())
        }
    }

    /// The job that would get the processor next if the one that has it were done at the clock. Where `step` to a mark
    /// answered None and no job was admitted or done since, it is the one that gets the processor at the mark if the
    /// other is `done` there. None where no other job is open. No memory is taken, and no jobs are compared but the
    /// first held and the first waiting one.
    pub fn successor(&self) -> Option<u64>
        ensures { result ≡ successor_of self.now }
    {
        match self.server.successor() {
            Some(own) => Some(self.forgotten + u64::from(own)),
            None => None,
        }
    }

    /// The sum of the values of all jobs that completed.
    pub fn value(&self) -> u128
        ensures { result ≡ done_value self.now }
    {
        self.earned.total() + u128::from(self.server.value())
    }

    /// The tick up to which all is settled, or else that of the last decision, or one behind it.
    pub fn clock(&self) -> u64
        ensures is { result ≡ clock_of self.now }
        ensures known { result ≤ last_tick }
    {
        match self.last {
            Horizon::Mark(mark) if self.settled => mark,
            _ => self.server.clock(),
        }
    }

    /// For how many open jobs more there is room.
    pub fn spare(&self) -> u32
        ensures { result ≡ spare_of self.now }
    {
        self.server.spare()
    }
}
