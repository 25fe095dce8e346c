//! The server over the jobs that are ready.
ghost use Rattle.std.specs.Prelude.{◌≡◌, ◌≤◌, ◌<◌, ◌+◌, ◌∷◌, [], ◌++◌, ◌||◌, ◌↔◌, ◌*◌, ℕ, List, length, min, max, IfOk};
ghost use Rattle.std.specs.Prelude.{IsOk, OnOk, IfSome, IsNone, IsTrue, false, Some};
ghost use Rattle.dover_model.specs.declared.events.Event.{Event};
ghost use Rattle.dover_model.specs.declared.events.Event.TheVariants.{Complete};
ghost use Rattle.dover_model.specs.Common.{Finish, Instance, IsValid, with_jobs, with_finishes, finishing, most_ready};
ghost use Rattle.dover_model.specs.Common.{most_total, last_tick, instead_with, runner_of, EarlyFinish, finish_at};
ghost use Rattle.dover_model.specs.Common.{is_full, settled, is_end, CostsAtMost, Prints, Begins};
ghost use Rattle.dover_model.specs.Common.{MayFollow, is_end_given, no_jobs, due_by, Gives};
ghost use Rattle.dover_model.specs.declared.events.Version.TheVariants.{Three};
ghost use Rattle.dover_model.specs.declared.horizon.Horizon.{Horizon};
ghost use Rattle.dover_model.specs.declared.horizon.Horizon.TheVariants.{Mark, End};
ghost use Rattle.ready_server.specs.Serving.{Serves, Rests, HasPlace, HasPaid, spare_of, HasShortValue, CostsOnce};
ghost use Rattle.ready_server.specs.Serving.{Finishes, GoesOnWith, HasPlaceUnlessFull};
ghost use Rattle.ready_jobs.specs.Course.{successor_of, new_course};
ghost use Rattle.ready_server.specs.NextStep.{ComesAt};

use comparison_count::Comparisons;
use dover_model::{Event, Horizon, Job, Memory, Ratio, Version};
use ready_jobs::{MOST_READY, Ready};
use std::alloc::Global;
use std::sync::ledger::Ledger;

/// A server that keeps the jobs that are released and not over, and forgets each as it is over. However many come, it
/// makes room for at most twice as many as are ready at once.
#[derive(Drop)]
pub struct ReadyServer {
    ready: Ready,
    ended: bool,
    last: u64,
}

// The event is the last.
fn is_end(event: &Event) -> bool
    ensures { result ≡ is_end (Prints event.now) }
{
    matches!(event, Event::End { .. })
}

impl ReadyServer {
    ghost use Rattle.ready_server.specs.declared.server.ReadyServer.{ReadyServer};

    /// What holds of each. It does nothing.
    pub fn laws()
        ensures valid { (s : ReadyServer) (J : Instance) (to : Horizon) (events : List Event) → Serves s J to events
            → IsValid J }
        ensures begins { (s : ReadyServer) (J : Instance) (to : Horizon) (events : List Event) → Serves s J to events
            → Begins events (due_by J to) }
        ensures rested { (s : ReadyServer) (J : Instance) (to : Horizon) → Rests s J to → Serves s J to (due_by J to) }
        ensures few { (s : ReadyServer) (J : Instance) (to : Horizon) (events : List Event) (start now : ℕ) →
            Serves s J to events → HasPaid s start now → CostsAtMost (length J.jobs) start now }
        ensures place { (s : ReadyServer) → HasPlaceUnlessFull s → length s.ready.ready < most_ready → HasPlace s }
    {}

    /// No job is admitted yet, there is room for none, and the clock is 0.
    ///
    /// # Errors
    ///
    /// `Memory` where there is none.
    pub fn new(alloc: Global, version: Version, k: Ratio) -> Result<ReadyServer, Memory>
        ensures serves { IfOk result (λ s. Serves s (no_jobs version k) (Mark 0) []) }
        ensures empty { IfOk result (λ s. s.ready.ready ≡ []) }
        ensures room { IfOk result (λ s. s.ready.room ≡ 0) }
        ensures paid { (start now : ℕ) → now ≤ start → IfOk result (λ s. HasPaid s start now) }
    {
        // A ratio is known to be one where it is read.
        let _ = k.p();
        Ok(ReadyServer {
            ready: Ready::new(alloc, version, k)?,
            ended: false,
            last: 0,
        })
    }

    /// Room for so many ready jobs more, for at most 1,000,000 in all. Want of it leaves all as before.
    ///
    /// # Errors
    ///
    /// `Memory` where there is none.
    pub fn reserve(&mut self, more: u32) -> Result<(), Memory>
        ensures serves { (J : Instance) (to : Horizon) (events : List Event) → Serves self.old J to events
            → Serves self.new J to events }
        ensures room { OnOk result (min (length self.old.ready.ready + more) most_ready ≤ self.new.ready.room) }
        ensures few { self.new.ready.room
            ≤ max self.old.ready.room (min (length self.old.ready.ready + more) most_ready) }
        ensures same { self.new.ready.ready ≡ self.old.ready.ready }
        ensures paid { (start now : ℕ) → HasPaid self.old start now → HasPaid self.new start now }
    {
        self.ready.reserve(more)
    }

    /// Makes room for one job more: for at most twice as many as are ready, where there wasn't room for more before.
    /// Where there is room, it takes no memory.
    ///
    /// # Errors
    ///
    /// `Memory` where there is none, or where 1,000,000 jobs are ready, for no more than which there is room. It has
    /// come as far as before, and room can be asked for again.
    pub fn make_room(&mut self) -> Result<(), Memory>
        ensures serves { (J : Instance) (to : Horizon) (events : List Event) → Serves self.old J to events
            → Serves self.new J to events }
        ensures room { OnOk result (HasPlace self.new) }
        ensures enough { HasPlace self.old → IsOk result × (self.new ≡ self.old) }
        ensures few { self.new.ready.room ≤ max self.old.ready.room (max 1 (2 * length self.old.ready.ready)) }
        ensures paid { (start now : ℕ) → HasPaid self.old start now → HasPaid self.new start now }
    {
        self.ready.laws();
        if self.is_full() {
            return Err(Memory);
        }
        self.make_room_unless_full()
    }

    /// Makes room for one job more, unless 1,000,000 are ready, for no more than which there is room. Where there is
    /// room, or may be no more, it takes no memory.
    ///
    /// # Errors
    ///
    /// `Memory` where there is none. It has come as far as before, and room can be asked for again.
    pub fn make_room_unless_full(&mut self) -> Result<(), Memory>
        ensures serves { (J : Instance) (to : Horizon) (events : List Event) → Serves self.old J to events
            → Serves self.new J to events }
        ensures room { OnOk result (HasPlaceUnlessFull self.new) }
        ensures enough { HasPlaceUnlessFull self.old → IsOk result × (self.new ≡ self.old) }
        ensures full { most_ready ≤ length self.old.ready.ready → IsOk result }
        ensures few { self.new.ready.room ≤ max self.old.ready.room (max 1 (2 * length self.old.ready.ready)) }
        ensures same { self.new.ready.ready ≡ self.old.ready.ready }
        ensures paid { (start now : ℕ) → HasPaid self.old start now → HasPaid self.new start now }
    {
        self.ready.laws();
        let ready = self.ready.count();
        if MOST_READY.min(ready + 1) <= self.ready.room() {
            return Ok(());
        }
        self.ready.reserve(ready.max(1))
    }

    /// Whether 1,000,000 jobs are ready, so that none may be admitted.
    pub fn is_full(&self) -> bool
        ensures at { (J : Instance) (mark : ℕ) → Rests self.now J (Mark mark) → result ≡ is_full J mark }
        ensures many { IsTrue result ↔ (most_ready ≤ length self.now.ready.ready) }
    {
        MOST_READY <= self.ready.count()
    }

    /// For how many ready jobs more there is room.
    pub fn spare(&self) -> u32
        ensures { result ≡ spare_of self.now }
    {
        self.ready.room().saturating_sub(self.ready.count())
    }

    /// The value of the jobs done.
    pub fn value(&self) -> u64
        ensures is { result ≡ self.now.ready.done }
        ensures modest { result ≤ most_total Three }
    {
        self.ready.value()
    }

    /// The clock, in ticks.
    pub fn clock(&self) -> u64
        ensures is { result ≡ self.now.ready.clock }
        ensures known { result ≤ last_tick }
    {
        self.ready.clock()
    }

    /// The version under which the jobs run.
    pub fn version(&self) -> Version
        ensures { result ≡ self.now.ready.rules.version }
    {
        self.ready.version()
    }

    /// The ratio.
    pub fn ratio(&self) -> Ratio
        ensures { result ≡ self.now.ready.rules.ratio }
    {
        self.ready.ratio()
    }

    /// How many jobs were admitted.
    pub fn jobs(&self) -> u32
        ensures { result ≡ self.now.ready.jobs }
    {
        self.ready.jobs()
    }

    /// Whether the job of this number has the processor, where all is given up to a mark.
    pub fn runs(&self, number: u64) -> bool
        ensures { (J : Instance) (mark : ℕ) → Rests self.now J (Mark mark)
            → IsTrue result ↔ (runner_of (settled J mark) ≡ Some number) }
    {
        self.ready.runs(number)
    }

    /// Whether no job is ready.
    pub fn is_idle(&self) -> bool
        ensures { IsTrue result ↔ (length self.now.ready.ready ≡ 0) }
    {
        self.ready.count() == 0
    }

    /// The tick at which the run prints its next step, where all is given up to a mark and no further job comes. None
    /// where no job is ready.
    pub fn next(&self) -> Option<u64>
        ensures none { IsNone result ↔ (self.now.ready.ready ≡ []) }
        ensures at { (J : Instance) (mark : ℕ) → Rests self.now J (Mark mark)
            → IfSome result (λ tick. ComesAt J mark (settled J mark) tick) }
    {
        self.ready.next()
    }

    /// The number of the job that would get the processor if none had it: where all is given up to a mark, the one that
    /// gets it where the job that has it is done there early. None where no other job is ready. No jobs are compared
    /// but the first held and the first waiting one.
    pub fn successor(&self) -> Option<u32>
        ensures is { result ≡ successor_of self.now.ready }
        ensures next { (J : Instance) (at number : ℕ) (f : EarlyFinish) → Rests self.now J (Mark at)
            → finish_at J at number ≡ Some f
            → GoesOnWith (with_finishes J (f.finish ∷ [])) at (settled J at ++ Complete at number ∷ []) result }
    {
        self.ready.successor()
    }

    /// Forgets how many jobs there were, and what those done were worth, where none is ready: what is left at rest is
    /// the run of no jobs, none of which finishes early. The clock goes on.
    pub fn renew(&mut self)
        requires { length self.old.ready.ready ≡ 0 }
        ensures rests { (J : Instance) (mark : ℕ) → Rests self.old J (Mark mark)
            → Rests self.new (instead_with J [] []) (Mark mark) }
        ensures done { self.new.ready.done ≡ 0 }
        ensures ended { self.new.ended ≡ self.old.ended }
        ensures spare { spare_of self.new ≡ spare_of self.old }
        ensures renewed { self.new.ready ≡ record self.old.ready { jobs = 0; done = 0 } }
    {
        self.ready.renew();
        self.last = 0;
    }

    /// Begins anew where no job is ready: it is as a new one, with the room that it has. No memory is taken.
    pub fn restart(&mut self)
        requires { length self.old.ready.ready ≡ 0 }
        ensures serves { Serves self.new
            (no_jobs self.old.ready.rules.version self.old.ready.rules.ratio) (Mark 0) [] }
        ensures anew { self.new.ready ≡ new_course self.old.ready.rules self.old.ready.room }
        ensures paid { (now : ℕ) → HasPaid self.new now now }
    {
        self.ready.restart();
        self.ended = false;
        self.last = 0;
    }

    // The next printed step before the barrier of the mark.
    #[inline(always)]
    fn step_to<L: Ledger>(&mut self, mark: u64, comparisons: &mut Comparisons<L>) -> Option<Event>
        requires { (J : Instance) × (from : Horizon) × (events : List Event) × Serves self.old J from events
            × MayFollow from (Mark mark) }
        ensures gives { (J : Instance) (from : Horizon) (events : List Event) → Serves self.old J from events
            → MayFollow from (Mark mark)
            → Gives (Serves self.new J (Mark mark)) (Rests self.new J (Mark mark)) (due_by J (Mark mark)) events
            result }
        ensures open { is_end_given result ≡ false }
        ensures ended { self.new.ended ≡ self.old.ended }
        ensures spare { spare_of self.old ≤ spare_of self.new }
        ensures room { HasPlace self.old → HasPlace self.new }
        ensures place { HasPlaceUnlessFull self.old → HasPlaceUnlessFull self.new }
        ensures room_stays { self.new.ready.room ≡ self.old.ready.room }
        ensures paid { (start : ℕ) → HasPaid self.old start comparisons.old → HasPaid self.new start comparisons.new }
        ensures once { CostsOnce self.old result comparisons.old comparisons.new }
    {
        let Some(event) = self.ready.step(mark, comparisons) else {
            return None;
        };
        self.last = self.ready.clock();
        Some(event)
    }

    // The next printed step of the run, where no further job comes.
    #[inline(never)]
    fn step_on<L: Ledger>(&mut self, comparisons: &mut Comparisons<L>) -> Option<Event>
        requires { (J : Instance) × (from : Horizon) × (events : List Event) × Serves self.old J from events }
        ensures gives { (J : Instance) (from : Horizon) (events : List Event) → Serves self.old J from events
            → Gives (Serves self.new J End) (Rests self.new J End) (due_by J End) events result }
        ensures ended { self.new.ended ≡ (self.old.ended || is_end_given result) }
        ensures short { IfSome result HasShortValue }
        ensures spare { spare_of self.old ≤ spare_of self.new }
        ensures room { HasPlace self.old → HasPlace self.new }
        ensures place { HasPlaceUnlessFull self.old → HasPlaceUnlessFull self.new }
        ensures room_stays { self.new.ready.room ≡ self.old.ready.room }
        ensures paid { (start : ℕ) → HasPaid self.old start comparisons.old → HasPaid self.new start comparisons.new }
        ensures once { CostsOnce self.old result comparisons.old comparisons.new }
    {
        if self.ended {
            return None;
        }
        let event = self.ready.step_on(comparisons);
        self.last = self.ready.clock();
        if is_end(&event) {
            self.ended = true;
            return Some(event);
        }
        Some(event)
    }

    /// The next printed step of the run of the admitted jobs. At a mark it is None where none comes before the first
    /// decision at a latest start, or silent tick, at the mark or after it. At the end it is None where End was given
    /// before. No memory is taken. Comparisons of jobs are counted in `comparisons`.
    ///
    /// A mark is a tick, at most 10^16. Marks never fall, and none comes behind `Horizon::End`.
    #[inline(always)]
    pub fn step<L: Ledger>(
        &mut self,
        to: Horizon,
        comparisons: &mut Comparisons<L>,
    ) -> Option<Event>
        requires { (J : Instance) × (from : Horizon) × (events : List Event) × Serves self.old J from events
            × MayFollow from to }
        ensures gives { (J : Instance) (from : Horizon) (events : List Event) → Serves self.old J from events
            → MayFollow from to
            → Gives (Serves self.new J to) (Rests self.new J to) (due_by J to) events result }
        ensures ended { self.new.ended ≡ (self.old.ended || is_end_given result) }
        ensures short { IfSome result HasShortValue }
        ensures spare { spare_of self.old ≤ spare_of self.new }
        ensures room { HasPlace self.old → HasPlace self.new }
        ensures place { HasPlaceUnlessFull self.old → HasPlaceUnlessFull self.new }
        ensures room_stays { self.new.ready.room ≡ self.old.ready.room }
        ensures paid { (start : ℕ) → HasPaid self.old start comparisons.old → HasPaid self.new start comparisons.new }
        ensures once { CostsOnce self.old result comparisons.old comparisons.new }
    {
        match to {
            Horizon::Mark(mark) => self.step_to(mark, comparisons),
            Horizon::End => self.step_on(comparisons),
        }
    }

    /// Releases a job, up to which all was given, and gives its release. No memory is taken.
    #[inline(always)]
    pub fn admit(&mut self, job: Job) -> Event
        requires room { HasPlace self.old }
        requires valid { (J : Instance) × Rests self.old J (Mark job.release) × IsValid (with_jobs J (job ∷ [])) }
        ensures serves { (J : Instance) → Rests self.old J (Mark job.release) → IsValid (with_jobs J (job ∷ [])) →
            Serves self.new (with_jobs J (job ∷ [])) (Mark job.release) (settled J job.release ++ result ∷ []) }
        ensures open { is_end (Prints result) ≡ false }
        ensures spare { spare_of self.old ≤ spare_of self.new + 1 }
        ensures room_stays { self.new.ready.room ≡ self.old.ready.room }
        ensures paid { (start now : ℕ) → HasPaid self.old start now → HasPaid self.new start now }
    {
        let number = self.ready.jobs();
        self.ready.release(job);
        self.last = job.release();
        Event::Release { number, job }
    }

    /// Finishes the job of this number at a mark up to which all was given: it has had the tick that ends there, which
    /// was the last that it needed. Gives its completion, or None where that isn't right: where the job doesn't run, or
    /// a step of the mark's tick was given before. No memory is taken.
    pub fn finish(&mut self, at: u64, number: u64) -> Option<Event>
        requires rests { (J : Instance) × Rests self.old J (Mark at) }
        ensures finishes { (J : Instance) → Rests self.old J (Mark at) → Finishes self.old self.new J at number result }
        ensures room { HasPlace self.old → HasPlace self.new }
        ensures place { HasPlaceUnlessFull self.old → HasPlaceUnlessFull self.new }
        ensures spare { spare_of self.old ≤ spare_of self.new }
        ensures room_stays { self.new.ready.room ≡ self.old.ready.room }
        ensures clock { IfSome result (λ _. self.new.ready.clock ≡ at) }
        ensures paid { (start now : ℕ) → HasPaid self.old start now → HasPaid self.new start now }
    {
        if self.last >= at {
            return None;
        }
        if !self.ready.finish(number) {
            return None;
        }
        self.last = at;
        Some(Event::Complete {
            at,
            number: number as u32,
        })
    }
}
