//! What the judge keeps of the lines of a trace: the course of its session, and what may come next in it.
ghost use Rattle.std.specs.Prelude.{◌≡◌, ◌≤◌, ◌<◌, ◌+◌, ◌∷◌, ◌++◌, ℕ, List, [], true, false, IfOk};
ghost use Rattle.std.specs.Prelude.{OnOk, OnErr, IsOk, Some, None, vec_len, vec_capacity, length, if◌then◌else◌};
ghost use Rattle.dover_model.specs.Common.{last_tick, last_tick_in, most_items, may_finish_early, refuses_lines};
ghost use Rattle.std.specs.Prelude.{◌&&◌, nat_le, is_some};

use crate::says::{floor_after, is_end, is_full_cause, is_late_cause, is_same_cause, may_declare};
use crate::stage::TraceStage;
use crate::verdict::{Expected, Verdict};
use admission::Admission;
use comparison_count::Comparisons;
use dover_model::{Event, Job, Memory, PackedEvent, Ratio, Refusal, Version};
use ready_jobs::{MOST_READY, Ready};
use root_compare::long_bound;
use std::alloc::Global;
use std::marker::Model;
use std::sync::ledger::Ledger;

/// For how many jobs room is asked for at once.
const JOBS_AT_ONCE: u32 = 64;

/// The lines of a trace so far, and the run that they are read against.
#[derive(Drop)]
pub struct TraceReader {
    stage: TraceStage,
    course: Ready,
    admission: Admission,
    items: u64,
    floor: u64,
    keep: bool,
    steps: Vec<PackedEvent>,
    spare: u32,
    refused: u64,
    last: u64,
}

impl Model for TraceReader {
    ghost use Rattle.std.specs.Prelude.{vec_capacity};
    ghost use Rattle.trace_judge.specs.Reads as reads;

    ghost Value = { reads.Reading };

    ghost view = { λ r. record {
      stage = r.stage;
      course = r.course;
      kept = r.admission;
      items = r.items;
      floor = r.floor;
      keep = r.keep;
      steps = r.steps.items;
      spare = r.spare;
      room = vec_capacity r.steps;
      refused = r.refused;
      last = r.last;
    } };

    ghost invariant = { λ r. reads.IsReader (record {
      stage = r.stage;
      course = r.course;
      kept = r.admission;
      items = r.items;
      floor = r.floor;
      keep = r.keep;
      steps = r.steps.items;
      spare = r.spare;
      room = vec_capacity r.steps;
      refused = r.refused;
      last = r.last;
    }) };
}

impl TraceReader {
    ghost use Rattle.dover_model.specs.State.{State};
    ghost use Rattle.dover_model.specs.Session.{Session, instance_of, admitted_jobs};
    ghost use Rattle.dover_model.specs.Verdict.{expected_after, refused_count};
    ghost use Rattle.trace_judge.specs.declared.stage.TraceStage.TheVariants.{Opening, Going, Ended};
    ghost use Rattle.line_text.specs.traces.Form.{HasForm, item_in, trace_text};
    ghost use Rattle.line_text.specs.declared.traces.lines.TraceLine.TheVariants.{Header, Step, Refused};
    ghost use Rattle.line_text.specs.declared.traces.lines.TraceLine.TheVariants.{RefusedDone};
    ghost use Rattle.dover_model.specs.declared.events.Event.TheVariants.{Release, Complete};
    ghost use Rattle.dover_model.specs.Session.{may_finish_early, refuses_lines, is_full, finish_at};
    ghost use Rattle.dover_model.specs.JobFacts.{JobFacts, job_of_numbers};
    ghost use Rattle.dover_model.specs.Admission.{refusal_of};
    ghost use Rattle.dover_model.specs.Text.{text_of};
    ghost use Rattle.admission.specs.Kept.{StandsFor, HasRoom};
    ghost use Rattle.dover_model.specs.Bound.{bound};
    ghost use Rattle.dover_model.specs.Run.{completed_value};
    ghost use Rattle.trace_judge.specs.declared.verdict.Verdict.TheVariants.{Accepted};
    ghost use Rattle.dover_model.specs.Leading.{WaitsUntil};
    ghost use Rattle.ready_jobs.specs.Course.{GoesOnFrom};
    ghost use Rattle.trace_judge.specs.Reads.{Reads, ReadsAhead, StaysAhead, Goes, Ends, Waited, CanRelease, Took};
    ghost use Rattle.trace_judge.specs.Reads.{IsUnchangedFor, expected_of};
    ghost use Rattle.trace_judge.specs.Reads.{Followed, CanComplete, MayNotComplete, IsPaid, refusal_if_full};
    ghost use Rattle.dover_model.specs.declared.events.Refusal.TheVariants.{Full};

    /// No line. Where `keep` is true, the steps of the run are kept.
    ///
    /// # Errors
    ///
    /// `Memory` where there is none.
    pub fn new(alloc: Global, keep: bool) -> Result<TraceReader, Memory>
        ensures stage { IfOk result (λ reader. reader.stage ≡ Opening) }
        ensures reads { IfOk result (λ reader. Reads reader []) }
        ensures keep { IfOk result (λ reader. reader.keep ≡ keep) }
        ensures jobs { IfOk result (λ reader. reader.course.jobs ≡ 0) }
        ensures paid { IfOk result (λ reader. (now : ℕ) → IsPaid reader now now) }
    {
        // The header declares the ratio and the version. The room of version Four serves any.
        let one = Ratio::new(1, 1).unwrap();
        let steps = Vec::with_capacity(alloc, usize::from(keep))?;
        Ok(TraceReader {
            stage: TraceStage::Opening,
            course: Ready::new(alloc, Version::Four, one)?,
            admission: Admission::new(Version::Four, one),
            items: 0,
            floor: 0,
            keep,
            steps,
            spare: 0,
            refused: 0,
            last: 0,
        })
    }

    /// Room for so many jobs more, as far as they may be ready at once, and for their steps where they are kept.
    ///
    /// # Errors
    ///
    /// `Memory` where there is none.
    pub fn reserve(&mut self, more: u32) -> Result<(), Memory>
        ensures same { self.new ≡ record self.old {
          course = record self.old.course { room = self.new.course.room };
          spare = self.new.spare;
          room = self.new.room;
        } }
        ensures ok { OnOk result (more ≤ self.new.spare) }
        ensures grows { self.old.spare ≤ self.new.spare }
        ensures err { OnErr result (self.new.spare ≡ self.old.spare) }
        ensures enough { more ≤ self.old.spare → IsOk result }
        ensures paid { (start now : ℕ) → IsPaid self.old start now → IsPaid self.new start now }
    {
        if more <= self.spare {
            return Ok(());
        }
        self.course.reserve(more)?;
        if self.keep {
            let most = 5 * (self.course.jobs() as usize + more as usize) + 1;
            self.steps.reserve(most)?;
        }
        self.spare = more;
        Ok(())
    }

    /// How many jobs more there is room for.
    pub fn spare(&self) -> u32
        ensures { result ≡ self.now.spare }
    {
        self.spare
    }

    /// How far the trace has come.
    pub fn stage(&self) -> TraceStage
        ensures { result ≡ self.now.stage }
    {
        self.stage
    }

    /// What is due after the lines.
    pub fn due<L: Ledger>(&mut self, comparisons: &mut Comparisons<L>) -> Expected
        ensures due { (ls : List (List ℕ)) → ReadsAhead self.old ls → expected_after ls ≡ expected_of result }
        ensures ahead { StaysAhead self.old self.new }
        ensures kept { self.new ≡ record self.old { course = self.new.course } }
        ensures jobs { self.new.course.jobs ≡ self.old.course.jobs }
        ensures paid { (start : ℕ) → IsPaid self.old start comparisons.old →
            IsPaid self.new start comparisons.new }
    {
        match self.stage {
            TraceStage::Opening => Expected::Header,
            TraceStage::Going => Expected::Step(self.course.upcoming(comparisons)),
            TraceStage::Ended => Expected::Nothing,
        }
    }

    /// The verdict of a whole trace.
    pub fn accepted(&self) -> Verdict
        ensures { (ls : List (List ℕ)) (S : Session) → Ends self.now ls S
            → result ≡ Accepted S.rules.ratio S.rules.version
            (completed_value (instance_of S)) (bound S.rules.ratio (completed_value (instance_of S)))
            (length (admitted_jobs S.items)) }
    {
        let (ratio, value) = (self.course.ratio(), self.course.value());
        Verdict::Accepted {
            ratio,
            version: self.course.version(),
            value,
            bound: long_bound(value, ratio),
            jobs: self.course.jobs(),
        }
    }

    /// How many refused lines a whole trace has.
    pub fn refused(&self) -> u64
        ensures { (ls : List (List ℕ)) (S : Session) → Ends self.now ls S → result ≡ refused_count S }
    {
        self.refused
    }

    /// The steps that were kept.
    pub fn into_steps(self) -> Vec<PackedEvent>
        ensures { result.items ≡ self.steps }
    {
        self.steps
    }

    /// The header comes first.
    pub(crate) fn open_with(
        &mut self,
        version: u64,
        p: u64,
        q: u64,
        factor: Option<(u64, u64)>,
    ) -> bool
        requires opening { self.old.stage ≡ Opening }
        requires form { HasForm (Header version p q factor) }
        ensures took { Took self.old self.new (trace_text (Header version p q factor)) result }
        ensures kept { IsUnchangedFor self.old self.new }
        ensures paid { (start now : ℕ) → IsPaid self.old start now → IsPaid self.new start now }
    {
        let Some(version) = Version::from_number(version) else {
            return false;
        };
        let Some(ratio) = Ratio::of_numbers(p, q, factor) else {
            return false;
        };
        if !may_declare(version, ratio) {
            return false;
        }
        self.course.declare(version, ratio);
        self.admission = Admission::new(version, ratio);
        self.stage = TraceStage::Going;
        true
    }

    /// The next line is that of the printed step that is due, up to which the run may have gone on.
    #[inline(always)]
    pub(crate) fn follow<L: Ledger>(
        &mut self,
        event: &Event,
        comparisons: &mut Comparisons<L>,
    ) -> bool
        requires going { self.old.stage ≡ Going }
        requires form { HasForm (Step event.now) }
        requires none { item_in (Step event.now) ≡ None }
        ensures followed { Followed self.old self.new event.now result }
        ensures kept { IsUnchangedFor self.old self.new }
        ensures paid { (start : ℕ) → IsPaid self.old start comparisons.old →
            IsPaid self.new start comparisons.new }
    {
        if !self.course.follow(event, comparisons) {
            return false;
        }
        keep_step(self.keep, &mut self.steps, event);
        self.last = self.course.clock();
        if is_end(event) {
            self.stage = TraceStage::Ended;
            return true;
        }
        let floor = floor_after(event, self.last);
        self.floor = self.floor.max(floor);
        true
    }

    // Nothing is printed before the barrier of the tick, up to which the run goes on.
    fn waits_until<L: Ledger>(&mut self, tick: u64, comparisons: &mut Comparisons<L>) -> bool
        requires going { self.old.stage ≡ Going }
        requires known { tick ≤ last_tick }
        ensures yes { result ≡ true → (ls : List (List ℕ)) (S : Session) (z y : State) → Goes self.old ls S z y →
            (x : State) × Waited self.new tick ls S z x }
        ensures no { result ≡ false → self.old.floor ≤ tick → (ls : List (List ℕ)) (S : Session) (z : State)
            → Goes self.old ls S z z →
            (x : State) → WaitsUntil (instance_of S).rules tick z x → ⊥ }
        ensures ahead { StaysAhead self.old self.new }
        ensures kept { self.new ≡ record self.old { course = self.new.course } }
        ensures course { GoesOnFrom self.old.course self.new.course }
        ensures paid { (start : ℕ) → IsPaid self.old start comparisons.old →
            IsPaid self.new start comparisons.new }
    {
        if self.floor > tick {
            return false;
        }
        if self.course.clock() > tick {
            return false;
        }
        self.course.settle(tick, comparisons).is_none()
    }

    // The finish of the job of this number is right at this tick, up to whose barrier the run has gone on.
    fn is_right(&self, at: u64, number: u64) -> bool
        ensures { (ls : List (List ℕ)) (S : Session) (z y : State) → Waited self.now at ls S z y →
            result ≡ is_some (finish_at (instance_of S) at number) }
    {
        if self.last >= at {
            return false;
        }
        self.course.runs(number)
    }

    // As many jobs are ready as may be at once, where the run has gone on to the barrier of a tick.
    fn is_full(&self) -> bool
        ensures { (at : ℕ) (ls : List (List ℕ)) (S : Session) (z y : State) → Waited self.now at ls S z y →
            result ≡ is_full (instance_of S) at }
    {
        self.course.count() >= MOST_READY
    }

    // The tick is one that the version may name.
    fn is_known(&self, at: u64) -> bool
        ensures yes { result ≡ true → at ≤ last_tick_in self.now.kept.rules.version }
        ensures no { result ≡ false → last_tick_in self.now.kept.rules.version < at }
    {
        at <= self.admission.version().last_tick()
    }

    // There may be one item more.
    fn has_room(&self) -> bool
        ensures yes { result ≡ true → self.now.items < most_items self.now.kept.rules.version }
        ensures no { result ≡ false → most_items self.now.kept.rules.version ≤ self.now.items }
    {
        self.items < self.admission.version().most_items()
    }

    // The release of this job may come next, as far as the jobs before it go.
    fn may_admit(&self, number: u32, job: &Job) -> bool
        ensures yes { result ≡ true → (number ≡ self.now.course.jobs)
            × (self.now.items < most_items self.now.kept.rules.version) × HasRoom self.now.kept job.now }
        ensures admits { result ≡ true → (jobs : List JobFacts) → StandsFor self.now.kept jobs
            → refusal_of self.now.kept.rules jobs job.now ≡ None }
        ensures no { result ≡ false → number ≡ self.now.course.jobs
            → self.now.items < most_items self.now.kept.rules.version → (jobs : List JobFacts) →
            StandsFor self.now.kept jobs → refusal_of self.now.kept.rules jobs job.now ≡ None → ⊥ }
    {
        if number != self.course.jobs() {
            return false;
        }
        if !self.has_room() {
            return false;
        }
        self.admission.check_job(*job).is_ok()
    }

    // Room for a job more. Where there is none left, it is asked for more of them at once, if memory has it.
    fn make_room(&mut self) -> Result<(), Memory>
        ensures same { self.new ≡ record self.old {
          course = record self.old.course { room = self.new.course.room };
          spare = self.new.spare;
          room = self.new.room;
        } }
        ensures ok { OnOk result (1 ≤ self.new.spare) }
        ensures grows { self.old.spare ≤ self.new.spare }
        ensures enough { 1 ≤ self.old.spare → IsOk result }
        ensures paid { (start now : ℕ) → IsPaid self.old start now → IsPaid self.new start now }
    {
        if self.spare > 0 {
            return Ok(());
        }
        match self.reserve(JOBS_AT_ONCE) {
            Ok(()) => Ok(()),
            Err(_) => self.reserve(1),
        }
    }

    // Takes the release of the job.
    fn admit(&mut self, job: Job)
        requires going { self.old.stage ≡ Going }
        requires can { (ls : List (List ℕ)) × CanRelease self.old job ls }
        requires room { HasRoom self.old.kept job }
        requires spare { 0 < self.old.spare }
        ensures reads { (ls : List (List ℕ)) → CanRelease self.old job ls
            → Reads self.new (ls ++ text_of (Release self.old.course.jobs job) ∷ []) }
        ensures keep { self.new.keep ≡ self.old.keep }
        ensures spare { self.new.spare + 1 ≡ self.old.spare }
        ensures jobs { self.new.course.jobs ≤ self.old.course.jobs + 1 }
        ensures paid { (start now : ℕ) → IsPaid self.old start now → IsPaid self.new start now }
    {
        let number = self.course.jobs();
        self.course.release(job);
        self.admission.admit(job);
        self.items += 1;
        let release = job.release();
        self.floor = release;
        self.last = release;
        self.spare -= 1;
        keep_step(self.keep, &mut self.steps, &Event::Release { number, job });
    }

    /// The next line is that of a release.
    pub(crate) fn take_release<L: Ledger>(
        &mut self,
        number: u32,
        job: Job,
        comparisons: &mut Comparisons<L>,
    ) -> Result<bool, Memory>
        requires going { self.old.stage ≡ Going }
        requires form { HasForm (Step (Release number job)) }
        ensures took { IfOk result (Took self.old self.new (text_of (Release number job))) }
        ensures room { 0 < self.old.spare → IsOk result }
        ensures spare { self.old.spare ≤ self.new.spare + 1 }
        ensures keep { self.new.keep ≡ self.old.keep }
        ensures jobs { self.new.course.jobs ≤ self.old.course.jobs + 1 }
        ensures paid { (start : ℕ) → IsPaid self.old start comparisons.old →
            IsPaid self.new start comparisons.new }
    {
        // What is kept of the lines is known where a field is read.
        let _ = &self.stage;
        if !self.may_admit(number, &job) {
            return Ok(false);
        }
        if !self.waits_until(job.release(), comparisons) {
            return Ok(false);
        }
        if self.is_full() {
            return Ok(false);
        }
        self.make_room()?;
        self.admit(job);
        Ok(true)
    }

    // The done line of this tick, which isn't above the mark, is right at the mark, up to whose barrier the run has
    // gone on.
    fn is_right_done(&self, at: u64, tick: u64, number: u64) -> bool
        requires low { tick ≤ at }
        ensures { (ls : List (List ℕ)) (S : Session) (z y : State) → Waited self.now at ls S z y →
            result ≡ (nat_le at tick && is_some (finish_at (instance_of S) tick number)) }
    {
        if tick < at {
            return false;
        }
        self.is_right(at, number)
    }

    // Takes the completion of the job, which finishes early.
    fn finish(&mut self, at: u64, number: u32)
        requires going { self.old.stage ≡ Going }
        requires can { (ls : List (List ℕ)) × CanComplete self.old at number ls }
        ensures reads { (ls : List (List ℕ)) → CanComplete self.old at number ls
            → Reads self.new (ls ++ text_of (Complete at number) ∷ []) }
        ensures kept { IsUnchangedFor self.old self.new }
        ensures paid { (start now : ℕ) → IsPaid self.old start now → IsPaid self.new start now }
    {
        self.course.finish(u64::from(number));
        self.items += 1;
        self.floor = at;
        self.last = at;
        keep_step(self.keep, &mut self.steps, &Event::Complete { at, number });
    }

    // The next line is that of a completion, by which a job finishes early.
    #[inline(never)]
    fn finish_early<L: Ledger>(
        &mut self,
        at: u64,
        number: u32,
        comparisons: &mut Comparisons<L>,
    ) -> bool
        requires going { self.old.stage ≡ Going }
        ensures yes { result ≡ true → Took self.old self.new (text_of (Complete at number)) true }
        ensures no { result ≡ false → MayNotComplete self.old at number }
        ensures ahead { result ≡ false → StaysAhead self.old self.new }
        ensures stage { result ≡ false → self.new.stage ≡ Going }
        ensures kept { IsUnchangedFor self.old self.new }
        ensures paid { (start : ℕ) → IsPaid self.old start comparisons.old →
            IsPaid self.new start comparisons.new }
    {
        // What is kept of the lines is known where a field is read.
        let _ = &self.stage;
        if !self.admission.version().may_finish_early() {
            return false;
        }
        if !self.is_known(at) {
            return false;
        }
        if !self.has_room() {
            return false;
        }
        if !self.waits_until(at, comparisons) {
            return false;
        }
        if !self.is_right(at, u64::from(number)) {
            return false;
        }
        self.finish(at, number);
        true
    }

    /// The next line is that of a completion, early or not.
    #[inline(always)]
    pub(crate) fn complete<L: Ledger>(
        &mut self,
        at: u64,
        number: u32,
        comparisons: &mut Comparisons<L>,
    ) -> bool
        requires going { self.old.stage ≡ Going }
        requires form { HasForm (Step (Complete at number)) }
        ensures took { Took self.old self.new (text_of (Complete at number)) result }
        ensures kept { IsUnchangedFor self.old self.new }
        ensures paid { (start : ℕ) → IsPaid self.old start comparisons.old →
            IsPaid self.new start comparisons.new }
    {
        if self.finish_early(at, number, comparisons) {
            return true;
        }
        self.follow(&Event::Complete { at, number }, comparisons)
    }

    // The refused line may come next, as far as the jobs before it go, if as many jobs as may be are ready at its tick.
    fn may_refuse(
        &self,
        at: u64,
        release: u64,
        work: u64,
        deadline: u64,
        value: u64,
        cause: Refusal,
    ) -> bool
        ensures yes { result ≡ true → (refuses_lines self.now.kept.rules.version ≡ true)
            × (at ≤ last_tick_in self.now.kept.rules.version)
            × (self.now.items < most_items self.now.kept.rules.version) }
        ensures refuses { result ≡ true → (jobs : List JobFacts) → StandsFor self.now.kept jobs →
            refusal_if_full self.now.kept.rules jobs at (job_of_numbers release work deadline value) ≡ Some cause }
        ensures no { result ≡ false → refuses_lines self.now.kept.rules.version ≡ true
            → at ≤ last_tick_in self.now.kept.rules.version
            → self.now.items < most_items self.now.kept.rules.version
            → (jobs : List JobFacts) → StandsFor self.now.kept jobs →
            refusal_if_full self.now.kept.rules jobs at (job_of_numbers release work deadline value) ≡ Some cause
            → ⊥ }
    {
        if !self.admission.version().refuses_lines() {
            return false;
        }
        if !self.is_known(at) {
            return false;
        }
        if !self.has_room() {
            return false;
        }
        if release < at {
            return is_late_cause(self.admission.version(), cause);
        }
        match self.admission.check(release, work, deadline, value) {
            Ok(_) => is_full_cause(release, at, cause),
            Err(refused) => is_same_cause(refused.refusal(), cause),
        }
    }

    // Whether the run bears the cause out. `Full` says that as many jobs are ready as may be at once: so many have to
    // be ready where the run stands. Of any other cause the run says nothing.
    fn bears_out(&self, cause: Refusal) -> bool
        ensures yes { result ≡ true → cause ≡ Full → (at : ℕ) (ls : List (List ℕ)) (S : Session) (z y : State)
            → Waited self.now at ls S z y → is_full (instance_of S) at ≡ true }
        ensures is { result ≡ false → cause ≡ Full }
        ensures no { result ≡ false → (at : ℕ) (ls : List (List ℕ)) (S : Session) (z y : State)
            → Waited self.now at ls S z y → is_full (instance_of S) at ≡ false }
    {
        if !is_same_cause(cause, Refusal::Full) {
            return true;
        }
        self.is_full()
    }

    /// The next line is that of a refused job line.
    pub(crate) fn refuse<L: Ledger>(
        &mut self,
        at: u64,
        release: u64,
        work: u64,
        deadline: u64,
        value: u64,
        cause: Refusal,
        comparisons: &mut Comparisons<L>,
    ) -> bool
        requires going { self.old.stage ≡ Going }
        requires form { HasForm (Refused at release work deadline value cause) }
        ensures took { Took self.old self.new (trace_text (Refused at release work deadline value cause)) result }
        ensures kept { IsUnchangedFor self.old self.new }
        ensures paid { (start : ℕ) → IsPaid self.old start comparisons.old →
            IsPaid self.new start comparisons.new }
    {
        // What is kept of the lines is known where a field is read.
        let _ = &self.stage;
        if !self.may_refuse(at, release, work, deadline, value, cause) {
            return false;
        }
        if !self.waits_until(at, comparisons) {
            return false;
        }
        if !self.bears_out(cause) {
            return false;
        }
        self.items += 1;
        self.refused += 1;
        self.floor = at;
        true
    }

    // The refused done line may come next, as far as its ticks go.
    fn may_refuse_done(&self, at: u64, tick: u64) -> bool
        ensures yes { result ≡ true → (may_finish_early self.now.kept.rules.version ≡ true)
            × (at ≤ last_tick_in self.now.kept.rules.version)
            × (tick ≤ at) × (self.now.items < most_items self.now.kept.rules.version) }
        ensures no { result ≡ false → may_finish_early self.now.kept.rules.version ≡ true →
            at ≤ last_tick_in self.now.kept.rules.version →
            tick ≤ at → self.now.items < most_items self.now.kept.rules.version → ⊥ }
    {
        if !self.admission.version().may_finish_early() {
            return false;
        }
        if !self.is_known(at) {
            return false;
        }
        if tick > at {
            return false;
        }
        self.has_room()
    }

    /// The next line is that of a done line that was refused.
    pub(crate) fn refuse_done<L: Ledger>(
        &mut self,
        at: u64,
        tick: u64,
        number: u64,
        comparisons: &mut Comparisons<L>,
    ) -> bool
        requires going { self.old.stage ≡ Going }
        requires form { HasForm (RefusedDone at tick number) }
        ensures took { Took self.old self.new (trace_text (RefusedDone at tick number)) result }
        ensures kept { IsUnchangedFor self.old self.new }
        ensures paid { (start : ℕ) → IsPaid self.old start comparisons.old →
            IsPaid self.new start comparisons.new }
    {
        // What is kept of the lines is known where a field is read.
        let _ = &self.stage;
        if !self.may_refuse_done(at, tick) {
            return false;
        }
        if !self.waits_until(at, comparisons) {
            return false;
        }
        if self.is_right_done(at, tick, number) {
            return false;
        }
        self.items += 1;
        self.refused += 1;
        self.floor = at;
        true
    }
}

// Puts the step behind the others, where they are kept.
fn keep_step(keep: bool, steps: &mut Vec<PackedEvent>, event: &Event)
    requires { keep ≡ true → vec_len steps.old < vec_capacity steps.old }
    ensures items { steps.new.items ≡ (if keep then steps.old.items ++ event.now ∷ [] else steps.old.items) }
    ensures room { vec_capacity steps.new ≡ vec_capacity steps.old }
{
    if keep {
        steps.push_reserved(PackedEvent::new(event));
    }
}
