//! The jobs of a snapshot, as they are fed again.
ghost use Rattle.std.specs.Prelude.{◌≡◌, ◌≤◌, ◌<◌, ◌+◌, ◌^◌, ◌↔◌, ℕ, List, [], ◌∷◌, ◌++◌, length, map, Some, None};
ghost use Rattle.std.specs.Prelude.{IsTrue, OnOk, OnErr, nat_le, ◌&&◌};
ghost use Rattle.dover_model.specs.declared.events.Event.{Event};
ghost use Rattle.dover_model.specs.Common.{Instance, MayFollow, Item, JobItem, admitted_jobs, mark_after, HasNumerals};
ghost use Rattle.dover_model.specs.Common.{DoneLine, may_finish_early};
ghost use Rattle.dover_model.specs.declared.horizon.Horizon.TheVariants.{Mark};
ghost use Rattle.snapshot.specs.Snapshot as model;
ghost use Rattle.snapshot.specs.Kept.{stance_of, HasPlace, IsServing, MayAdmit, IsAt, AreAt, IsReading, Begins};
ghost use Rattle.snapshot.specs.Kept.{Answers};
ghost use Rattle.snapshot.specs.Reading.{reading_of, read_done, has_lines_for};
ghost use Rattle.snapshot.specs.Forms.{head_in};
ghost use Rattle.snapshot.specs.Spending.{jobs_read, jobs_kept, HasSpentOn};
ghost use Rattle.snapshot.specs.declared.reader.SnapFault.TheVariants as faults;
ghost use Rattle.ready_server.specs.Roster.{job_at};
ghost use Rattle.ready_server.specs.Rostering.{Serves, Rests};
ghost use Rattle.ready_server.specs.Serving as ready;

use crate::feeding::{begin, hand_done, hand_job, hand_ticks};
use crate::forms::{Head, is_within_limits, read_done, read_head, read_state};
use crate::reader::{Got, SnapFault};
use comparison_count::Comparisons;
use dover_model::{Horizon, Job, Memory, Role, Task};
use event_feed::Intake;
use ready_server::{ReadyServer, Roster};
use std::alloc::Global;
use std::sync::ledger::Ledger;

/// What a job is where the feed paused, and how many ticks it has had.
#[derive(Clone, Copy)]
pub(crate) struct Stance {
    pub(crate) role: Role,
    pub(crate) had: u64,
}

/// More printed steps than a run has.
const MOST_STEPS: u64 = 20_000_000_002;

/// Takes the run to a mark, with the roster of its jobs.
fn settle<L: Ledger>(
    server: &mut ReadyServer,
    roster: &mut Roster,
    mark: u64,
    comparisons: &mut Comparisons<L>,
)
    requires serves { (J : Instance) × (m : ℕ) × (events : List Event) × Serves server.old roster.old J m events
        × MayFollow (Mark m) (Mark mark) × (length J.jobs ≤ roster.old.finish_room) }
    ensures rests { (J : Instance) (m : ℕ) (events : List Event) → Serves server.old roster.old J m events
        → MayFollow (Mark m) (Mark mark) → Rests server.new roster.new J mark }
    ensures room { HasPlace server.old roster.old → HasPlace server.new roster.new }
    ensures finish_room { roster.new.finish_room ≡ roster.old.finish_room }
    ensures paid { (start : ℕ) → ready.HasPaid server.old start comparisons.old
        → ready.HasPaid server.new start comparisons.new }
{
    for _step in 0..MOST_STEPS {
        match server.step(Horizon::Mark(mark), comparisons) {
            Some(event) => roster.read(&event),
            None => return,
        }
    }
    unreachable!();
}

/// What a job is, and how many ticks it has had, are as stored.
fn has_stance(job: &Task, stance: &Stance) -> bool
    ensures { IsTrue result ↔ (stance_of job.now ≡ stance.now) }
{
    job.role == stance.role && job.had == stance.had
}

/// What the job of this number is, and how many ticks it has had, are as stored.
fn is_at(roster: &Roster, mark: u64, number: usize, stance: &Stance) -> bool
    ensures { IsTrue result ↔ IsAt (map (job_at roster.now.roll mark) roster.now.roll.jobs) number stance.now }
{
    match roster.job(number, mark) {
        Some(job) => has_stance(&job, stance),
        None => false,
    }
}

/// Each job is as stored.
fn are_at(roster: &Roster, mark: u64, stances: &[Stance]) -> bool
    requires { length stances.now ≡ length roster.now.roll.jobs }
    ensures { IsTrue result ↔ AreAt (map (job_at roster.now.roll mark) roster.now.roll.jobs) stances.now }
{
    for number in 0..stances.len() {
        if !is_at(roster, mark, number, &stances[number]) {
            return false;
        }
    }
    true
}

/// What was read of a snapshot: its jobs, which are fed again, and what each has to be at the end; and how many jobs
/// and early finishes were handed in, and the tick of the last.
#[derive(Drop)]
pub struct Resuming {
    head: Head,
    handed: u64,
    last: u64,
    intake: Intake,
    server: ReadyServer,
    roster: Roster,
    stances: Vec<Stance>,
}

impl Resuming {
    /// Takes the first line.
    pub fn begin(alloc: Global, line: &[u8]) -> Result<Resuming, SnapFault>
        ensures { Begins result line.now }
    {
        let bad = SnapFault::BadSnapshot { line: 1 };
        let Some(head) = read_head(line) else {
            return Err(bad);
        };
        if !is_within_limits(&head) {
            return Err(bad);
        }
        let Ok(server) = ReadyServer::new(alloc, head.version, head.ratio) else {
            return Err(SnapFault::Memory);
        };
        Ok(Resuming {
            head,
            handed: 0,
            last: 0,
            intake: begin(&head),
            server,
            roster: Roster::new(alloc),
            stances: Vec::new(alloc),
        })
    }

    /// How many jobs were read.
    fn count(&self) -> u64
        ensures { result ≡ length self.now.stances.items }
    {
        self.stances.len() as u64
    }

    /// Admits a job at its release, as a feed would. What is due there then is given with what comes next.
    fn admit<L: Ledger>(&mut self, job: Job, comparisons: &mut Comparisons<L>) -> Result<(), Memory>
        requires { (h : model.Head) × (items : List Item) × IsServing self.old h items × MayAdmit h items job }
        ensures serves { (h : model.Head) (items : List Item) → IsServing self.old h items → MayAdmit h items job
            → OnOk result (IsServing self.new h (items ++ JobItem job ∷ [])) }
        ensures same { OnOk result (self.new ≡ record self.old
            { server = self.new.server; roster = self.new.roster; handed = self.new.handed; last = self.new.last }) }
        ensures err { (h : model.Head) (items : List Item) → IsServing self.old h items →
            OnErr result (self.new.server.ready.jobs ≡ length (admitted_jobs items)) }
        ensures count { (start : ℕ) → ready.HasPaid self.old.server start comparisons.old
            → ready.HasPaid self.new.server start comparisons.new }
    {
        let jobs = self.server.jobs() as usize;
        self.roster.make_room(jobs + 1)?;
        self.server.make_room()?;
        settle(
            &mut self.server,
            &mut self.roster,
            job.release(),
            comparisons,
        );
        self.handed += 1;
        self.last = job.release();
        let release = self.server.admit(job);
        self.roster.read(&release);
        Ok(())
    }

    /// That the next line is refused.
    fn refused(&self) -> SnapFault
        requires { self.now.handed < 2 ^ 63 }
        ensures { result ≡ faults.BadSnapshot (self.now.handed + 2) }
    {
        SnapFault::BadSnapshot {
            line: self.handed + 2,
        }
    }

    /// Takes the line of the next job.
    fn job<L: Ledger>(
        &mut self,
        line: &[u8],
        comparisons: &mut Comparisons<L>,
    ) -> Result<Got, SnapFault>
        requires reading { (ls : List (List ℕ)) × IsReading (Some self.old) ls }
        requires other { read_done line.now ≡ None }
        requires more { length self.old.stances.items < self.old.head.jobs }
        ensures answers { (ls : List (List ℕ)) → IsReading (Some self.old) ls →
            Answers result (Some self.new) (ls ++ line.now ∷ []) }
        ensures jobs { (ls : List (List ℕ)) → IsReading (Some self.old) ls →
            jobs_kept (Some self.new) ≤ jobs_read (reading_of (ls ++ line.now ∷ [])) }
        ensures count { (start : ℕ) → HasSpentOn (Some self.old) start comparisons.old →
            HasSpentOn (Some self.new) start comparisons.new }
    {
        let bad = self.refused();
        let Some(state) = read_state(line) else {
            return Err(bad);
        };
        if state.number != self.count() {
            return Err(bad);
        }
        if state.release > self.head.mark {
            return Err(bad);
        }
        let Some(job) = hand_job(&mut self.intake, &state) else {
            return Err(bad);
        };
        let stance = Stance {
            role: state.role,
            had: state.had,
        };
        match self.admit(job, comparisons) {
            Ok(()) => {}
            Err(_) => return Err(SnapFault::Memory),
        }
        match self.stances.push(stance) {
            Ok(()) => Ok(Got::More),
            Err(_) => Err(SnapFault::Memory),
        }
    }

    /// Whether jobs may finish early, and this tick is neither before what was handed in nor behind the mark.
    fn may_finish(&self, at: u64) -> bool
        ensures { result ≡ (may_finish_early self.now.head.version && nat_le self.now.last at
            && nat_le at self.now.head.mark) }
    {
        self.head.version.may_finish_early() && self.last <= at && at <= self.head.mark
    }

    /// Takes the line of an early finish.
    fn done<L: Ledger>(
        &mut self,
        at: u64,
        number: u64,
        comparisons: &mut Comparisons<L>,
    ) -> Result<Got, SnapFault>
        requires reading { (ls : List (List ℕ)) × IsReading (Some self.old) ls }
        requires numerals { HasNumerals (DoneLine at number) }
        ensures answers { (ls : List (List ℕ)) (line : List ℕ) → IsReading (Some self.old) ls
            → read_done line ≡ Some (at, number) → Answers result (Some self.new) (ls ++ line ∷ []) }
        ensures jobs { (ls : List (List ℕ)) (line : List ℕ) → IsReading (Some self.old) ls
            → read_done line ≡ Some (at, number)
            → jobs_kept (Some self.new) ≤ jobs_read (reading_of (ls ++ line ∷ [])) }
        ensures count { (start : ℕ) → HasSpentOn (Some self.old) start comparisons.old →
            HasSpentOn (Some self.new) start comparisons.new }
    {
        let bad = self.refused();
        if !self.may_finish(at) {
            return Err(bad);
        }
        settle(&mut self.server, &mut self.roster, at, comparisons);
        let Some(event) = self.server.finish(at, number) else {
            return Err(bad);
        };
        self.roster.read(&event);
        hand_done(&mut self.intake, at, number);
        self.handed += 1;
        self.last = at;
        Ok(Got::More)
    }

    /// There is a line for the ratio and for all that was handed in, and the mark is that behind it, or there is a line
    /// more that may have moved it.
    fn has_lines(&self) -> bool
        requires { self.now.handed < 2 ^ 63 }
        ensures { (items : List Item) → self.now.handed ≡ length items → self.now.last ≡ mark_after 0 items
            → result ≡ has_lines_for (head_in self.now.head) items }
    {
        self.handed < self.head.lines
            && (self.head.mark <= self.last || self.handed + 1 < self.head.lines)
    }

    /// Takes the last line.
    #[inline(never)]
    fn finish<L: Ledger>(
        &mut self,
        line: &[u8],
        comparisons: &mut Comparisons<L>,
    ) -> Result<Got, SnapFault>
        requires reading { (ls : List (List ℕ)) × IsReading (Some self.old) ls }
        requires other { read_done line.now ≡ None }
        requires all { self.old.head.jobs ≤ length self.old.stances.items }
        ensures answers { (ls : List (List ℕ)) → IsReading (Some self.old) ls →
            Answers result (Some self.new) (ls ++ line.now ∷ []) }
        ensures jobs { (ls : List (List ℕ)) → IsReading (Some self.old) ls →
            jobs_kept (Some self.new) ≤ jobs_read (reading_of (ls ++ line.now ∷ [])) }
        ensures count { (start : ℕ) → HasSpentOn (Some self.old) start comparisons.old →
            HasSpentOn (Some self.new) start comparisons.new }
    {
        let bad = self.refused();
        if line != b"resume".as_slice() {
            return Err(bad);
        }
        settle(
            &mut self.server,
            &mut self.roster,
            self.head.mark,
            comparisons,
        );
        if !are_at(&self.roster, self.head.mark, self.stances.as_slice()) {
            return Err(bad);
        }
        if !self.has_lines() {
            return Err(bad);
        }
        hand_ticks(&mut self.intake, &self.head, self.handed);
        Ok(Got::Ready)
    }

    /// Takes the next line behind the first.
    pub fn line<L: Ledger>(
        &mut self,
        line: &[u8],
        comparisons: &mut Comparisons<L>,
    ) -> Result<Got, SnapFault>
        requires { (ls : List (List ℕ)) × IsReading (Some self.old) ls }
        ensures answers { (ls : List (List ℕ)) → IsReading (Some self.old) ls →
            Answers result (Some self.new) (ls ++ line.now ∷ []) }
        ensures jobs { (ls : List (List ℕ)) → IsReading (Some self.old) ls →
            jobs_kept (Some self.new) ≤ jobs_read (reading_of (ls ++ line.now ∷ [])) }
        ensures count { (start : ℕ) → HasSpentOn (Some self.old) start comparisons.old →
            HasSpentOn (Some self.new) start comparisons.new }
    {
        match read_done(line) {
            Some((at, number)) => self.done(at, number, comparisons),
            None if self.count() < self.head.jobs => self.job(line, comparisons),
            None => self.finish(line, comparisons),
        }
    }

    /// The server, its roster, the intake and the mark.
    pub fn into_parts(self) -> (ReadyServer, Roster, Intake, u64)
        ensures { result ≡ (self.server, self.roster, self.intake, self.head.mark) }
    {
        (self.server, self.roster, self.intake, self.head.mark)
    }
}
