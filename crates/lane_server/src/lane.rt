//! One lane: a feed, the server that it feeds, and the lines that are due and not yet given.
ghost use Rattle.std.specs.Prelude.{◌≡◌, ◌≤◌, ◌<◌, ℕ, List, [], ◌∷◌, ◌++◌, length, Some, Err, true};
ghost use Rattle.std.specs.Prelude.{OnOk, OnErr, option_map};
ghost use Rattle.dover_model.specs.Common.{Account, account_of_lines, is_open, admitted_jobs, CostsAtMost, JobFacts};
ghost use Rattle.event_feed.specs.Answers.{DeclaresRatio, AddsJob, AddsDone, IsFed, EndAnswers, counted, admitted_in};
ghost use Rattle.event_feed.specs.Kept.{fault_of};
ghost use Rattle.dover_model.specs.declared.events.Refusal.TheVariants.{Full};
ghost use Rattle.event_feed.specs.declared.due_line.DueLine.TheVariants.{Header, Refuse};
ghost use Rattle.event_feed.specs.declared.faults.FeedFault.{FeedFault};
ghost use Rattle.lane_server.specs.Lanes.{lines_added, feed_short, is_fine};
ghost use Rattle.lane_server.specs.Lane.{IsDeclared, AsksForMemory, Stands, IsQuiet, Gives, IsOpenAt, Adds, TurnsTo};
ghost use Rattle.lane_server.specs.Spending.{HasPaid};
ghost use Rattle.lane_server.specs.Shorts.{short_texts};
ghost use Rattle.lane_server.specs.declared.lane.Work.TheVariants.{Nothing, Give, Run, Admit, Finish};

use comparison_count::Comparisons;
use dover_model::{Horizon, Job, Memory, Ratio, Refusal, Version};
use event_feed::{DueLine, Fed, FeedFault, Intake};
use line_text::Spelled;
use ready_server::ReadyServer;
use std::alloc::Global;
use std::sync::ledger::Ledger;

/// What is under way in a lane.
#[derive(Clone, Copy)]
pub(crate) enum Work {
    /// All that is due was given.
    Nothing,
    /// One line is left.
    Give(DueLine),
    /// The run goes up to this mark, or to its end.
    Run(Horizon),
    /// The run goes up to the job's release, then the job is admitted, and the run goes up to its release with it; or
    /// the job is refused, where it finds no room.
    Admit(Job),
    /// The run goes up to this tick, then the job of this number finishes there, and the run goes up to the tick with
    /// that finish; or the line that says so is refused, where that isn't right.
    Finish { at: u64, number: u64 },
}

/// A feed, its server from the ratio line on, and what is under way: each line of the feed goes in, and then each line
/// that is due for it comes out.
///
/// # Use
///
/// A line of a feed goes in by `line`, and the lines that are due for it come out by `next_out`, one by one. The next
/// line goes in when none is left, and `end` says how the feed ended.
#[derive(Drop)]
pub struct Lane {
    intake: Intake,
    server: Option<ReadyServer>,
    mark: u64,
    is_open: bool,
    work: Work,
}

impl Lane {
    ghost use Rattle.lane_server.specs.declared.lane.Lane.{Lane};

    /// What holds of each lane. It does nothing.
    pub fn laws()
        ensures few { (lane : Lane) (ls rest : List (List ℕ)) (start now : ℕ) →
            Stands lane ls rest → HasPaid lane.server start now
            → CostsAtMost (admitted_in (account_of_lines ls)) start now }
    {
        ReadyServer::laws();
    }

    /// No line came yet.
    pub fn new() -> Lane
        ensures quiet { IsQuiet result [] }
        ensures paid { (start : ℕ) → HasPaid result.server start start }
    {
        Lane {
            intake: Intake::new(),
            server: None,
            mark: 0,
            is_open: true,
            work: Work::Nothing,
        }
    }

    /// Goes on from where a feed was paused, at this mark, with the intake and the server that stood there.
    pub fn resumed(intake: Intake, server: ReadyServer, mark: u64) -> Lane
        ensures { result ≡ record {
          intake = intake;
          server = Some server;
          mark = mark;
          is_open = true;
          work = Nothing;
        } }
    {
        Lane {
            intake,
            server: Some(server),
            mark,
            is_open: true,
            work: Work::Nothing,
        }
    }

    fn declare(&mut self, alloc: Global, version: Version, k: Ratio) -> Result<(), Memory>
        ensures adds { (a b : Account) → IsOpenAt self.old a → DeclaresRatio k version (counted a) b
            → OnOk result (Adds self.new a b) }
        ensures paid { (a b : Account) (start now : ℕ) → IsOpenAt self.old a
            → DeclaresRatio k version (counted a) b → HasPaid self.old.server start now
            → OnOk result (HasPaid self.new.server start now) }
        ensures intake { self.new.intake ≡ self.old.intake }
        ensures work { OnOk result (self.new.work ≡ Give (Header version k)) }
    {
        let server = ReadyServer::new(alloc, version, k)?;
        drop(self.server.replace(server));
        self.work = Work::Give(DueLine::Header(version, k));
        Ok(())
    }

    fn arrive(&mut self, job: Job) -> Result<(), Memory>
        requires { (n : ℕ) × (a : Account) × (b : Account) × IsOpenAt self.old a
            × AddsJob n job (counted a) b }
        ensures adds { (n : ℕ) (a b : Account) → IsOpenAt self.old a → AddsJob n job (counted a) b
            → OnOk result (Adds self.new a b) }
        ensures paid { (start now : ℕ) → HasPaid self.old.server start now
            → OnOk result (HasPaid self.new.server start now) }
        ensures intake { self.new.intake ≡ self.old.intake }
        ensures work { OnOk result (self.new.work ≡ Admit job) }
    {
        let Some(server) = &mut self.server else {
            unreachable!();
        };
        server.make_room_unless_full()?;
        self.mark = job.release();
        self.work = Work::Admit(job);
        Ok(())
    }

    fn finish_at(&mut self, at: u64, number: u64)
        ensures adds { (a b : Account) → IsOpenAt self.old a → AddsDone at number (counted a) b → Adds self.new a b }
        ensures server { self.new.server ≡ self.old.server }
        ensures intake { self.new.intake ≡ self.old.intake }
        ensures work { (job : JobFacts) → self.new.work ≡ Admit job → ⊥ }
    {
        if at < self.mark {
            self.work = Work::Give(DueLine::RefuseDone {
                at: self.mark,
                tick: at,
                number,
            });
            return;
        }
        self.mark = at;
        self.work = Work::Finish { at, number };
    }

    fn take(&mut self, alloc: Global, fed: Fed) -> Result<(), Memory>
        requires { (a : Account) × (b : Account) × IsOpenAt self.old a × IsFed (counted a) b fed }
        ensures adds { (a b : Account) → IsOpenAt self.old a → IsFed (counted a) b fed
            → OnOk result (Adds self.new a b) }
        ensures paid { (a b : Account) (start now : ℕ) → IsOpenAt self.old a → IsFed (counted a) b fed
            → HasPaid self.old.server start now → OnOk result (HasPaid self.new.server start now) }
        ensures lacks { (a b : Account) → IsFed (counted a) b fed → OnErr result (IsDeclared b) }
        ensures asks { (a b : Account) → IsFed (counted a) b fed → OnErr result (AsksForMemory a b) }
        ensures intake { self.new.intake ≡ self.old.intake }
        ensures turns { OnOk result (TurnsTo fed self.new.work) }
    {
        match fed {
            Fed::Ratio(k, version) => self.declare(alloc, version, k),
            Fed::Job(_, job) => self.arrive(job),
            Fed::Tick(at) => {
                self.mark = at;
                self.work = Work::Run(Horizon::Mark(at));
                Ok(())
            }
            Fed::Over => {
                self.is_open = false;
                self.work = Work::Run(Horizon::End);
                Ok(())
            }
            Fed::Refused {
                release,
                work,
                deadline,
                value,
                cause,
            } => {
                self.work = Work::Give(DueLine::Refuse {
                    at: self.mark,
                    release,
                    work,
                    deadline,
                    value,
                    cause,
                });
                Ok(())
            }
            Fed::Done { at, number } => {
                self.finish_at(at, number);
                Ok(())
            }
        }
    }

    /// Takes the next line of the feed, without its line feed, where all lines that were due before were given: at
    /// first, and then where `next_out` has answered None. After the feed's end or its fault, lines are disregarded. No
    /// jobs are compared.
    ///
    /// # Errors
    ///
    /// `Memory` where there is none for the server, at a ratio line, or for the job, at the line of one that is
    /// admitted; then the lane is no longer of use.
    pub fn line(&mut self, alloc: Global, line: &[u8]) -> Result<(), Memory>
        requires { (ls : List (List ℕ)) × IsQuiet self.old ls }
        ensures stands { (ls : List (List ℕ)) → IsQuiet self.old ls
            → OnOk result (Stands self.new (ls ++ line.now ∷ []) (lines_added ls line.now)) }
        ensures paid { (ls : List (List ℕ)) (start now : ℕ) → IsQuiet self.old ls
            → HasPaid self.old.server start now → OnOk result (HasPaid self.new.server start now) }
        ensures lacks { (ls : List (List ℕ)) → IsQuiet self.old ls
            → OnErr result (IsDeclared (account_of_lines (ls ++ line.now ∷ []))) }
        ensures asks { (ls : List (List ℕ)) → IsQuiet self.old ls
            → OnErr result (AsksForMemory (account_of_lines ls) (account_of_lines (ls ++ line.now ∷ []))) }
    {
        if !self.is_open {
            return Ok(());
        }
        match self.intake.line(line) {
            Ok(fed) => self.take(alloc, fed),
            Err(fault) => {
                self.is_open = false;
                self.work = Work::Give(DueLine::Refused {
                    line: fault.line,
                    cause: fault.cause,
                });
                Ok(())
            }
        }
    }

    #[inline(always)]
    fn run<L: Ledger>(&mut self, to: Horizon, comparisons: &mut Comparisons<L>) -> Option<DueLine>
        requires work { self.old.work ≡ Run to }
        requires stands { (ls : List (List ℕ)) × (rest : List (List ℕ)) × Stands self.old ls rest }
        ensures gives { (ls rest : List (List ℕ)) → Stands self.old ls rest
            → Gives result self.new ls rest }
        ensures paid { (start : ℕ) → HasPaid self.old.server start comparisons.old
            → HasPaid self.new.server start comparisons.new }
    {
        ReadyServer::laws();
        let Some(server) = &mut self.server else {
            unreachable!();
        };
        match server.step(to, comparisons) {
            Some(event) => Some(DueLine::Step(event)),
            None => {
                self.work = Work::Nothing;
                None
            }
        }
    }

    // The job finds no room at its release.
    #[inline(never)]
    fn pass(&mut self, job: Job) -> DueLine
        ensures out { result ≡ Refuse job.release job.release job.work job.deadline job.value Full }
        ensures lane { self.new ≡ record self.old { work = Nothing } }
    {
        self.work = Work::Nothing;
        DueLine::Refuse {
            at: job.release(),
            release: job.release(),
            work: job.work(),
            deadline: job.deadline(),
            value: job.value(),
            cause: Refusal::Full,
        }
    }

    #[inline(always)]
    fn admit<L: Ledger>(&mut self, job: Job, comparisons: &mut Comparisons<L>) -> Option<DueLine>
        requires work { self.old.work ≡ Admit job }
        requires stands { (ls : List (List ℕ)) × (rest : List (List ℕ)) × Stands self.old ls rest }
        ensures gives { (ls rest : List (List ℕ)) → Stands self.old ls rest
            → Gives result self.new ls rest }
        ensures paid { (start : ℕ) → HasPaid self.old.server start comparisons.old
            → HasPaid self.new.server start comparisons.new }
    {
        ReadyServer::laws();
        let Some(server) = &mut self.server else {
            unreachable!();
        };
        let release = Horizon::Mark(job.release());
        if let Some(event) = server.step(release, comparisons) {
            return Some(DueLine::Step(event));
        }
        if server.is_full() {
            return Some(self.pass(job));
        }
        let event = server.admit(job);
        self.intake.accept(job);
        self.work = Work::Run(release);
        Some(DueLine::Step(event))
    }

    #[inline(never)]
    fn finish<L: Ledger>(
        &mut self,
        at: u64,
        number: u64,
        comparisons: &mut Comparisons<L>,
    ) -> Option<DueLine>
        requires work { self.old.work ≡ Finish at number }
        requires stands { (ls : List (List ℕ)) × (rest : List (List ℕ)) × Stands self.old ls rest }
        ensures gives { (ls rest : List (List ℕ)) → Stands self.old ls rest
            → Gives result self.new ls rest }
        ensures paid { (start : ℕ) → HasPaid self.old.server start comparisons.old
            → HasPaid self.new.server start comparisons.new }
    {
        ReadyServer::laws();
        let Some(server) = &mut self.server else {
            unreachable!();
        };
        if let Some(event) = server.step(Horizon::Mark(at), comparisons) {
            return Some(DueLine::Step(event));
        }
        match server.finish(at, number) {
            Some(event) => {
                self.work = Work::Run(Horizon::Mark(at));
                Some(DueLine::Step(event))
            }
            None => {
                self.work = Work::Nothing;
                Some(DueLine::RefuseDone {
                    at,
                    tick: at,
                    number,
                })
            }
        }
    }

    /// The next line due. None exactly where all that is due was given.
    #[inline(always)]
    pub fn next_out<L: Ledger>(&mut self, comparisons: &mut Comparisons<L>) -> Option<DueLine>
        requires { (ls : List (List ℕ)) × (rest : List (List ℕ)) × Stands self.old ls rest }
        ensures gives { (ls rest : List (List ℕ)) → Stands self.old ls rest
            → Gives result self.new ls rest }
        ensures paid { (start : ℕ) → HasPaid self.old.server start comparisons.old
            → HasPaid self.new.server start comparisons.new }
    {
        match &self.work {
            Work::Nothing => None,
            Work::Give(out) => {
                let out = *out;
                self.work = Work::Nothing;
                Some(out)
            }
            Work::Run(to) => {
                let to = *to;
                self.run(to, comparisons)
            }
            Work::Admit(job) => {
                let job = *job;
                self.admit(job, comparisons)
            }
            Work::Finish { at, number } => {
                let at = *at;
                let number = *number;
                self.finish(at, number, comparisons)
            }
        }
    }

    /// The line at which the feed is short where no more comes: one behind its lines. None where it has no line, or was
    /// ended or at fault.
    pub(crate) fn short(&self) -> Option<u64>
        ensures { (ls : List (List ℕ)) → IsQuiet self.now ls
            → feed_short ls ≡ short_texts result }
    {
        if !self.is_open {
            return None;
        }
        match self.intake.end() {
            Err(fault) if fault.line > 1 => Some(fault.line),
            _ => None,
        }
    }

    /// Whether the feed has no line, or was ended without a fault.
    pub(crate) fn is_fine(&self) -> bool
        ensures { (ls rest : List (List ℕ)) → Stands self.now ls rest → result ≡ is_fine ls }
    {
        match self.end() {
            Ok(()) => true,
            Err(fault) => self.is_open && fault.line == 1,
        }
    }

    /// Whether the feed was neither ended nor at fault.
    pub fn goes_on(&self) -> bool
        ensures { (ls rest : List (List ℕ)) → Stands self.now ls rest
            → result ≡ is_open (account_of_lines ls) }
    {
        self.is_open
    }

    /// Why the feed is refused where no more comes, unless it was ended.
    ///
    /// # Errors
    ///
    /// The first fault, with its line, as the intake gave it; where there is none, that the feed is short.
    pub fn end(&self) -> Result<(), FeedFault>
        ensures answer { (ls rest : List (List ℕ)) → Stands self.now ls rest
            → EndAnswers ls result }
        ensures fault { (fault : FeedFault) → fault_of self.now.intake ≡ Some fault → result ≡ Err fault }
    {
        self.intake.end()
    }

    /// How many lines the feed has, up to the first that is at fault.
    pub fn lines(&self) -> u64
        ensures { (ls rest : List (List ℕ)) → Stands self.now ls rest → result ≡ (account_of_lines ls).lines }
    {
        self.intake.lines()
    }

    /// How many jobs were admitted, where all that is due was given. None where the ratio wasn't declared.
    pub fn jobs(&self) -> Option<u32>
        ensures { (ls : List (List ℕ)) → IsQuiet self.now ls
            → result ≡ option_map (λ S. length (admitted_jobs S.items)) (account_of_lines ls).session }
    {
        match &self.server {
            Some(server) => Some(server.jobs()),
            None => None,
        }
    }

    /// The numbers of the last job line with their text.
    #[inline(always)]
    pub fn spelled(&self) -> &Spelled {
        self.intake.spelled()
    }

    /// No fewer jobs than are admitted with what is under way. 0 where the ratio wasn't declared.
    pub fn most_jobs(&self) -> usize
        ensures many { (ls rest : List (List ℕ)) → Stands self.now ls rest
            → admitted_in (account_of_lines ls) ≤ result }
        ensures declared { (ls rest : List (List ℕ)) → Stands self.now ls rest → 0 < result
            → IsDeclared (account_of_lines ls) }
    {
        match &self.server {
            Some(server) => server.jobs() as usize + 1,
            None => 0,
        }
    }

    /// The mark: the tick up to which all is settled.
    pub fn mark(&self) -> u64
        ensures { result ≡ self.now.mark }
    {
        self.mark
    }

    /// The server, from the ratio line on.
    pub fn into_server(self) -> Option<ReadyServer>
        ensures { result ≡ self.server }
    {
        self.server
    }
}
