//! A feed that is read line by line.
ghost use Rattle.std.specs.Prelude.{◌≡◌, ◌<◌, ◌≤◌, ◌∷◌, ◌++◌, ℕ, List, [], length, true, false, OnOk, OnErr, IfOk};
ghost use Rattle.std.specs.Prelude.{IfErr};
ghost use Rattle.dover_model.specs.Common.{account_of_lines, most_jobs};
ghost use Rattle.dover_model.specs.Feed as feeds;
ghost use Rattle.event_feed.specs.Answers.{admitted_in};
ghost use Rattle.event_feed.specs.Keeping.{Keeps, KeepsDone};
ghost use Rattle.event_feed.specs.Listing.{ListsIn, has_too_many, wants_more};
ghost use Rattle.event_feed.specs.Record.{IsEnded, IsNotListed};
ghost use Rattle.event_feed.specs.Kept as feed;
ghost use Rattle.dover_model.specs.declared.events.Version.TheVariants.{Two};

use crate::fed::Fed;
use crate::intake::Intake;
use crate::listed::{DoneLine, Listed, NotListed};
use dover_model::{Job, Memory, Ratio, Version};
use std::alloc::Global;

/// What is kept of a feed: what its lines said, the ratio and the version once they are declared, the jobs, the done
/// lines, and whether more lines are wanted. Where there are too many jobs, none are. Refused job lines are passed
/// over.
#[derive(Drop)]
pub struct Gathering {
    pub(crate) intake: Intake,
    pub(crate) declared: Option<(Ratio, Version)>,
    pub(crate) jobs: Vec<Job>,
    pub(crate) done_lines: Vec<DoneLine>,
    pub(crate) going: bool,
    pub(crate) too_many: bool,
}

/// The jobs of a feed whose `end` line was read, and its done lines.
fn listed(declared: Option<(Ratio, Version)>, jobs: Vec<Job>, done_lines: Vec<DoneLine>) -> Listed
    requires { (ls : List (List ℕ)) × ((account_of_lines ls).standing ≡ feeds.Ended)
        × ListsIn declared jobs.items done_lines.items (account_of_lines ls) }
    ensures { (ls : List (List ℕ)) → has_too_many (account_of_lines ls) ≡ false
        → (account_of_lines ls).standing ≡ feeds.Ended
        → ListsIn declared jobs.items done_lines.items (account_of_lines ls) → IsEnded result (account_of_lines ls) }
{
    match declared {
        Some(rules) => Listed {
            ratio: rules.0,
            version: rules.1,
            jobs,
            done_lines,
        },
        None => unreachable!(),
    }
}

impl Gathering {
    /// Nothing was read yet.
    pub fn new(alloc: Global) -> Gathering
        ensures { Keeps result [] }
    {
        Gathering {
            intake: Intake::new(),
            declared: None,
            jobs: Vec::new(alloc),
            done_lines: Vec::new(alloc),
            going: true,
            too_many: false,
        }
    }

    /// Keeps a done line that was taken in. Below the mark, or of no job, its finish isn't right.
    #[inline(never)]
    fn done(&mut self, at: u64, number: u64) -> Result<(), Memory>
        ensures intake { self.new.intake ≡ self.old.intake }
        ensures declared { self.new.declared ≡ self.old.declared }
        ensures jobs { self.new.jobs ≡ self.old.jobs }
        ensures going { self.new.going ≡ self.old.going }
        ensures too_many { self.new.too_many ≡ self.old.too_many }
        ensures done_lines { (ls : List (List ℕ)) → feed.StandsFor self.old.intake ls →
            OnOk result (KeepsDone self.old (account_of_lines ls).mark at number self.new.done_lines.items) }
        ensures memory { OnErr result (0 < length self.old.jobs.items) }
    {
        if self.intake.mark() != at {
            return Ok(());
        }
        if number >= self.jobs.len() as u64 {
            return Ok(());
        }
        let behind = self.jobs.len();
        match self.done_lines.push(DoneLine { at, number, behind }) {
            Ok(()) => Ok(()),
            Err(_) => Err(Memory),
        }
    }

    /// Accepts and keeps a job, unless it is one too many.
    fn job(&mut self, job: Job) -> Result<(), Memory>
        requires { feed.HasRoom self.old.intake job }
        ensures declared { self.new.declared ≡ self.old.declared }
        ensures done_lines { self.new.done_lines ≡ self.old.done_lines }
        ensures few { length self.old.jobs.items < most_jobs Two → (self.new.going ≡ self.old.going)
            × (self.new.too_many ≡ self.old.too_many)
            × feed.Accepts job self.old.intake self.new.intake
            × OnOk result (self.new.jobs.items ≡ self.old.jobs.items ++ job ∷ []) }
        ensures many { most_jobs Two ≤ length self.old.jobs.items → (self.new.going ≡ false)
            × (self.new.too_many ≡ true) × (self.new.intake ≡ self.old.intake) }
    {
        if self.jobs.len() >= Version::Two.most_jobs() as usize {
            self.going = false;
            self.too_many = true;
            return Ok(());
        }
        self.intake.accept(job);
        match self.jobs.push(job) {
            Ok(()) => Ok(()),
            Err(_) => Err(Memory),
        }
    }

    /// Takes a line of the feed, of which more are wanted. Memory is taken for each admitted job and for each done line
    /// behind one, alone.
    ///
    /// # Errors
    ///
    /// `Memory` where there is none for an admitted job or a done line; no further line is taken.
    #[inline(always)]
    pub fn take_line(&mut self, line: &[u8]) -> Result<(), Memory>
        requires { (ls : List (List ℕ)) × Keeps self.old ls × (self.old.going ≡ true) }
        ensures keeps { (ls : List (List ℕ)) → Keeps self.old ls → self.old.going ≡ true →
            OnOk result (Keeps self.new (ls ++ line.now ∷ [])) }
        ensures memory { (ls : List (List ℕ)) → Keeps self.old ls → self.old.going ≡ true →
            OnErr result (0 < admitted_in (account_of_lines (ls ++ line.now ∷ []))) }
    {
        let fed = match self.intake.line(line) {
            Ok(fed) => fed,
            Err(_) => {
                self.going = false;
                return Ok(());
            }
        };
        match fed {
            Fed::Ratio(ratio, version) => self.declared = Some((ratio, version)),
            Fed::Job(_, job) => return self.job(job),
            Fed::Over => self.going = false,
            Fed::Tick(_) => {}
            Fed::Refused { .. } => {}
            Fed::Done { at, number } => return self.done(at, number),
        }
        Ok(())
    }

    /// Whether more lines are wanted: none has ended the feed, none is faulty, and no job is one too many.
    pub fn goes_on(&self) -> bool
        ensures { (ls : List (List ℕ)) → Keeps self.now ls → result ≡ wants_more (account_of_lines ls) }
    {
        self.going
    }

    /// The jobs of a feed whose `end` line was read, and its done lines.
    ///
    /// # Errors
    ///
    /// The fault of the first faulty line, where the cause names the other job if the line breaks the ratio, or that
    /// the feed is short; or that it has too many jobs, wherever it ends.
    pub fn close(self) -> Result<Listed, NotListed>
        requires { (ls : List (List ℕ)) × Keeps self ls }
        ensures jobs { (ls : List (List ℕ)) → Keeps self ls →
            IfOk result (λ listed. IsEnded listed (account_of_lines ls)) }
        ensures none { (ls : List (List ℕ)) → Keeps self ls → IfErr result (λ why. IsNotListed why ls) }
    {
        if self.too_many {
            return Err(NotListed::TooMany);
        }
        match self.intake.end() {
            Ok(()) => {
                let Gathering {
                    declared,
                    jobs,
                    done_lines,
                    ..
                } = self;
                Ok(listed(declared, jobs, done_lines))
            }
            Err(fault) => Err(NotListed::Fault(fault)),
        }
    }
}
