//! What is kept of a feed once its ratio is declared.
ghost use Rattle.std.specs.Prelude.{◌≡◌, ◌<◌, ℕ, [], ◌∷◌, true};
ghost use Rattle.dover_model.specs.Common.{AreShort, job_of_numbers, job_numbers, Session, JobItem, new_session};
ghost use Rattle.dover_model.specs.Common.{with_item, may_finish_early, rules_with, JobLine, TickLine, DoneLine};
ghost use Rattle.dover_model.specs.Common.{HasNumerals};
ghost use Rattle.admission.specs.Kept.{HasRoom};
ghost use Rattle.line_text.specs.feeds.Form.{form_of};
ghost use Rattle.event_feed.specs.Kept.{IsKeptOf};
ghost use Rattle.event_feed.specs.Reading.{Refuses, Takes};

use crate::faults::Cause;
use crate::fed::Fed;
use admission::{Admission, Refused};
use dover_model::{Job, Ratio, Refusal, Version};
use line_text::feeds::FeedLine;

/// The jobs that were admitted, as far as the next one needs them, and the mark.
#[derive(Drop)]
pub struct KeptSession {
    admission: Admission,
    mark: u64,
}

impl KeptSession {
    /// No line came yet.
    pub fn new(ratio: Ratio, version: Version) -> KeptSession
        ensures { IsKeptOf result (new_session (rules_with ratio version)) 0 }
    {
        KeptSession {
            admission: Admission::new(version, ratio),
            mark: 0,
        }
    }

    /// The mark.
    pub fn mark(&self) -> u64
        ensures { result ≡ self.now.mark }
    {
        self.mark
    }

    /// The version.
    #[inline(always)]
    pub fn version(&self) -> Version
        ensures { result ≡ self.now.admission.rules.version }
    {
        self.admission.version()
    }

    /// The job line of these numbers, which isn't admitted.
    #[inline(never)]
    fn refuse(
        &self,
        release: u64,
        work: u64,
        deadline: u64,
        value: u64,
        refused: Refused,
    ) -> Result<Fed, Cause>
        ensures { (lines : ℕ) (S : Session) (mark : ℕ)
            → Refuses self.now S mark (job_of_numbers release work deadline value) refused →
            Takes (JobLine (job_of_numbers release work deadline value)) lines S mark self.now result }
    {
        match self.admission.version() {
            Version::One => Err(Cause::of(refused)),
            Version::Two | Version::Three | Version::Four => Ok(Fed::Refused {
                release,
                work,
                deadline,
                value,
                cause: refused.refusal(),
            }),
        }
    }

    /// The job line of these numbers, whose release is below the mark.
    #[inline(never)]
    fn late(&self, release: u64, work: u64, deadline: u64, value: u64) -> Result<Fed, Cause>
        requires { AreShort (job_numbers (job_of_numbers release work deadline value)) }
        ensures { (lines : ℕ) (S : Session) (mark : ℕ) → IsKeptOf self.now S mark → release < mark →
            Takes (JobLine (job_of_numbers release work deadline value)) lines S mark self.now result }
    {
        match self.admission.version() {
            Version::One | Version::Two => Err(Cause::Order),
            Version::Three | Version::Four => Ok(Fed::Refused {
                release,
                work,
                deadline,
                value,
                cause: Refusal::Late,
            }),
        }
    }

    /// The job line of these numbers.
    #[inline(always)]
    fn job(&mut self, release: u64, work: u64, deadline: u64, value: u64) -> Result<Fed, Cause>
        requires { AreShort (job_numbers (job_of_numbers release work deadline value)) }
        ensures { (lines : ℕ) (S : Session) (mark : ℕ) → IsKeptOf self.old S mark →
            Takes (JobLine (job_of_numbers release work deadline value)) lines S mark self.new result }
    {
        if release < self.mark {
            return self.late(release, work, deadline, value);
        }
        match self.admission.check(release, work, deadline, value) {
            Ok(job) => {
                self.mark = release;
                Ok(Fed::Job(self.admission.count(), job))
            }
            Err(refused) => self.refuse(release, work, deadline, value, refused),
        }
    }

    /// Accepts a job that was offered.
    #[inline(always)]
    pub fn accept(&mut self, job: Job)
        requires { HasRoom self.old.admission job }
        ensures { (S : Session) (mark : ℕ) → IsKeptOf self.old S mark →
            IsKeptOf self.new (with_item S (JobItem job)) mark }
    {
        self.admission.admit(job);
    }

    /// The line of this tick.
    fn tick(&mut self, at: u64) -> Result<Fed, Cause>
        ensures { (lines : ℕ) (S : Session) (mark : ℕ) → IsKeptOf self.old S mark
            → Takes (TickLine at) lines S mark self.new result }
    {
        if at < self.mark || at > self.version().last_tick() {
            return Err(Cause::Order);
        }
        self.mark = at;
        Ok(Fed::Tick(at))
    }

    /// The done line of this tick and this number, where jobs may finish early.
    fn finish(&mut self, at: u64, number: u64) -> Result<Fed, Cause>
        requires { AreShort (number ∷ []) }
        ensures { (lines : ℕ) (S : Session) (mark : ℕ) → IsKeptOf self.old S mark
            → may_finish_early S.rules.version ≡ true → Takes (DoneLine at number) lines S mark self.new result }
    {
        if at > self.version().last_tick() {
            return Err(Cause::Order);
        }
        self.mark = self.mark.max(at);
        Ok(Fed::Done { at, number })
    }

    /// The done line of this tick and this number.
    #[inline(never)]
    fn done(&mut self, at: u64, number: u64) -> Result<Fed, Cause>
        requires { AreShort (number ∷ []) }
        ensures { (lines : ℕ) (S : Session) (mark : ℕ) → IsKeptOf self.old S mark
            → Takes (DoneLine at number) lines S mark self.new result }
    {
        match self.admission.version() {
            Version::One | Version::Two => Err(Cause::Line),
            Version::Three | Version::Four => self.finish(at, number),
        }
    }

    /// A line after the first.
    ///
    /// # Errors
    ///
    /// Why it is at fault. From version Two on a job that isn't admitted is no fault, and from version Three on neither
    /// is one that comes late, nor a done line whose finish isn't right.
    #[inline(always)]
    pub fn line(&mut self, line: FeedLine) -> Result<Fed, Cause>
        requires { HasNumerals (form_of line) }
        ensures { (lines : ℕ) (S : Session) (mark : ℕ) → IsKeptOf self.old S mark
            → Takes (form_of line) lines S mark self.new result }
    {
        match line {
            FeedLine::Declared { .. } => Err(Cause::Declared),
            FeedLine::Factored { .. } => Err(Cause::Declared),
            FeedLine::Job {
                release,
                work,
                deadline,
                value,
            } => self.job(release, work, deadline, value),
            FeedLine::Tick { at } => self.tick(at),
            FeedLine::Done { at, number } => self.done(at, number),
            FeedLine::End => Ok(Fed::Over),
        }
    }
}
