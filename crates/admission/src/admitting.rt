//! The jobs that are admitted, as far as the next one needs them.
use crate::extremes::{Extremes, Numbered};
use crate::refused::Refused;
use dover_model::{Job, Ratio, Version};
use std::marker::Model;

/// What admitting the next job depends on: the ratio, the version, whose limits count, how many jobs were admitted, the
/// sum of their values, and the least dense and the densest one.
#[derive(Clone, Copy)]
pub struct Admission {
    ratio: Ratio,
    version: Version,
    count: u32,
    total: u64,
    extremes: Option<Extremes>,
}

impl Model for Admission {
    ghost use Rattle.admission.specs.Kept.{Kept, IsWithinLimits};

    ghost Value = { Kept };

    ghost view = { λ a. record {
      rules = record { ratio = a.ratio; version = a.version };
      count = a.count;
      total = a.total;
      extremes = a.extremes;
    } };

    ghost inverse = { λ k. record {
      ratio = k.rules.ratio;
      version = k.rules.version;
      count = k.count;
      total = k.total;
      extremes = k.extremes;
    } };

    ghost invariant = { λ a. IsWithinLimits a.version a.count a.total };
}

impl Admission {
    ghost use Rattle.std.specs.Prelude.{◌≡◌, List, [], ◌∷◌, ◌++◌, IfOk, IfErr, IfSome, IsNone};
    ghost use Rattle.dover_model.specs.JobFacts.{JobFacts, job_of_numbers};
    ghost use Rattle.dover_model.specs.Admission.{refusal_of};
    ghost use Rattle.admission.specs.Kept.{StandsFor, HasRoom};
    ghost use Rattle.admission.specs.Answers.{refusal_in, NamesOther, IsOther, AllKeepRatio};

    /// No job was admitted yet.
    pub fn new(version: Version, ratio: Ratio) -> Admission
        ensures rules { result.rules ≡ record { ratio = ratio; version = version } }
        ensures stands { StandsFor result [] }
    {
        Admission {
            ratio,
            version,
            count: 0,
            total: 0,
            extremes: None,
        }
    }

    /// The ratio that densities are tested by.
    pub fn ratio(&self) -> Ratio
        ensures { result ≡ self.now.rules.ratio }
    {
        self.ratio
    }

    /// The version whose limits count.
    pub fn version(&self) -> Version
        ensures { result ≡ self.now.rules.version }
    {
        self.version
    }

    /// How many jobs were admitted, which is the number of the next one.
    pub fn count(&self) -> u32
        ensures { result ≡ self.now.count }
    {
        self.count
    }

    /// The number of the kept job that breaks the ratio with this one, if one does: the least dense one first.
    #[inline(always)]
    fn breaker(&self, job: &Job) -> Option<u32>
        ensures other { (jobs : List JobFacts) → StandsFor self.now jobs
            → IfSome result (λ other. IsOther self.now.rules.ratio jobs job.now other) }
        ensures none { (jobs : List JobFacts) → StandsFor self.now jobs → IsNone result
            → AllKeepRatio self.now.rules.ratio jobs job.now }
    {
        match &self.extremes {
            Some(extremes) => extremes.breaker(&self.ratio, job),
            None => None,
        }
    }

    /// The job of these numbers, release, work and deadline in ticks, where it may be admitted next. The numbers may be
    /// out of the limits of a job.
    ///
    /// # Errors
    ///
    /// The first cause, of those of `Refused` in their order, for which it may not.
    #[inline(always)]
    pub fn check(&self, release: u64, work: u64, deadline: u64, value: u64) -> Result<Job, Refused>
        ensures job { IfOk result (λ job. job ≡ job_of_numbers release work deadline value) }
        ensures room { IfOk result (λ job. HasRoom self.now job) }
        ensures refusal { (jobs : List JobFacts) → StandsFor self.now jobs →
            refusal_of self.now.rules jobs (job_of_numbers release work deadline value) ≡ refusal_in result }
        ensures other { (jobs : List JobFacts) → StandsFor self.now jobs →
            IfErr result (λ refused. NamesOther self.now.rules.ratio jobs
            (job_of_numbers release work deadline value) refused) }
    {
        let Some(job) = Job::new(release, work, deadline, value) else {
            return Err(Refused::BadJob);
        };
        self.check_job(job)
    }

    /// The job, where it may be admitted next.
    ///
    /// # Errors
    ///
    /// The first cause, of those of `Refused` in their order, for which it may not. `BadJob` is one that is due behind
    /// the version's last tick.
    #[inline(always)]
    pub fn check_job(&self, job: Job) -> Result<Job, Refused>
        ensures job { IfOk result (λ checked. checked ≡ job) }
        ensures room { IfOk result (λ checked. HasRoom self.now checked) }
        ensures refusal { (jobs : List JobFacts) → StandsFor self.now jobs →
            refusal_of self.now.rules jobs job ≡ refusal_in result }
        ensures other { (jobs : List JobFacts) → StandsFor self.now jobs →
            IfErr result (λ refused. NamesOther self.now.rules.ratio jobs job refused) }
    {
        if job.deadline() > self.version.last_tick() {
            return Err(Refused::BadJob);
        }
        if self.count >= self.version.most_jobs() {
            return Err(Refused::Count);
        }
        if self.version.most_total() - self.total < job.value() {
            return Err(Refused::Total);
        }
        match self.breaker(&job) {
            Some(other) => Err(Refused::Ratio { other }),
            None => Ok(job),
        }
    }

    /// Admits a job that `check` answered, so that there is room for it.
    #[inline(always)]
    pub fn admit(&mut self, job: Job)
        requires { HasRoom self.old job }
        ensures stands { (jobs : List JobFacts) → StandsFor self.old jobs → StandsFor self.new (jobs ++ job ∷ []) }
        ensures rules { self.new.rules ≡ self.old.rules }
    {
        let value = job.value();
        let next = Numbered {
            number: self.count,
            job,
        };
        match &mut self.extremes {
            Some(extremes) => extremes.add(&self.ratio, &next),
            None => self.extremes = Some(Extremes::of(&self.ratio, next)),
        }
        self.count += 1;
        self.total += value;
    }
}
