//! The least dense and the densest of some jobs.
ghost use Rattle.std.specs.Prelude.{◌≡◌};
ghost use Rattle.admission.specs.Kept.{IsLessDense};

use crate::densities::{is_less_dense, keeps_ratio};
use dover_model::{Job, Ratio};

/// A job under its number.
#[derive(Clone, Copy)]
pub struct Numbered {
    /// Its number, in the order of admission.
    pub number: u32,
    /// The job.
    pub job: Job,
}

/// The next one takes the place of the kept one where it is less dense.
fn keep_less_dense(kept: &mut Numbered, next: &Numbered)
    ensures next { IsLessDense next.now.job kept.old.job → kept.new ≡ next.now }
    ensures kept { (IsLessDense next.now.job kept.old.job → ⊥) → kept.new ≡ kept.old }
{
    if is_less_dense(&next.job, &kept.job) {
        *kept = *next;
    }
}

/// The next one takes the place of the kept one where it is denser.
fn keep_denser(kept: &mut Numbered, next: &Numbered)
    ensures next { IsLessDense kept.old.job next.now.job → kept.new ≡ next.now }
    ensures kept { (IsLessDense kept.old.job next.now.job → ⊥) → kept.new ≡ kept.old }
{
    if is_less_dense(&kept.job, &next.job) {
        *kept = *next;
    }
}

/// The least dense and the densest of some jobs, and of equally dense ones the first.
#[derive(Clone, Copy)]
pub struct Extremes {
    /// The first of those of the least value per tick of work.
    pub least: Numbered,
    /// The first of those of the greatest.
    pub densest: Numbered,
    /// Whether the two keep the ratio. A job between them then keeps it with all.
    pub keep_ratio: bool,
}

impl Extremes {
    ghost use Rattle.std.specs.Prelude.{◌≡◌, ◌↔◌, List, ◌++◌, ◌∷◌, [], length, IfSome, IsNone, IsTrue};
    ghost use Rattle.dover_model.specs.JobFacts.{JobFacts, IsJob};
    ghost use Rattle.admission.specs.Kept.{AreExtremes, IsBetween};
    ghost use Rattle.admission.specs.Answers.{IsOther, AllKeepRatio};

    /// Those of one job.
    pub fn of(ratio: &Ratio, first: Numbered) -> Extremes
        requires { IsJob first.job }
        ensures { first.number ≡ 0 → AreExtremes ratio.now (first.job ∷ []) result }
    {
        let densest = first;
        Extremes {
            least: first,
            densest,
            keep_ratio: keeps_ratio(ratio, &first.job, &first.job),
        }
    }

    /// The job is neither less dense than the least dense one nor denser than the densest.
    #[inline(always)]
    fn have_between(&self, job: &Job) -> bool
        ensures { IsTrue result ↔ IsBetween self.now job.now }
    {
        !is_less_dense(job, &self.least.job) && !is_less_dense(&self.densest.job, job)
    }

    /// Those of the jobs with one more behind them, which isn't between them.
    #[inline(never)]
    fn widen(&mut self, ratio: &Ratio, next: &Numbered)
        requires { IsJob next.now.job }
        ensures { (jobs : List JobFacts) → AreExtremes ratio.now jobs self.old → next.now.number ≡ length jobs →
            AreExtremes ratio.now (jobs ++ next.now.job ∷ []) self.new }
    {
        keep_less_dense(&mut self.least, next);
        keep_denser(&mut self.densest, next);
        self.keep_ratio = keeps_ratio(ratio, &self.least.job, &self.densest.job);
    }

    /// Those of the jobs with one more behind them.
    #[inline(always)]
    pub fn add(&mut self, ratio: &Ratio, next: &Numbered)
        requires { IsJob next.now.job }
        ensures { (jobs : List JobFacts) → AreExtremes ratio.now jobs self.old → next.now.number ≡ length jobs →
            AreExtremes ratio.now (jobs ++ next.now.job ∷ []) self.new }
    {
        if !self.have_between(&next.job) {
            self.widen(ratio, next);
        }
    }

    /// The number of the one of the two that breaks the ratio with this job, if one does: the least dense one first.
    #[inline(never)]
    fn first_breaker(&self, ratio: &Ratio, job: &Job) -> Option<u32>
        ensures other { (jobs : List JobFacts) → AreExtremes ratio.now jobs self.now
            → IfSome result (λ other. IsOther ratio.now jobs job.now other) }
        ensures none { (jobs : List JobFacts) → AreExtremes ratio.now jobs self.now → IsNone result
            → AllKeepRatio ratio.now jobs job.now }
    {
        if !keeps_ratio(ratio, &self.least.job, job) {
            return Some(self.least.number);
        }
        if !keeps_ratio(ratio, &self.densest.job, job) {
            return Some(self.densest.number);
        }
        None
    }

    /// The number of the one that breaks the ratio with this job, if one does: the least dense one first.
    #[inline(always)]
    pub fn breaker(&self, ratio: &Ratio, job: &Job) -> Option<u32>
        ensures other { (jobs : List JobFacts) → AreExtremes ratio.now jobs self.now
            → IfSome result (λ other. IsOther ratio.now jobs job.now other) }
        ensures none { (jobs : List JobFacts) → AreExtremes ratio.now jobs self.now → IsNone result
            → AllKeepRatio ratio.now jobs job.now }
    {
        if self.keep_ratio && self.have_between(job) {
            return None;
        }
        self.first_breaker(ratio, job)
    }
}
