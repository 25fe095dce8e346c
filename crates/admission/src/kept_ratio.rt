//! The least ratio that jobs keep, by the least dense and the densest of them.
ghost use Rattle.std.specs.Prelude.{◌≡◌, ◌*◌, List, IfSome, IsNone};
ghost use Rattle.dover_model.specs.Common.{Fraction, IsRatio, JobFacts, fraction};
ghost use Rattle.admission.specs.Kept.{HasExtremes};
ghost use Rattle.admission.specs.Least.{AllKeep, IsLeast, IsSpread};

use crate::extremes::Extremes;
use crate::least::least_ratio;
use dover_model::{Job, Ratio};

/// The value of a job times the work of another.
fn product(one: &Job, other: &Job) -> u128
    ensures { result ≡ one.now.value * other.now.work }
{
    u128::from(one.value()) * u128::from(other.work())
}

/// The greatest density over the least one, as a fraction, or 1/1 where there is no job.
fn spread(extremes: &Option<Extremes>) -> (u128, u128)
    requires { (k : Fraction) × (jobs : List JobFacts) × HasExtremes k jobs extremes.now }
    ensures { (k : Fraction) (jobs : List JobFacts) → HasExtremes k jobs extremes.now → IsSpread jobs result.0 result.1 }
{
    match extremes {
        None => (1, 1),
        Some(e) => (
            product(&e.densest.job, &e.least.job),
            product(&e.least.job, &e.densest.job),
        ),
    }
}

/// The ratio of these numbers with the factor of another.
fn with_numbers(other: &Ratio, p: u32, q: u32) -> Ratio
    requires { IsRatio (fraction p q) }
    ensures is { result ≡ record { p = p; q = q; factor = other.now.factor } }
    ensures ratio { IsRatio result }
{
    let Some(ratio) = Ratio::new(p, q) else {
        unreachable!()
    };
    let Some(factor) = other.factor() else {
        return ratio;
    };
    let Some(ratio) = ratio.with_factor(factor.b, factor.c) else {
        unreachable!()
    };
    ratio
}

/// The least ratio within the limits that all jobs keep, in lowest terms, with the factor of another, by the least dense
/// and the densest of them; `None` where they keep no ratio within the limits. It tries each denominator.
pub fn least_kept(extremes: &Option<Extremes>, other: &Ratio) -> Option<Ratio>
    requires { (k : Fraction) × (jobs : List JobFacts) × HasExtremes k jobs extremes.now }
    ensures found { (k : Fraction) (jobs : List JobFacts) → HasExtremes k jobs extremes.now →
        IfSome result (λ least. IsLeast other.now.factor jobs least) }
    ensures none { (k : Fraction) (jobs : List JobFacts) → HasExtremes k jobs extremes.now → IsNone result →
        (r : Fraction) → IsRatio r → AllKeep r jobs → ⊥ }
{
    let (top, bottom) = spread(extremes);
    let pair = least_ratio(top, bottom)?;
    Some(with_numbers(other, pair.p, pair.q))
}
