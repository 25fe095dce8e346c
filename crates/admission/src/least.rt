//! The least ratio that is at least a fraction.
ghost use Rattle.std.specs.Prelude.{◌≡◌, ◌≤◌, ◌<◌, ◌*◌, ◌+◌, ◌^◌, ℕ};
ghost use Rattle.dover_model.specs.Common.{most_p, most_q};
ghost use Rattle.admission.specs.Least.{StandsBelow, Suffices};

use dover_model::ratios::{MOST_P, MOST_Q};

/// The two numbers of a ratio.
#[derive(Clone, Copy)]
pub(crate) struct Pair {
    pub(crate) p: u32,
    pub(crate) q: u32,
}

/// The least numerator that suffices with this denominator.
fn least_numerator(top: u128, bottom: u128, q: u32) -> u128
    requires some { 1 ≤ bottom }
    requires size { top < 2 ^ 80 }
    ensures enough { Suffices top bottom result q }
    ensures least { (p : ℕ) → Suffices top bottom p q → result ≤ p }
{
    (u128::from(q) * top).div_ceil(bottom)
}

/// The second ratio, where it is less, and else the first.
fn lesser(kept: Pair, next: Pair) -> Pair
    requires kept { kept.p ≤ most_p }
    requires next { next.p ≤ most_p }
    ensures next { next.p * kept.q < kept.p * next.q → result ≡ next }
    ensures kept { kept.p * next.q ≤ next.p * kept.q → result ≡ kept }
{
    let left = u64::from(next.p) * u64::from(kept.q);
    let right = u64::from(kept.p) * u64::from(next.q);
    if left < right { next } else { kept }
}

/// The least ratio that suffices with a denominator up to this one, and of equal ones that with the least denominator,
/// where `best` is the same of those below it.
fn with_next(best: Option<Pair>, top: u128, bottom: u128, q: u32) -> Option<Pair>
    requires some { 1 ≤ bottom }
    requires size { top < 2 ^ 80 }
    requires denominator { 1 ≤ q }
    requires below { StandsBelow top bottom q best }
    ensures { StandsBelow top bottom (q + 1) result }
{
    let p = least_numerator(top, bottom, q);
    if p > u128::from(MOST_P) {
        return best;
    }
    let next = Pair { p: p as u32, q };
    match best {
        Some(kept) => Some(lesser(kept, next)),
        None => Some(next),
    }
}

/// The least ratio within the limits that suffices, in lowest terms, if one does.
pub(crate) fn least_ratio(top: u128, bottom: u128) -> Option<Pair>
    requires some { 1 ≤ bottom }
    requires size { top < 2 ^ 80 }
    ensures { StandsBelow top bottom (most_q + 1) result }
{
    let mut best = None;
    for q in 1..MOST_Q + 1 {
        best = with_next(best, top, bottom, q);
    }
    best
}
