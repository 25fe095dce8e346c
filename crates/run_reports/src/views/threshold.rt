//! Up to which ratio a job is taken at its latest start.
ghost use Rattle.std.specs.Prelude.{◌≡◌, ◌≤◌, ◌<◌, ◌*◌, ◌↔◌, ℕ, IfSome, IfNone};
ghost use Rattle.dover_model.specs.Common.{IsRatio, fraction, most_p, most_q, most_total, most_value, IsHeavy};
ghost use Rattle.dover_model.specs.declared.events.Version.TheVariants.{Two};
ghost use Rattle.run_reports.specs.views.Why as story;

use dover_model::ratios::MOST_P;

/// Of the ratios with the denominator `q` and no factor, the numerator of the greatest for which the value `v` is heavy
/// against the value `w`. None where `v` is heavy for no ratio of any denominator, which is where it is at most twice
/// `w`, as a ratio is at least one.
pub fn greatest_ratio(v: u64, w: u64, q: u32) -> Option<u64>
    requires value { v ≤ most_value }
    requires worth { w ≤ most_total Two }
    requires some { 1 ≤ q }
    requires few { q ≤ most_q }
    ensures is { result ≡ story.greatest_ratio q v w }
    ensures ratio { IfSome result (λ p. IsRatio (fraction p q)) }
    ensures heavy { IfSome result (λ p. IsHeavy (fraction p q) v w) }
    ensures greatest { IfSome result (λ p. (more : ℕ) → IsRatio (fraction more q)
        → IsHeavy (fraction more q) v w → more ≤ p) }
    ensures none { IfNone result ((p other : ℕ) → IsRatio (fraction p other)
        → IsHeavy (fraction p other) v w → ⊥) }
{
    if v <= 2 * w {
        return None;
    }
    let most = most_below(q, v - w, w).min(u128::from(MOST_P));
    Some(most as u64)
}

/// The greatest number that times the square of `w` is less than `q` times the square of `over`, or the greatest
/// numerator of a ratio where each number is.
fn most_below(q: u32, over: u64, w: u64) -> u128
    requires some { 1 ≤ q }
    requires few { q ≤ most_q }
    requires over { w < over }
    requires value { over ≤ most_value }
    ensures { (p : ℕ) → p ≤ most_p → (p ≤ result) ↔ (p * w * w < q * over * over) }
{
    if w == 0 {
        return u128::from(MOST_P);
    }
    let (q, over, sum) = (u128::from(q), u128::from(over), u128::from(w));
    (q * over * over - 1) / (sum * sum)
}
