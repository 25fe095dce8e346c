//! Values against a threshold: the root of the importance ratio, or a factor.
ghost use Rattle.std.specs.Prelude.{◌≡◌, ◌≤◌, ◌<◌, ◌*◌, ◌^◌, None, Some, ℕ};
ghost use Rattle.dover_model.specs.Common.{is_heavy, IsHeavy, is_within, bound, is_within_root, is_within_by, bound_by};
ghost use Rattle.dover_model.specs.Common.{IsGreatest, most_total, most_value};
ghost use Rattle.dover_model.specs.Orders.{is_over};
ghost use Rattle.dover_model.specs.declared.events.Version.TheVariants.{Two};
ghost use Rattle.root_compare.specs.Least.{least_heavy};

use crate::root::{isqrt, scaled_root};
use dover_model::{Factor, Ratio};

/// Whether the value `v` is more than so many times the value `w`: by the factor of the ratio, or by `1 + √(p/q)`. `v`
/// is at most 10^9.
#[inline(always)]
pub fn heavy(v: u64, w: u64, k: Ratio) -> bool
    requires value { v ≤ most_value }
    ensures { result ≡ is_heavy k v w }
{
    if v <= w {
        return false;
    }
    is_over(v, w, k)
}

// The same of values of which the first is the greater one. Few comparisons come this far.
#[inline(never)]
fn is_over(v: u64, w: u64, k: Ratio) -> bool
    requires value { v ≤ most_value }
    requires greater { w < v }
    ensures { result ≡ is_over k k.factor v w }
{
    match k.factor() {
        None => {
            let (p, q) = (u128::from(k.p()), u128::from(k.q()));
            let over = u128::from(v - w);
            let sum = u128::from(w);
            p * sum * sum < q * over * over
        }
        Some(factor) => u128::from(factor.b) * u128::from(w) < u128::from(factor.c) * u128::from(v),
    }
}

/// The least value that is more than so many times the value `w`, which is at most 10^13: by the factor of the ratio,
/// or by `1 + √(p/q)`.
pub fn least_heavy(w: u64, k: Ratio) -> u64
    requires { w ≤ most_total Two }
    ensures is { result ≡ least_heavy k w }
    ensures heavy { IsHeavy k result w }
    ensures least { (v : ℕ) → IsHeavy k v w → result ≤ v }
{
    match k.factor() {
        None => {
            let (p, q) = (u128::from(k.p()), u128::from(k.q()));
            let sum = u128::from(w);
            w + isqrt(p * sum * sum / q) as u64 + 1
        }
        Some(factor) => u64::from(factor.b) * w / u64::from(factor.c) + 1,
    }
}

/// The greatest value within `(1 + √(p/q))²` times the value `a`, which is at most 10^13, by a ratio with no factor. It
/// may have 20 digits.
pub fn bound(a: u64, k: Ratio) -> u64
    requires completed { a ≤ 10_000_000_000_000 }
    requires plain { k.factor ≡ None }
    ensures is { result ≡ bound k a }
    ensures greatest { IsGreatest (λ c. is_within k c a) result }
{
    root_bound(a, k) as u64
}

/// The greatest value within the bound of the value `a`, which is below 10^18. It may have 28 digits.
pub fn long_bound(a: u64, k: Ratio) -> u128
    requires completed { a < 10 ^ 18 }
    ensures is { result ≡ bound k a }
    ensures greatest { IsGreatest (λ c. is_within k c a) result }
    ensures small { result ≤ 1_002_000_000 * a }
{
    match k.factor() {
        None => root_bound(a, k),
        Some(factor) => factor_bound(a, k, factor),
    }
}

/// The greatest value within `(1 + √(p/q))²` times the value `a`, which is below 10^18, whatever factor the ratio has.
/// It may have 25 digits.
fn root_bound(a: u64, k: Ratio) -> u128
    requires completed { a < 10 ^ 18 }
    ensures is { result ≡ bound_by k None a }
    ensures greatest { IsGreatest (λ c. is_within_root k c a) result }
    ensures small { result ≤ 1_002_001 * a }
{
    let (p, q, a) = (u128::from(k.p()), u128::from(k.q()), u128::from(a));
    ((p + q) * a + scaled_root(4 * p * q, a)) / q
}

/// The greatest value within the bound by this factor of the value `a`, which is below 10^18: `β + p/q` times it, and
/// once more the greater of it and of `(p/q)/(β-1)` times it.
fn factor_bound(a: u64, k: Ratio, factor: Factor) -> u128
    requires completed { a < 10 ^ 18 }
    requires factor { k.factor ≡ Some factor }
    ensures is { result ≡ bound_by k (Some factor) a }
    ensures greatest { IsGreatest (λ c. is_within_by k (Some factor) c a) result }
    ensures small { result ≤ 1_002_000_000 * a }
{
    let (p, q) = (u128::from(k.p()), u128::from(k.q()));
    let (b, c) = (u128::from(factor.b), u128::from(factor.c));
    let over = b - c;
    let scale = q * c * over;
    let share = q * b * over + p * c * over + c * (q * over).max(p * c);
    share * u128::from(a) / scale
}
