//! The values of the chain: each job of it is just heavy enough to take the processor from the one before.
ghost use Rattle.std.specs.Prelude.{◌≡◌, ◌≤◌, ◌*◌, None};
ghost use Rattle.dover_model.specs.Common.{IsRatio, unit_value, first_link, most_light};

use dover_model::Ratio;
use root_compare::{heavy, isqrt};

/// The value of a unit job, which is the greatest whole density of the ratio.
pub fn unit(k: Ratio) -> u64
    ensures is { result ≡ unit_value k }
    ensures ratio { IsRatio k }
    ensures some { 1 ≤ result }
    ensures small { result ≤ 1_000_000 }
{
    u64::from(k.p() / k.q())
}

/// The least value, at least 1, against which a unit job isn't heavy.
pub fn first_value(k: Ratio) -> u64
    ensures is { result ≡ first_link k }
    ensures ratio { IsRatio k }
    ensures some { 1 ≤ result }
    ensures small { result ≤ 1_000_000 }
{
    let unit = unit(k);
    let mut work = 1;
    while heavy(unit, work, k) {
        work += 1;
    }
    work
}

/// The greatest value that isn't heavy against `work`, which is at most 1,000,000.
pub fn light_value(k: Ratio, work: u64) -> u64
    requires { work ≤ 1_000_000 }
    ensures is { result ≡ most_light k work }
    ensures least { work ≤ result }
    ensures most { result ≤ 1_000_000 * work }
{
    match k.factor() {
        None => light_by_root(k, work),
        Some(factor) => u64::from(factor.b) * work / u64::from(factor.c),
    }
}

/// The same where no factor is declared.
fn light_by_root(k: Ratio, work: u64) -> u64
    requires plain { k.factor ≡ None }
    requires small { work ≤ 1_000_000 }
    ensures is { result ≡ most_light k work }
    ensures most { result ≤ 1_001 * work }
{
    let (p, q) = (u128::from(k.p()), u128::from(k.q()));
    let square = u128::from(work * work);
    work + isqrt(p * square / q) as u64
}
