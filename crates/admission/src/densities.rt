//! Comparisons of densities, by products that fit in 128 bits.
ghost use Rattle.std.specs.Prelude.{◌≡◌, ◌↔◌, IsTrue};
ghost use Rattle.dover_model.specs.Common.{is_within_ratio, is_within_ratio_both_ways};
ghost use Rattle.admission.specs.Kept.{IsLessDense};

use dover_model::{Job, Ratio};

/// The density of i is below that of j.
pub fn is_less_dense(i: &Job, j: &Job) -> bool
    ensures { IsTrue result ↔ IsLessDense i.now j.now }
{
    u128::from(i.value()) * u128::from(j.work()) < u128::from(j.value()) * u128::from(i.work())
}

/// The density of i is at most the ratio times that of j.
fn is_within(ratio: &Ratio, i: &Job, j: &Job) -> bool
    ensures { result ≡ is_within_ratio ratio.now i.now j.now }
{
    let left = u128::from(ratio.q()) * u128::from(i.value()) * u128::from(j.work());
    let right = u128::from(ratio.p()) * u128::from(j.value()) * u128::from(i.work());
    left <= right
}

/// Neither density is more than the ratio times the other.
pub fn keeps_ratio(ratio: &Ratio, i: &Job, j: &Job) -> bool
    ensures { result ≡ is_within_ratio_both_ways ratio.now i.now j.now }
{
    is_within(ratio, i, j) && is_within(ratio, j, i)
}
