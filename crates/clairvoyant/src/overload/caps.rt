//! Caps on what jobs are worth.
ghost use Rattle.std.specs.Prelude.{◌≡◌, ◌≤◌, ◌+◌, ◌^◌, ◌↔◌, cond, length, IsTrue, IfOk};
ghost use Rattle.dover_model.specs.Common.{IsInOrder, total_value, last_deadline, last_tick_in, most_jobs};
ghost use Rattle.dover_model.specs.declared.events.Version.TheVariants.{Two};
ghost use Rattle.clairvoyant.specs.overload.Stretches.{Caps, IsWorth, most_sought, sets_of};

use crate::best::best;
use crate::overload::layers::cap_by_prices;
use dover_model::{Job, Memory};
use std::alloc::Global;

/// Of so many jobs, at most, the best set is sought.
const FEW: usize = 10;

/// In all stretches together so many sets of jobs are looked at, at most.
pub(crate) const MOST_SETS: u64 = 33_554_432;

/// Whether the best set of so many jobs is sought: of few, and while their sets may still be looked at.
fn is_sought(count: usize, sets: &mut u64) -> bool
    ensures tells { IsTrue result ↔ ((count ≤ most_sought) × (2 ^ count ≤ sets.old)) }
    ensures spent { sets.new + cond result (2 ^ count) 0 ≡ sets.old }
{
    if FEW < count {
        return false;
    }
    let more = 1 << count;
    if *sets < more {
        return false;
    }
    *sets -= more;
    true
}

/// A cap on jobs: no schedule of them is worth more, and of few some schedule is worth that. `total` is their value,
/// and of so many sets of jobs the best may still be sought.
///
/// # Errors
///
/// `Memory` where there is none, and nothing else.
pub(crate) fn cap(alloc: Global, jobs: &[Job], total: u64, sets: &mut u64) -> Result<u64, Memory>
    requires in_order { IsInOrder jobs.now }
    requires count { length jobs.now ≤ most_jobs Two }
    requires due { last_deadline jobs.now ≤ last_tick_in Two }
    requires total { total ≡ total_value jobs.now }
    ensures cap { IfOk result (λ cap. Caps jobs.now cap) }
    ensures less { IfOk result (λ cap. cap ≤ total) }
    ensures reached { IfOk result (λ cap. sets_of (length jobs.now) ≤ sets.old → length jobs.now ≤ most_sought →
        IsWorth jobs.now cap) }
    ensures spent { sets.old ≤ sets.new + sets_of (length jobs.now) }
{
    if !is_sought(jobs.len(), sets) {
        return cap_by_prices(alloc, jobs, total);
    }
    // There are few.
    let Ok(best) = best(alloc, jobs) else {
        return Err(Memory);
    };
    Ok(best.value)
}
