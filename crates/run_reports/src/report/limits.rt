//! Whether the jobs of a run are no more than a report keeps.
ghost use Rattle.std.specs.Prelude.{◌≡◌, ◌≤◌, ◌↔◌, IsTrue};
ghost use Rattle.dover_model.specs.declared.events.Version.TheVariants.{Two};
ghost use Rattle.dover_model.specs.Common.{Instance, IsListable, IsValid, last_tick_in, most_jobs};
ghost use Rattle.dover_model.specs.Common.{most_total, printed};

use dover_model::{PackedEvent, Version};
use run_record::intervals::JobTotals;

/// Whether the jobs of the run that prints these steps are within the limits of version Two, which is what a report
/// keeps at most. They are valid for some ratio. Takes no memory.
pub fn is_listable(run: &[PackedEvent]) -> bool
    ensures { (J : Instance) → IsValid J → printed J ≡ run.now → IsTrue result ↔ IsListable J }
{
    let totals = JobTotals::of(run);
    fits(totals.jobs, totals.worth, totals.due)
}

/// Whether so many jobs of so great a sum of values, of which the last is due at this tick, are within the limits of
/// version Two.
fn fits(count: u64, total: u128, due: u64) -> bool
    ensures { IsTrue result
        ↔ ((count ≤ most_jobs Two) × (total ≤ most_total Two) × (due ≤ last_tick_in Two)) }
{
    let two = Version::Two;
    count <= u64::from(two.most_jobs())
        && total <= u128::from(two.most_total())
        && due <= two.last_tick()
}
