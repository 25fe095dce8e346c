//! Whether the jobs of a feed are no more than a word takes that keeps all of them.
ghost use Rattle.std.specs.Prelude.{◌↔◌, IsTrue};
ghost use Rattle.dover_model.specs.declared.events.Version.TheVariants.{Two};
ghost use Rattle.dover_model.specs.Common.{IsListable, total_value};
ghost use Rattle.event_feed.specs.Listing.{listed_instance};

use dover_model::Version;
use dover_model::jobs::{last_deadline, total_value};
use event_feed::Listed;

/// Whether the jobs are within the limits of version Two, as those of versions One and Two always are. Takes no memory.
pub(crate) fn is_listable(listed: &Listed) -> bool
    ensures { IsTrue result ↔ IsListable (listed_instance listed.now) }
{
    if listed.jobs.len() > Version::Two.most_jobs() as usize {
        return false;
    }
    total_value(&listed.jobs) <= Version::Two.most_total()
        && last_deadline(&listed.jobs) <= Version::Two.last_tick()
}
