//! How the items of jobs come in the model's orders.
ghost use Rattle.std.specs.Prelude.{◌≡◌, ◌≤◌, ℕ, true};
ghost use Rattle.dover_model.specs.Limits.{most_value};
ghost use Rattle.dover_model.specs.declared.events.Entry.{Entry};
ghost use Rattle.dover_model.specs.declared.events.Version.{Version};
ghost use Rattle.dover_model.specs.declared.events.Version.TheVariants.{Four};
ghost use Rattle.dover_model.specs.declared.events.Task.{Task};
ghost use Rattle.dover_model.specs.JobFacts.{IsJob};
ghost use Rattle.dover_model.specs.Orders.{waiting_order};
ghost use Rattle.place_heap.specs.Items.{is_before};
ghost use Rattle.place_heap.specs.Orders.{tie_of, dense_item, AreOrderedAs};

use dover_model::Version;
use dover_model::jobs::MOST_VALUE;

/// The tie of a job's item: what settles equal keys before the number does. It is 0, from version Two on the less
/// the greater the value is.
pub fn tie_of(version: Version, value: u64) -> u32
    requires { value ≤ most_value }
    ensures { result ≡ tie_of version value }
{
    match version {
        Version::One => 0,
        Version::Two | Version::Three | Version::Four => (MOST_VALUE - value) as u32,
    }
}

/// Items whose key is a deadline, or a latest start, come as the model's entries do, at whatever places they are kept.
pub fn items_come_as_entries()
    ensures { (v : Version) (a b : Entry) (p q : ℕ) → a.value ≤ most_value → b.value ≤ most_value
        → AreOrderedAs v a b p q }
{}

/// Items by density come as the model orders waiting jobs in a pressed state of version Four, at whatever places they
/// are kept.
pub fn dense_items_come_as_jobs()
    ensures { (a b : Task) (p q : ℕ) → IsJob a.job → IsJob b.job
        → is_before (dense_item p a) (dense_item q b) ≡ waiting_order Four true a b }
{}
