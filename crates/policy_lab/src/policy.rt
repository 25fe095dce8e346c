//! Policies.
use dover_model::Entry;

/// Picks, in each tick, the job that is to run from those that are ready: the one of the least rank, ties to the
/// smaller number.
pub trait Policy {
    ghost use Rattle.std.specs.Prelude.{◌≡◌, List, Option, ℕ};
    ghost use Rattle.dover_model.specs.declared.events.Entry.{Entry};
    ghost use Rattle.policy_lab.specs.Ranks.{IsEntry, IsRanked};

    /// The number that the policy picks, which depends on the list alone.
    ghost picks: { Self → List Entry → Option ℕ };

    /// A job's rank.
    ghost ranks: { Self → Entry → ℕ };

    /// The rank of a job within the limits that has work left, below 2^100. It doesn't rise while the job runs.
    fn rank(&self, entry: &Entry) -> u128
        requires { IsEntry entry.now }
        ensures { result ≡ ranks self.now entry.now };

    ghost law: { (policy : Self) → IsRanked (picks policy) (ranks policy) };
}
