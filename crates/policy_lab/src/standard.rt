//! Two policies: earliest deadline first, and greatest density first.
use crate::policy::Policy;
use dover_model::Entry;

/// Earliest deadline first, ties to the smaller number.
#[derive(Clone, Copy)]
pub struct Edf;

impl Policy for Edf {
    ghost use Rattle.policy_lab.specs.Standard.{earliest_deadline};
    ghost use Rattle.policy_lab.specs.Firsts.{due, deadlines_rank};

    ghost picks = { λ _. earliest_deadline };

    ghost ranks = { λ _. due };

    fn rank(&self, entry: &Entry) -> u128 {
        u128::from(entry.deadline)
    }

    ghost law = { λ _. deadlines_rank };
}

/// By how much ticks for each unit of value are taken, so that no two different ratios have the same rank.
const SCALE: u128 = 1_000_000_000_000_000_000;

/// Greatest value for each tick left first, ties to the smaller number.
#[derive(Clone, Copy)]
pub struct Dense;

impl Policy for Dense {
    ghost use Rattle.policy_lab.specs.Standard.{greatest_density};
    ghost use Rattle.policy_lab.specs.Firsts.{thinness, densities_rank};

    ghost picks = { λ _. greatest_density };

    ghost ranks = { λ _. thinness };

    fn rank(&self, entry: &Entry) -> u128 {
        u128::from(entry.left) * SCALE / u128::from(entry.value)
    }

    ghost law = { λ _. densities_rank };
}
