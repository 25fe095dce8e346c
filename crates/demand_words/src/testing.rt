//! The demand test.
ghost use Rattle.std.specs.Prelude.{◌≡◌, ◌^◌, length};
ghost use Rattle.demand_words.specs.Demanded.{AreLimited, Tells, all_facts, most_looks};
ghost use Rattle.demand_words.specs.Looks.{TellsBelow};

use crate::answers::Demand;
use crate::looking::look_down;
use crate::periods::{common_period, last_deadline};
use crate::shares::{Told, told_by_shares};
use task_words::tasks::PeriodicTask;

/// What shares of the processor are parts of: 2^64.
const WHOLE: u128 = 0x1_0000_0000_0000_0000;

/// In how many steps at most the test looks at windows, with one for each task in each look.
const MOST_STEPS: u64 = 1_000_000_000;

/// At how many windows the test looks at most.
fn most_looks(tasks: &[PeriodicTask]) -> u64
    requires { AreLimited tasks.now }
    ensures { result ≡ most_looks (length tasks.now) }
{
    MOST_STEPS / (tasks.len() as u64 + 1)
}

/// The test by shares in parts of a common multiple of the periods, which are exact.
fn exact_test(tasks: &[PeriodicTask]) -> Demand
    requires { AreLimited tasks.now }
    ensures { TellsBelow (all_facts tasks.now) (2 ^ 64) (most_looks (length tasks.now)) result }
{
    let Some(period) = common_period(tasks) else {
        return Demand::Size;
    };
    match told_by_shares(tasks, u128::from(period)) {
        Told::Over => Demand::Over,
        Told::Horizon(horizon) => look_down(tasks, horizon, most_looks(tasks)),
        Told::Unknown => {
            let horizon = last_deadline(tasks) + period + 1;
            look_down(tasks, horizon, most_looks(tasks))
        }
    }
}

/// Whether a window can have more work in it than ticks, where the jobs of each task come a period apart or more, at
/// any ticks. It takes some steps for each task in each look, and no memory.
pub fn demand_test(tasks: &[PeriodicTask]) -> Demand
    requires { AreLimited tasks.now }
    ensures { Tells (all_facts tasks.now) result }
{
    match told_by_shares(tasks, WHOLE) {
        Told::Over => Demand::Over,
        Told::Horizon(horizon) => look_down(tasks, horizon, most_looks(tasks)),
        Told::Unknown => exact_test(tasks),
    }
}
