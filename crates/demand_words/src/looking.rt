//! A look at few windows, from a horizon down.
ghost use Rattle.std.specs.Prelude.{◌≡◌, ◌≤◌, ◌<◌, ◌^◌, ℕ};
ghost use Rattle.task_laws.specs.Demand.{AreMet, demand, jobs_within};
ghost use Rattle.demand_words.specs.Demanded.{AreLimited, all_facts, facts};
ghost use Rattle.demand_words.specs.Looks.{TellsBelow};

use crate::answers::Demand;
use task_words::tasks::PeriodicTask;

/// How many jobs of the task at most are released in a window of so many ticks and due in it.
fn jobs_within(task: &PeriodicTask, ticks: u64) -> u128
    requires { 1 ≤ task.now.period }
    ensures is { result ≡ jobs_within (facts task.now) ticks }
    ensures few { result ≤ 2 ^ 64 }
{
    if task.deadline > ticks {
        return 0;
    }
    u128::from((ticks - task.deadline) / task.period) + 1
}

/// How much work the tasks can ask for in a window of so many ticks.
pub(crate) fn demand(tasks: &[PeriodicTask], ticks: u64) -> u128
    requires { AreLimited tasks.now }
    ensures { result ≡ demand (all_facts tasks.now) ticks }
{
    let mut work = 0u128;
    for task in tasks {
        work += u128::from(task.work) * jobs_within(task, ticks);
    }
    work
}

/// Looks at windows below the horizon, at the longest first: a window whose work fits it tells of all down to its work,
/// and the next look is at the first below these.
pub(crate) fn look_down(tasks: &[PeriodicTask], horizon: u64, looks: u64) -> Demand
    requires limits { AreLimited tasks.now }
    requires tells { ((ticks : ℕ) → ticks < horizon → demand (all_facts tasks.now) ticks ≤ ticks)
        → AreMet (all_facts tasks.now) }
    ensures { TellsBelow (all_facts tasks.now) horizon looks result }
{
    let mut left = horizon;
    for _ in 0..looks {
        if left == 0 {
            return Demand::Met;
        }
        let ticks = left - 1;
        let work = demand(tasks, ticks);
        if work > u128::from(ticks) {
            return Demand::Window { ticks, work };
        }
        left = work as u64;
    }
    if left == 0 { Demand::Met } else { Demand::Size }
}
