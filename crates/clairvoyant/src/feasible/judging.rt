//! The judge of feasibility.
ghost use Rattle.std.specs.Prelude.{◌≤◌, length, IfOk};
ghost use Rattle.dover_model.specs.Common.{IsInOrder, last_deadline, last_tick_in, most_jobs};
ghost use Rattle.dover_model.specs.declared.events.Version.TheVariants.{Two};
ghost use Rattle.clairvoyant.specs.feasible.Feasibility.{IsAnswer};

use crate::feasible::answer::Feasible;
use crate::feasible::simulation::simulate;
use crate::feasible::window::{last_start, work_inside};
use dover_model::{Job, Memory};
use std::alloc::Global;

/// A schedule that serves every job, where there is one, and else a window with more work than ticks. Releases never
/// fall along the list, and it has at most 1,000,000 jobs. For n jobs it takes some n·log n steps.
///
/// # Errors
///
/// `Memory` where there is none, and nothing else.
///
/// # Examples
///
/// A job of 10 ticks due at 10, and one of 20 ticks due at 20, both released at 0, have 30 ticks of work in a window
/// of 20: `Window` with a = 0, b = 20 and work = 30.
pub fn judge_feasible(alloc: Global, jobs: &[Job]) -> Result<Feasible, Memory>
    requires in_order { IsInOrder jobs.now }
    requires count { length jobs.now ≤ most_jobs Two }
    requires due { last_deadline jobs.now ≤ last_tick_in Two }
    ensures { IfOk result (λ answer. IsAnswer jobs.now answer) }
{
    let schedule = simulate(alloc, jobs)?;
    Ok(match schedule.late {
        None => Feasible::All {
            pieces: schedule.pieces,
        },
        Some(b) => {
            let a = last_start(jobs, b);
            Feasible::Window {
                a,
                b,
                work: work_inside(jobs, a, b),
            }
        }
    })
}
