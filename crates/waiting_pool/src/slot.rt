//! A place, in which a job waits or none.
ghost use Rattle.std.specs.Prelude.{◌≡◌, ◌<◌, Some, None};
ghost use Rattle.waiting_pool.specs.Short.{no_number};
ghost use Rattle.waiting_pool.specs.Slots.{seen};

use crate::short::{NO_NUMBER, ShortTask};
use dover_model::Task;
use std::marker::Model;

/// The job that waits at a place, or none.
#[derive(Drop)]
pub(crate) struct WaitingSlot {
    task: ShortTask,
}

impl Model for WaitingSlot {
    ghost use Rattle.std.specs.Prelude.{Option};
    ghost use Rattle.dover_model.specs.declared.events.Task.{Task};
    ghost use Rattle.waiting_pool.specs.Slots.{job_or_none};

    ghost Value = { Option Task };

    ghost view = { λ s. job_or_none s.task };
}

impl WaitingSlot {
    /// No job waits there.
    #[inline(always)]
    pub(crate) fn empty() -> WaitingSlot
        ensures { result ≡ None }
    {
        WaitingSlot {
            task: ShortTask::blank(),
        }
    }

    /// This job waits there.
    #[inline(always)]
    pub(crate) fn of(t: &Task) -> WaitingSlot
        requires { t.now.number < no_number }
        ensures { result ≡ Some t.now }
    {
        WaitingSlot {
            task: ShortTask::of(t),
        }
    }

    /// The job that waits there, if one does.
    #[inline(always)]
    pub(crate) fn task(&self) -> Option<&ShortTask>
        ensures { seen result ≡ self.now }
    {
        if self.task.number() == NO_NUMBER {
            return None;
        }
        Some(&self.task)
    }
}
