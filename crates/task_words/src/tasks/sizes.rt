//! Whether the jobs of tasks are no more, and worth no more, than a feed of version Two may have.
ghost use Rattle.std.specs.Prelude.{◌↔◌, IsTrue};
ghost use Rattle.std.specs.List.{AllByRecursion};
ghost use Rattle.task_words.specs.tasks.Limits.{Fits, IsTask};

use crate::tasks::task::PeriodicTask;
use dover_model::Version;

/// Whether the jobs that the tasks release before a tick are at most 1,000,000, and worth at most 10^13. It takes a
/// step for each task, and none for a job.
pub fn fits(tasks: &[PeriodicTask], until: u64) -> bool
    requires { AllByRecursion (IsTask until) tasks.now }
    ensures { IsTrue result ↔ Fits until tasks.now }
{
    let mut count = 0u64;
    let mut total = 0u64;
    for task in tasks {
        let more = task.count_before(until);
        if more > u64::from(Version::Two.most_jobs()) - count {
            return false;
        }
        count += more;
        total += more * task.value;
        if total > Version::Two.most_total() {
            return false;
        }
    }
    true
}
