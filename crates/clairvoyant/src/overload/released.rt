//! Which jobs are inside some ticks, and where in a list of jobs those begin that are released at a tick or later.
ghost use Rattle.std.specs.Prelude.{◌≡◌};
ghost use Rattle.dover_model.specs.Common.{IsInOrder, is_inside};
ghost use Rattle.clairvoyant.specs.overload.Collecting.{IsCut};

use dover_model::Job;

/// The job is released at `from` or later, and due by `until`.
pub(crate) fn is_inside(job: &Job, from: u64, until: u64) -> bool
    ensures { result ≡ is_inside from until job.now }
{
    from <= job.release() && job.deadline() <= until
}

/// How many jobs are released before a tick.
pub(crate) fn released(jobs: &[Job], tick: u64) -> usize
    requires { IsInOrder jobs.now }
    ensures { IsCut jobs.now tick result }
{
    let mut low = 0;
    let mut high = jobs.len();
    while low < high {
        let middle = low + (high - low) / 2;
        if jobs[middle].release() < tick {
            low = middle + 1;
        } else {
            high = middle;
        }
    }
    low
}
