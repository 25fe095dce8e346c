//! The window that shows why jobs can't all be served.
ghost use Rattle.std.specs.Prelude.{◌≡◌, ℕ, ◌≤◌, length};
ghost use Rattle.dover_model.specs.Common.{IsInOrder, most_jobs, IsOverfull, work_inside};
ghost use Rattle.dover_model.specs.declared.events.Version.TheVariants.{Two};
ghost use Rattle.clairvoyant.specs.feasible.Feasibility.{IsRelease};

use dover_model::Job;

/// The greatest `a` for which the jobs that are released at `a` or later and due by `b` have more than `b - a` ticks of
/// work.
pub fn last_start(jobs: &[Job], b: u64) -> u64
    requires order { IsInOrder jobs.now }
    requires count { length jobs.now ≤ most_jobs Two }
    requires some { (a w : ℕ) × IsOverfull jobs.now a b w }
    ensures release { IsRelease jobs.now result }
    ensures overfull { IsOverfull jobs.now result b (work_inside jobs.now result b) }
    ensures last { (a w : ℕ) → IsOverfull jobs.now a b w → a ≤ result }
{
    let mut work = 0;
    for i in (0..jobs.len()).rev() {
        let job = &jobs[i];
        if job.deadline() <= b {
            work += job.work();
            if b - job.release() < work {
                return job.release();
            }
        }
    }
    unreachable!()
}

/// The work of the jobs that are released at `a` or later and due by `b`.
pub fn work_inside(jobs: &[Job], a: u64, b: u64) -> u64
    requires count { length jobs.now ≤ most_jobs Two }
    ensures { result ≡ work_inside jobs.now a b }
{
    let mut work = 0;
    for job in jobs {
        if a <= job.release() && job.deadline() <= b {
            work += job.work();
        }
    }
    work
}
