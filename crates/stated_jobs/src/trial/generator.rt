//! The generator of a stated list.
use crate::trial::draws::{drawn, drawn_job};
use dover_model::{Job, Ratio};
use std::marker::Model;

/// The jobs of a stated list that are still to come.
#[derive(Drop)]
pub struct Gen {
    k: Ratio,
    left: u32,
    state: u64,
    /// The last release.
    last: u64,
}

impl Model for Gen {
    ghost use Rattle.std.specs.Prelude.{List, ◌<◌, ◌≤◌, ◌+◌, ◌*◌, ◌^◌};
    ghost use Rattle.dover_model.specs.JobFacts.{JobFacts};
    ghost use Rattle.dover_model.specs.Generator.{generated_jobs_from};

    ghost Value = { List JobFacts };

    ghost view = { λ g. generated_jobs_from g.k g.left g.state g.last };

    ghost invariant = { λ g. (g.state < 2 ^ 31) × (g.last + 8 * g.left ≤ 8_000_000) };
}

impl Gen {
    ghost use Rattle.std.specs.Prelude.{◌≡◌, ◌↔◌, ◌<◌, ◌≤◌, ◌^◌, ◌++◌, [], IsNone, length, option_to_list};
    ghost use Rattle.dover_model.specs.Generator.{generated_jobs};
    ghost use Rattle.dover_model.specs.declared.events.Version.TheVariants.{Two};
    ghost use Rattle.dover_model.specs.Limits.{most_jobs};

    /// So many jobs from a seed, within the ratio `k` of each other. The seed is below 2^31, the count at most
    /// 1,000,000.
    pub fn new(seed: u32, count: u32, k: Ratio) -> Gen
        requires seed { seed < 2 ^ 31 }
        requires count { count ≤ most_jobs Two }
        ensures jobs { result ≡ generated_jobs seed count k }
        ensures count { length result ≡ count }
    {
        Gen {
            k,
            left: count,
            state: u64::from(seed),
            last: 0,
        }
    }

    /// The next job. None exactly where all were given.
    pub fn next(&mut self) -> Option<Job>
        ensures jobs { self.old ≡ option_to_list result ++ self.new }
        ensures none { IsNone result ↔ (self.old ≡ []) }
    {
        if self.left == 0 {
            return None;
        }
        let release = drawn(self.state);
        let work = drawn(release);
        let slack = drawn(work);
        let density = drawn(slack);
        let job = drawn_job(self.k, self.last, release, work, slack, density);
        self.left -= 1;
        self.state = density;
        self.last = job.release();
        Some(job)
    }
}
