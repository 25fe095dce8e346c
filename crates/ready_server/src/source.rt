//! Lists of jobs, from which they are taken one by one.
ghost use Rattle.std.specs.Prelude.{◌≡◌, ◌↔◌, ◌++◌, List, [], IsNone, option_to_list};
ghost use Rattle.dover_model.specs.JobFacts.{JobFacts};

use dover_model::Job;

/// The jobs of a list, one after another.
pub trait JobSource {
    /// The jobs that are still to come.
    ghost jobs: { Self → List JobFacts };

    /// The next job. None exactly where all were given.
    fn next_job(&mut self) -> Option<Job>
        ensures jobs { jobs self.old ≡ option_to_list result ++ jobs self.new }
        ensures none { IsNone result ↔ (jobs self.old ≡ []) };
}

impl JobSource for &[Job] {
    ghost jobs = { λ s. s.now };

    fn next_job(&mut self) -> Option<Job> {
        let (first, rest) = self.split_first()?;
        *self = rest;
        Some(*first)
    }
}
