//! The jobs of a seed, as a list that is run.
use dover_model::Job;
use ready_server::JobSource;
use stated_jobs::trial::Gen;

/// The jobs of a seed that are still to come.
#[derive(Drop)]
pub(crate) struct Drawn(pub(crate) Gen);

impl JobSource for Drawn {
    ghost jobs = { λ drawn. drawn.0 };

    fn next_job(&mut self) -> Option<Job> {
        self.0.next()
    }
}
