//! What the steps of a run tell of its jobs.
ghost use Rattle.std.specs.Prelude.{◌≡◌, ◌≤◌, ◌+◌, []};
ghost use Rattle.dover_model.specs.Limits.{most_value};
ghost use Rattle.run_record.specs.intervals.Totals.{totals_of, with_step, HasSpace};

use dover_model::{Event, PackedEvent};

/// How many jobs steps release, what those are worth and by when they are due, how many are done and are gone, how
/// often the processor changes hands, and how many jobs took it or preempted another.
#[derive(Clone, Copy)]
pub struct JobTotals {
    /// How many are released.
    pub jobs: u64,
    /// What those are worth.
    pub worth: u128,
    /// The last deadline of those, 0 where there is none.
    pub due: u64,
    /// How many are done.
    pub completed: u64,
    /// How many are gone.
    pub abandoned: u64,
    /// How many took the processor.
    pub taken: u64,
    /// How often a job gets the processor.
    pub changes: u64,
    /// How often one of these preempts another.
    pub preempted: u64,
}

impl JobTotals {
    /// Before the first step.
    pub fn new() -> JobTotals
        ensures { result ≡ totals_of [] }
    {
        JobTotals {
            jobs: 0,
            worth: 0,
            due: 0,
            completed: 0,
            abandoned: 0,
            taken: 0,
            changes: 0,
            preempted: 0,
        }
    }

    /// What these steps tell.
    pub fn of(run: &[PackedEvent]) -> JobTotals
        ensures { result ≡ totals_of run.now }
    {
        let mut totals = JobTotals::new();
        for event in run {
            totals.add(&event.event());
        }
        totals
    }

    /// Counts one more step.
    #[inline(always)]
    pub fn add(&mut self, event: &Event)
        requires { HasSpace self.old }
        ensures is { self.new ≡ with_step self.old event.now }
        ensures modest { self.new.worth ≤ self.old.worth + most_value }
    {
        match event {
            Event::Release { job, .. } => {
                self.jobs += 1;
                self.worth += u128::from(job.value());
                self.due = self.due.max(job.deadline());
            }
            Event::Complete { .. } => self.completed += 1,
            Event::Abandon { .. } => self.abandoned += 1,
            Event::Run { .. } => self.changes += 1,
            Event::Preempt { .. } => {
                self.changes += 1;
                self.preempted += 1;
            }
            Event::Take { .. } => {
                self.changes += 1;
                self.taken += 1;
            }
            Event::End { .. } => {}
        }
    }
}
