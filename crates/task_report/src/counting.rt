//! What became of the jobs of a task.
use crate::sorting::sort_jobs;
use crate::tally::{Tally, no_jobs, of_job, together};
use dover_model::{Job, Memory, PackedEvent};
use run_reports::report::{Course, courses_of, released};
use std::alloc::Global;
use task_words::tasks::PeriodicTask;

/// The jobs of a run, of each the number of its task and its course.
#[derive(Drop)]
pub(crate) struct SortedRun {
    pub(crate) jobs: Vec<Job>,
    pub(crate) of: Vec<usize>,
    pub(crate) courses: Vec<Course>,
}

impl SortedRun {
    ghost use Rattle.std.specs.Prelude.{◌≡◌, ◌<◌, ◌+◌, List, get_or, length, IfOk};
    ghost use Rattle.dover_model.specs.declared.events.Event.{Event};
    ghost use Rattle.task_words.specs.declared.tasks.task.PeriodicTask.{PeriodicTask};
    ghost use Rattle.task_report.specs.Counting.{Sorted, no_job, tally_in, with_job};
    ghost use Rattle.task_report.specs.Keeping.{IsOfAtMost};
    ghost use Rattle.task_report.specs.Tallies as model;

    /// The run that prints these steps, with its jobs sorted by tasks. Want of memory is the only error.
    pub(crate) fn of(
        alloc: Global,
        tasks: &[PeriodicTask],
        steps: &[PackedEvent],
    ) -> Result<SortedRun, Memory>
        ensures { IfOk result (λ run. Sorted tasks.now steps.now run) }
    {
        let jobs = released(alloc, steps)?;
        let of = sort_jobs(alloc, tasks, &jobs)?;
        let courses = courses_of(alloc, steps, jobs.len())?;
        Ok(SortedRun { jobs, of, courses })
    }

    /// What became of the job of this number.
    fn job_tally(&self, number: usize) -> Tally
        requires sorted { (tasks : List PeriodicTask) × (steps : List Event) × Sorted tasks steps self.now }
        requires there { number < length self.now.jobs.items }
        ensures is { (tasks : List PeriodicTask) (steps : List Event) → Sorted tasks steps self.now →
            result ≡ model.job_tally steps (number, get_or self.now.jobs.items number no_job) }
        ensures few { IsOfAtMost 1 result }
    {
        let course = &self.courses[number];
        of_job(&self.jobs[number], course.ending, course.count)
    }

    /// What became of some jobs, and of the job of this number where it is of the task of that number.
    fn with_job(&self, tally: &Tally, number: usize, task: usize) -> Tally
        requires sorted { (tasks : List PeriodicTask) × (steps : List Event) × Sorted tasks steps self.now }
        requires there { number < length self.now.jobs.items }
        requires few { IsOfAtMost number tally.now }
        ensures is { (tasks : List PeriodicTask) (steps : List Event) → Sorted tasks steps self.now →
            result ≡ with_job tasks steps task tally.now (number, get_or self.now.jobs.items number no_job) }
        ensures few { IsOfAtMost (number + 1) result }
    {
        if self.of[number] != task {
            return *tally;
        }
        together(tally, &self.job_tally(number))
    }

    /// What became of the jobs of the task of this number, or of no task.
    pub(crate) fn tally(&self, task: usize) -> Tally
        requires { (tasks : List PeriodicTask) × (steps : List Event) × Sorted tasks steps self.now }
        ensures { (tasks : List PeriodicTask) (steps : List Event) → Sorted tasks steps self.now →
            result ≡ tally_in tasks steps task }
    {
        let mut tally = no_jobs();
        for number in 0..self.jobs.len() {
            tally = self.with_job(&tally, number, task);
        }
        tally
    }
}
