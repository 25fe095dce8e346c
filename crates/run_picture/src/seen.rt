//! What the steps of a run tell of each job.
use crate::scale::Scale;
use dover_model::{Event, Job, Memory, PackedEvent};
use run_reports::report::endings::Ending;
use std::alloc::Global;

/// What is told of a job.
#[derive(Clone, Copy)]
pub struct Seen {
    /// Its number.
    pub number: u32,
    /// The tick of its release.
    pub release: u64,
    /// The ticks of work that it needs.
    pub work: u64,
    /// The tick by which it is due.
    pub deadline: u64,
    /// What it is worth.
    pub value: u64,
    /// Whether it takes the processor at its latest start.
    pub took: bool,
    /// What the jobs under way are worth when it is weighed, 0 where it isn't.
    pub against: u64,
    /// How it ended, None where these steps end it nowhere.
    pub ending: Option<Ending>,
    /// The number of its group, whose jobs stand together.
    pub group: usize,
    /// Its row in the picture, from 0 on.
    pub row: u64,
}

impl Seen {
    /// A job at its release.
    fn new(number: u32, job: &Job) -> Seen {
        Seen {
            number,
            release: job.release(),
            work: job.work(),
            deadline: job.deadline(),
            value: job.value(),
            took: false,
            against: 0,
            ending: None,
            group: 0,
            row: 0,
        }
    }

    /// The tick at which it ended, or its deadline.
    pub fn end_tick(&self) -> u64 {
        match self.ending {
            None => self.deadline,
            Some(Ending::Completed(at)) => at,
            Some(Ending::Abandoned(at)) => at,
        }
    }

    /// The tick from which another job may have its row: its deadline, or the one behind its cross.
    pub fn free_tick(&self) -> u64 {
        match self.ending {
            Some(Ending::Abandoned(at)) => self.deadline.max(at.saturating_add(1)),
            _ => self.deadline,
        }
    }

    /// It is abandoned.
    pub fn is_gone(&self) -> bool {
        matches!(self.ending, Some(Ending::Abandoned(_)))
    }

    /// The letter of its color.
    pub fn tint(&self) -> u8 {
        if self.is_gone() {
            return b'l';
        }
        if self.took { b't' } else { b'c' }
    }

    /// It is shown.
    pub fn is_shown(&self, scale: Scale) -> bool {
        scale.meets(self.release, self.deadline)
    }
}

/// What these steps tell of the jobs, by number, where the jobs under way are worth so much before each, and nothing
/// where no worth is given; and the jobs are of these groups, and of the first one where none is given.
pub fn told(
    alloc: Global,
    run: &[PackedEvent],
    worths: &[u64],
    groups: &[usize],
) -> Result<Vec<Seen>, Memory> {
    let mut seen = Vec::new(alloc);
    for (index, event) in run.iter().enumerate() {
        let worth = worths.get(index).copied().unwrap_or(0);
        put_step(&mut seen, event, worth)?;
    }
    for (index, group) in groups.iter().enumerate() {
        set_group(&mut seen, index, *group);
    }
    Ok(seen)
}

/// One more step.
fn put_step(seen: &mut Vec<Seen>, event: &PackedEvent, worth: u64) -> Result<(), Memory> {
    match event.event() {
        Event::Release { number, job } => seen.push(Seen::new(number, &job))?,
        Event::Take { starts, .. } => take(seen, starts as usize, worth),
        Event::Complete { at, number } => complete(seen, number as usize, at),
        Event::Abandon { at, number } => abandon(seen, number as usize, at, worth),
        _ => {}
    }
    Ok(())
}

/// A job is of this group.
fn set_group(seen: &mut [Seen], number: usize, group: usize) {
    if number < seen.len() {
        seen[number].group = group;
    }
}

/// A job takes the processor.
fn take(seen: &mut [Seen], number: usize, worth: u64) {
    if number < seen.len() {
        seen[number].took = true;
        seen[number].against = worth;
    }
}

/// A job is done.
fn complete(seen: &mut [Seen], number: usize, at: u64) {
    if number < seen.len() {
        seen[number].ending = Some(Ending::Completed(at));
    }
}

/// A job is gone.
fn abandon(seen: &mut [Seen], number: usize, at: u64, worth: u64) {
    if number < seen.len() {
        seen[number].against = worth;
        seen[number].ending = Some(Ending::Abandoned(at));
    }
}

/// The value of a job, 0 where there is none.
pub fn value_of(seen: &[Seen], number: u32) -> u64 {
    match seen.get(number as usize) {
        Some(one) => one.value,
        None => 0,
    }
}
