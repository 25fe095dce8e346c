//! A job at a moment, in little room.
ghost use Rattle.std.specs.Prelude.{◌≡◌, ◌≤◌};
ghost use Rattle.dover_model.specs.Common.{most_value, left};
ghost use Rattle.dover_model.specs.declared.events.Task.{Task};
ghost use Rattle.waiting_pool.specs.Short.{no_number, task_in, IsShort};

use dover_model::packed::{high_of, joined, low_of};
use dover_model::{Job, Role, Task};
use std::marker::Model;
use std::mem::size_of;

/// The number of no job.
pub(crate) const NO_NUMBER: u32 = u32::MAX;

/// A job at a moment, in 40 bytes. Its work is below 2^40, so that it is kept as its low 32 digits and the others.
#[derive(Drop)]
pub struct ShortTask {
    had: u64,
    release: u64,
    deadline: u64,
    number: u32,
    value: u32,
    work: u32,
    work_high: u8,
    role: Role,
}

impl Model for ShortTask {
    ghost Value = { Task };

    ghost view = { task_in };

    ghost invariant = { IsShort };
}

const _: () = prove!(size_of::<ShortTask>() == 40);

impl ShortTask {
    /// What stands for no job.
    #[inline(always)]
    pub(crate) fn blank() -> ShortTask
        ensures { result.number ≡ no_number }
    {
        ShortTask {
            had: 0,
            release: 0,
            deadline: 1,
            number: NO_NUMBER,
            value: 1,
            work: 1,
            work_high: 0,
            role: Role::Gone,
        }
    }

    /// The same job.
    #[inline(always)]
    pub fn of(t: &Task) -> ShortTask
        ensures { result ≡ t.now }
    {
        let work = t.job.work();
        ShortTask {
            had: t.had,
            release: t.job.release(),
            deadline: t.job.deadline(),
            number: t.number,
            value: t.job.value() as u32,
            work: low_of(work),
            work_high: high_of(work) as u8,
            role: t.role,
        }
    }

    /// Its number.
    #[inline(always)]
    pub fn number(&self) -> u32
        ensures { result ≡ self.now.number }
    {
        self.number
    }

    /// Its value.
    #[inline(always)]
    pub fn value(&self) -> u64
        ensures is { result ≡ self.now.job.value }
        ensures most { result ≤ most_value }
    {
        self.value as u64
    }

    /// Its deadline.
    #[inline(always)]
    pub fn deadline(&self) -> u64
        ensures { result ≡ self.now.job.deadline }
    {
        self.deadline
    }

    /// Its work.
    #[inline(always)]
    pub fn work(&self) -> u64
        ensures { result ≡ self.now.job.work }
    {
        joined(self.work, u32::from(self.work_high))
    }

    /// The ticks that it is still to have.
    #[inline(always)]
    pub fn left(&self) -> u64
        ensures { result ≡ left self.now }
    {
        self.work().saturating_sub(self.had)
    }

    /// It stops in this role, where it has had so many ticks.
    #[inline(always)]
    pub fn stop(&mut self, role: Role, had: u64)
        ensures { self.new ≡ record { number = self.old.number; job = self.old.job; role = role; had = had } }
    {
        self.role = role;
        self.had = had;
    }

    /// The job.
    #[inline(always)]
    pub fn task(&self) -> Task
        ensures { result ≡ self.now }
    {
        let work = self.work();
        Task {
            number: self.number,
            job: Job::of(self.release, work, self.deadline, self.value as u64),
            role: self.role,
            had: self.had,
        }
    }
}

/// The ticks that the job is still to have.
#[inline(always)]
pub fn left(t: &Task) -> u64
    ensures { result ≡ left t.now }
{
    t.job.work().saturating_sub(t.had)
}
