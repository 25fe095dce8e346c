//! The courses of the jobs of a run: when they had the processor, and how they ended.
ghost use Rattle.std.specs.Prelude.{◌≡◌, ◌<◌, ℕ, length, slice_index_or, IfOk};
ghost use Rattle.run_reports.specs.report.Courses.{course_in, ended, started, unseen, with_change, with_earlier};

use crate::report::endings::Ending;
use dover_model::{Event, Memory, PackedEvent};
use std::alloc::Global;

/// When a job had the processor, and how it ended.
#[derive(Clone, Copy)]
pub struct Course {
    /// How it ended, if it did.
    pub ending: Option<Ending>,
    /// The tick at which it first had the processor, if it ever did.
    pub first: Option<u64>,
    /// How often it got it: where it was free, and by a preemption or a take.
    pub count: u64,
}

/// That of a job without a step.
const UNSEEN: Course = Course {
    ending: None,
    first: None,
    count: 0,
};

/// The courses of the jobs of the first numbers. Of the steps the last is read first. Want of memory is the only error.
pub fn courses_of(alloc: Global, run: &[PackedEvent], count: usize) -> Result<Vec<Course>, Memory>
    ensures count { IfOk result (λ courses. length courses.items ≡ count) }
    ensures each { IfOk result (λ courses.
        (n : ℕ) → n < count → slice_index_or courses.items n unseen ≡ course_in run.now n) }
{
    let mut courses = Vec::with_capacity(alloc, count)?;
    courses.resize(count, UNSEEN)?;
    let mut left = run.len();
    while left > 0 {
        left -= 1;
        put_step(&mut courses, &run[left]);
    }
    Ok(courses)
}

/// The course of the job of this number; that of no job, where there are fewer.
#[inline(always)]
pub(crate) fn course_at(courses: &[Course], number: usize) -> Course
    ensures { result ≡ slice_index_or courses.now number unseen }
{
    match courses.get(number) {
        Some(it) => *it,
        None => UNSEEN,
    }
}

/// Takes an earlier step into account.
fn put_step(courses: &mut [Course], event: &PackedEvent)
    ensures { courses.new ≡ with_earlier courses.old event.now }
{
    match event.event() {
        Event::Run { at, number } => put_start(courses, number as usize, at),
        Event::Preempt { at, starts, .. } => put_start(courses, starts as usize, at),
        Event::Take { at, starts, .. } => put_start(courses, starts as usize, at),
        Event::Complete { at, number } => {
            put_ending(courses, number as usize, Ending::Completed(at));
        }
        Event::Abandon { at, number } => {
            put_ending(courses, number as usize, Ending::Abandoned(at));
        }
        _ => {}
    }
}

/// The job of this number, if there are so many, gets the processor at this tick, before all that was counted.
fn put_start(courses: &mut [Course], number: usize, at: u64)
    ensures { courses.new ≡ with_change (started at) number courses.old }
{
    if number < courses.len() {
        let count = courses[number].count.saturating_add(1);
        courses[number] = Course {
            first: Some(at),
            count,
            ..courses[number]
        };
    }
}

/// The job of this number, if there are so many, ends so.
fn put_ending(courses: &mut [Course], number: usize, ending: Ending)
    ensures { courses.new ≡ with_change (ended ending) number courses.old }
{
    if number < courses.len() {
        courses[number].ending = Some(ending);
    }
}
