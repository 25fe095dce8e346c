//! The line of a printed step from a word and numbers.
ghost use Rattle.std.specs.Prelude.{◌≡◌, option_and_then, option_map};
ghost use Rattle.dover_model.specs.Common.{fields_of, numerals};
ghost use Rattle.line_text.specs.declared.traces.lines.TraceLine.TheVariants.{Step};
ghost use Rattle.line_text.specs.traces.Reading as model;

use crate::numbers_in;
use crate::traces::lines::TraceLine;
use dover_model::{Event, Job};

/// The greatest number of a job.
const LAST_NUMBER: u64 = 3_999_999_999;

fn job_number(number: u64) -> Option<u32>
    ensures { result ≡ model.job_number number }
{
    if number > LAST_NUMBER {
        return None;
    }
    Some(number as u32)
}

fn new_job(release: u64, work: u64, deadline: u64, value: u64) -> Option<Job>
    ensures { result ≡ model.new_job release work deadline value }
{
    Job::new(release, work, deadline, value)
}

/// A release, of a number and a job's four numbers.
fn release_with(numbers: &[u64]) -> Option<TraceLine>
    ensures { result ≡ option_map Step (model.release_of numbers.now) }
{
    let [number, release, work, deadline, value] = numbers else {
        return None;
    };
    let number = job_number(*number)?;
    let job = new_job(*release, *work, *deadline, *value)?;
    Some(TraceLine::Step(Event::Release { number, job }))
}

/// A clock and the number of one job.
fn one_job(numbers: &[u64]) -> Option<(u64, u32)>
    ensures { result ≡ model.one_job numbers.now }
{
    let [at, number] = numbers else {
        return None;
    };
    let number = job_number(*number)?;
    Some((*at, number))
}

/// A clock and the numbers of two jobs.
fn two_jobs(numbers: &[u64]) -> Option<(u64, u32, u32)>
    ensures { result ≡ model.two_jobs numbers.now }
{
    let [at, stops, starts] = numbers else {
        return None;
    };
    let stops = job_number(*stops)?;
    let starts = job_number(*starts)?;
    Some((*at, stops, starts))
}

/// The end, of a value.
fn end_with(numbers: &[u64]) -> Option<TraceLine>
    ensures { result ≡ option_map Step (model.end_of numbers.now) }
{
    match numbers {
        [value] => Some(TraceLine::Step(Event::End { value: *value })),
        _ => None,
    }
}

/// The release that fields spell behind its word.
#[inline(always)]
#[tactic(auto, using(crate::proofs::traces::NoLine::no_release))]
pub fn release_of(fields: &[u8]) -> Option<TraceLine>
    ensures { result ≡ option_map Step (option_and_then model.release_of (numerals (fields_of fields.now))) }
{
    let numbers = numbers_in::<5>(fields)?;
    release_with(&numbers)
}

/// The end that fields spell behind its word.
#[inline(always)]
#[tactic(auto, using(crate::proofs::traces::NoLine::no_end))]
pub fn end_of(fields: &[u8]) -> Option<TraceLine>
    ensures { result ≡ option_map Step (option_and_then model.end_of (numerals (fields_of fields.now))) }
{
    let numbers = numbers_in::<1>(fields)?;
    end_with(&numbers)
}

/// The run that fields spell behind its word.
#[inline(always)]
#[tactic(auto, using(crate::proofs::traces::NoLine::no_run))]
pub fn run_of(fields: &[u8]) -> Option<TraceLine>
    ensures { result ≡ option_map Step (option_and_then model.run_of (numerals (fields_of fields.now))) }
{
    let numbers = numbers_in::<2>(fields)?;
    let (at, number) = one_job(&numbers)?;
    Some(TraceLine::Step(Event::Run { at, number }))
}

/// The completion that fields spell behind its word.
#[inline(always)]
#[tactic(auto, using(crate::proofs::traces::NoLine::no_complete))]
pub fn complete_of(fields: &[u8]) -> Option<TraceLine>
    ensures { result ≡ option_map Step (option_and_then model.complete_of (numerals (fields_of fields.now))) }
{
    let numbers = numbers_in::<2>(fields)?;
    let (at, number) = one_job(&numbers)?;
    Some(TraceLine::Step(Event::Complete { at, number }))
}

/// The abandonment that fields spell behind its word.
#[inline(always)]
#[tactic(auto, using(crate::proofs::traces::NoLine::no_abandon))]
pub fn abandon_of(fields: &[u8]) -> Option<TraceLine>
    ensures { result ≡ option_map Step (option_and_then model.abandon_of (numerals (fields_of fields.now))) }
{
    let numbers = numbers_in::<2>(fields)?;
    let (at, number) = one_job(&numbers)?;
    Some(TraceLine::Step(Event::Abandon { at, number }))
}

/// The preemption that fields spell behind its word.
#[inline(always)]
#[tactic(auto, using(crate::proofs::traces::NoLine::no_preempt))]
pub fn preempt_of(fields: &[u8]) -> Option<TraceLine>
    ensures { result ≡ option_map Step (option_and_then model.preempt_of (numerals (fields_of fields.now))) }
{
    let numbers = numbers_in::<3>(fields)?;
    let (at, stops, starts) = two_jobs(&numbers)?;
    Some(TraceLine::Step(Event::Preempt { at, stops, starts }))
}

/// The take that fields spell behind its word.
#[inline(always)]
#[tactic(auto, using(crate::proofs::traces::NoLine::no_take))]
pub fn take_of(fields: &[u8]) -> Option<TraceLine>
    ensures { result ≡ option_map Step (option_and_then model.take_of (numerals (fields_of fields.now))) }
{
    let numbers = numbers_in::<3>(fields)?;
    let (at, stops, starts) = two_jobs(&numbers)?;
    Some(TraceLine::Step(Event::Take { at, stops, starts }))
}
