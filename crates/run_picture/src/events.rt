//! A run as events for a viewer of traces.
ghost use Rattle.dover_model.specs.Instance.{Instance};
ghost use Rattle.run_record.specs.intervals.Rows.{IsRunOf};

use crate::processor::Processor;
use dover_model::{Event, Job, Memory, PackedEvent, Ratio};
use run_record::ledger::weights;
use run_reports::views::template::put;
use std::alloc::Global;

/// What is told of a job: its value, and how much of its work it has still to get.
#[derive(Clone, Copy)]
struct Ran {
    value: u64,
    left: u64,
    had: u64,
}

/// What the steps so far come to.
#[derive(Drop)]
struct Tally {
    jobs: Vec<Ran>,
    processor: Processor,
    completed: u64,
    lost: u64,
}

impl Tally {
    /// Of no step.
    fn new(alloc: Global) -> Tally {
        Tally {
            jobs: Vec::new(alloc),
            processor: Processor::new(),
            completed: 0,
            lost: 0,
        }
    }

    /// Reads a step.
    fn read(&mut self, event: &PackedEvent) -> Result<(), Memory> {
        if let Some(piece) = self.processor.read(event) {
            serve(
                &mut self.jobs,
                piece.number as usize,
                piece.until.saturating_sub(piece.from),
            );
        }
        match event.event() {
            Event::Release { job, .. } => self.jobs.push(Ran {
                value: job.value(),
                left: job.work(),
                had: 0,
            })?,
            Event::Complete { number, .. } => {
                self.completed = self.completed.saturating_add(self.job(number).value);
            }
            Event::Abandon { number, .. } => {
                self.lost = self.lost.saturating_add(self.job(number).value);
            }
            _ => {}
        }
        Ok(())
    }

    /// What is told of the job of this number.
    fn job(&self, number: u32) -> Ran {
        match self.jobs.get(number as usize) {
            Some(job) => *job,
            None => Ran {
                value: 0,
                left: 0,
                had: 0,
            },
        }
    }
}

/// A job has had so many ticks more.
fn serve(jobs: &mut [Ran], number: usize, ticks: u64) {
    if number < jobs.len() {
        jobs[number].left = jobs[number].left.saturating_sub(ticks);
        jobs[number].had = jobs[number].had.saturating_add(ticks);
    }
}

/// The run that prints these steps as Trace Event JSON, with a tick as a microsecond: the job on the processor, each
/// job from its release to its fate, what is weighed at each take and abandonment, and the values completed and lost
/// so far. The jobs of the run are valid for the ratio `k`, and within the limits of version Two. Want of memory is the
/// only error. What is written is tested, and not proved.
pub fn chrome(alloc: Global, k: Ratio, run: &[PackedEvent]) -> Result<Vec<u8>, Memory>
    requires { (J : Instance) × IsRunOf k run.now J }
{
    let worths = weights(alloc, k, run)?;
    let mut text = Vec::from_slice(
        alloc,
        b"{\"traceEvents\":[\n\
        {\"pid\":0,\"tid\":0,\"ph\":\"M\",\"name\":\"thread_name\",\"args\":{\"name\":\"processor\"}}\n",
    )?;
    put_events(alloc, &mut text, run, &worths)?;
    text.extend_from_slice(b"]}\n")?;
    Ok(text)
}

/// Appends the events of these steps, each with what the jobs under way are worth before it.
fn put_events(
    alloc: Global,
    text: &mut Vec<u8>,
    run: &[PackedEvent],
    worths: &[u64],
) -> Result<(), Memory> {
    let mut tally = Tally::new(alloc);
    for (index, event) in run.iter().enumerate() {
        tally.read(event)?;
        put_event(text, &tally, event, worths.get(index).copied().unwrap_or(0))?;
    }
    Ok(())
}

/// Appends the events of a step, behind which the steps come to so much.
fn put_event(
    text: &mut Vec<u8>,
    tally: &Tally,
    event: &PackedEvent,
    worth: u64,
) -> Result<(), Memory> {
    match event.event() {
        Event::Release { number, job } => put_opens(text, u64::from(number), &job),
        Event::Run { at, number } => put_begins(text, at, number),
        Event::Preempt { at, stops, starts } => put_switch(text, at, stops, starts),
        Event::Take { at, stops, starts } => {
            put_switch(text, at, stops, starts)?;
            put_weighed(text, b"take", at, starts, &[tally.job(starts).value, worth])
        }
        Event::Complete { at, number } => {
            put_ends(text, at, number)?;
            put_completed(text, at, number, tally.job(number))?;
            put_sums(text, at, tally)
        }
        Event::Abandon { at, number } => {
            put_closes(text, at, number)?;
            put_text(text, b",\"args\":{\"fate\":\"abandon\"}}\n")?;
            put_weighed(
                text,
                b"abandon",
                at,
                number,
                &[tally.job(number).value, worth],
            )?;
            put_sums(text, at, tally)
        }
        Event::End { .. } => Ok(()),
    }
}

/// Appends these bytes.
fn put_text(text: &mut Vec<u8>, bytes: &[u8]) -> Result<(), Memory> {
    text.extend_from_slice(bytes)?;
    Ok(())
}

/// Appends that the job is released.
fn put_opens(text: &mut Vec<u8>, number: u64, job: &Job) -> Result<(), Memory> {
    put(
        text,
        b",{\"pid\":0,\"tid\":0,\"ph\":\"b\",\"ts\":@,\"cat\":\"job\",\"id\":\"@\",\"name\":\"job @\",\
        \"args\":{\"work\":@,\"deadline\":@,\"value\":@}}\n",
        &[
            job.release(),
            number,
            number,
            job.work(),
            job.deadline(),
            job.value(),
        ],
    )
}

/// Appends that the job gets the processor.
fn put_begins(text: &mut Vec<u8>, at: u64, number: u32) -> Result<(), Memory> {
    put(
        text,
        b",{\"pid\":0,\"tid\":0,\"ph\":\"B\",\"ts\":@,\"name\":\"job @\"}\n",
        &[at, u64::from(number)],
    )
}

/// Appends that the job loses the processor.
fn put_ends(text: &mut Vec<u8>, at: u64, number: u32) -> Result<(), Memory> {
    put(
        text,
        b",{\"pid\":0,\"tid\":0,\"ph\":\"E\",\"ts\":@,\"name\":\"job @\"}\n",
        &[at, u64::from(number)],
    )
}

/// Appends that the processor goes from one job to another.
fn put_switch(text: &mut Vec<u8>, at: u64, stops: u32, starts: u32) -> Result<(), Memory> {
    put_ends(text, at, stops)?;
    put_begins(text, at, starts)
}

/// Appends that a job is decided so at its latest start, by its value and what it stands against.
fn put_weighed(
    text: &mut Vec<u8>,
    answer: &[u8],
    at: u64,
    number: u32,
    values: &[u64],
) -> Result<(), Memory> {
    put(
        text,
        b",{\"pid\":0,\"tid\":0,\"ph\":\"i\",\"ts\":@,\"s\":\"g\",\"name\":\"",
        &[at],
    )?;
    put_text(text, answer)?;
    put(text, b" job @\",\"args\":{", &[u64::from(number)])?;
    put(text, b"\"value\":@,\"against\":@}}\n", values)
}

/// Appends the begin of the event that a job is over.
fn put_closes(text: &mut Vec<u8>, at: u64, number: u32) -> Result<(), Memory> {
    let number = u64::from(number);
    put(
        text,
        b",{\"pid\":0,\"tid\":0,\"ph\":\"e\",\"ts\":@,\"cat\":\"job\",\"id\":\"@\",\"name\":\"job @\"",
        &[at, number, number],
    )
}

/// Appends that the job is done, after how many ticks where work is left of it.
fn put_completed(text: &mut Vec<u8>, at: u64, number: u32, job: Ran) -> Result<(), Memory> {
    put_closes(text, at, number)?;
    if job.left > 0 {
        return put(
            text,
            b",\"args\":{\"fate\":\"complete\",\"had\":@}}\n",
            &[job.had],
        );
    }
    put_text(text, b",\"args\":{\"fate\":\"complete\"}}\n")
}

/// Appends the values so far.
fn put_sums(text: &mut Vec<u8>, at: u64, tally: &Tally) -> Result<(), Memory> {
    put(
        text,
        b",{\"pid\":0,\"tid\":0,\"ph\":\"C\",\"ts\":@,\"name\":\"value\",\"args\":{\"completed\":@,\"lost\":@}}\n",
        &[at, tally.completed, tally.lost],
    )
}
