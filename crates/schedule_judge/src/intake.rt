//! What the lines of a schedule say, one after another.
ghost use Rattle.std.specs.Prelude.{◌≡◌, Some};
ghost use Rattle.schedule_judge.specs.Account as account;

use crate::book::Book;
use crate::causes::Cause;
use dover_model::{Event, Memory, PackedEvent, Version};
use line_text::LINE_BYTES;
use line_text::traces::{SCHEDULE, TraceLine, read_trace_line};
use std::alloc::Global;
use std::marker::Model;

/// How many lines a schedule may have, as many as a feed of version Two.
const MOST_LINES: u64 = 4_000_000;

/// How a text stands, by its lines so far.
#[derive(Clone, Copy)]
pub enum Standing {
    /// It goes on.
    Open,
    /// Its `end` line was read.
    Ended,
    /// The last line isn't that of a legal schedule.
    Wrong(Cause),
    /// The last line is that of a job above 1,000,000, or more than 4,000,000 lines came.
    TooMany,
}

/// What the lines so far say: how many came, the schedule, and how the text stands.
#[derive(Drop)]
pub(crate) struct Intake {
    lines: u64,
    book: Book,
    standing: Standing,
}

impl Model for Intake {
    ghost use Rattle.schedule_judge.specs.Account.{Account};

    ghost Value = { Account };

    ghost view = { λ i. record { lines = i.lines; schedule = i.book; standing = i.standing } };
}

/// The step that a line is the text of.
fn step_in(line: &[u8]) -> Option<Event>
    ensures { result ≡ account.step_in line.now }
{
    if line.len() >= LINE_BYTES {
        return None;
    }
    match read_trace_line::<SCHEDULE>(line) {
        Ok(read) => step_of(read),
        Err(_) => None,
    }
}

/// A job that the step releases is due by the last tick of version Two.
fn is_due_in_two(event: &Event) -> bool
    ensures { result ≡ account.is_due_in_two event.now }
{
    match event {
        Event::Release { job, .. } => job.deadline() <= Version::Two.last_tick(),
        _ => true,
    }
}

/// The step of a line of a trace, where a schedule may have it.
fn step_of(read: TraceLine) -> Option<Event>
    ensures { result ≡ account.step_of_read (Some read) }
{
    match read {
        TraceLine::Step(event) if is_due_in_two(&event) => Some(event),
        _ => None,
    }
}

/// How a text stands behind a good step.
fn standing_after(event: &Event) -> Standing
    ensures { result ≡ account.standing_after event.now }
{
    match event {
        Event::End { .. } => Standing::Ended,
        _ => Standing::Open,
    }
}

impl Intake {
    ghost use Rattle.std.specs.Prelude.{◌≡◌, ◌<◌, true, OnOk};
    ghost use Rattle.dover_model.specs.declared.events.Version.TheVariants.{Two};
    ghost use Rattle.schedule_judge.specs.Account as account;

    /// No line came yet.
    pub(crate) fn new(alloc: Global) -> Intake
        ensures { result ≡ account.no_lines }
    {
        Intake {
            lines: 0,
            book: Book::new(alloc),
            standing: Standing::Open,
        }
    }

    /// How many lines came.
    pub(crate) fn lines(&self) -> u64
        ensures { result ≡ self.now.lines }
    {
        self.lines
    }

    /// How the text stands.
    pub(crate) fn standing(&self) -> Standing
        ensures { result ≡ self.now.standing }
    {
        self.standing
    }

    /// The text goes on.
    pub(crate) fn is_open(&self) -> bool
        ensures { result ≡ account.is_open self.now }
    {
        matches!(self.standing, Standing::Open)
    }

    /// The steps of the schedule.
    pub(crate) fn into_steps(self) -> Vec<PackedEvent>
        ensures { result.items ≡ self.schedule.steps }
    {
        self.book.into_steps()
    }

    /// The step is the release of a job too many.
    fn is_too_many(&self, event: &Event) -> bool
        ensures { result ≡ account.is_too_many self.now.schedule event.now }
    {
        match event {
            Event::Release { .. } => self.book.count() >= Version::Two.most_jobs() as usize,
            _ => false,
        }
    }

    /// The next step, which is counted.
    fn step(&mut self, event: &Event) -> Result<(), Memory>
        ensures { OnOk result (self.new ≡ account.read_step self.old event.now) }
    {
        if self.is_too_many(event) {
            self.standing = Standing::TooMany;
            return Ok(());
        }
        match self.book.cause(event) {
            Some(cause) => {
                self.standing = Standing::Wrong(cause);
                Ok(())
            }
            None => {
                self.book.keep(event)?;
                self.standing = standing_after(event);
                Ok(())
            }
        }
    }

    /// The first line, which is counted.
    fn header(&mut self, line: &[u8])
        ensures { self.new ≡ account.read_header self.old line.now }
    {
        if line != b"schedule".as_slice() {
            self.standing = Standing::Wrong(Cause::Header);
        }
    }

    /// A line behind the first, which is counted.
    fn step_line(&mut self, line: &[u8]) -> Result<(), Memory>
        ensures { OnOk result (self.new ≡ account.read_step_line self.old line.now) }
    {
        match step_in(line) {
            Some(event) => self.step(&event),
            None => {
                self.standing = Standing::Wrong(Cause::Line);
                Ok(())
            }
        }
    }

    /// A line, which is counted.
    fn read_line(&mut self, line: &[u8]) -> Result<(), Memory>
        ensures { OnOk result (self.new ≡ account.read_line self.old line.now) }
    {
        if self.lines == 1 {
            self.header(line);
            return Ok(());
        }
        self.step_line(line)
    }

    /// Takes the next line of a text that goes on. Memory is taken for a job and a step alone, and want of it is the
    /// only error.
    pub(crate) fn take_line(&mut self, line: &[u8]) -> Result<(), Memory>
        requires { account.is_open self.old ≡ true }
        ensures { OnOk result (self.new ≡ account.next_line self.old line.now) }
    {
        if self.lines >= MOST_LINES {
            self.standing = Standing::TooMany;
            return Ok(());
        }
        self.lines += 1;
        self.read_line(line)
    }
}
