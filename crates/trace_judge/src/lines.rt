//! The lines of a trace, by their forms.
ghost use Rattle.std.specs.Prelude.{◌≡◌, ◌≤◌, ◌+◌, ℕ, IfOk, IsOk};

use crate::reader::TraceReader;
use crate::stage::TraceStage;
use comparison_count::Comparisons;
use dover_model::{Event, Memory};
use line_text::traces::{TRACE, TraceLine, read_trace_line};
use std::sync::ledger::Ledger;

impl TraceReader {
    ghost use Rattle.dover_model.specs.Text.{text_of};
    ghost use Rattle.line_text.specs.declared.traces.lines.TraceLine.TheVariants.{Step};
    ghost use Rattle.line_text.specs.traces.Form.{HasForm, trace_text};
    ghost use Rattle.trace_judge.specs.declared.stage.TraceStage.TheVariants.{Opening, Going};
    ghost use Rattle.trace_judge.specs.Reads.{Took, IsUnchangedFor, IsPaid, releases_in, jobs_in, job_lines_in};

    // The first line: a header.
    fn take_first(&mut self, read: &TraceLine) -> bool
        requires opening { self.old.stage ≡ Opening }
        requires form { HasForm read.now }
        ensures took { Took self.old self.new (trace_text read.now) result }
        ensures kept { IsUnchangedFor self.old self.new }
        ensures paid { (start now : ℕ) → IsPaid self.old start now → IsPaid self.new start now }
    {
        match read {
            TraceLine::Header {
                version,
                p,
                q,
                factor,
            } => self.open_with(*version, *p, *q, *factor),
            TraceLine::Step(_) => false,
            TraceLine::Refused { .. } => false,
            TraceLine::RefusedDone { .. } => false,
        }
    }

    // A line of a step.
    #[inline(always)]
    fn take_step<L: Ledger>(
        &mut self,
        event: &Event,
        comparisons: &mut Comparisons<L>,
    ) -> Result<bool, Memory>
        requires going { self.old.stage ≡ Going }
        requires form { HasForm (Step event.now) }
        ensures took { IfOk result (Took self.old self.new (text_of event.now)) }
        ensures room { releases_in event.now ≤ self.old.spare → IsOk result }
        ensures spare { self.old.spare ≤ self.new.spare + releases_in event.now }
        ensures keep { self.new.keep ≡ self.old.keep }
        ensures jobs { self.new.course.jobs ≤ self.old.course.jobs + releases_in event.now }
        ensures paid { (start : ℕ) → IsPaid self.old start comparisons.old →
            IsPaid self.new start comparisons.new }
    {
        match event {
            Event::Release { number, job } => self.take_release(*number, *job, comparisons),
            Event::Complete { at, number } => Ok(self.complete(*at, *number, comparisons)),
            _ => Ok(self.follow(event, comparisons)),
        }
    }

    // A line behind the header.
    fn take_next<L: Ledger>(
        &mut self,
        read: &TraceLine,
        comparisons: &mut Comparisons<L>,
    ) -> Result<bool, Memory>
        requires going { self.old.stage ≡ Going }
        requires form { HasForm read.now }
        ensures took { IfOk result (Took self.old self.new (trace_text read.now)) }
        ensures room { jobs_in read.now ≤ self.old.spare → IsOk result }
        ensures spare { self.old.spare ≤ self.new.spare + jobs_in read.now }
        ensures keep { self.new.keep ≡ self.old.keep }
        ensures jobs { self.new.course.jobs ≤ self.old.course.jobs + jobs_in read.now }
        ensures paid { (start : ℕ) → IsPaid self.old start comparisons.old →
            IsPaid self.new start comparisons.new }
    {
        match read {
            TraceLine::Header { .. } => Ok(false),
            TraceLine::Step(event) => self.take_step(event, comparisons),
            TraceLine::Refused {
                at,
                release,
                work,
                deadline,
                value,
                cause,
            } => { Ok(self.refuse(*at, *release, *work, *deadline, *value, *cause, comparisons)) }
            TraceLine::RefusedDone { at, tick, number } => {
                Ok(self.refuse_done(*at, *tick, *number, comparisons))
            }
        }
    }

    // A line that was read.
    fn take_read<L: Ledger>(
        &mut self,
        read: &TraceLine,
        comparisons: &mut Comparisons<L>,
    ) -> Result<bool, Memory>
        requires { HasForm read.now }
        ensures took { IfOk result (Took self.old self.new (trace_text read.now)) }
        ensures room { jobs_in read.now ≤ self.old.spare → IsOk result }
        ensures spare { self.old.spare ≤ self.new.spare + jobs_in read.now }
        ensures keep { self.new.keep ≡ self.old.keep }
        ensures jobs { self.new.course.jobs ≤ self.old.course.jobs + jobs_in read.now }
        ensures paid { (start : ℕ) → IsPaid self.old start comparisons.old →
            IsPaid self.new start comparisons.new }
    {
        match self.stage() {
            TraceStage::Opening => Ok(self.take_first(read)),
            TraceStage::Going => self.take_next(read, comparisons),
            TraceStage::Ended => Ok(false),
        }
    }

    /// The next line. Where it doesn't go on as a trace does, `due` gives what is due in its place, and further lines
    /// aren't to be taken.
    ///
    /// # Errors
    ///
    /// `Memory` where there is none for the line's job or step.
    pub fn take<L: Ledger>(
        &mut self,
        line: &[u8],
        comparisons: &mut Comparisons<L>,
    ) -> Result<bool, Memory>
        ensures took { IfOk result (Took self.old self.new line.now) }
        ensures room { job_lines_in line.now ≤ self.old.spare → IsOk result }
        ensures spare { self.old.spare ≤ self.new.spare + job_lines_in line.now }
        ensures keep { self.new.keep ≡ self.old.keep }
        ensures jobs { self.new.course.jobs ≤ self.old.course.jobs + job_lines_in line.now }
        ensures paid { (start : ℕ) → IsPaid self.old start comparisons.old →
            IsPaid self.new start comparisons.new }
    {
        match read_trace_line::<TRACE>(line) {
            Ok(read) => self.take_read(&read, comparisons),
            Err(_) => Ok(false),
        }
    }
}
