//! What is put of a schedule, or of a text that is none.
ghost use Rattle.std.specs.Prelude.{◌≡◌, ◌≢◌, ◌≤◌, ◌<◌, [], length};
ghost use Rattle.dover_port.specs.Causes.{HasCause, StopsAtFailure};
ghost use Rattle.dover_port.specs.Moves.{PutsThrough};
ghost use Rattle.dialogue.specs.Turns.{StopCause, StopsOn};
ghost use Rattle.run_reports.specs.report.Rows.{schedule_table};
ghost use Rattle.schedule_judge.specs.declared.intake.Standing.TheVariants as stood;
ghost use Rattle.trace_words.specs.report.Talking.{Puts};
ghost use Rattle.trace_words.specs.schedule.Talk as talk;

use crate::report::{put_lines, put_whole};
use crate::schedule::ScheduleForm;
use dialogue::Stop;
use dialogue::lines::put_numbers;
use dover_model::{Memory, PackedEvent};
use dover_port::{Failed, Output, Port, Status};
use line_text::BackLine;
use run_picture::schedule_picture;
use run_reports::report::TableRows;
use run_reports::views::schedule_timeline;
use schedule_judge::{Cause, Standing};
use std::alloc::Global;

/// The word for why a line is wrong.
fn cause_word(cause: Cause) -> &'static [u8]
    ensures is { result.now ≡ talk.cause_word cause }
    ensures short { length result.now ≤ 8 }
{
    match cause {
        Cause::Header => b"header",
        Cause::Line => b"line",
        Cause::Order => b"order",
        Cause::Late => b"late",
        Cause::Work => b"work",
        Cause::Number => b"number",
        Cause::Job => b"job",
        Cause::Busy => b"busy",
        Cause::Turn => b"turn",
        Cause::Early => b"early",
        Cause::Open => b"open",
        Cause::Value => b"value",
    }
}

/// The line of a wrong text: its first wrong line, and the cause.
fn wrong_line(number: u64, cause: Cause) -> BackLine
    ensures { result ≡ talk.wrong_text number cause }
{
    let mut line = BackLine::new();
    line.put_word(cause_word(cause));
    line.put_word(b" ");
    line.put_with_wide(b"wrong", &[number]);
    line
}

/// The status of a text that stands so.
pub(crate) fn status_of(standing: Standing) -> Status
    ensures { result ≡ talk.status_of standing }
{
    match standing {
        Standing::Open => Status::No,
        Standing::Ended => Status::Done,
        Standing::Wrong(_) => Status::No,
        Standing::TooMany => Status::Refused,
    }
}

/// Puts what is said of a text of so many lines that isn't a legal schedule, or keeps it back in `out`.
pub(crate) fn put_stopped<P: Port>(
    port: &mut P,
    out: &mut Output,
    lines: u64,
    standing: Standing,
) -> Result<(), Failed>
    requires { standing ≢ stood.Ended }
    ensures text { PutsThrough (P.moves port.old) (P.moves port.new) result out.old out.new
        (talk.stopped_text lines standing) }
    ensures cause { HasCause (P.write_faults port.old) (P.write_faults port.new) (P.read_faults port.old)
        (P.read_faults port.new) result }
    ensures stops { StopsAtFailure (P.calls port.old) (P.calls port.new) result }
{
    match standing {
        Standing::Open => put_numbers(port, out, b"short", &[lines]),
        Standing::Wrong(cause) => out.put(port, wrong_line(lines, cause).bytes()),
        Standing::TooMany => out.put(port, b"refused size\n"),
        Standing::Ended => unreachable!(),
    }
}

/// Puts the table of a schedule with these steps, row by row, once all memory for it is taken.
fn put_table<P: Port>(
    alloc: Global,
    port: &mut P,
    out: &mut Output,
    steps: Vec<PackedEvent>,
) -> Result<(), Stop>
    requires empty { out.old ≡ [] }
    requires few { length steps.items ≤ 5_000_001 }
    ensures puts { Puts result (P.moves port.old) (P.moves port.new) out.new
        (λ said. said ≡ schedule_table steps.items) }
    ensures cause { StopCause result
        (P.write_faults port.old) (P.write_faults port.new) (P.read_faults port.old) (P.read_faults port.new) }
    ensures stops { StopsOn result (P.calls port.old) (P.calls port.new) }
{
    let Ok(mut rows) = TableRows::of_schedule(alloc, steps) else {
        return Err(Stop::NoMemory);
    };
    match put_lines(port, out, &mut rows) {
        Ok(()) => Ok(()),
        Err(_) => Err(Stop::Unwritten),
    }
}

/// Puts the report on a schedule with these steps, or keeps an end of it back in `out`. Before its first byte all
/// memory for it is taken.
pub(crate) fn put_schedule<P: Port>(
    alloc: Global,
    port: &mut P,
    out: &mut Output,
    form: ScheduleForm,
    steps: Vec<PackedEvent>,
) -> Result<(), Stop>
    requires empty { out.old ≡ [] }
    requires few { length steps.items ≤ 5_000_001 }
    ensures puts { Puts result (P.moves port.old) (P.moves port.new) out.new (talk.IsDrawn form steps.items) }
    ensures cause { StopCause result
        (P.write_faults port.old) (P.write_faults port.new) (P.read_faults port.old) (P.read_faults port.new) }
    ensures stops { StopsOn result (P.calls port.old) (P.calls port.new) }
{
    match form {
        ScheduleForm::Table => put_table(alloc, port, out, steps),
        ScheduleForm::Timeline(window) => {
            put_whole(port, schedule_timeline(alloc, &steps, window))
        }
        ScheduleForm::Svg(window) => put_whole(port, schedule_picture(alloc, &steps, window)),
    }
}
