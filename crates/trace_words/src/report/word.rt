//! The word as a whole.
ghost use Rattle.std.specs.Prelude.{◌≡◌, ◌≢◌, ◌↔◌, ◌++◌, List, [], IsTrue, true, IfOk, IsOk};
ghost use Rattle.run_record.specs.intervals.Rows.{IsRunOf};
ghost use Rattle.dover_model.specs.Common.{Fraction, Instance, IsListable, IsValid, in_lines, printed};
ghost use Rattle.dover_model.specs.Reports as model;
ghost use Rattle.dover_port.specs.Causes.{Causes, HasCause, StopsAtFailure, StopsWith};
ghost use Rattle.dover_port.specs.Moves.{PutsThrough, Since};
ghost use Rattle.dialogue.specs.Sizes.{size_text};
ghost use Rattle.dialogue.specs.Talk.{Talks, CanEnd};
ghost use Rattle.dialogue.specs.Turns.{StopCause, StopsOn};
ghost use Rattle.trace_words.specs.judge.Spending.{IsFrugal};
ghost use Rattle.trace_words.specs.judge.Talk.{IsTrace};
ghost use Rattle.trace_words.specs.report.Talk.{IsReport, report_talk, SaysReport};
ghost use Rattle.trace_words.specs.report.Talking.{Puts};
ghost use Rattle.trace_words.specs.declared.report.form.Form.TheVariants.{Text, Table};

use crate::judge::{Teller, judge_and_tell, put_verdict, status_of};
use crate::report::Form;
use comparison_count::Comparisons;
use dialogue::Stop;
use dover_model::{Memory, PackedEvent, Ratio, Version};
use dover_port::{Failed, Output, Port, Status, put_all};
use line_text::BackLine;
use run_picture::{chrome, picture};
use run_reports::report::{Findings, TableRows, is_listable};
use run_reports::views::{timeline, why};
use std::alloc::Global;
use std::sync::ledger::Ledger;
use trace_judge::{Closed, Verdict};

/// The report as a text on the run of this version that prints these steps, which are let go before it is written.
fn text_of(
    alloc: Global,
    version: Version,
    ratio: Ratio,
    steps: Vec<PackedEvent>,
) -> Result<Vec<u8>, Memory>
    requires { (J : Instance) × IsRunOf ratio steps.items J }
    ensures { (J : Instance) → IsRunOf ratio steps.items J → J.rules.version ≡ version → IfOk result
        (λ text. IsReport Text J text.items) }
{
    let found = Findings::of(alloc, version, ratio, &steps)?;
    drop(steps);
    let text = found.text(alloc)?;
    Ok(text)
}

/// Puts a text that stands in memory as a whole, if there was memory for it.
pub fn put_whole<P: Port>(port: &mut P, text: Result<Vec<u8>, Memory>) -> Result<(), Stop>
    ensures puts { Puts result (P.moves port.old) (P.moves port.new) []
        (λ said. IsOk text × IfOk text (λ bytes. said ≡ bytes.items)) }
    ensures cause { StopCause result
        (P.write_faults port.old) (P.write_faults port.new) (P.read_faults port.old) (P.read_faults port.new) }
    ensures stops { StopsOn result (P.calls port.old) (P.calls port.new) }
{
    let Ok(text) = text else {
        return Err(Stop::NoMemory);
    };
    match put_all(port, &text) {
        Ok(()) => Ok(()),
        Err(_) => Err(Stop::Unwritten),
    }
}

/// Puts each row that is left of a table, or keeps it back in `out`. An `Err`: a write failed, and a front of what was
/// kept back and of the rows was put, but not all of it.
fn put_rows<P: Port>(port: &mut P, out: &mut Output, rows: &mut TableRows) -> Result<(), Failed>
    ensures text { PutsThrough (P.moves port.old) (P.moves port.new) result out.old out.new (in_lines rows.old.rows) }
    ensures cause { HasCause (P.write_faults port.old) (P.write_faults port.new) (P.read_faults port.old)
        (P.read_faults port.new) result }
    ensures stops { StopsAtFailure (P.calls port.old) (P.calls port.new) result }
{
    let mut line = BackLine::new();
    while rows.next_row(&mut line) {
        match out.put(port, line.bytes()) {
            Ok(()) => {}
            Err(failed) => return Err(failed),
        }
    }
    Ok(())
}

/// Puts the names of a table, and each row that is left of it, as `put_rows` does.
pub(crate) fn put_lines<P: Port>(
    port: &mut P,
    out: &mut Output,
    rows: &mut TableRows,
) -> Result<(), Failed>
    ensures text { PutsThrough (P.moves port.old) (P.moves port.new) result out.old out.new
        (rows.old.names ++ in_lines rows.old.rows) }
    ensures cause { HasCause (P.write_faults port.old) (P.write_faults port.new) (P.read_faults port.old)
        (P.read_faults port.new) result }
    ensures stops { StopsAtFailure (P.calls port.old) (P.calls port.new) result }
{
    match out.put(port, rows.names()) {
        Ok(()) => {}
        Err(failed) => return Err(failed),
    }
    put_rows(port, out, rows)
}

/// Puts the table of the run of this version that prints these steps, row by row, once all memory for it is taken.
fn put_table<P: Port>(
    alloc: Global,
    port: &mut P,
    out: &mut Output,
    version: Version,
    steps: Vec<PackedEvent>,
) -> Result<(), Stop>
    requires empty { out.old ≡ [] }
    requires run { (k : Fraction) × ((J : Instance) × IsRunOf k steps.items J) }
    ensures puts { (k : Fraction) (J : Instance) → IsRunOf k steps.items J → J.rules.version ≡ version →
        Puts result (P.moves port.old) (P.moves port.new) out.new (λ said. said ≡ model.table J) }
    ensures cause { StopCause result
        (P.write_faults port.old) (P.write_faults port.new) (P.read_faults port.old) (P.read_faults port.new) }
    ensures stops { StopsOn result (P.calls port.old) (P.calls port.new) }
{
    let Ok(mut rows) = TableRows::of(alloc, version, steps) else {
        return Err(Stop::NoMemory);
    };
    match put_lines(port, out, &mut rows) {
        Ok(()) => Ok(()),
        Err(_) => Err(Stop::Unwritten),
    }
}

/// The report in a form that is neither the text nor the table, on the run of this version that prints these steps.
fn view_of(
    alloc: Global,
    form: Form,
    version: Version,
    ratio: Ratio,
    steps: &[PackedEvent],
    refused: u64,
) -> Result<Vec<u8>, Memory>
    requires run { (J : Instance) × IsRunOf ratio steps.now J }
    requires no_text { form ≢ Text }
    requires no_table { form ≢ Table }
    ensures { (J : Instance) → IsRunOf ratio steps.now J → J.rules.version ≡ version →
        IfOk result (λ text. IsReport form J text.items) }
{
    match form {
        Form::Chrome => chrome(alloc, ratio, steps),
        Form::Why(number) => why(alloc, version, ratio, steps, number),
        Form::Timeline(window) => timeline(alloc, ratio, steps, window),
        Form::Svg(window) => picture(alloc, ratio, steps, refused, window),
        Form::Text | Form::Table => unreachable!(),
    }
}

/// Puts the report on the run of this version that prints these steps, and on how many lines were refused, or keeps an
/// end of it back in `out`. Before its first byte all memory for it is taken.
fn put_report<P: Port>(
    alloc: Global,
    port: &mut P,
    out: &mut Output,
    form: Form,
    version: Version,
    ratio: Ratio,
    steps: Vec<PackedEvent>,
    refused: u64,
) -> Result<(), Stop>
    requires empty { out.old ≡ [] }
    requires run { (J : Instance) × IsRunOf ratio steps.items J }
    ensures puts { (J : Instance) → IsRunOf ratio steps.items J → J.rules.version ≡ version →
        Puts result (P.moves port.old) (P.moves port.new) out.new (IsReport form J) }
    ensures cause { StopCause result
        (P.write_faults port.old) (P.write_faults port.new) (P.read_faults port.old) (P.read_faults port.new) }
    ensures stops { StopsOn result (P.calls port.old) (P.calls port.new) }
{
    match form {
        Form::Text => put_whole(port, text_of(alloc, version, ratio, steps)),
        Form::Table => put_table(alloc, port, out, version, steps),
        _ => put_whole(port, view_of(alloc, form, version, ratio, &steps, refused)),
    }
}

/// Puts the line that refuses a trace whose jobs are beyond what a report keeps.
pub fn put_size<P: Port>(port: &mut P) -> Result<(), Stop>
    ensures puts { Puts result (P.moves port.old) (P.moves port.new) [] (λ said. said ≡ size_text) }
    ensures cause { StopCause result
        (P.write_faults port.old) (P.write_faults port.new) (P.read_faults port.old) (P.read_faults port.new) }
    ensures stops { StopsOn result (P.calls port.old) (P.calls port.new) }
{
    match put_all(port, b"refused size\n") {
        Ok(()) => Ok(()),
        Err(_) => Err(Stop::Unwritten),
    }
}

/// Whether the jobs of the run of this version that prints these steps are no more than a report keeps, and due early
/// enough. Before version Three all are.
pub fn is_small(version: Version, steps: &[PackedEvent]) -> bool
    ensures { (J : Instance) → IsValid J → printed J ≡ steps.now → J.rules.version ≡ version →
        IsTrue result ↔ IsListable J }
{
    if version.may_finish_early() {
        return is_listable(steps);
    }
    true
}

/// Tells the report where the text is accepted, or that its jobs are beyond what one keeps, and else the line of the
/// verdict.
#[derive(Drop)]
struct Reporting {
    alloc: Global,
    form: Form,
}

impl Teller for Reporting {
    ghost says = { λ r. SaysReport r.form };

    ghost lacks = { λ bytes ended. ended ≡ true → IsTrace bytes };

    ghost keeps = { true };

    fn laws() {}

    fn tell<P: Port>(self, port: &mut P, out: &mut Output, closed: Closed) -> Result<Status, Stop> {
        let Closed {
            verdict,
            steps,
            refused,
        } = closed;
        match verdict {
            Verdict::Accepted { ratio, version, .. } => {
                if is_small(version, &steps) {
                    let (alloc, form) = (self.alloc, self.form);
                    match put_report(alloc, port, out, form, version, ratio, steps, refused) {
                        Ok(()) => Ok(Status::Done),
                        Err(stop) => Err(stop),
                    }
                } else {
                    drop(steps);
                    match put_size(port) {
                        Ok(()) => Ok(Status::Refused),
                        Err(stop) => Err(stop),
                    }
                }
            }
            _ => {
                drop(steps);
                match put_verdict(port, out, &verdict) {
                    Ok(()) => Ok(status_of(&verdict)),
                    Err(_) => Err(Stop::Unwritten),
                }
            }
        }
    }
}

/// Reports on a trace: reads a text to its first wrong line or the end of the input, and then writes the report on
/// the run of an accepted trace, or else the line of the verdict. A trace whose jobs are beyond the limits of version
/// Two is refused. Memory is taken for the jobs and the steps that the text names, and for the report, all of it before
/// the first byte of the report is written.
pub fn report_word<P: Port, L: Ledger>(
    alloc: Global,
    port: &mut P,
    form: Form,
    comparisons: &mut Comparisons<L>,
) -> Status
    ensures talks { Since (P.moves port.old) (P.moves port.new) (Talks (report_talk form) result) }
    ensures count { Since (P.moves port.old) (P.moves port.new) (IsFrugal comparisons.old comparisons.new) }
    ensures ends { CanEnd (Talks (report_talk form)) result }
    ensures causes { Causes result
        (P.read_faults port.old) (P.read_faults port.new) (P.write_faults port.old) (P.write_faults port.new) }
    ensures stops { StopsWith result (P.calls port.old) (P.calls port.new) }
{
    judge_and_tell(alloc, port, Reporting { alloc, form }, true, comparisons)
}
