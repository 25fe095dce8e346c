//! The signs of a job in a picture of its run.
ghost use Rattle.std.specs.Prelude.{◌≡◌, ◌++◌, nat_lt, OnOk};
ghost use Rattle.std.specs.List.{list_any};
ghost use Rattle.run_reports.specs.views.Timeline as picture;

use crate::report::endings::Ending;
use crate::views::stays::Stay;
use crate::views::window::Window;
use dover_model::{Job, Memory};

/// Appends so many spaces.
pub fn put_blanks(text: &mut Vec<u8>, count: u64) -> Result<(), Memory>
    ensures { OnOk result (text.new.items ≡ text.old.items ++ picture.blanks count) }
{
    for _ in 0..count {
        text.push(b' ')?;
    }
    Ok(())
}

/// Appends a sign for each column from that of the job's release to that of the tick before its deadline, behind
/// blanks for the columns before these.
pub fn put_signs(
    text: &mut Vec<u8>,
    window: &Window,
    job: &Job,
    own: &[Stay],
    ending: Option<Ending>,
) -> Result<(), Memory>
    ensures { OnOk result (text.new.items
        ≡ text.old.items ++ picture.signs window.now job.now own.now ending) }
{
    let first = window.column_of(job.release());
    let last = window.column_of(job.deadline().min(window.until).saturating_sub(1));
    let drawn = drawn_ending(job, ending);
    put_blanks(text, first)?;
    for column in first..last + 1 {
        let from = window.first_tick(column);
        let until = window.end_tick(column);
        text.push(sign(from, until, own, drawn))?;
    }
    Ok(())
}

/// An end as the signs have it: a job that is abandoned at its deadline is abandoned in its last tick.
fn drawn_ending(job: &Job, ending: Option<Ending>) -> Option<Ending>
    ensures { result ≡ picture.drawn_ending job.now ending }
{
    match ending {
        Some(Ending::Abandoned(at)) => {
            let last = job.deadline().saturating_sub(1);
            Some(Ending::Abandoned(at.min(last)))
        }
        _ => ending,
    }
}

/// The first of the signs `X`, `!`, `#`, `-` and `.` that applies in the ticks from `from` on and before `until`.
fn sign(from: u128, until: u128, own: &[Stay], ending: Option<Ending>) -> u8
    ensures { result ≡ picture.sign from until own.now ending }
{
    if is_abandoned_in(from, until, ending) {
        return b'X';
    }
    if takes(from, until, own) {
        return b'!';
    }
    if runs(from, until, own, ending) {
        return b'#';
    }
    if is_begun_in(from, until, own, ending) {
        return b'-';
    }
    b'.'
}

/// Whether some stay begins with a take in these ticks.
fn takes(from: u128, until: u128, own: &[Stay]) -> bool
    ensures { result ≡ list_any (picture.takes_in from until) own.now }
{
    own.iter().any(|stay| takes_in(from, until, stay))
}

/// Whether some stay has one of these ticks.
fn runs(from: u128, until: u128, own: &[Stay], ending: Option<Ending>) -> bool
    ensures { result ≡ list_any (picture.runs_in from until ending) own.now }
{
    own.iter().any(|stay| runs_in(from, until, ending, stay))
}

/// Whether the job had the processor before the tick `until`, and isn't over by the tick `from`.
fn is_begun_in(from: u128, until: u128, own: &[Stay], ending: Option<Ending>) -> bool
    ensures { result ≡ picture.is_begun_in from until own.now ending }
{
    begins(until, own) && !is_over_by(from, ending)
}

/// Whether some stay begins before this tick.
fn begins(until: u128, own: &[Stay]) -> bool
    ensures { result ≡ list_any (λ stay. nat_lt stay.from until) own.now }
{
    own.iter().any(|stay| u128::from(stay.from) < until)
}

/// Whether the job is abandoned in these ticks.
fn is_abandoned_in(from: u128, until: u128, ending: Option<Ending>) -> bool
    ensures { result ≡ picture.is_abandoned_in from until ending }
{
    match ending {
        Some(Ending::Abandoned(at)) => from <= u128::from(at) && u128::from(at) < until,
        _ => false,
    }
}

/// Whether the job takes the processor in these ticks.
fn takes_in(from: u128, until: u128, stay: &Stay) -> bool
    ensures { result ≡ picture.takes_in from until stay.now }
{
    stay.took && from <= u128::from(stay.from) && u128::from(stay.from) < until
}

/// Whether the job runs in one of these ticks.
fn runs_in(from: u128, until: u128, ending: Option<Ending>, stay: &Stay) -> bool
    ensures { result ≡ picture.runs_in from until ending stay.now }
{
    let end = stay_end(ending, stay);
    stay.from < end && u128::from(stay.from) < until && from < u128::from(end)
}

/// The tick behind a stay's last one, where the job may be abandoned in it.
fn stay_end(ending: Option<Ending>, stay: &Stay) -> u64
    ensures { result ≡ picture.stay_end ending stay.now }
{
    match ending {
        Some(Ending::Abandoned(at)) => stay.until.min(at),
        _ => stay.until,
    }
}

/// Whether the job is completed or abandoned by this tick.
fn is_over_by(tick: u128, ending: Option<Ending>) -> bool
    ensures { result ≡ picture.is_over_by tick ending }
{
    match ending {
        None => false,
        Some(Ending::Completed(at)) => u128::from(at) <= tick,
        Some(Ending::Abandoned(at)) => u128::from(at) <= tick,
    }
}
