//! The lines that are due for feeds, each as it is put.
ghost use Rattle.std.specs.Prelude.{◌≡◌, ◌≤◌, ◌++◌, ◌∷◌, [], length, map, decimal, codes, IsTrue};
ghost use Rattle.dover_model.specs.Common.{AreShort, header, refused_text, refusal_word as refusal_text, line_of};
ghost use Rattle.dover_model.specs.Common.{with_numbers, job_numbers};
ghost use Rattle.event_feed.specs.DueLines.{out_text, HasNumerals};
ghost use Rattle.line_text.specs.traces.Form.{refused_job, refused_done};

use crate::lines::faults::write_fault;
use dover_model::{Event, Factor, Job, Ratio, Refusal, Version};
use event_feed::DueLine;
use line_text::traces::{refusal_word, write_event};
use line_text::{BackLine, Spelled};

/// Writes the first line of a trace with no factor.
fn plain_header(number: u64, k: Ratio, line: &mut BackLine)
    requires small { number ≤ 4 }
    requires empty { line.old ≡ 10 ∷ [] }
    ensures text { line.new ≡ with_numbers (codes "dover") (number ∷ k.p ∷ k.q ∷ []) ++ 10 ∷ [] }
    ensures fits { length line.new ≤ 63 }
{
    line.put_with_numbers(b"dover", &[number, u64::from(k.p()), u64::from(k.q())]);
}

/// Writes the first line of a trace with a factor.
fn factor_header(number: u64, k: Ratio, factor: Factor, line: &mut BackLine)
    requires small { number ≤ 4 }
    requires empty { line.old ≡ 10 ∷ [] }
    ensures text { line.new
        ≡ with_numbers (codes "dover") (number ∷ k.p ∷ k.q ∷ factor.b ∷ factor.c ∷ []) ++ 10 ∷ [] }
    ensures fits { length line.new ≤ 101 }
{
    let (b, c) = (u64::from(factor.b), u64::from(factor.c));
    line.put_with_numbers(
        b"dover",
        &[number, u64::from(k.p()), u64::from(k.q()), b, c],
    );
}

/// Writes the first line of a trace before its line feed.
#[inline(never)]
fn header_line(version: Version, k: Ratio, line: &mut BackLine)
    requires { line.old ≡ 10 ∷ [] }
    ensures text { line.new ≡ header (record { ratio = k; version = version }) ++ 10 ∷ [] }
    ensures fits { length line.new ≤ 101 }
{
    let number = version.number();
    match k.factor() {
        None => plain_header(number, k, line),
        Some(factor) => factor_header(number, k, factor, line),
    }
}

/// Writes the line of a refused job line before its line feed.
#[inline(never)]
fn refuse_line(
    at: u64,
    release: u64,
    work: u64,
    deadline: u64,
    value: u64,
    cause: Refusal,
    line: &mut BackLine,
)
    requires short { AreShort (at ∷ release ∷ work ∷ deadline ∷ value ∷ []) }
    requires empty { line.old ≡ 10 ∷ [] }
    ensures text { line.new ≡ refused_text (refused_job at release work deadline value cause) ++ 10 ∷ [] }
    ensures fits { length line.new ≤ 108 }
{
    line.put_word(refusal_word(cause));
    line.put_word(b" ");
    line.put_numbers(&[work, deadline, value]);
    line.put_with_numbers(b"refuse", &[at, release]);
}

/// Writes the line of a refused done line before its line feed.
#[inline(never)]
fn refuse_done_line(at: u64, tick: u64, number: u64, line: &mut BackLine)
    requires short { AreShort (at ∷ tick ∷ number ∷ []) }
    requires empty { line.old ≡ 10 ∷ [] }
    ensures text { line.new ≡ refused_text (refused_done at tick number) ++ 10 ∷ [] }
    ensures fits { length line.new ≤ 108 }
{
    line.put_word(b" done");
    line.put_with_numbers(b"refuse", &[at, tick, number]);
}

/// Writes the line of a refused job line before its line feed, with the text of its numbers.
#[inline(never)]
fn refuse_spelled(at: u64, spelled: &Spelled, cause: Refusal, line: &mut BackLine)
    requires short { AreShort (at ∷ spelled.now) }
    requires empty { line.old ≡ 10 ∷ [] }
    ensures text { line.new ≡ line_of (codes "refuse" ∷ map decimal (at ∷ spelled.now) ++ refusal_text cause ∷ [])
        ++ 10 ∷ [] }
    ensures fits { length line.new ≤ 108 }
{
    line.put_word(refusal_word(cause));
    line.put_word(b" ");
    line.put_spelled(spelled);
    line.put_with_numbers(b"refuse", &[at]);
}

/// Writes the line of a release before its line feed, with the text of the job's numbers.
#[inline(always)]
fn release_spelled(number: u32, spelled: &Spelled, line: &mut BackLine)
    requires { line.old ≡ 10 ∷ [] }
    ensures text { line.new ≡ with_numbers (codes "job") (number ∷ spelled.now) ++ 10 ∷ [] }
    ensures fits { length line.new ≤ 108 }
{
    line.put_spelled(spelled);
    line.put_with_numbers(b"job", &[u64::from(number)]);
}

/// Whether these are the numbers of the job.
#[inline(always)]
fn has_numbers(spelled: &Spelled, job: &Job) -> bool
    ensures { IsTrue result → spelled.now ≡ job_numbers job.now }
{
    spelled.has(&[job.release(), job.work(), job.deadline(), job.value()])
}

/// Writes the line that is due, with its line feed, in place of what `line` had. It has at most 108 bytes.
#[inline(always)]
pub fn write_out(out: &DueLine, line: &mut BackLine)
    requires { HasNumerals out.now }
    ensures text { line.new ≡ out_text out.now ++ 10 ∷ [] }
    ensures fits { length line.new ≤ 108 }
{
    line.clear();
    match out {
        DueLine::Step(event) => write_event(event, line),
        DueLine::Header(version, k) => header_line(*version, *k, line),
        DueLine::Refuse {
            at,
            release,
            work,
            deadline,
            value,
            cause,
        } => refuse_line(*at, *release, *work, *deadline, *value, *cause, line),
        DueLine::RefuseDone { at, tick, number } => refuse_done_line(*at, *tick, *number, line),
        DueLine::Refused {
            line: number,
            cause,
        } => write_fault(*number, *cause, line),
    }
}

/// Writes the line that is due, as `write_out` does. Where it has the numbers of `spelled`, it takes their text.
#[inline(always)]
pub fn write_next(out: &DueLine, spelled: &Spelled, line: &mut BackLine)
    requires { HasNumerals out.now }
    ensures text { line.new ≡ out_text out.now ++ 10 ∷ [] }
    ensures fits { length line.new ≤ 108 }
{
    match out {
        DueLine::Step(Event::Release { number, job }) if has_numbers(spelled, job) => {
            line.clear();
            release_spelled(*number, spelled, line);
        }
        DueLine::Refuse {
            at,
            release,
            work,
            deadline,
            value,
            cause,
        } if spelled.has(&[*release, *work, *deadline, *value]) => {
            line.clear();
            refuse_spelled(*at, spelled, *cause, line);
        }
        _ => write_out(out, line),
    }
}
