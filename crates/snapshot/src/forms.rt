//! The lines of a snapshot, as they are read.
ghost use Rattle.std.specs.Prelude.{◌≡◌, ◌∷◌, ◌++◌, ◌<◌, ℕ, List, Some, IfSome, IfNone, option_map};
ghost use Rattle.std.specs.Option.{option_and_then};
ghost use Rattle.dover_model.specs.declared.events.Role.{Role};
ghost use Rattle.dover_model.specs.Common.{rules_with, fields_of, numerals, HasNumerals, DoneLine};
ghost use Rattle.snapshot.specs.Reading as model;
ghost use Rattle.snapshot.specs.Snapshot.{role_word, done_line};
ghost use Rattle.snapshot.specs.Forms.{head_in, task_in, behind_number, behind_word};

use dover_model::{Ratio, Role, Version};
use event_feed::declared_with_factor;
use line_text::feeds::{FeedLine, read_feed_line};
use line_text::{LINE_BYTES, behind_word, first_number, numbers_in};

/// The first line: the rules are within their limits, and the other numbers are below 10^18.
#[derive(Clone, Copy)]
pub(crate) struct Head {
    pub(crate) version: Version,
    pub(crate) ratio: Ratio,
    pub(crate) lines: u64,
    pub(crate) mark: u64,
    pub(crate) jobs: u64,
}

/// The line of a job. Its numbers are below 10^18, and may be out of the limits of a job.
#[derive(Clone, Copy)]
pub(crate) struct StateLine {
    pub(crate) number: u64,
    pub(crate) role: Role,
    pub(crate) had: u64,
    pub(crate) release: u64,
    pub(crate) work: u64,
    pub(crate) deadline: u64,
    pub(crate) value: u64,
}

/// Mark and counts are within the limits, and there are lines for the ratio and for each job.
pub(crate) fn is_within_limits(head: &Head) -> bool
    ensures { result ≡ model.is_within_limits (head_in head.now) }
{
    head.mark <= head.version.last_tick()
        && head.jobs <= u64::from(Version::Two.most_jobs())
        && head.jobs + 1 <= head.lines
        && head.lines <= head.version.most_lines()
}

/// The ratio and the version of these numbers.
fn declared(version: u64, p: u64, q: u64) -> Option<(Ratio, Version)>
    ensures { option_map (λ declared. rules_with declared.0 declared.1) result ≡ model.rules_from version p q }
{
    let version = Version::from_number(version)?;
    let ratio = Ratio::from_numbers(p, q)?;
    Some((ratio, version))
}

/// The first line of what is declared, if anything is, and of the other numbers.
fn head_with(rules: Option<(Ratio, Version)>, lines: u64, mark: u64, jobs: u64) -> Option<Head>
    ensures { option_map head_in result
        ≡ model.head_with lines mark jobs (option_map (λ declared. rules_with declared.0 declared.1) rules) }
{
    let (ratio, version) = rules?;
    Some(Head {
        version,
        ratio,
        lines,
        mark,
        jobs,
    })
}

/// The first line of its numbers, with those of a factor or without.
fn head_of(numbers: &[u64]) -> Option<Head>
    ensures { option_map head_in result ≡ model.head_from numbers.now }
{
    match numbers {
        [version, p, q, lines, mark, jobs] => {
            head_with(declared(*version, *p, *q), *lines, *mark, *jobs)
        }
        [version, p, q, lines, mark, jobs, b, c] => {
            let rules = declared_with_factor(*p, *q, *version, *b, *c);
            head_with(rules, *lines, *mark, *jobs)
        }
        _ => None,
    }
}

/// The first line, of the fields behind its word.
#[tactic(auto, using(crate::proofs::Formed::no_head_of))]
fn head_left(fields: &[u8]) -> Option<Head>
    ensures { option_map head_in result ≡ option_and_then model.head_from (numerals (fields_of fields.now)) }
{
    if let Some(numbers) = numbers_in::<6>(fields) {
        return head_of(&numbers);
    }
    let numbers = numbers_in::<8>(fields)?;
    head_of(&numbers)
}

/// Reads the first line, without its line feed. None where it has another form, or its rules are out of the limits.
pub(crate) fn read_head(line: &[u8]) -> Option<Head>
    ensures { option_map head_in result ≡ model.read_head line.now }
{
    if line.len() >= LINE_BYTES {
        return None;
    }
    match behind_word(line, b"snapshot") {
        Some(fields) => head_left(fields),
        None => None,
    }
}

/// The role whose word and a space a line begins with, and what is left behind them. Most jobs are done, or gone.
#[inline(always)]
fn role_in_front(line: &[u8]) -> Option<(Role, &[u8])>
    ensures some { IfSome result (λ r. line.now ≡ role_word r.0 ++ 32 ∷ r.1.now) }
    ensures stored { IfSome result (λ r. model.role_of_word (role_word r.0) ≡ Some r.0) }
    ensures none { IfNone result ((role : Role) → model.role_of_word (role_word role) ≡ Some role → (rest : List ℕ)
        → line.now ≡ role_word role ++ 32 ∷ rest → ⊥) }
{
    if let Some(rest) = behind_word(line, b"done") {
        return Some((Role::Done, rest));
    }
    if let Some(rest) = behind_word(line, b"gone") {
        return Some((Role::Gone, rest));
    }
    if let Some(rest) = behind_word(line, b"waiting") {
        return Some((Role::Waiting, rest));
    }
    if let Some(rest) = behind_word(line, b"held") {
        return Some((Role::Held, rest));
    }
    if let Some(rest) = behind_word(line, b"running") {
        return Some((Role::Running, rest));
    }
    None
}

/// The line of a job in this role, of its number and five more numbers.
fn state_of(number: u64, role: Role, numbers: &[u64]) -> Option<StateLine>
    ensures { option_map task_in result ≡ model.task_from role (number ∷ numbers.now) }
{
    match numbers {
        [had, release, work, deadline, value] => Some(StateLine {
            number,
            role,
            had: *had,
            release: *release,
            work: *work,
            deadline: *deadline,
            value: *value,
        }),
        _ => None,
    }
}

/// The line of the job of this number in this role, of the fields behind the role.
#[inline(always)]
fn state_in_role(number: u64, role: Role, fields: &[u8]) -> Option<StateLine>
    ensures { option_map task_in result
        ≡ option_and_then (λ ns. model.task_from role (number ∷ ns)) (numerals (fields_of fields.now)) }
{
    let Some(numbers) = numbers_in::<5>(fields) else {
        return None;
    };
    state_of(number, role, &numbers)
}

/// The line of the job of this number, of the fields behind the number.
#[inline(always)]
fn state_behind(number: u64, fields: &[u8]) -> Option<StateLine>
    ensures { option_map task_in result ≡ behind_number number (fields_of fields.now) }
{
    match role_in_front(fields) {
        Some((role, rest)) => state_in_role(number, role, rest),
        None => None,
    }
}

/// The line of a job, of the fields behind its first word.
#[inline(always)]
fn state_left(fields: &[u8]) -> Option<StateLine>
    ensures { option_map task_in result ≡ behind_word (fields_of fields.now) }
{
    let (number, rest) = first_number(fields)?;
    state_behind(number, rest?)
}

/// Reads the line of a job, without its line feed. None where it has another form.
pub(crate) fn read_state(line: &[u8]) -> Option<StateLine>
    ensures { option_map task_in result ≡ model.read_task line.now }
{
    if line.len() >= LINE_BYTES {
        return None;
    }
    match behind_word(line, b"state") {
        Some(fields) => state_left(fields),
        None => None,
    }
}

/// Reads the line of an early finish, without its line feed: its tick, and the job's number. None where it has another
/// form.
pub(crate) fn read_done(line: &[u8]) -> Option<(u64, u64)>
    ensures is { result ≡ model.read_done line.now }
    ensures short { IfSome result (λ r. HasNumerals (DoneLine r.0 r.1)) }
    ensures text { IfSome result (λ r. done_line r.0 r.1 ≡ line.now) }
{
    match read_feed_line(line) {
        Ok(FeedLine::Done { at, number }) => Some((at, number)),
        _ => None,
    }
}
