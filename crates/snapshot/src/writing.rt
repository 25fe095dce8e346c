//! The lines of a snapshot, as they are written.
ghost use Rattle.std.specs.Prelude.{◌≡◌, ◌≤◌, ◌++◌, ◌∷◌, [], length, codes};
ghost use Rattle.dover_model.specs.Common.{with_numbers, last_tick, most_jobs, most_lines, rules_with, factor_numbers};
ghost use Rattle.dover_model.specs.declared.events.Version.TheVariants.{Three};
ghost use Rattle.line_text.specs.Writing.{numbers_behind};
ghost use Rattle.snapshot.specs.Snapshot as model;

use dover_model::{Ratio, Role, Task, Version};
use line_text::BackLine;

/// Writes the numbers of the first line behind the ratio, the last of them those of a factor where there is one.
fn put_counts(k: Ratio, lines: u64, mark: u64, jobs: u64, to: &mut BackLine)
    requires lines { lines ≤ most_lines Three }
    requires mark { mark ≤ last_tick }
    requires jobs { jobs ≤ most_jobs Three }
    requires empty { to.old ≡ 10 ∷ [] }
    ensures text { to.new ≡ numbers_behind (lines ∷ mark ∷ jobs ∷ factor_numbers k.factor) ++ 10 ∷ [] }
    ensures fits { length to.new ≤ 61 }
{
    match k.factor() {
        None => to.put_numbers(&[lines, mark, jobs]),
        Some(factor) => {
            let (b, c) = (u64::from(factor.b), u64::from(factor.c));
            to.put_numbers(&[lines, mark, jobs, b, c]);
        }
    }
}

/// Writes the first line with its line feed, for a feed of so many lines, at this mark and with so many jobs.
pub(crate) fn head(version: Version, k: Ratio, lines: u64, mark: u64, jobs: u64, to: &mut BackLine)
    requires lines { lines ≤ most_lines Three }
    requires mark { mark ≤ last_tick }
    requires jobs { jobs ≤ most_jobs Three }
    ensures { to.new
        ≡ model.head_line (record { rules = rules_with k version; lines = lines; mark = mark; jobs = jobs })
        ++ 10 ∷ [] }
{
    to.clear();
    put_counts(k, lines, mark, jobs, to);
    let (p, q) = (u64::from(k.p()), u64::from(k.q()));
    to.put_with_numbers(b"snapshot", &[version.number(), p, q]);
}

fn role_word(role: Role) -> &'static [u8]
    ensures { result.now ≡ model.role_word role }
{
    match role {
        Role::Coming => b"coming",
        Role::Fresh => b"fresh",
        Role::Waiting => b"waiting",
        Role::Held => b"held",
        Role::Running => b"running",
        Role::Done => b"done",
        Role::Gone => b"gone",
    }
}

/// Writes the first fields of the line of the job of this number, in front of the others.
fn first_fields(number: u32, to: &mut BackLine)
    requires { length to.old ≤ 105 }
    ensures { to.new ≡ with_numbers (codes "state") (number ∷ []) ++ to.old }
{
    to.put_with_numbers(b"state", &[u64::from(number)]);
}

/// Writes the line of a job with its line feed.
pub(crate) fn state(task: &Task, to: &mut BackLine)
    requires { task.now.had ≤ task.now.job.work }
    ensures { to.new ≡ model.state_line task.now ++ 10 ∷ [] }
{
    to.clear();
    to.put_numbers(&[
        task.had,
        task.job.release(),
        task.job.work(),
        task.job.deadline(),
        task.job.value(),
    ]);
    to.put_word(role_word(task.role));
    to.put_word(b" ");
    first_fields(task.number, to);
}

/// Writes the line of an early finish with its line feed.
pub(crate) fn done(at: u64, number: u64, to: &mut BackLine)
    ensures { to.new ≡ model.done_line at number ++ 10 ∷ [] }
{
    to.clear();
    to.put_with_wide(b"done", &[at, number]);
}

/// Writes the last line with its line feed.
pub(crate) fn last(to: &mut BackLine)
    ensures { to.new ≡ codes "resume" ++ 10 ∷ [] }
{
    to.clear();
    to.put_word(b"resume");
}
