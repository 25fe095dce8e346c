//! The snapshot of a feed that is paused, line by line.
ghost use Rattle.std.specs.Prelude.{◌≡◌, ◌||◌, List, ℕ, nat_le};
ghost use Rattle.dover_model.specs.Lines.{in_lines};
ghost use Rattle.snapshot.specs.Snapshot.{snapshot};
ghost use Rattle.snapshot.specs.Pausing.{IsTakenTo, Writes};

use crate::writing::{done, head, last, state};
use dover_model::{Ratio, Version};
use line_text::BackLine;
use ready_server::{ListedFinish, ReadyServer, Roster};
use std::marker::Model;

/// A paused feed, seen as the lines of its snapshot that are still to write.
#[derive(Drop)]
pub struct Paused {
    roster: Roster,
    version: Version,
    ratio: Ratio,
    lines: u64,
    mark: u64,
    begun: bool,
    finish: usize,
    job: usize,
    over: bool,
}

impl Model for Paused {
    ghost use Rattle.std.specs.Prelude.{◌≤◌, ℕ, List, length};
    ghost use Rattle.dover_model.specs.declared.events.Version.TheVariants.{Three};
    ghost use Rattle.dover_model.specs.Limits.{most_jobs, most_lines, last_tick};
    ghost use Rattle.dover_model.specs.Feed.{rules_with};
    ghost use Rattle.snapshot.specs.Pausing.{lines_left};

    ghost Value = { List (List ℕ) };

    ghost view = { λ p. lines_left p.begun p.over p.roster.roll (rules_with p.ratio p.version) p.lines p.mark p.job
        p.finish };

    ghost invariant = { λ p. (p.lines ≤ most_lines Three) × (p.mark ≤ last_tick)
        × (length p.roster.roll.jobs ≤ most_jobs Three) × (length p.roster.roll.finishes ≤ most_jobs Three) };
}

/// Whether an early finish stands before the line of the job of this number, or there are no more than so many jobs.
fn is_next(finish: &ListedFinish, job: usize, jobs: usize) -> bool
    ensures { result ≡ (nat_le finish.now.behind job || nat_le jobs job) }
{
    finish.behind <= job || jobs <= job
}

impl Paused {
    /// Pauses a feed of so many lines at its mark, up to which its server was taken, with the roster of its jobs.
    pub fn new(server: &ReadyServer, roster: Roster, lines: u64, mark: u64) -> Paused
        requires { (F : List ℕ) × IsTakenTo server.now roster lines mark F }
        ensures { (F : List ℕ) → IsTakenTo server.now roster lines mark F → in_lines result ≡ snapshot F }
    {
        Paused {
            version: server.version(),
            ratio: server.ratio(),
            roster,
            lines,
            mark,
            begun: false,
            finish: 0,
            job: 0,
            over: false,
        }
    }

    /// Writes the next line with its line feed, in place of what the buffer had. False where all were written.
    pub fn next_line(&mut self, to: &mut BackLine) -> bool
        ensures { Writes self.old self.new to.new result }
    {
        if self.over {
            return false;
        }
        if !self.begun {
            self.begun = true;
            let jobs = self.roster.count() as u64;
            head(self.version, self.ratio, self.lines, self.mark, jobs, to);
            return true;
        }
        if let Some(finish) = self.roster.finish(self.finish) {
            if is_next(&finish, self.job, self.roster.count()) {
                self.finish += 1;
                done(finish.at, u64::from(finish.number), to);
                return true;
            }
        }
        match self.roster.job(self.job, self.mark) {
            Some(job) => {
                self.job += 1;
                state(&job, to);
            }
            None => {
                self.over = true;
                last(to);
            }
        }
        true
    }
}
