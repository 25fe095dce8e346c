//! The turns of a stated feed.
ghost use Rattle.std.specs.Prelude.{◌≡◌, ◌≤◌};
ghost use Rattle.dover_model.specs.Generator.{high_bits};
ghost use Rattle.stated_jobs.specs.trial.Turns.{done_of_draws, last_named};
ghost use Rattle.stated_jobs.specs.declared.trial.turns.Turn.{Turn};

use crate::trial::draws::{drawn, drawn_job};
use dover_model::{Job, Ratio};
use std::marker::Model;

/// What says a job done: the tick by which it is, and its number.
#[derive(Clone, Copy)]
pub struct Done {
    pub tick: u64,
    pub number: u64,
}

/// A job, and what is said behind it.
#[derive(Clone, Copy)]
pub struct Turn {
    pub job: Job,
    pub done: Option<Done>,
}

/// The turns of a stated feed that are still to come.
#[derive(Drop)]
pub struct TurnGen {
    k: Ratio,
    left: u32,
    /// How many jobs came before.
    number: u64,
    state: u64,
    /// The last tick that was named.
    last: u64,
}

impl Model for TurnGen {
    ghost use Rattle.std.specs.Prelude.{List, ◌<◌, ◌≤◌, ◌+◌, ◌*◌, ◌^◌};
    ghost use Rattle.stated_jobs.specs.trial.Turns.{drawn_turns_from};
    ghost use Rattle.stated_jobs.specs.declared.trial.turns.Turn.{Turn};

    ghost Value = { List Turn };

    ghost view = { λ g. drawn_turns_from g.k g.left g.number g.state g.last };

    ghost invariant = { λ g. (g.state < 2 ^ 31) × (g.last + 16 * g.left ≤ 16_000_000)
        × (g.number + g.left ≤ 1_000_000) };
}

/// What two draws say behind the job of this number, released at this tick.
fn drawn_done(number: u64, release: u64, tick: u64, back: u64) -> Option<Done>
    requires early { release ≤ 16_000_000 }
    ensures is { result ≡ done_of_draws number release (high_bits tick) (high_bits back) }
{
    if tick / 65_536 % 4 == 0 {
        return None;
    }
    Some(Done {
        tick: release + tick / 65_536 % 8,
        number: number.saturating_sub(back / 65_536 % 2),
    })
}

/// The last tick that is named in a turn.
fn last_named_in(turn: &Turn) -> u64
    ensures is { result ≡ last_named turn.now }
{
    match turn.done {
        Some(done) => done.tick,
        None => turn.job.release(),
    }
}

impl TurnGen {
    ghost use Rattle.std.specs.Prelude.{◌↔◌, ◌<◌, ◌^◌, ◌++◌, [], IsNone, option_to_list};
    ghost use Rattle.dover_model.specs.declared.events.Version.TheVariants.{Two};
    ghost use Rattle.dover_model.specs.Limits.{most_jobs};
    ghost use Rattle.stated_jobs.specs.trial.Turns.{drawn_turns};

    /// So many turns from a seed, with jobs within the ratio `k` of each other. The seed is below 2^31, the count at
    /// most 1,000,000.
    pub fn new(seed: u32, count: u32, k: Ratio) -> TurnGen
        requires seed { seed < 2 ^ 31 }
        requires count { count ≤ most_jobs Two }
        ensures turns { result ≡ drawn_turns seed count k }
    {
        TurnGen {
            k,
            left: count,
            number: 0,
            state: u64::from(seed),
            last: 0,
        }
    }

    /// The next turn. None exactly where all were given.
    pub fn next(&mut self) -> Option<Turn>
        ensures turns { self.old ≡ option_to_list result ++ self.new }
        ensures none { IsNone result ↔ (self.old ≡ []) }
    {
        if self.left == 0 {
            return None;
        }
        let release = drawn(self.state);
        let work = drawn(release);
        let slack = drawn(work);
        let density = drawn(slack);
        let tick = drawn(density);
        let back = drawn(tick);
        let job = drawn_job(self.k, self.last, release, work, slack, density);
        let done = drawn_done(self.number, job.release(), tick, back);
        let turn = Turn { job, done };
        self.left -= 1;
        self.number += 1;
        self.state = back;
        self.last = last_named_in(&turn);
        Some(turn)
    }
}
