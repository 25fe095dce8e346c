//! Decisions.
ghost use Rattle.std.specs.Prelude.{◌≡◌, ◌≤◌, ◌+◌, IfSome, option_map};
ghost use Rattle.dover_model.specs.Rest.{behind};
ghost use Rattle.ready_server.specs.Serving.{HasShortValue};
ghost use Rattle.dover_engine.specs.Decisions.{event_of, event_in};
ghost use Rattle.dover_engine.specs.Life.{most_numbered, most_earned};

use dover_model::{Event, Job};

/// What the processor does next, at a tick. Jobs are named by the numbers that `Engine::admit` answered.
#[derive(Clone, Copy, Debug, PartialEq, Eq)]
pub enum Decision {
    /// The job is released.
    Release { number: u64, job: Job },
    /// The job runs from this tick on.
    Run { at: u64, number: u64 },
    /// A job of an earlier deadline runs, and the one that ran is held.
    Preempt { at: u64, stops: u64, starts: u64 },
    /// A job at its latest start runs, since it is worth enough, and the one that ran and all that are held wait.
    Take { at: u64, stops: u64, starts: u64 },
    /// The job is done.
    Complete { at: u64, number: u64 },
    /// The job at its latest start is given up.
    Abandon { at: u64, number: u64 },
    /// All jobs are over, and those that completed were worth this.
    End { value: u128 },
}

// The number of a job behind others.
fn behind(forgotten: u64, number: u32) -> u64
    requires { forgotten ≤ most_numbered }
    ensures { result ≡ forgotten + number }
{
    forgotten + u64::from(number)
}

// The decision of an event of jobs behind others that were forgotten.
fn decision_of(forgotten: u64, earned: u128, event: &Event) -> Decision
    requires forgotten { forgotten ≤ most_numbered }
    requires earned { earned ≤ most_earned }
    requires value { HasShortValue event.now }
    ensures { event_of result ≡ behind forgotten earned event.now }
{
    match event {
        Event::Release { number, job } => Decision::Release {
            number: behind(forgotten, *number),
            job: *job,
        },
        Event::Run { at, number } => Decision::Run {
            at: *at,
            number: behind(forgotten, *number),
        },
        Event::Preempt { at, stops, starts } => Decision::Preempt {
            at: *at,
            stops: behind(forgotten, *stops),
            starts: behind(forgotten, *starts),
        },
        Event::Take { at, stops, starts } => Decision::Take {
            at: *at,
            stops: behind(forgotten, *stops),
            starts: behind(forgotten, *starts),
        },
        Event::Complete { at, number } => Decision::Complete {
            at: *at,
            number: behind(forgotten, *number),
        },
        Event::Abandon { at, number } => Decision::Abandon {
            at: *at,
            number: behind(forgotten, *number),
        },
        Event::End { value } => Decision::End {
            value: earned + u128::from(*value),
        },
    }
}

// The same of an answer.
pub(crate) fn decision_in(forgotten: u64, earned: u128, answer: &Option<Event>) -> Option<Decision>
    requires forgotten { forgotten ≤ most_numbered }
    requires earned { earned ≤ most_earned }
    requires value { IfSome answer.now HasShortValue }
    ensures { event_in result ≡ option_map (behind forgotten earned) answer.now }
{
    match answer {
        Some(event) => Some(decision_of(forgotten, earned, event)),
        None => None,
    }
}
