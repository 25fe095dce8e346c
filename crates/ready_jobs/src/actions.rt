//! What the ready jobs do next.
ghost use Rattle.std.specs.Prelude.{◌≡◌, ◌↔◌, IsTrue};
ghost use Rattle.dover_model.specs.declared.events.Event.TheVariants.{Run, Preempt, Take, Complete, Abandon};
ghost use Rattle.dover_model.specs.Common.{Prints, event_of};
ghost use Rattle.ready_jobs.specs.Deeds.{step_at};

use dover_model::Event;

/// What the ready jobs do next, with the numbers of the jobs that do it. It is a step once the clock is known, and no
/// job comes by it.
#[derive(Clone, Copy)]
pub enum Action {
    /// The first held job runs on.
    Resume { number: u32 },
    /// The first waiting job runs: that is due first, or in a pressed state the densest.
    Start { number: u32 },
    /// The fresh job runs.
    Begin { number: u32 },
    /// The fresh job takes the processor, and the running one is held.
    Preempt { stops: u32, starts: u32 },
    /// A waiting job takes the processor, and the running and held ones wait.
    Take { stops: u32, starts: u32 },
    /// The running job is done.
    Complete { number: u32 },
    /// A waiting job is gone.
    Abandon { number: u32 },
    /// The fresh job waits, which prints nothing.
    Wait { number: u32 },
    /// A tick passes, which prints nothing.
    Tick,
}

/// A deed that prints a step, and the step.
#[derive(Clone, Copy)]
pub(crate) struct DueStep {
    pub(crate) action: Action,
    pub(crate) event: Event,
}

// The step is that a job of this number runs at this tick.
#[inline(always)]
fn is_run(event: &Event, tick: u64, runs: u32) -> bool
    ensures { IsTrue result ↔ (event.now ≡ Run tick runs) }
{
    match event {
        Event::Run { at, number } => *at == tick && *number == runs,
        _ => false,
    }
}

// The step is that the one job preempts the other at this tick.
#[inline(always)]
fn is_preempt(event: &Event, tick: u64, stopped: u32, started: u32) -> bool
    ensures { IsTrue result ↔ (event.now ≡ Preempt tick stopped started) }
{
    match event {
        Event::Preempt { at, stops, starts } => {
            *at == tick && *stops == stopped && *starts == started
        }
        _ => false,
    }
}

// The step is that the one job takes the processor from the other at this tick.
#[inline(always)]
fn is_take(event: &Event, tick: u64, stopped: u32, started: u32) -> bool
    ensures { IsTrue result ↔ (event.now ≡ Take tick stopped started) }
{
    match event {
        Event::Take { at, stops, starts } => {
            *at == tick && *stops == stopped && *starts == started
        }
        _ => false,
    }
}

// The step is that the job is done at this tick.
#[inline(always)]
fn is_complete(event: &Event, tick: u64, done: u32) -> bool
    ensures { IsTrue result ↔ (event.now ≡ Complete tick done) }
{
    match event {
        Event::Complete { at, number } => *at == tick && *number == done,
        _ => false,
    }
}

// The step is that the job is gone at this tick.
#[inline(always)]
fn is_abandon(event: &Event, tick: u64, gone: u32) -> bool
    ensures { IsTrue result ↔ (event.now ≡ Abandon tick gone) }
{
    match event {
        Event::Abandon { at, number } => *at == tick && *number == gone,
        _ => false,
    }
}

// The deed prints this step at this tick.
#[inline(always)]
pub(crate) fn prints(tick: u64, action: Action, event: &Event) -> bool
    ensures { IsTrue result ↔ (step_at tick action ≡ Prints event.now) }
{
    match action {
        Action::Resume { number } => is_run(event, tick, number),
        Action::Start { number } => is_run(event, tick, number),
        Action::Begin { number } => is_run(event, tick, number),
        Action::Preempt { stops, starts } => is_preempt(event, tick, stops, starts),
        Action::Take { stops, starts } => is_take(event, tick, stops, starts),
        Action::Complete { number } => is_complete(event, tick, number),
        Action::Abandon { number } => is_abandon(event, tick, number),
        Action::Wait { .. } => false,
        Action::Tick => false,
    }
}

// The step at this tick, if the deed prints one.
pub(crate) fn event_at(at: u64, action: Action) -> Option<Event>
    ensures { result ≡ event_of (step_at at action) }
{
    match action {
        Action::Resume { number } => Some(Event::Run { at, number }),
        Action::Start { number } => Some(Event::Run { at, number }),
        Action::Begin { number } => Some(Event::Run { at, number }),
        Action::Preempt { stops, starts } => Some(Event::Preempt { at, stops, starts }),
        Action::Take { stops, starts } => Some(Event::Take { at, stops, starts }),
        Action::Complete { number } => Some(Event::Complete { at, number }),
        Action::Abandon { number } => Some(Event::Abandon { at, number }),
        Action::Wait { .. } => None,
        Action::Tick => None,
    }
}
