//! An engine that is restarted, call by call.
ghost use Rattle.std.specs.Prelude.{◌≡◌, ◌<◌};

use comparison_count::Comparisons;
use dover_engine::{Engine, NotRestarted};
use dover_model::{Ratio, Version};
use std::marker::Brand;
use std::sync::ledger::{Blank, Ledger};

/// A call, and what it has to come to.
enum Call {
    /// Steps to the mark, up to None.
    Settle(u64),
    /// A job of this release, work, deadline and value is admitted under this number.
    Admit(u64, u64, u64, u64, u64),
    /// The value of all that completed.
    Worth(u128),
    /// The engine is restarted, and this tick is taken off the clock.
    Restart(u64),
    /// It isn't, for this cause.
    Refuse(NotRestarted),
    /// A step to the end gives a decision.
    Finish,
}

/// Each cause, and at rest a clock, numbers, a value and densities from the beginning, also at the last tick.
static CALLS: [Call; 25] = [
    Call::Refuse(NotRestarted::Unsettled),
    Call::Settle(0),
    Call::Restart(0),
    Call::Refuse(NotRestarted::Unsettled),
    Call::Settle(5),
    Call::Admit(5, 4, 60, 8, 0),
    Call::Refuse(NotRestarted::Unsettled),
    Call::Settle(6),
    Call::Refuse(NotRestarted::Open),
    Call::Admit(6, 1, 60, 2, 1),
    Call::Settle(1_000_000_000_000),
    Call::Worth(10),
    Call::Restart(1_000_000_000_000),
    Call::Worth(0),
    Call::Settle(0),
    Call::Admit(0, 1, 2, 1_000_000_000, 0),
    Call::Settle(1),
    Call::Worth(1_000_000_000),
    Call::Restart(1),
    Call::Settle(7),
    Call::Admit(7, 1, 9, 1, 0),
    Call::Finish,
    Call::Refuse(NotRestarted::Finished),
    Call::Worth(0),
    Call::Finish,
];

fn settles<L: Ledger>(engine: &mut Engine, mark: u64, comparisons: &mut Comparisons<L>) -> bool {
    for _ in 0..100 {
        match engine.step(mark, comparisons) {
            Ok(Some(_)) => {}
            Ok(None) => return true,
            Err(_) => return false,
        }
    }
    false
}

fn comes_to<L: Ledger>(engine: &mut Engine, call: &Call, comparisons: &mut Comparisons<L>) -> bool {
    match call {
        Call::Settle(mark) => settles(engine, *mark, comparisons),
        Call::Admit(release, work, deadline, value, number) => {
            matches!(engine.admit(*release, *work, *deadline, *value), Ok(n) if n == *number)
        }
        Call::Worth(value) => engine.value() == *value,
        Call::Restart(tick) => matches!(engine.restart(), Ok(t) if t == *tick),
        Call::Refuse(cause) => matches!(engine.restart(), Err(other) if other == *cause),
        Call::Finish => engine.finish(comparisons).is_some(),
    }
}

fn all_come_to<L: Ledger>(
    rt: &HostRuntime,
    engine: &mut Engine,
    calls: &[Call],
    blank: Blank,
) -> bool
    requires name { blank.name ≡ L.name }
    requires parts { blank.parts ≡ L.parts }
    requires some { 0 < blank.parts }
{
    let mut comparisons = Comparisons::<L>::new(rt.memory(), blank);
    for call in calls {
        if !comes_to(engine, call, &mut comparisons) {
            return false;
        }
    }
    true
}

#[test]
fn an_engine_begins_anew_at_rest(rt: HostRuntime) {
    let k = Ratio::new(2, 1).expect(&rt, "a ratio");
    let mut engine = Engine::new(rt.alloc(), Version::Four, k, 2).expect(&rt, "memory");
    assert!(rt; all_come_to::<Brand>(&rt, &mut engine, &CALLS, Blank::new(1)));
}
