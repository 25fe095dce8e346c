//! Serves two jobs, of which the first is done a tick before its work is out.
#![tactic(auto)]

ghost use Rattle.std.specs.Prelude.{◌≡◌, ◌<◌};

use comparison_count::Comparisons;
use dover_engine::Engine;
use dover_model::{Ratio, Version};
use std::marker::Brand;
use std::rt::Memory;
use std::sync::ledger::{Blank, Ledger};

// Acts on all that is decided by the mark.
fn settle<R: Print, L: Ledger>(
    rt: &R,
    engine: &mut Engine,
    mark: u64,
    comparisons: &mut Comparisons<L>,
) {
    for _ in 0..u64::MAX {
        match engine.step(mark, comparisons) {
            Ok(Some(decision)) => {
                let _ = println!(rt; "{decision:?}");
            }
            Ok(None) | Err(_) => return,
        }
    }
}

// Two jobs of tick 0, up to tick 10.
fn serve<R: Print + AllocGlobal, L: Ledger>(rt: &R, memory: Memory, blank: Blank)
    requires name { blank.name ≡ L.name }
    requires parts { blank.parts ≡ L.parts }
    requires some { 0 < blank.parts }
{
    let mut comparisons = Comparisons::<L>::new(memory, blank); // it takes no bytes
    let Some(k) = Ratio::new(2, 1) else { return };
    // Room for 1,000 open jobs. No later call takes memory.
    let Ok(mut engine) = Engine::new(rt.alloc(), Version::Three, k, 1_000) else {
        return
    };
    for deadline in 5..7 {
        settle(rt, &mut engine, 0, &mut comparisons); // what is decided without the job comes first
        let _number = engine.admit(0, 3, deadline, 4);
    }
    for tick in 0..10 {
        settle(rt, &mut engine, tick + 1, &mut comparisons); // all jobs of the tick are in: what is decided at it
        if tick == 1 {
            let _ = engine.done(tick + 1, 0); // job 0 needed no more than the two ticks that it had
        }
    }
}

fn main(rt: HostRuntime) {
    serve::<HostRuntime, Brand>(&rt, rt.memory(), Blank::new(1));
}
