//! Calls that no word makes, with ample memory: a judge that makes room first, and the summary of a run alone.
ghost use Rattle.std.specs.Prelude.{◌≡◌, ◌<◌, [], ◌∷◌};
ghost use Rattle.dover_model.specs.declared.events.Event.TheVariants.{End};

use comparison_count::Comparisons;
use dover_model::{Event, PackedEvent, Ratio};
use run_reports::report::summary;
use std::marker::Brand;
use std::sync::ledger::{Blank, Ledger};
use trace_judge::{Judge, Verdict};

/// The trace of a job.
const SHORTEST: &[u8] = b"dover 1 1 1\njob 0 0 2 2 2\nrun 0 0\ncomplete 2 0\nend 2\n";

/// The summary of a run without a job.
const SUMMARY: &[u8] = b"jobs 0\ncompleted 0 0\nabandoned 0 0\ntaken 0\nbound 0\n";

/// Whether the judge makes room for a job, and has used it once it has read a trace of one.
fn is_read<L: Ledger>(judge: &mut Judge, comparisons: &mut Comparisons<L>) -> bool {
    let has_room = judge.reserve(1).is_ok() && judge.spare() == 1;
    let is_fed = judge.feed(SHORTEST, comparisons).is_ok();
    has_room && is_fed && judge.spare() == 0
}

/// Whether a judge with room for the trace accepts it, and keeps its steps.
fn is_accepted<L: Ledger>(rt: &HostRuntime, blank: Blank) -> bool
    requires name { blank.name ≡ L.name }
    requires parts { blank.parts ≡ L.parts }
    requires some { 0 < blank.parts }
{
    let mut comparisons = Comparisons::<L>::new(rt.memory(), blank);
    let Ok(mut judge) = Judge::new(rt.alloc(), true) else {
        return false;
    };
    let is_read = is_read(&mut judge, &mut comparisons);
    match judge.close() {
        Ok(closed) => {
            is_read && closed.steps.len() == 4 && matches!(closed.verdict, Verdict::Accepted { .. })
        }
        Err(_) => false,
    }
}

/// Whether a judge that makes room first accepts a trace.
pub(crate) fn is_judged(rt: &HostRuntime) -> bool {
    is_accepted::<Brand>(rt, Blank::new(1))
}

/// The printed steps of a run without a job.
fn steps() -> [PackedEvent; 1]
    ensures { result ≡ End 0 ∷ [] }
{
    [PackedEvent::new(&Event::End { value: 0 })]
}

/// Whether the summary of a run without a job is written.
pub(crate) fn is_summed(rt: &HostRuntime) -> bool {
    let Some(k) = Ratio::new(1, 1) else {
        return false;
    };
    match summary(rt.alloc(), k, &steps()) {
        Ok(text) => text.as_slice() == SUMMARY,
        Err(_) => false,
    }
}
