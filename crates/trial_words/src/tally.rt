//! What is counted of a run while it goes on.
ghost use Rattle.std.specs.Prelude.{◌≡◌};
ghost use Rattle.dover_model.specs.Run.{value_of_end};

use dover_model::{Event, Memory, Ratio};
use ready_server::Watcher;
use run_record::intervals::JobTotals;
use run_reports::report::{count_by, counts_text};
use std::alloc::Global;

/// What the printed steps so far tell of the jobs, and the value that End names.
#[derive(Clone, Copy)]
pub(crate) struct RunTally {
    totals: JobTotals,
    value: u64,
}

impl RunTally {
    ghost use Rattle.std.specs.Prelude.{[], IfOk};
    ghost use Rattle.dover_model.specs.Common.{Instance, printed, summary};
    ghost use Rattle.run_record.specs.intervals.Rows.{IsRunOf};
    ghost use Rattle.trial_words.specs.Tallied.{HasCounted};

    /// Nothing was printed yet.
    pub(crate) fn new() -> RunTally
        ensures { HasCounted result [] }
    {
        RunTally {
            totals: JobTotals::new(),
            value: 0,
        }
    }

    /// The summary of the run that was counted. Want of memory is the only error.
    pub(crate) fn summary(&self, alloc: Global, k: Ratio) -> Result<Vec<u8>, Memory>
        requires { (J : Instance) × IsRunOf k (printed J) J × HasCounted self.now (printed J) }
        ensures { (J : Instance) → IsRunOf k (printed J) J → HasCounted self.now (printed J)
            → IfOk result (λ text. text.items ≡ summary J) }
    {
        counts_text(alloc, count_by(k, self.totals, self.value))
    }
}

/// The value that End names, if this is it, and else this one.
fn end_value(event: &Event, value: u64) -> u64
    ensures { result ≡ value_of_end event.now value }
{
    match event {
        Event::End { value } => *value,
        _ => value,
    }
}

impl Watcher for RunTally {
    ghost use Rattle.trial_words.specs.Tallied.{HasCounted};

    ghost seen = { HasCounted };

    fn see(&mut self, event: &Event) {
        self.totals.add(event);
        self.value = end_value(event, self.value);
    }
}
