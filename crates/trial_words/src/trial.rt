//! The word `trial`.
ghost use Rattle.std.specs.Prelude.{◌≡◌, ◌<◌, ◌≤◌, ◌^◌, None};
ghost use Rattle.dialogue.specs.Talk.{CanEnd};
ghost use Rattle.dover_model.specs.declared.events.Version.TheVariants.{Two};
ghost use Rattle.dover_model.specs.Common.{most_jobs, summary, CostsAtMost};
ghost use Rattle.dover_port.specs.Causes.{Causes, StopsWith};
ghost use Rattle.dover_port.specs.Moves.{Since};
ghost use Rattle.trial_words.specs.Lists.{trial_instance};
ghost use Rattle.trial_words.specs.Record.{Writes};

use crate::drawn::Drawn;
use crate::tally::RunTally;
use comparison_count::Comparisons;
use dover_model::{Ratio, Version};
use dover_port::{Port, Status, put_all};
use ready_server::run_list;
use stated_jobs::trial::Gen;
use std::alloc::Global;
use std::sync::ledger::Ledger;

/// Serves the stated jobs of a seed, and writes the summary of their run: the jobs, those that were completed and
/// abandoned with their values, the takes, and the bound on the value of every schedule. Nothing is read. The seed is
/// below 2^31, the count at most 1,000,000, and the ratio has no factor. Memory is taken for the jobs that are ready at
/// once, and for the summary.
pub fn trial_word<P: Port, L: Ledger>(
    alloc: Global,
    port: &mut P,
    seed: u32,
    count: u32,
    k: Ratio,
    comparisons: &mut Comparisons<L>,
) -> Status
    requires seed { seed < 2 ^ 31 }
    requires count { count ≤ most_jobs Two }
    requires plain { k.factor ≡ None }
    ensures writes { Since (P.moves port.old) (P.moves port.new)
        (Writes result (summary (trial_instance k seed count))) }
    ensures ends { CanEnd (λ status. Writes status (summary (trial_instance k seed count))) result }
    ensures causes { Causes result (P.read_faults port.old) (P.read_faults port.new) (P.write_faults port.old)
        (P.write_faults port.new) }
    ensures stops { StopsWith result (P.calls port.old) (P.calls port.new) }
    ensures count { CostsAtMost count comparisons.old comparisons.new }
{
    // That the numbers of a ratio are within its limits is what reading one of them tells.
    let _ = k.p();
    let mut jobs = Drawn(Gen::new(seed, count, k));
    let mut tally = RunTally::new();
    let Ok(()) = run_list::<Drawn, RunTally, L>(
        alloc,
        Version::One,
        k,
        &mut jobs,
        &mut tally,
        comparisons,
    ) else {
        return Status::Memory;
    };
    let Ok(text) = tally.summary(alloc, k) else {
        return Status::Memory;
    };
    match put_all(port, &text) {
        Ok(()) => Status::Done,
        Err(_) => Status::WriteFault,
    }
}
