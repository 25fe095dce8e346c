//! The call `dover`.
ghost use Rattle.std.specs.Prelude.{◌≡◌, ◌↔◌};
ghost use Rattle.dover_port.specs.Causes.{Causes, StopsWith};
ghost use Rattle.dover_port.specs.Moves.{Since};
ghost use Rattle.dialogue.specs.Talk.{CanEnd};
ghost use Rattle.dover_top.specs.declared.request.Request.{Request};
ghost use Rattle.dover_top.specs.Keeps.{Keeps};
ghost use Rattle.dover_top.specs.Requests.{Asks};
ghost use Rattle.dover_top.specs.Says.{Says};
ghost use Rattle.dover_top.specs.Spending.{IsFrugal, IsFrugalAsAsked};

use crate::carrying::carry_out;
use crate::request::asked;
use comparison_count::Comparisons;
use dover_port::{Port, Status};
use std::alloc::Global;
use std::sync::ledger::Ledger;

/// Does what the words ask for. The rows of words:
///
/// - `serve` reads a feed from the port and writes the feed's trace to it, each line that is settled before the next
///   read.
/// - `judge` reads a text and writes one line: whether it is the trace of a valid session, and if not where it is wrong
///   or that it is short.
/// - `report text` and `report csv` read a text, and write a report on its run where it is such a trace, else the line
///   that `judge` writes. A trace of more jobs than version Two may have, or of a greater sum, is refused.
/// - `report chrome` does the same, with the run as events for a viewer of traces, and `report why N` with what
///   happened to the job of number N and by which test.
/// - `report timeline [FROM UNTIL]` and `report svg [FROM UNTIL]` do the same, with the run, or its ticks from FROM on
///   and before UNTIL, as a picture for a terminal or a browser.
/// - `report any csv`, `report any timeline [FROM UNTIL]` and `report any svg [FROM UNTIL]` read a schedule that any
///   policy may have made, and write the same on it where it is legal, without intervals and bound, else the line that
///   is wrong first and why, or that it is short. More jobs than version Two may have are refused.
/// - `report tasks` reads periodic tasks and a trace behind them, and writes of each task what became of the jobs that
///   have its numbers, or else the line that `judge` writes. `report tasks timeline [FROM UNTIL]` and `report tasks svg
///   [FROM UNTIL]` write the picture of its run in place of that, with the jobs of each task by themselves; they alone
///   refuse a trace that `report` would.
/// - `trial SEED COUNT P Q` reads nothing, and writes the summary of the run of so many stated jobs of a seed, within
///   the ratio P/Q.
/// - `bait P Q N` reads nothing, and writes what the run of the baiting jobs comes to, and what another schedule of
///   them is worth.
/// - `duel P Q A B` reads nothing, and writes the feed of jobs on which no on-line scheduler gets A/B of the best
///   schedule on each of their fronts. `duel P Q A B L` writes that of the first L of them.
/// - `draw SEED COUNT P Q` reads nothing, and writes a feed of version Three: so many stated jobs of a seed, within the
///   ratio P/Q, and lines that say some of them done, rightly or not.
/// - `feasible` reads a feed, and writes a schedule that serves all its jobs, or a window in which they have more work
///   than it has ticks.
/// - `feasible tasks` reads periodic tasks, and writes whether a window can have more work of their jobs than ticks,
///   where those of one task come a period apart or more: `met` where none can, for all time, else such a window, or
///   that more than one tick of work a tick comes.
/// - `best` reads a feed of at most 20 jobs, and writes what the best schedule is worth, beside what the rules complete
///   and guarantee, and such a schedule.
/// - `compare` reads a feed, and writes what the rules complete, what those of version Four do, and what two other
///   policies do.
/// - `loss` reads a feed, and writes what no schedule is worth more than, beside what the rules complete, and where
///   there is too much work.
/// - `lanes` reads up to 64 feeds in one input, each line with its lane's number in front, and serves each on its own:
///   each line that is settled for a lane is written with the number in front, before the next read.
/// - `pause` does what `serve` does, but where the input ends behind whole lines, with the ratio declared and neither
///   an `end` line nor a fault: there it writes a snapshot of the feed behind what is settled.
/// - `resume` reads a snapshot and the further lines of its feed, and writes what `serve` writes for the whole feed
///   beyond what was settled where it was paused. `resume pause` does the same, but where the input ends it does what
///   `pause` does.
/// - `unroll UNTIL` reads periodic tasks, and writes the feed of all jobs that they release before this tick.
/// - `sure` reads periodic tasks, and writes of each whether it passes a test by which no job of it is lost, however
///   the jobs of all tasks come, and if not the least value that would pass it, if one would.
/// - `budget C` reads periodic tasks, and writes them again with each work made a budget that pays for changes of hands
///   of at most C ticks.
/// - `ratio` reads a feed or periodic tasks, whatever ratio within the limits they declare, and writes the least one
///   within them that all jobs keep, the two jobs that set it, and the bound by it.
///
/// The statuses: `Done` where the feed ended without a fault and its whole trace was written, where the text was
/// accepted, the run was told, or the question answered, where the feed that was asked for was written, for lanes where
/// each that has a line ended without a fault before `close`, and for `pause` and `resume pause` also where the
/// snapshot was written; `No` where the text is wrong or short, not all deadlines can be met, the jobs of tasks can't
/// be met for all time, or no ratio within the limits is kept by all jobs; `Refused` at the feed's first faulty line,
/// where the input ends before the `end` line, where the jobs don't fit the limits of the word, where a test would take
/// too long, where a budget doesn't fit its deadline or two break the ratio, or where the share of a duel is no more
/// than the rules save, or its front is too long, and for lanes where one that has a line is faulty or not ended at
/// `close`, at a fault of the whole input, or where it ends before `close`; `ReadFault` and `WriteFault` where a call
/// of the port failed, which is then the last; `Memory` where there was none, which with `serve` can't come before the
/// ratio line; `Usage` exactly where the words are no row.
pub fn dover<P: Port, L: Ledger>(
    alloc: Global,
    words: &[String],
    port: &mut P,
    comparisons: &mut Comparisons<L>,
) -> Status
    // What was got and put before each read, and in all, by the status.
    ensures talks { (request : Request) → Asks words.now request →
        Since (P.moves port.old) (P.moves port.new) (Says request result) }
    // What it promises of the run besides: of a feed that is served also so far, at every status.
    ensures promises { (request : Request) → Asks words.now request →
        Since (P.moves port.old) (P.moves port.new) (Keeps request result) }
    // Whatever the port tells, it is a status with which what these words ask for may end.
    ensures ends { (request : Request) → Asks words.now request → CanEnd (Says request) result }

    // How many comparisons a call makes in the server's heaps, and unroll in its own, at every status: for n jobs at
    // most 80 * (n + 1) * d, where n + 1 has at most d binary digits; serve, pause and the questions for the jobs that
    // were admitted, none before a ratio line, and compare twice as many, since it serves them twice; judge and report
    // for the whole lines that name a job, and report tasks for those behind the task text; resume and resume pause for
    // the jobs of the snapshot and those admitted behind it together, and before its last line for those of its lines
    // so far. lanes makes as many for each lane as serving its feed alone may. unroll makes at most d * (t + 4 * n) for
    // t tasks that release n jobs, where t + 1 has at most d binary digits. feasible, feasible tasks, sure, budget,
    // ratio and report any make none.
    ensures comparisons { (request : Request) → Asks words.now request →
        Since (P.moves port.old) (P.moves port.new) (IsFrugal request comparisons.old comparisons.new) }
    // trial at Done, where the words alone tell how many jobs there are; bait, duel and draw make none.
    ensures stated { (request : Request) → Asks words.now request →
        IsFrugalAsAsked request comparisons.old comparisons.new }

    // A fault comes only where its count rose in this call, and each count rises for its own fault alone. So where none
    // rose, what was read has its answer, or there was no memory.
    ensures causes { Causes result (P.read_faults port.old) (P.read_faults port.new) (P.write_faults port.old)
        (P.write_faults port.new) }
    // No call of the port follows one that failed: the last one alone has failed at a fault, and else none has.
    ensures stops { StopsWith result (P.calls port.old) (P.calls port.new) }

    // Words that ask for nothing, and no others, give Usage, and then nothing is read or written.
    ensures usage { (result ≡ Status.Usage) ↔ ((request : Request) → Asks words.now request → ⊥) }
    ensures idle { result ≡ Status.Usage → port.new ≡ port.old }
{
    match asked(words) {
        Some(request) => carry_out(alloc, request, port, comparisons),
        None => Status::Usage,
    }
}
