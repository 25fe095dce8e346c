//! Carrying out what is asked for.
ghost use Rattle.std.specs.Prelude.{List, String};
ghost use Rattle.std.specs.declared.alloc.Global.{Global};
ghost use Rattle.dover_port.specs.Causes.{Causes, StopsWith};
ghost use Rattle.dover_top.specs.Carrying.{CarriesOut};
ghost use Rattle.dover_top.specs.Requests.{Asks};

use crate::request::Request;
use comparison_count::Comparisons;
use demand_words::demand_word;
use dover_port::{Port, Status};
use feed_words::resume::resume_word;
use feed_words::serve::{pause_word, serve_word};
use lanes_word::lanes_word;
use question_words::question_word;
use ratio_word::ratio_word;
use std::alloc::Global;
use std::sync::ledger::Ledger;
use task_report::task_report_word;
use task_words::asking::{TaskQuestion, tasks_word};
use trace_words::judge::judge_word;
use trace_words::report::report_word;
use trace_words::schedule::schedule_word;
use trial_words::{bait_word, draw_word, duel_word, trial_word};

/// Carries out a request that some words ask for.
pub(crate) fn carry_out<P: Port, L: Ledger>(
    alloc: Global,
    request: Request,
    port: &mut P,
    comparisons: &mut Comparisons<L>,
) -> Status
    requires { (words : List (String Global)) × Asks words request }
    ensures carries { CarriesOut request result (P.moves port.old) (P.moves port.new) comparisons.old comparisons.new }
    ensures causes { Causes result (P.read_faults port.old) (P.read_faults port.new) (P.write_faults port.old)
        (P.write_faults port.new) }
    ensures stops { StopsWith result (P.calls port.old) (P.calls port.new) }
{
    match request {
        Request::Serve => serve_word(alloc, port, comparisons),
        Request::Judge => judge_word(alloc, port, comparisons),
        Request::Report(form) => report_word(alloc, port, form, comparisons),
        Request::Schedule(form) => schedule_word(alloc, port, form, comparisons),
        Request::ReportTasks(form) => task_report_word(alloc, port, form, comparisons),
        Request::Trial { seed, count, k } => trial_word(alloc, port, seed, count, k, comparisons),
        Request::Bait { k, rounds } => bait_word(port, k, rounds),
        Request::Ask(question) => question_word(alloc, port, question, comparisons),
        Request::Lanes => lanes_word(alloc, port, comparisons),
        Request::Pause => pause_word(alloc, port, comparisons),
        Request::Resume(at_end) => resume_word(alloc, port, at_end, comparisons),
        Request::Unroll { until } => tasks_word(
            alloc,
            port,
            TaskQuestion::Unroll { until },
            comparisons,
        ),
        Request::Sure => tasks_word(alloc, port, TaskQuestion::Sure, comparisons),
        Request::FeasibleTasks => demand_word(alloc, port, comparisons),
        Request::Ratio => ratio_word(port, comparisons),
        Request::Budget { cost } => tasks_word(
            alloc,
            port,
            TaskQuestion::Budget { cost },
            comparisons,
        ),
        Request::Duel { k, share, front } => duel_word(port, k, share, front),
        Request::Draw { seed, count, k } => draw_word(port, seed, count, k),
    }
}
