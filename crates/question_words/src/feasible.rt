//! The word `feasible`.
ghost use Rattle.std.specs.Prelude.{IfOk};
ghost use Rattle.dover_model.specs.Instance.{IsValid};
ghost use Rattle.dialogue.specs.Talk.{IsFinal};
ghost use Rattle.event_feed.specs.Listing.{listed_instance};
ghost use Rattle.question_words.specs.Feasible.{SaysFeasible};
ghost use Rattle.question_words.specs.Texts.{text_of};

use crate::answer::{Answer, Rows};
use crate::limits::is_listable;
use clairvoyant::feasible::{Feasible, judge_feasible};
use dover_model::Memory;
use dover_port::Status;
use event_feed::Listed;
use line_text::BackLine;
use std::alloc::Global;

/// Judges the jobs as they were declared, and says the schedule by earliest deadline, in stretches of one job, or a
/// window in which the jobs have more work than it has ticks. Jobs beyond the limits of version Two are refused. Memory
/// is taken for the schedule.
pub(crate) fn answer(alloc: Global, listed: &Listed) -> Result<Answer, Memory>
    requires { IsValid (listed_instance listed.now) }
    ensures says { IfOk result (λ answer. SaysFeasible (listed_instance listed.now) answer.status (text_of answer)) }
    ensures ends { IfOk result (λ answer. IsFinal answer.status) }
{
    if !is_listable(listed) {
        return Ok(Answer::too_many(alloc));
    }
    let mut head = BackLine::new();
    match judge_feasible(alloc, &listed.jobs)? {
        Feasible::All { pieces } => {
            head.put_with_wide(b"feasible", &[pieces.len() as u64]);
            Ok(Answer {
                status: Status::Done,
                head,
                rows: Rows::Pieces(pieces),
            })
        }
        Feasible::Window { a, b, work } => {
            head.put_with_wide(b"window", &[a, b, work]);
            Ok(Answer {
                status: Status::No,
                head,
                rows: Rows::Pieces(Vec::new(alloc)),
            })
        }
    }
}
