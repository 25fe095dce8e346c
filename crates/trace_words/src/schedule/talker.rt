//! What the reading loop calls: a reader of the schedule, which is drawn at the end.
ghost use Rattle.std.specs.Prelude.{◌≡◌};
ghost use Rattle.trace_words.specs.schedule.Keeping.{Asked, IsAt, Stands};
ghost use Rattle.trace_words.specs.schedule.Talk.{schedule_talk};

use crate::schedule::ScheduleForm;
use crate::schedule::lines::{put_schedule, put_stopped, status_of};
use comparison_count::Comparisons;
use dialogue::{Stop, Talker};
use dover_model::Memory;
use dover_port::{Output, Port, Status};
use line_text::BackLine;
use schedule_judge::{Closed, ScheduleReader, Standing};
use std::alloc::Global;
use std::marker::PhantomData;
use std::sync::ledger::Ledger;

/// The schedule that is read, and the form of its report. Nothing is due before the answer.
#[derive(Drop)]
pub(crate) struct Drawing<L: Ledger> {
    pub(crate) alloc: Global,
    pub(crate) form: ScheduleForm,
    pub(crate) reader: ScheduleReader,
    pub(crate) counts: PhantomData<L>,
}

impl<L: Ledger> Talker for Drawing<L> {
    type Meter = Comparisons<L>;

    ghost about = { Asked };

    ghost talk = { λ asked. schedule_talk asked.form };

    ghost stands = { λ asked d steps. IsAt asked d.form d.reader steps };

    ghost ready = { λ asked d steps. Stands asked d.form d.reader steps };

    ghost costs = { λ asked steps bytes. steps ≡ asked.before };

    fn laws() {}

    fn goes_on(&self, _meter: &Comparisons<L>) -> bool {
        self.reader.goes_on()
    }

    fn take(&mut self, _meter: &mut Comparisons<L>, piece: &[u8]) -> Result<usize, Memory> {
        self.reader.take(piece)
    }

    fn next_part(&mut self, _meter: &mut Comparisons<L>, _part: &mut BackLine) -> bool {
        false
    }

    fn answer<P: Port>(
        self,
        _meter: &mut Comparisons<L>,
        port: &mut P,
        out: &mut Output,
        _ended: bool,
    ) -> Result<Status, Stop> {
        let Closed {
            lines,
            standing,
            steps,
        } = self.reader.close();
        match standing {
            Standing::Ended => match put_schedule(self.alloc, port, out, self.form, steps) {
                Ok(()) => Ok(Status::Done),
                Err(stop) => Err(stop),
            },
            _ => {
                drop(steps);
                match put_stopped(port, out, lines, standing) {
                    Ok(()) => Ok(status_of(standing)),
                    Err(_) => Err(Stop::Unwritten),
                }
            }
        }
    }
}
