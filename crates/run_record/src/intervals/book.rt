//! The intervals of a run, kept from its printed steps and the jobs under way before each.
ghost use Rattle.std.specs.Prelude.{◌≡◌, OnOk};
ghost use Rattle.run_record.specs.intervals.Pages.{Book, blank, closed, noted};

use crate::intervals::interval::{Interval, UnderWay};
use crate::ledger::JobsUnderWay;
use dover_model::{Event, Memory, PackedEvent};
use std::alloc::Global;
use std::marker::Model;

/// The intervals so far.
#[derive(Drop)]
pub struct IntervalBook {
    under_way: Option<UnderWay>,
    rows: Vec<Interval>,
    /// The value that the end names.
    value: u64,
}

impl Model for IntervalBook {
    ghost Value = { Book };

    ghost view = { λ b. record { under_way = b.under_way; rows = b.rows.items; value = b.value } };
}

impl IntervalBook {
    /// Before the first step.
    pub fn new(alloc: Global) -> IntervalBook
        ensures { result ≡ blank }
    {
        IntervalBook {
            under_way: None,
            rows: Vec::new(alloc),
            value: 0,
        }
    }

    /// Takes the next printed step into account, before which these jobs are under way.
    #[inline(always)]
    pub fn note(&mut self, jobs: &JobsUnderWay, event: &PackedEvent) -> Result<(), Memory>
        ensures { OnOk result (self.new ≡ noted jobs.now self.old event.now) }
    {
        match event.event() {
            Event::Run { at, .. } => {
                self.under_way = Some(self.under_way.unwrap_or(UnderWay::new(at)));
            }
            Event::Take { at, .. } => {
                if let Some(under_way) = &mut self.under_way {
                    under_way.displace(at, jobs.worth());
                }
            }
            Event::Complete { at, .. } => {
                if let Some(under_way) = &mut self.under_way {
                    under_way.complete(at, jobs.value(event));
                }
                return self.close(jobs.holds_none());
            }
            Event::Abandon { at, .. } => {
                if let Some(under_way) = &mut self.under_way {
                    under_way.abandon(at, jobs.value(event));
                }
            }
            Event::End { value } => self.value = value,
            _ => {}
        }
        Ok(())
    }

    /// The interval under way is a row, where it ends.
    fn close(&mut self, ends: bool) -> Result<(), Memory>
        ensures { OnOk result (self.new ≡ closed ends self.old) }
    {
        if !ends {
            return Ok(());
        }
        if let Some(under_way) = self.under_way {
            self.rows.push(under_way.interval)?;
            self.under_way = None;
        }
        Ok(())
    }

    /// The rows, and the value that the end names.
    pub fn into_parts(self) -> (Vec<Interval>, u64)
        ensures rows { result.0.items ≡ self.rows }
        ensures value { result.1 ≡ self.value }
    {
        (self.rows, self.value)
    }
}
