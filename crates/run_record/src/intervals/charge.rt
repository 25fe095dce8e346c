//! What a run completes, displaces and abandons, interval by interval.
ghost use Rattle.std.specs.Prelude.{◌≡◌, ◌≤◌, ◌+◌, ◌-◌, ◌*◌, ℕ, List, map, IfOk, sum_by};
ghost use Rattle.dover_model.specs.Common.{Instance, total_value, ran, completed_value, worth, observed, IsWithin};
ghost use Rattle.dover_model.specs.Common.{IsLeastDense, IsPaid, intervals, JobFacts, IsHeavy, Each};
ghost use Rattle.run_record.specs.intervals.Rows.{IsRunOf, numbers_of, rows_of};
ghost use Rattle.run_record.specs.intervals.Totals.{totals_of};

use crate::intervals::book::IntervalBook;
use crate::intervals::interval::Interval;
use crate::intervals::totals::JobTotals;
use crate::ledger::before_run;
use dover_model::{Memory, PackedEvent, Ratio};
use std::alloc::Global;
use std::marker::Model;

/// The intervals of a run, the value that the run completes, and what its steps tell of its jobs.
#[derive(Drop)]
pub struct Charge {
    rows: Vec<Interval>,
    value: u64,
    totals: JobTotals,
}

impl Model for Charge {
    ghost use Rattle.run_record.specs.intervals.Rows.{Charged};

    ghost Value = { Charged };

    ghost view = { λ c. record { rows = c.rows.items; value = c.value; totals = c.totals } };
}

impl Charge {
    /// The intervals of the run that prints these steps, in one pass over them. The jobs of the run are valid for the
    /// ratio `k`, and within the limits of version Two. Want of memory is the only error.
    pub fn of(alloc: Global, k: Ratio, run: &[PackedEvent]) -> Result<Charge, Memory>
        requires { (J : Instance) × IsRunOf k run.now J }
        ensures rows { (J : Instance) → IsRunOf k run.now J → IfOk result (λ c. c.rows ≡ rows_of J) }
        ensures value { (J : Instance) → IsRunOf k run.now J → IfOk result (λ c. c.value ≡ completed_value J) }
        ensures bound { (J : Instance) → IsRunOf k run.now J
            → IfOk result (λ c. (s : List ℕ) → IsWithin k (worth J s) c.value) }
        ensures observed { (J : Instance) → IsRunOf k run.now J
            → IfOk result (λ c. (s : List ℕ) → IsWithin k (worth (observed J) s) c.value) }
        ensures honest { (J : Instance) → IsRunOf k run.now J
            → IfOk result (λ c. worth (observed J) (ran J) ≡ c.value) }
        ensures ordered { IfOk result (λ c. Each (λ i. i.from ≤ i.until) c.rows) }
        ensures displaced { IfOk result
            (λ c. Each (λ i. IsPaid k i.displaced i.taken) c.rows) }
        ensures paid { (J : Instance) → IsRunOf k run.now J → IfOk result (λ c. (j : JobFacts) → IsLeastDense J j →
            Each (λ i. j.value * (i.until - i.from) ≤ j.work * (i.regular + i.taken + i.displaced)) c.rows) }
        ensures light { (J : Instance) → IsRunOf k run.now J
            → IfOk result (λ c. (c.rows ≡ map numbers_of (intervals J)) ×
            Each (λ i. Each (λ value. IsHeavy k value (i.regular + i.taken) → ⊥) i.lost) (intervals J)) }
        ensures completed { IfOk result (λ c. sum_by (λ i. i.regular + i.taken) c.rows ≡ c.value) }
        ensures abandoned { (J : Instance) → IsRunOf k run.now J →
            IfOk result (λ c. c.value + sum_by (λ i. i.abandoned) c.rows ≡ total_value J.jobs) }
        ensures totals { IfOk result (λ c. c.totals ≡ totals_of run.now) }
    {
        let mut under_way = before_run(alloc, run)?;
        let mut book = IntervalBook::new(alloc);
        let mut totals = JobTotals::new();
        for event in run {
            totals.add(&event.event());
            book.note(&under_way, event)?;
            under_way.read(alloc, event)?;
        }
        let (rows, value) = book.into_parts();
        Ok(Charge {
            rows,
            value,
            totals,
        })
    }

    /// The intervals in the order of their ticks.
    pub fn rows(&self) -> &[Interval]
        ensures { result.now ≡ self.now.rows }
    {
        &self.rows
    }

    /// The value that the run completes, which is the sum of regular and taken of all intervals.
    pub fn value(&self) -> u64
        ensures { result ≡ self.now.value }
    {
        self.value
    }

    /// What the steps tell of the jobs of the run.
    pub fn totals(&self) -> JobTotals
        ensures { result ≡ self.now.totals }
    {
        self.totals
    }
}
