//! A part of a run's time, and its columns.
ghost use Rattle.std.specs.Prelude.{◌≡◌, ◌≤◌, ◌<◌, ◌+◌, ◌^◌};
ghost use Rattle.run_reports.specs.views.Timeline as picture;

use dover_model::Job;

/// The ticks from `from` on and before `until`. A window with `until` at or below `from` has no tick.
#[derive(Clone, Copy)]
pub struct Window {
    /// Its first tick.
    pub from: u64,
    /// The tick behind its last one.
    pub until: u64,
}

impl Window {
    /// The ticks of a column of its picture for a terminal: as few as make it at most 60 columns.
    pub(crate) fn column_ticks(&self) -> u64
        ensures { result ≡ picture.column_ticks self.now }
    {
        self.until.saturating_sub(self.from).saturating_sub(1) / 60 + 1
    }

    /// The column of a tick, the first one for a tick before the window.
    pub(crate) fn column_of(&self, tick: u64) -> u64
        ensures is { result ≡ picture.column_of self.now tick }
        ensures within { result ≤ tick }
    {
        tick.saturating_sub(self.from) / self.column_ticks()
    }

    /// The first tick of a column.
    pub(crate) fn first_tick(&self, column: u64) -> u128
        ensures { result ≡ picture.first_tick self.now column }
    {
        u128::from(self.from) + u128::from(column) * u128::from(self.column_ticks())
    }

    /// The tick behind the last one of a column, which is the window's at the latest.
    pub(crate) fn end_tick(&self, column: u64) -> u128
        requires { column + 1 < 2 ^ 64 }
        ensures { result ≡ picture.end_tick self.now column }
    {
        self.first_tick(column + 1).min(u128::from(self.until))
    }

    /// Whether some tick of the job's, from its release on and before its deadline, is in the window.
    pub(crate) fn meets(&self, job: &Job) -> bool
        ensures { result ≡ picture.meets self.now job.now }
    {
        job.release().max(self.from) < job.deadline().min(self.until)
    }
}
