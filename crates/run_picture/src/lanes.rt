//! The lanes of the jobs that a picture shows.
use crate::scale::Scale;
use crate::seen::Seen;
use dover_model::Memory;
use std::alloc::Global;

/// The jobs in their rows.
#[derive(Drop)]
pub struct Lanes {
    /// The jobs, by number.
    pub jobs: Vec<Seen>,
    /// The first row of each group, and behind them how many rows there are.
    tops: Vec<u64>,
    /// How many pixels a row is high.
    pub unit: u64,
}

/// How many jobs are shown.
pub fn shown(scale: Scale, seen: &[Seen]) -> usize {
    seen.iter().filter(|one| one.is_shown(scale)).count()
}

impl Lanes {
    /// Puts the jobs that are shown into rows, those of so many groups one below the other.
    pub fn new(
        alloc: Global,
        scale: Scale,
        groups: usize,
        mut jobs: Vec<Seen>,
    ) -> Result<Lanes, Memory> {
        let mut tops = Vec::new(alloc);
        let mut first = 0u64;
        for group in 0..groups {
            tops.push(first)?;
            first = first.saturating_add(lay_group(alloc, scale, group, first, &mut jobs)?);
        }
        tops.push(first)?;
        Ok(Lanes {
            jobs,
            tops,
            unit: unit_of(groups, first),
        })
    }

    /// The height of all rows in pixels.
    pub fn height(&self) -> u64 {
        match self.tops.last() {
            Some(rows) => self.unit.saturating_mul(*rows),
            None => 0,
        }
    }

    /// The upper pixel of the first row of a group.
    pub fn top(&self, group: usize) -> u64 {
        match self.tops.get(group) {
            Some(row) => self.unit.saturating_mul(*row).saturating_add(112),
            None => 112,
        }
    }

    /// The middle of a job's row.
    pub fn middle(&self, job: &Seen) -> u64 {
        self.unit
            .saturating_mul(job.row)
            .saturating_add(112 + self.unit / 2)
    }

    /// The job of this number.
    pub fn job(&self, number: u32) -> Option<Seen> {
        self.jobs.get(number as usize).copied()
    }
}

/// Puts the jobs of a group that are shown into their rows from this one on, each into the first that is free, and
/// tells how many rows these are, at least one.
fn lay_group(
    alloc: Global,
    scale: Scale,
    group: usize,
    first: u64,
    jobs: &mut [Seen],
) -> Result<u64, Memory> {
    let mut frees = Vec::new(alloc);
    frees.push(0)?;
    for job in jobs.iter_mut() {
        if job.group == group && job.is_shown(scale) {
            let row = free_row(&frees, job.release);
            keep_row(&mut frees, row, job.free_tick())?;
            job.row = first.saturating_add(row as u64);
        }
    }
    Ok(frees.len() as u64)
}

/// The first row that is free at this tick, or one more.
fn free_row(frees: &[u64], release: u64) -> usize {
    for (row, free) in frees.iter().enumerate() {
        if *free <= release {
            return row;
        }
    }
    frees.len()
}

/// A row is free from this tick on.
fn keep_row(frees: &mut Vec<u64>, row: usize, free: u64) -> Result<(), Memory> {
    if row < frees.len() {
        frees[row] = free;
        return Ok(());
    }
    frees.push(free)?;
    Ok(())
}

/// How many pixels a row is high, where there are so many.
fn unit_of(groups: usize, rows: u64) -> u64 {
    if rows <= 24 {
        18
    } else if rows <= 48 || groups > 1 {
        12
    } else {
        6
    }
}
