//! The report and the summary.
ghost use Rattle.std.specs.Prelude.{◌≡◌, ◌++◌, ◌∷◌, [], OnOk, IfOk};
ghost use Rattle.dover_model.specs.Common.{Instance, in_lines, report, summary};
ghost use Rattle.run_record.specs.intervals.Rows.{IsRunOf};
ghost use Rattle.run_reports.specs.report.Counts.{fates_lines, counts_lines, changes_line};
ghost use Rattle.run_reports.specs.report.Lines.{row_lines};
ghost use Rattle.run_reports.specs.report.Kept.{AreKeptLines, IsReportText, kept_lines};

use crate::report::counts::{Counts, count};
use crate::report::early::{Early, early_where, put_early};
use crate::report::kept::{Kept, kept_of, put_kept};
use crate::report::lines::{put_line, put_ratio, put_wide_line};
use dover_model::{Memory, PackedEvent, Ratio, Version};
use run_record::intervals::{Charge, Interval};
use std::alloc::Global;

/// What the report on a run says: its ratio, its summary, how often the processor changed hands, where jobs may finish
/// early those that did, its intervals, and where a factor is declared the least ratio that its jobs keep.
#[derive(Drop)]
pub struct Findings {
    k: Ratio,
    early: bool,
    it: Early,
    counts: Counts,
    charge: Charge,
    kept: Option<Kept>,
}

impl Findings {
    ghost use Rattle.run_reports.specs.report.Findings.{told};

    /// What is found of the run of this version that prints these steps. The jobs of the run are valid for the ratio
    /// `k`, and within the limits of version Two. Want of memory is the only error.
    pub fn of(
        alloc: Global,
        version: Version,
        k: Ratio,
        run: &[PackedEvent],
    ) -> Result<Findings, Memory>
        requires { (J : Instance) × IsRunOf k run.now J }
        ensures report { (J : Instance) → IsRunOf k run.now J → J.rules.version ≡ version
            → IfOk result (λ found. told found ≡ report J) }
        ensures kept { (J : Instance) → IsRunOf k run.now J
            → IfOk result (λ found. AreKeptLines J (kept_lines found.kept)) }
    {
        let early = version.may_finish_early();
        let it = early_where(alloc, early, run)?;
        let charge = Charge::of(alloc, k, run)?;
        let counts = count(k, &charge);
        let kept = kept_of(k, run, charge.value());
        Ok(Findings {
            k,
            early,
            it,
            counts,
            charge,
            kept,
        })
    }

    /// The report as a text. Want of memory is the only error.
    pub fn text(&self, alloc: Global) -> Result<Vec<u8>, Memory>
        ensures { IfOk result (λ text. text.items ≡ told self.now ++ in_lines (kept_lines self.now.kept)) }
    {
        let mut text = Vec::new(alloc);
        put_ratio(&mut text, self.k)?;
        put_fates(&mut text, self.counts)?;
        put_changes(&mut text, self.counts)?;
        put_early(&mut text, self.early, self.it)?;
        put_wide_line(&mut text, b"bound", self.counts.bound)?;
        put_rows(&mut text, self.charge.rows())?;
        put_kept(&mut text, self.kept)?;
        Ok(text)
    }
}

/// The report on the run of this version that prints these steps: its ratio, its summary, how often the processor
/// changed hands and its intervals, where jobs may finish early a line of those that did, and where a factor is declared
/// a last line of the least ratio that the jobs keep. The jobs of the run are valid for the ratio `k`, and within the
/// limits of version Two. Want of memory is the only error.
pub fn text(
    alloc: Global,
    version: Version,
    k: Ratio,
    run: &[PackedEvent],
) -> Result<Vec<u8>, Memory>
    requires { (J : Instance) × IsRunOf k run.now J }
    ensures { (J : Instance) → IsRunOf k run.now J → J.rules.version ≡ version
        → IfOk result (λ text. IsReportText J text.items) }
{
    let found = Findings::of(alloc, version, k, run)?;
    found.text(alloc)
}

/// The summary of that run alone.
pub fn summary(alloc: Global, k: Ratio, run: &[PackedEvent]) -> Result<Vec<u8>, Memory>
    requires { (J : Instance) × IsRunOf k run.now J }
    ensures { (J : Instance) → IsRunOf k run.now J → IfOk result (λ text. text.items ≡ summary J) }
{
    let charge = Charge::of(alloc, k, run)?;
    counts_text(alloc, count(k, &charge))
}

/// The summary that says these counts.
pub fn counts_text(alloc: Global, counts: Counts) -> Result<Vec<u8>, Memory>
    ensures { IfOk result (λ text. text.items ≡ in_lines (counts_lines counts)) }
{
    let mut text = Vec::new(alloc);
    put_counts(&mut text, counts)?;
    Ok(text)
}

/// Appends the lines of a summary.
fn put_counts(text: &mut Vec<u8>, counts: Counts) -> Result<(), Memory>
    ensures { OnOk result (text.new.items ≡ text.old.items ++ in_lines (counts_lines counts)) }
{
    put_fates(text, counts)?;
    put_wide_line(text, b"bound", counts.bound)
}

/// Appends the lines of a summary before the one of the bound.
fn put_fates(text: &mut Vec<u8>, counts: Counts) -> Result<(), Memory>
    ensures { OnOk result (text.new.items ≡ text.old.items ++ in_lines (fates_lines counts)) }
{
    put_line(text, b"jobs", &[counts.jobs])?;
    put_line(text, b"completed", &[counts.completed, counts.value])?;
    put_line(text, b"abandoned", &[counts.abandoned, counts.lost])?;
    put_line(text, b"taken", &[counts.taken])
}

/// Appends the line of how often the processor changed hands.
fn put_changes(text: &mut Vec<u8>, counts: Counts) -> Result<(), Memory>
    ensures { OnOk result (text.new.items ≡ text.old.items ++ in_lines (changes_line counts ∷ [])) }
{
    put_line(
        text,
        b"changes",
        &[counts.changes, counts.preempted, counts.taken],
    )
}

/// Appends the lines of intervals, with their numbers from 1 on.
fn put_rows(text: &mut Vec<u8>, rows: &[Interval]) -> Result<(), Memory>
    ensures { OnOk result (text.new.items ≡ text.old.items ++ in_lines (row_lines rows.now)) }
{
    for (index, row) in rows.iter().enumerate() {
        let number = index as u64 + 1;
        put_line(
            text,
            b"interval",
            &[
                number,
                row.from,
                row.until,
                row.regular,
                row.taken,
                row.displaced,
                row.abandoned,
            ],
        )?;
    }
    Ok(())
}
