//! Panels of outlines.
use crate::columns::{fullest, put_towers};
use crate::outline::{Measure, Outline, put_outline, total};
use crate::ready::{most_ready, put_peaks};
use crate::scale::scaled;
use crate::seen::Seen;
use crate::sheet::Sheet;
use dover_model::{Memory, PackedEvent};

/// Appends the panel of the values so far: the value completed, and on it the value lost.
pub fn put_values(
    sheet: &mut Sheet,
    coarse: bool,
    base: u64,
    jobs: &[Seen],
    run: &[PackedEvent],
) -> Result<(), Memory> {
    let decided = total(Measure::Decided, sheet.scale, jobs, run);
    let completed = total(Measure::Completed, sheet.scale, jobs, run);
    let all = Outline {
        measure: Measure::Decided,
        coarse,
        most: decided,
        base,
    };
    let done = Outline {
        measure: Measure::Completed,
        ..all
    };
    put_outline(sheet, b"<path class='L' d='M90 @", &all, jobs, run)?;
    put_outline(sheet, b"<path class='C' d='M90 @", &done, jobs, run)?;
    put_values_words(sheet, decided, completed, base)
}

/// Appends the word beside the panel, its border, and the values lost and completed: each number at the middle of what
/// it names, and within the panel.
fn put_values_words(
    sheet: &mut Sheet,
    decided: u64,
    completed: u64,
    base: u64,
) -> Result<(), Memory> {
    sheet.put(
        b"<text class='r' x='82' y='@'>value so far</text>\n\
        <rect class='f' x='90' y='@' width='1200' height='110'/>\n",
        &[base.saturating_sub(97), base.saturating_sub(110)],
    )?;
    let middle = scaled(completed, decided, 110) / 2;
    let upper = base.saturating_sub((middle + 57).min(100));
    let lower = base.saturating_sub((middle + 2).max(14));
    let lost = decided.saturating_sub(completed);
    sheet.put(
        b"<text class='s' x='1296' y='@'>lost</text><text class='s' x='1296' y='@'>@</text>\n",
        &[upper, upper.saturating_add(12), lost],
    )?;
    sheet.put(
        b"<text class='s' x='1296' y='@'>completed</text><text class='s' x='1296' y='@'>@</text>\n",
        &[lower, lower.saturating_add(12), completed],
    )
}

/// Appends the panel of the jobs that are ready, in columns: the outline, the words beside it, and its border.
pub fn put_ready(sheet: &mut Sheet, run: &[PackedEvent]) -> Result<(), Memory> {
    let most = most_ready(sheet.scale, run);
    put_peaks(sheet, most, run)?;
    sheet.put(
        b"<text class='r' x='82' y='125'>ready jobs</text>\n\
        <rect class='f' x='90' y='112' width='1200' height='110'/>\n\
        <text class='s' x='1296' y='122'>at most @</text>\n",
        &[most],
    )
}

/// Appends the panel of the value that is decided in each column: the value completed, on it the value lost, the words
/// beside the panel, and its border.
pub fn put_columns(sheet: &mut Sheet, jobs: &[Seen], run: &[PackedEvent]) -> Result<(), Memory> {
    let most = fullest(Measure::Decided, sheet.scale, jobs, run);
    let all = Outline {
        measure: Measure::Decided,
        coarse: true,
        most,
        base: 348,
    };
    let done = Outline {
        measure: Measure::Completed,
        ..all
    };
    put_towers(sheet, b"<path class='L' d='", &all, jobs, run)?;
    put_towers(sheet, b"<path class='C' d='", &done, jobs, run)?;
    sheet.put(
        b"<text class='r' x='82' y='251'>value</text><text class='s r' x='82' y='265'>by column</text>\n\
        <rect class='f' x='90' y='238' width='1200' height='110'/>\n\
        <text class='s' x='1296' y='248'>at most @</text>\n",
        &[most],
    )
}
