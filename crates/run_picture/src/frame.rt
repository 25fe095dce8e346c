//! What stands around a picture.
use crate::legends::{put_legend, put_styles};
use crate::scale::Scale;
use crate::sheet::Sheet;
use crate::sizes::room;
use dover_model::Memory;
use run_record::intervals::Interval;
use run_reports::report::{Counts, Fates};

/// The numbers of a title.
#[derive(Clone, Copy)]
pub enum Totals {
    /// Of a run: those of its summary, and how many lines were refused.
    OfRun(Counts, u64),
    /// Of a schedule, whichever policy made it: what it comes to.
    OfSchedule(Fates),
}

impl Totals {
    /// Jobs are weighed against those under way.
    pub fn weighs(&self) -> bool {
        matches!(self, Totals::OfRun(..))
    }
}

/// Appends a page so high with its title, and the legend of the processor.
pub fn put_page(sheet: &mut Sheet, high: u64, totals: &Totals) -> Result<(), Memory> {
    sheet.put(
        b"<svg xmlns='http://www.w3.org/2000/svg' width='1400' height='@' viewBox='0 0 1400 @'>\n",
        &[high, high],
    )?;
    put_styles(sheet)?;
    sheet.put(
        b"<rect width='1400' height='@' fill='#fff'/>\n<text class='b' x='90' y='22'>",
        &[high],
    )?;
    match totals {
        Totals::OfRun(counts, refused) => put_run_title(sheet, counts, *refused)?,
        Totals::OfSchedule(fates) => put_fates_title(sheet, fates)?,
    }
    put_legend(sheet)
}

/// Appends the numbers of the summary, and how many lines were refused, where some were.
fn put_run_title(sheet: &mut Sheet, counts: &Counts, refused: u64) -> Result<(), Memory> {
    sheet.put(
        b"jobs @, completed @ worth @, abandoned @ worth @, taken @, bound ",
        &[
            counts.jobs,
            counts.completed,
            counts.value,
            counts.abandoned,
            counts.lost,
            counts.taken,
        ],
    )?;
    sheet.put_wide(counts.bound)?;
    if refused == 0 {
        return sheet.put_text(b"</text>\n");
    }
    sheet.put(b", lines refused @</text>\n", &[refused])
}

/// Appends what a schedule comes to.
fn put_fates_title(sheet: &mut Sheet, fates: &Fates) -> Result<(), Memory> {
    sheet.put(
        b"jobs @, completed @ worth @, abandoned @ worth @, taken @</text>\n",
        &[
            fates.jobs,
            fates.completed,
            fates.value,
            fates.abandoned,
            fates.lost,
            fates.taken,
        ],
    )
}

/// How many ticks there are from mark to mark: of the least power of ten of which sixty are the span, once, twice or
/// five times as much.
fn step_of(span: u64) -> u64 {
    let mut ten = 1u64;
    for _ in 0..12u32 {
        if span > ten.saturating_mul(60) {
            ten = ten.saturating_mul(10);
        }
    }
    if span <= ten.saturating_mul(12) {
        ten
    } else if span <= ten.saturating_mul(24) {
        ten.saturating_mul(2)
    } else {
        ten.saturating_mul(5)
    }
}

/// Appends the axis: 14 marks at most, from the last one up to the first tick on, and the word below them.
pub fn put_axis(sheet: &mut Sheet, bottom: u64) -> Result<(), Memory> {
    let step = step_of(sheet.scale.span()).max(1);
    let mut tick = sheet.scale.from.saturating_sub(sheet.scale.from % step);
    for _ in 0..14u32 {
        put_mark(sheet, bottom, tick)?;
        tick = tick.saturating_add(step);
    }
    sheet.put(
        b"<text class='s r' x='1290' y='@'>tick</text>\n",
        &[bottom.saturating_add(28)],
    )
}

/// Appends the mark of a tick, from the first one that is shown up to the one behind the last: a line down to the
/// bottom, and the tick below.
fn put_mark(sheet: &mut Sheet, bottom: u64, tick: u64) -> Result<(), Memory> {
    let Scale { from, until } = sheet.scale;
    if from <= tick && tick <= until {
        let x = sheet.scale.x_at(tick);
        return sheet.put(
            b"<path class='a' d='M@ 76V@'/><text class='s m' x='@' y='@'>@</text>\n",
            &[x, bottom, x, bottom.saturating_add(14), tick],
        );
    }
    Ok(())
}

/// An interval is shown, and value was abandoned in it.
fn is_loss(scale: Scale, row: &Interval) -> bool {
    row.abandoned != 0 && scale.meets(row.from, row.until)
}

/// Appends the bands of the intervals that lost value, so long at least, and what they lost.
pub fn put_bands(
    sheet: &mut Sheet,
    least: u64,
    bottom: u64,
    rows: &[Interval],
) -> Result<(), Memory> {
    sheet.put_bars(b'o', bottom.saturating_sub(60))?;
    for row in rows {
        if is_loss(sheet.scale, row) {
            sheet.put_bar(least, row.from, row.until, bottom.saturating_add(60) / 2)?;
        }
    }
    sheet.put_end()?;
    for row in rows {
        if is_loss(sheet.scale, row) {
            put_band_word(sheet, row)?;
        }
    }
    Ok(())
}

/// Appends what an interval lost, where there is room, with its ticks where a part of it alone is shown.
fn put_band_word(sheet: &mut Sheet, row: &Interval) -> Result<(), Memory> {
    let Scale { from, until } = sheet.scale;
    let x = sheet.scale.x_at(row.from) + 3;
    let long = sheet.scale.pixels(row.from, row.until);
    if from <= row.from && row.until <= until {
        if room(5, &[row.abandoned]) <= long {
            return sheet.put(
                b"<text class='v' x='@' y='70'>lost @</text>\n",
                &[x, row.abandoned],
            );
        }
        return Ok(());
    }
    if room(15, &[row.abandoned, row.from, row.until]) <= long {
        return sheet.put(
            b"<text class='v' x='@' y='70'>lost @ from @ to @</text>\n",
            &[x, row.abandoned, row.from, row.until],
        );
    }
    Ok(())
}
