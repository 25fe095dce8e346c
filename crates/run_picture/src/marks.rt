//! Marks in the lanes, step by step.
use crate::lanes::Lanes;
use crate::processor::Processor;
use crate::sheet::Sheet;
use dover_model::{Event, Memory, PackedEvent, Piece};

/// Appends thin bars where jobs are started and not over.
pub fn put_holds(sheet: &mut Sheet, lanes: &Lanes, run: &[PackedEvent]) -> Result<(), Memory> {
    sheet.put_bars(b'h', lanes.unit / 3)?;
    for event in run {
        match event.event() {
            Event::Preempt { at, stops, .. } => put_hold(sheet, lanes, at, stops)?,
            Event::Take { at, stops, .. } => put_hold(sheet, lanes, at, stops)?,
            _ => {}
        }
    }
    sheet.put_end()
}

/// Appends the bar of a job that loses the processor at this tick.
fn put_hold(sheet: &mut Sheet, lanes: &Lanes, at: u64, number: u32) -> Result<(), Memory> {
    let Some(job) = lanes.job(number) else {
        return Ok(());
    };
    if sheet.scale.meets(at, job.end_tick()) {
        return sheet.put_bar(1, at, job.end_tick(), lanes.middle(&job));
    }
    Ok(())
}

/// Appends the bars of the pieces of jobs of this color, in their lanes.
pub fn put_pieces(
    sheet: &mut Sheet,
    lanes: &Lanes,
    color: u8,
    run: &[PackedEvent],
) -> Result<(), Memory> {
    sheet.put_bars(color, lanes.unit.saturating_sub(3))?;
    let mut processor = Processor::new();
    for event in run {
        if let Some(piece) = processor.read(event) {
            put_piece(sheet, lanes, color, piece)?;
        }
    }
    sheet.put_end()
}

/// Appends the bar of a piece, if its job has this color and it is shown.
fn put_piece(sheet: &mut Sheet, lanes: &Lanes, color: u8, piece: Piece) -> Result<(), Memory> {
    let Some(job) = lanes.job(piece.number) else {
        return Ok(());
    };
    if job.tint() == color && sheet.scale.meets(piece.from, piece.until) {
        return sheet.put_bar(1, piece.from, piece.until, lanes.middle(&job));
    }
    Ok(())
}

/// Appends crosses where jobs are abandoned.
pub fn put_crosses(sheet: &mut Sheet, lanes: &Lanes, run: &[PackedEvent]) -> Result<(), Memory> {
    sheet.put_text(b"<path class='x' d='")?;
    for event in run {
        if let Event::Abandon { at, number } = event.event() {
            put_cross(sheet, lanes, at, number)?;
        }
    }
    sheet.put_end()
}

/// Appends the cross of a job that is abandoned at this tick, if both are shown, or at its deadline the tick before.
fn put_cross(sheet: &mut Sheet, lanes: &Lanes, at: u64, number: u32) -> Result<(), Memory> {
    let Some(job) = lanes.job(number) else {
        return Ok(());
    };
    let last = job.deadline.saturating_sub(1);
    if sheet.scale.has(at.min(last)) && job.is_shown(sheet.scale) {
        let high = lanes.unit / 2;
        let left = sheet.scale.x_at(at).saturating_sub(3);
        let top = lanes.middle(&job).saturating_sub(high / 2);
        return sheet.put(b"M@ @l6 @m0-@l-6 @", &[left, top, high, high, high]);
    }
    Ok(())
}

/// Appends arrows from job to job where one preempts another.
pub fn put_preemptions(
    sheet: &mut Sheet,
    lanes: &Lanes,
    run: &[PackedEvent],
) -> Result<(), Memory> {
    sheet.put_text(b"<path class='p' d='")?;
    for event in run {
        if let Event::Preempt { at, stops, starts } = event.event() {
            put_arrow(sheet, lanes, at, stops, starts)?;
        }
    }
    sheet.put_end()
}

/// Appends arrows from job to job where one takes the processor.
pub fn put_takes(sheet: &mut Sheet, lanes: &Lanes, run: &[PackedEvent]) -> Result<(), Memory> {
    sheet.put_text(b"<path class='k' d='")?;
    for event in run {
        if let Event::Take { at, stops, starts } = event.event() {
            put_arrow(sheet, lanes, at, stops, starts)?;
        }
    }
    sheet.put_end()
}

/// Appends the arrow from the row of one job to that of another, if the tick and both jobs are shown.
fn put_arrow(
    sheet: &mut Sheet,
    lanes: &Lanes,
    at: u64,
    stops: u32,
    starts: u32,
) -> Result<(), Memory> {
    let Some(from) = lanes.job(stops) else {
        return Ok(());
    };
    let Some(until) = lanes.job(starts) else {
        return Ok(());
    };
    if sheet.scale.has(at) && from.is_shown(sheet.scale) && until.is_shown(sheet.scale) {
        let (above, below) = (lanes.middle(&from), lanes.middle(&until));
        sheet.put(b"M@ @V@", &[sheet.scale.x_at(at), above, below])?;
        return sheet.put_text(head(above < below));
    }
    Ok(())
}

/// The head of an arrow, by whether it goes down.
fn head(down: bool) -> &'static [u8] {
    if down {
        return b"m-2-4h4l-2 4";
    }
    b"m-2 4h4l-2-4"
}
