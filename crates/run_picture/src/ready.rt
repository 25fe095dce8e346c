//! How many jobs are ready in each column.
use crate::columns::column_of;
use crate::outline::{put_last, put_stair, tick_of};
use crate::scale::{Scale, scaled};
use crate::sheet::Sheet;
use dover_model::{Event, Memory, PackedEvent};

/// The jobs that are released and neither done nor gone, after a step. No step counts at the end of what is shown or
/// behind it.
fn ready_after(scale: Scale, event: &PackedEvent, count: u64) -> u64 {
    if tick_of(event) >= scale.until {
        return count;
    }
    match event.event() {
        Event::Release { .. } => count.saturating_add(1),
        Event::Complete { .. } => count.saturating_sub(1),
        Event::Abandon { .. } => count.saturating_sub(1),
        _ => count,
    }
}

/// The most so far, where so many are ready before a step, and so many after it.
fn most_after(scale: Scale, event: &PackedEvent, before: u64, after: u64, most: u64) -> u64 {
    if scale.has(tick_of(event)) {
        most.max(before).max(after)
    } else {
        most
    }
}

/// The most jobs that are ready at a tick that is shown.
pub fn most_ready(scale: Scale, run: &[PackedEvent]) -> u64 {
    let mut count = 0;
    let mut most = 0;
    for event in run {
        let next = ready_after(scale, event, count);
        most = most_after(scale, event, count, next, most);
        count = next;
    }
    most.max(count)
}

/// The column at a pixel.
#[derive(Clone, Copy)]
struct Column {
    x: u64,
    /// The most that were ready in it, and are now.
    high: u64,
    count: u64,
}

/// The pixel at the height of a count, where so many are 110 pixels high.
fn level(most: u64, count: u64) -> u64 {
    222u64.saturating_sub(scaled(count, most, 110))
}

/// Appends the outline of the jobs that are ready, the most in each column, as an area.
pub fn put_peaks(sheet: &mut Sheet, most: u64, run: &[PackedEvent]) -> Result<(), Memory> {
    sheet.put_text(b"<path class='Q' d='M90 222")?;
    let mut column = Column {
        x: 90,
        high: 0,
        count: 0,
    };
    for event in run {
        column = put_step(sheet, most, column, event)?;
    }
    let peak = column.high.max(column.count);
    put_stair(sheet, level(most, peak), column.x.saturating_add(6))?;
    put_last(sheet, level(most, column.count), 222)
}

/// Appends the column before a step, and those up to its own, where that is another one, and tells its own.
fn put_step(
    sheet: &mut Sheet,
    most: u64,
    column: Column,
    event: &PackedEvent,
) -> Result<Column, Memory> {
    let Column { x, high, count } = column;
    let next = column_of(sheet.scale, x, event);
    if next != x {
        put_stair(sheet, level(most, high.max(count)), x.saturating_add(6))?;
        if next != x.saturating_add(6) {
            put_stair(sheet, level(most, count), next)?;
        }
    }
    let before = if next == x { high } else { 0 };
    let after = ready_after(sheet.scale, event, count);
    Ok(Column {
        x: next,
        high: most_after(sheet.scale, event, count, after, before),
        count: after,
    })
}
