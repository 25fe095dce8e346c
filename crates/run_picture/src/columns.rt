//! Towers of what is decided in each column.
use crate::outline::{Measure, Outline, tick_of, worth_of};
use crate::scale::Scale;
use crate::seen::Seen;
use crate::sheet::Sheet;
use dover_model::{Memory, PackedEvent};

/// The left pixel of the column of a step, never before pixel x.
pub fn column_of(scale: Scale, x: u64, event: &PackedEvent) -> u64 {
    scale.column_at(tick_of(event)).min(1_284).max(x)
}

/// The greatest number of a column.
pub fn fullest(measure: Measure, scale: Scale, jobs: &[Seen], run: &[PackedEvent]) -> u64 {
    let mut x = 90;
    let mut number = 0u64;
    let mut most = 0;
    for event in run {
        let next = column_of(scale, x, event);
        if next != x {
            number = 0;
        }
        number = number.saturating_add(worth_of(measure, scale, jobs, event));
        most = number.max(most);
        x = next;
    }
    most
}

/// Appends the towers of all columns as an area, behind its front.
pub fn put_towers(
    sheet: &mut Sheet,
    front: &[u8],
    outline: &Outline,
    jobs: &[Seen],
    run: &[PackedEvent],
) -> Result<(), Memory> {
    sheet.put_text(front)?;
    let mut x = 90;
    let mut number = 0u64;
    for event in run {
        let next = column_of(sheet.scale, x, event);
        if next != x {
            put_tower(sheet, outline, x, number)?;
            number = 0;
        }
        number = number.saturating_add(worth_of(outline.measure, sheet.scale, jobs, event));
        x = next;
    }
    put_tower(sheet, outline, x, number)?;
    sheet.put_end()
}

/// Appends the tower of a number, from the base up, where it has a height.
fn put_tower(sheet: &mut Sheet, outline: &Outline, x: u64, number: u64) -> Result<(), Memory> {
    let base = outline.base;
    let y = outline.rise(number);
    if base == y {
        return Ok(());
    }
    sheet.put(b"M@ @V@h6V@", &[x, base, y, base])
}
