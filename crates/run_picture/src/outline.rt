//! The values so far, as outlines.
use crate::scale::{Scale, scaled};
use crate::seen::{Seen, value_of};
use crate::sheet::Sheet;
use dover_model::{Event, Memory, PackedEvent};

/// What is measured.
#[derive(Clone, Copy)]
pub enum Measure {
    /// The value of the jobs that completed.
    Completed,
    /// The value of the jobs that completed or were abandoned.
    Decided,
}

/// How values are drawn.
#[derive(Clone, Copy)]
pub struct Outline {
    /// What is measured.
    pub measure: Measure,
    /// In 200 columns, and not by pixels.
    pub coarse: bool,
    /// The number that is 110 pixels high.
    pub most: u64,
    /// The pixel of 0.
    pub base: u64,
}

impl Outline {
    /// The pixel at the height of a number.
    pub fn rise(&self, number: u64) -> u64 {
        self.base.saturating_sub(scaled(number, self.most, 110))
    }
}

/// The tick of a step.
pub fn tick_of(event: &PackedEvent) -> u64 {
    match event.event() {
        Event::Release { job, .. } => job.release(),
        Event::Run { at, .. } => at,
        Event::Preempt { at, .. } => at,
        Event::Take { at, .. } => at,
        Event::Complete { at, .. } => at,
        Event::Abandon { at, .. } => at,
        Event::End { .. } => 0,
    }
}

/// What a step adds to what is measured, if its tick is shown.
pub fn worth_of(measure: Measure, scale: Scale, jobs: &[Seen], event: &PackedEvent) -> u64 {
    if !scale.has(tick_of(event)) {
        return 0;
    }
    match event.event() {
        Event::Complete { number, .. } => value_of(jobs, number),
        Event::Abandon { number, .. } => match measure {
            Measure::Completed => 0,
            Measure::Decided => value_of(jobs, number),
        },
        _ => 0,
    }
}

/// What is measured in all.
pub fn total(measure: Measure, scale: Scale, jobs: &[Seen], run: &[PackedEvent]) -> u64 {
    let mut number = 0u64;
    for event in run {
        number = number.saturating_add(worth_of(measure, scale, jobs, event));
    }
    number
}

/// The pixel of a step, never before pixel x.
fn pixel_of(coarse: bool, scale: Scale, x: u64, event: &PackedEvent) -> u64 {
    if coarse {
        return scale.column_at(tick_of(event)).max(x);
    }
    scale.x_at(tick_of(event)).max(x)
}

/// Appends what is measured so far as an area, behind a front that ends with the place of its base.
pub fn put_outline(
    sheet: &mut Sheet,
    front: &[u8],
    outline: &Outline,
    jobs: &[Seen],
    run: &[PackedEvent],
) -> Result<(), Memory> {
    sheet.put(front, &[outline.base])?;
    let mut x = 90;
    let mut number = 0u64;
    for event in run {
        let next = pixel_of(outline.coarse, sheet.scale, x, event);
        if next != x {
            put_stair(sheet, outline.rise(number), next)?;
        }
        number = number.saturating_add(worth_of(outline.measure, sheet.scale, jobs, event));
        x = next;
    }
    put_last(sheet, outline.rise(number), outline.base)
}

/// Appends a stair up to a height and right to a pixel.
pub fn put_stair(sheet: &mut Sheet, y: u64, next: u64) -> Result<(), Memory> {
    sheet.put(b"V@H@", &[y, next])
}

/// Appends the last stair, up to a height, right to the end and down, and the end of the area.
pub fn put_last(sheet: &mut Sheet, y: u64, base: u64) -> Result<(), Memory> {
    sheet.put(b"V@H1290V@Z'/>\n", &[y, base])
}
