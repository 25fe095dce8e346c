//! The processor: its pieces, and their bars.
use crate::seen::Seen;
use crate::sheet::Sheet;
use crate::sizes::room;
use dover_model::{Event, Memory, PackedEvent, Piece};

/// The job that has the processor, from a tick on.
#[derive(Clone, Copy)]
struct Runner {
    number: u32,
    from: u64,
}

/// Who has the processor, while steps are read.
#[derive(Clone, Copy)]
pub struct Processor {
    on: Option<Runner>,
}

impl Processor {
    /// Nobody has it.
    pub fn new() -> Processor {
        Processor { on: None }
    }

    /// Reads a step, and tells the piece that it ends, if it isn't empty.
    pub fn read(&mut self, event: &PackedEvent) -> Option<Piece> {
        match event.event() {
            Event::Run { at, number } => self.give(at, number),
            Event::Preempt { at, starts, .. } => self.give(at, starts),
            Event::Take { at, starts, .. } => self.give(at, starts),
            Event::Complete { at, .. } => self.free(at),
            Event::Abandon { at, number } => {
                if self.runs(number) {
                    return self.free(at);
                }
                None
            }
            _ => None,
        }
    }

    /// This job has it.
    fn runs(&self, number: u32) -> bool {
        match self.on {
            Some(runner) => runner.number == number,
            None => false,
        }
    }

    /// This job gets it.
    fn give(&mut self, at: u64, number: u32) -> Option<Piece> {
        let piece = self.free(at);
        self.on = Some(Runner { number, from: at });
        piece
    }

    /// Nobody has it any more.
    fn free(&mut self, at: u64) -> Option<Piece> {
        let runner = self.on?;
        self.on = None;
        if runner.from < at {
            return Some(Piece {
                from: runner.from,
                until: at,
                number: runner.number,
            });
        }
        None
    }
}

/// Appends the strip of the processor, with bars so long at least, and numbers in it where there is room.
pub fn put_strip(
    sheet: &mut Sheet,
    least: u64,
    jobs: &[Seen],
    run: &[PackedEvent],
) -> Result<(), Memory> {
    sheet.put_text(
        b"<text class='r' x='82' y='91'>processor</text>\n\
        <rect class='f' x='90' y='76' width='1200' height='22'/>\n",
    )?;
    put_colored(sheet, least, b'c', jobs, run)?;
    put_colored(sheet, least, b't', jobs, run)?;
    put_colored(sheet, least, b'l', jobs, run)?;
    put_numbers(sheet, run)
}

/// Appends the bars of the pieces of jobs of this color.
fn put_colored(
    sheet: &mut Sheet,
    least: u64,
    color: u8,
    jobs: &[Seen],
    run: &[PackedEvent],
) -> Result<(), Memory> {
    sheet.put_bars(color, 22)?;
    let mut processor = Processor::new();
    for event in run {
        if let Some(piece) = processor.read(event) {
            put_piece(sheet, least, color, jobs, piece)?;
        }
    }
    sheet.put_end()
}

/// Appends the bar of a piece, if its job has this color and it is shown.
fn put_piece(
    sheet: &mut Sheet,
    least: u64,
    color: u8,
    jobs: &[Seen],
    piece: Piece,
) -> Result<(), Memory> {
    let Some(job) = jobs.get(piece.number as usize) else {
        return Ok(());
    };
    if job.tint() == color && sheet.scale.meets(piece.from, piece.until) {
        return sheet.put_bar(least, piece.from, piece.until, 87);
    }
    Ok(())
}

/// Appends the numbers of the jobs of pieces as one group, where there is room.
fn put_numbers(sheet: &mut Sheet, run: &[PackedEvent]) -> Result<(), Memory> {
    sheet.put_text(b"<g class='i'>\n")?;
    let mut processor = Processor::new();
    for event in run {
        if let Some(piece) = processor.read(event) {
            put_number(sheet, piece)?;
        }
    }
    sheet.put_text(b"</g>\n")
}

/// Appends the number of a piece's job in its middle, where there is room.
fn put_number(sheet: &mut Sheet, piece: Piece) -> Result<(), Memory> {
    let number = u64::from(piece.number);
    let long = sheet.scale.pixels(piece.from, piece.until);
    if room(0, &[number]) <= long {
        let middle = sheet.scale.x_at(piece.from) + long / 2;
        return sheet.put(b"<text x='@' y='91'>@</text>\n", &[middle, number]);
    }
    Ok(())
}
