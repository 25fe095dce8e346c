//! What was read last, line by line.
use std::alloc::{AllocError, Global};

/// A line may have 128 bytes: so much of one tells that it has more.
const LINE_BYTES: usize = 160;

/// Lines behind so many aren't told: to count the lines of a long input would take longer than to read them.
const MOST_LINES: u64 = 10_000;

/// The bytes of the last read, behind those of the line that the reads before it had left unended.
#[derive(Drop)]
pub(crate) struct Kept {
    text: Vec<u8>,
    rest: Vec<u8>,
    /// The number of the first line of the text, from 1 on.
    first: u64,
    /// There was no memory for a piece, or there were too many lines, so nothing is known of lines any more.
    lost: bool,
}

/// How many lines of a text are ended.
fn lines_of(text: &[u8]) -> u64 {
    let mut lines: u64 = 0;
    for byte in text {
        lines = lines.wrapping_add(u64::from(*byte == b'\n'));
    }
    lines
}

/// The front of the line that a text leaves unended.
fn unended(text: &[u8]) -> &[u8] {
    let rest = text.rsplit(|byte| *byte == b'\n').next().unwrap_or(text);
    rest.get(..LINE_BYTES).unwrap_or(rest)
}

impl Kept {
    pub(crate) fn new(alloc: Global) -> Kept {
        Kept {
            text: Vec::new(alloc),
            rest: Vec::new(alloc),
            first: 1,
            lost: false,
        }
    }

    /// Keeps what one more read gave.
    pub(crate) fn add(&mut self, piece: &[u8]) {
        if self.first > MOST_LINES {
            self.lost = true;
        } else if self.keep(piece).is_err() {
            self.lost = true;
        }
    }

    fn keep(&mut self, piece: &[u8]) -> Result<(), AllocError> {
        self.first = self.first.saturating_add(lines_of(self.text.as_slice()));
        self.rest.clear();
        self.rest.extend_from_slice(unended(self.text.as_slice()))?;
        self.text.clear();
        self.text.extend_from_slice(self.rest.as_slice())?;
        self.text.extend_from_slice(piece)
    }

    /// Line `number` of the input, from 1 on, without its end, where it is kept.
    pub(crate) fn line(&self, number: u64) -> Option<&[u8]> {
        if self.lost {
            return None;
        }
        let mut at = self.first;
        for line in self.text.as_slice().split(|byte| *byte == b'\n') {
            if at == number {
                return Some(line);
            }
            at = at.saturating_add(1);
        }
        None
    }
}
