//! The end of what was written.
use std::alloc::{AllocError, Global};

/// So many bytes of an output hold its last line.
const ANSWER_BYTES: usize = 200;

/// The last bytes of the last two writes.
#[derive(Drop)]
pub(crate) struct Tail {
    last: Vec<u8>,
    before: Vec<u8>,
}

/// The last bytes of a text.
fn end_of(text: &[u8]) -> &[u8] {
    match text.len().checked_sub(ANSWER_BYTES) {
        Some(from) => text.get(from..).unwrap_or(text),
        None => text,
    }
}

impl Tail {
    pub(crate) fn new(alloc: Global) -> Tail {
        Tail {
            last: Vec::new(alloc),
            before: Vec::new(alloc),
        }
    }

    /// Keeps the end of one more write. Where there is no memory for it nothing of it is kept.
    pub(crate) fn add(&mut self, piece: &[u8]) {
        std::mem::swap(&mut self.before, &mut self.last);
        self.last.clear();
        let _ = self.last.extend_from_slice(end_of(piece));
    }

    /// The last line, without its end, if it is text.
    pub(crate) fn last_line(&self, alloc: Global) -> Result<String, AllocError> {
        let mut bytes = Vec::from_slice(alloc, self.before.as_slice())?;
        bytes.extend_from_slice(self.last.as_slice())?;
        let mut last: &[u8] = &[];
        for line in bytes.as_slice().split(|byte| *byte == b'\n') {
            if !line.is_empty() {
                last = line;
            }
        }
        String::from_str(alloc, std::str::from_utf8(last).unwrap_or(""))
    }
}
