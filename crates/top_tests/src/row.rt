//! A row of the table: words, what is read, what is written, and how the call ends.
use crate::calls::{CUTS, Cut, answer, port};
use crate::table::reads_back;
use dover_port::{Calls, MemoryPort};
use std::alloc::{AllocError, Global};

/// How many rows were tried, how many of them went otherwise, and the number of the first of those, from 1 on.
#[derive(Clone, Copy)]
pub(crate) struct RowTally {
    pub(crate) rows: u64,
    pub(crate) wrong: u64,
    pub(crate) first: u64,
}

impl RowTally {
    /// After one more row.
    pub(crate) fn and(self, holds: bool) -> RowTally {
        let rows = self.rows.saturating_add(1);
        if holds {
            return RowTally { rows, ..self };
        }
        RowTally {
            rows,
            wrong: self.wrong.saturating_add(1),
            first: if self.wrong == 0 { rows } else { self.first },
        }
    }
}

/// A row, as far as it was read, and what came of those before it.
#[derive(Drop)]
pub(crate) struct Row {
    words: Vec<String>,
    input: Vec<u8>,
    output: Vec<u8>,
    cut: Option<Cut>,
    tally: RowTally,
}

/// Appends what stands behind a line's mark: a blank before it, or a point if no line feed follows it.
fn put_text(text: &mut Vec<u8>, rest: &[u8]) -> Result<(), AllocError> {
    match rest {
        [b'.', open @ ..] => text.extend_from_slice(open),
        [_, line @ ..] => {
            text.extend_from_slice(line)?;
            Ok(text.push(b'\n')?)
        }
        [] => Ok(text.push(b'\n')?),
    }
}

/// Appends a byte of words: a blank begins one, and `_` in one stands for a blank.
fn put_byte(alloc: Global, words: &mut Vec<String>, byte: u8) -> Result<(), AllocError> {
    if byte == b' ' {
        words.push(String::new(alloc))?;
    } else if let Some(word) = words.last_mut() {
        word.push(if byte == b'_' { ' ' } else { char::from(byte) })?;
    }
    Ok(())
}

/// Appends these words, each behind a blank.
fn put_words(alloc: Global, words: &mut Vec<String>, line: &[u8]) -> Result<(), AllocError> {
    for byte in line {
        put_byte(alloc, words, *byte)?;
    }
    Ok(())
}

/// The numbers of a line, each behind a blank, four at most.
fn numbers(line: &[u8]) -> [u32; 5] {
    let mut numbers = [0u32; 5];
    let mut place = 0usize;
    for byte in line {
        if *byte == b' ' {
            place = place.saturating_add(1).min(4);
        } else {
            let digit = u32::from(byte.saturating_sub(b'0'));
            numbers[place.min(4)] = numbers[place.min(4)]
                .saturating_mul(10)
                .saturating_add(digit);
        }
    }
    numbers
}

/// How a port gives its input and fails: the bytes of a piece, the read and the write that fail, and the bytes that a
/// write takes at most.
fn cut_of(line: &[u8]) -> Cut {
    let [_, piece, read, write, most] = numbers(line);
    Cut {
        piece: piece as usize,
        seed: 0,
        read,
        write,
        most: most as usize,
    }
}

/// Whether the port was called as it should be where the call ends so: no more once a call failed, and not at all for
/// words that ask for nothing.
fn stops(status: u32, port: &MemoryPort) -> bool {
    match status {
        3 | 4 => port.calls() == Calls::LastFailed,
        6 => port.taken().is_empty(),
        _ => true,
    }
}

impl Row {
    /// The first row, of which nothing was read.
    pub(crate) fn new(alloc: Global) -> Row {
        Row {
            words: Vec::new(alloc),
            input: Vec::new(alloc),
            output: Vec::new(alloc),
            cut: None,
            tally: RowTally {
                rows: 0,
                wrong: 0,
                first: 0,
            },
        }
    }

    /// What came of the rows so far.
    pub(crate) fn tally(&self) -> RowTally {
        self.tally
    }

    /// The next row, after one that holds or doesn't.
    fn begin_next(&mut self, holds: bool) {
        self.words.clear();
        self.input.clear();
        self.output.clear();
        self.cut = None;
        self.tally = self.tally.and(holds);
    }

    /// Whether the call over such a port ends so, and goes as the row says.
    fn holds_in(&self, rt: &HostRuntime, status: u32, cut: Cut) -> Result<bool, AllocError> {
        let mut port = port(rt.alloc(), &self.input, cut)?;
        let ended = answer(rt, &self.words, &mut port);
        let is_told = u32::from(ended.code()) == status && port.written() == self.output.as_slice();
        Ok(is_told && stops(status, &port))
    }

    /// Whether it does so in each cut.
    fn holds_in_each(
        &self,
        rt: &HostRuntime,
        status: u32,
        cuts: &[Cut],
    ) -> Result<bool, AllocError> {
        for cut in cuts {
            if !self.holds_in(rt, status, *cut)? {
                return Ok(false);
            }
        }
        Ok(true)
    }

    /// Whether the row's call ends so, and goes as the row says, and a table that it writes reads back.
    fn holds(&self, rt: &HostRuntime, status: u32) -> Result<bool, AllocError> {
        if self.output.starts_with(b"job,") && !reads_back(rt.alloc(), &self.input, &self.output)? {
            return Ok(false);
        }
        match self.cut {
            Some(cut) => self.holds_in(rt, status, cut),
            None => self.holds_in_each(rt, status, &CUTS),
        }
    }

    /// Reads one more line of the table. If it is the row's last, which says how its call ends, the row is tried, and
    /// the next one begins.
    pub(crate) fn read(&mut self, rt: &HostRuntime, line: &[u8]) -> Result<(), AllocError> {
        match line {
            [b'$', words @ ..] => put_words(rt.alloc(), &mut self.words, words),
            [b'>', text @ ..] => put_text(&mut self.input, text),
            [b'<', text @ ..] => put_text(&mut self.output, text),
            [b'!', text @ ..] => {
                self.cut = Some(cut_of(text));
                Ok(())
            }
            [b'=', text @ ..] => {
                let holds = self.holds(rt, numbers(text)[1])?;
                self.begin_next(holds);
                Ok(())
            }
            _ => Ok(()),
        }
    }
}
