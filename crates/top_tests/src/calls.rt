//! Calls over ports in memory, as the program makes them.
ghost use Rattle.std.specs.Prelude.{◌≡◌, ◌<◌};

use comparison_count::Comparisons;
use dover_port::{MemoryPort, Status};
use dover_top::dover;
use help_words::help_word;
use std::alloc::{AllocError, Global};
use std::marker::Brand;
use std::sync::ledger::{Blank, Ledger};

/// One call of `dover` over a port, with a ledger of its own.
fn answer_in<L: Ledger>(
    rt: &HostRuntime,
    words: &[String],
    port: &mut MemoryPort,
    blank: Blank,
) -> Status
    requires name { blank.name ≡ L.name }
    requires parts { blank.parts ≡ L.parts }
    requires some { 0 < blank.parts }
{
    let mut comparisons = Comparisons::<L>::new(rt.memory(), blank);
    dover(rt.alloc(), words, port, &mut comparisons)
}

/// What words come to over a port: of `dover`, and where they ask for nothing there, of `help_word`.
pub(crate) fn answer(rt: &HostRuntime, words: &[String], port: &mut MemoryPort) -> Status {
    match answer_in::<Brand>(rt, words, port, Blank::new(1)) {
        Status::Usage => help_word(rt.alloc(), words, port),
        status => status,
    }
}

/// How a port gives its input and fails.
#[derive(Clone, Copy)]
pub(crate) struct Cut {
    /// The bytes of a piece, and with a seed above 0 those of the first, before it draws others.
    pub(crate) piece: usize,
    pub(crate) seed: usize,
    /// The read and the write that fail, from 1 on, and 0 for none.
    pub(crate) read: u32,
    pub(crate) write: u32,
    /// The bytes that a write takes at most.
    pub(crate) most: usize,
}

/// The whole input in one piece, and no call that fails.
pub(crate) const AT_ONCE: Cut = Cut {
    piece: 4096,
    seed: 0,
    read: 0,
    write: 0,
    most: 4096,
};

/// How each input is cut: pieces of so many bytes, or with a seed above 0 of as many as it draws.
pub(crate) const CUTS: [Cut; 4] = [
    AT_ONCE,
    Cut {
        piece: 1,
        ..AT_ONCE
    },
    Cut {
        piece: 7,
        seed: 3,
        ..AT_ONCE
    },
    Cut {
        piece: 13,
        seed: 11,
        ..AT_ONCE
    },
];

/// The bytes in pieces of so many, or with a seed above 0 in pieces of 1 to 23 bytes that it draws.
fn pieces(alloc: Global, bytes: &[u8], cut: Cut) -> Result<Vec<Vec<u8>>, AllocError> {
    let mut pieces = Vec::new(alloc);
    let mut piece = Vec::new(alloc);
    let mut size = cut.piece;
    for byte in bytes {
        piece.push(*byte)?;
        if piece.len() >= size {
            pieces.push(piece)?;
            piece = Vec::new(alloc);
            if cut.seed > 0 {
                size = (size % 23 * 5 + cut.seed % 23) % 23 + 1;
            }
        }
    }
    pieces.push(piece)?;
    Ok(pieces)
}

/// A port over the bytes.
pub(crate) fn port(alloc: Global, bytes: &[u8], cut: Cut) -> Result<MemoryPort, AllocError> {
    let script = pieces(alloc, bytes, cut)?;
    let reads = vec![in alloc; cut.read]?;
    let writes = vec![in alloc; cut.write]?;
    MemoryPort::new(alloc, script, reads, writes, cut.most.max(1), 65_536).map_err(|_| AllocError)
}
