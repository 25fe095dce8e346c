//! What a port tells of its moves. It takes no bytes and its functions do nothing when the program runs.
ghost use Rattle.std.specs.Prelude.{◌≡◌, List, Option};
ghost use Rattle.std.specs.Borrow.{ftrue};
ghost use Rattle.dover_port.specs.Moves.{Move, read_move};
ghost use Rattle.dover_port.specs.Moves.Move.{Put};
ghost use Rattle.dover_port.specs.Told.{begun, grown, told_code};

use std::io::{Read, Write};
use std::marker::Model;

/// The moves of a port so far, where it tells them.
#[derive(Drop)]
pub(crate) struct Told {
    ghost moves: { Option (List Move) } by { told_code },
}

impl Model for Told {
    ghost also_owns = { λ _. ftrue };
}

impl Told {
    /// Before the first call of a port over these streams.
    #[inline(always)]
    pub(crate) fn begin<I: Read, O: Write>(_input: &I, _output: &O) -> Told
        ensures { result.moves ≡ begun (I.remaining _input.now) (O.contents _output.now) }
    {
        Told {}
    }

    /// After a read that gave these bytes.
    #[inline(always)]
    pub(crate) fn and_read(&self, _bytes: &[u8]) -> Told
        ensures { result.moves ≡ grown self.now.moves (read_move _bytes.now) }
    {
        Told {}
    }

    /// After a write that took these bytes.
    #[inline(always)]
    pub(crate) fn and_put(&self, _bytes: &[u8]) -> Told
        ensures { result.moves ≡ grown self.now.moves (Put _bytes.now) }
    {
        Told {}
    }
}
