//! Bytes on their way out.
ghost use Rattle.std.specs.Prelude.{◌≡◌, ◌≤◌, ◌+◌, ◌↔◌, ◌++◌, ℕ, List, [], length, take, OnOk, OnErr, IsTrue};
ghost use Rattle.dover_port.specs.Causes.{HasCause, StopsAtFailure};
ghost use Rattle.dover_port.specs.Moves.{PutsThrough};

use crate::{Failed, Port, put_all};
use block_copy::copy_short;
use std::marker::Model;

/// How many bytes an `Output` keeps back at most.
pub const OUTPUT_BYTES: usize = 65_536;

/// Bytes that are due and not yet put. They are put together when there is no room for more, and when `flush` is
/// called.
#[derive(Drop)]
pub struct Output {
    bytes: [u8; OUTPUT_BYTES],
    used: usize,
}

impl Model for Output {
    ghost Value = { List ℕ };

    ghost view = { λ o. take o.used o.bytes };

    ghost invariant = { λ o. o.used ≤ 65536 };
}

impl Output {
    /// Nothing is kept back.
    pub fn new() -> Output
        ensures { result ≡ [] }
    {
        Output {
            bytes: [0; OUTPUT_BYTES],
            used: 0,
        }
    }

    /// Puts all that is kept back.
    ///
    /// # Errors
    ///
    /// `Failed` where a write failed: a front of it was put, and not all.
    #[inline(never)]
    pub fn flush<P: Port>(&mut self, port: &mut P) -> Result<(), Failed>
        ensures text { PutsThrough (P.moves port.old) (P.moves port.new) result self.old [] [] }
        ensures empty { OnOk result (self.new ≡ []) }
        ensures same { OnErr result (self.new ≡ self.old) }
        ensures cause { HasCause (P.write_faults port.old) (P.write_faults port.new) (P.read_faults port.old)
            (P.read_faults port.new) result }
        ensures stops { StopsAtFailure (P.calls port.old) (P.calls port.new) result }
    {
        match put_all(port, &self.bytes[..self.used]) {
            Ok(()) => {
                self.used = 0;
                Ok(())
            }
            Err(failed) => Err(failed),
        }
    }

    /// Whether there is room for so many more bytes.
    fn has_room(&self, more: usize) -> bool
        ensures { IsTrue result ↔ (length self.now + more ≤ OUTPUT_BYTES) }
    {
        more <= OUTPUT_BYTES - self.used
    }

    /// Keeps the bytes back.
    #[inline(always)]
    fn keep(&mut self, bytes: &[u8])
        requires { length self.old + length bytes.now ≤ OUTPUT_BYTES }
        ensures { self.new ≡ self.old ++ bytes.now }
    {
        let end = self.used + bytes.len();
        copy_short(&mut self.bytes[self.used..end], bytes);
        self.used = end;
    }

    /// Puts the bytes, or keeps them back for later. There may be at most `OUTPUT_BYTES`.
    ///
    /// # Errors
    ///
    /// `Failed` where a write failed: a front of what was kept back and of the bytes was put, and not all.
    #[inline(always)]
    pub fn put<P: Port>(&mut self, port: &mut P, bytes: &[u8]) -> Result<(), Failed>
        requires { length bytes.now ≤ OUTPUT_BYTES }
        ensures text { PutsThrough (P.moves port.old) (P.moves port.new) result self.old self.new bytes.now }
        ensures same { OnErr result (self.new ≡ self.old) }
        ensures cause { HasCause (P.write_faults port.old) (P.write_faults port.new) (P.read_faults port.old)
            (P.read_faults port.new) result }
        ensures stops { StopsAtFailure (P.calls port.old) (P.calls port.new) result }
    {
        if !self.has_room(bytes.len()) {
            match self.flush(port) {
                Ok(()) => {}
                Err(failed) => return Err(failed),
            }
        }
        self.keep(bytes);
        Ok(())
    }
}
