//! One call of a stream, and the count of those that failed.
ghost use Rattle.std.specs.Prelude.{◌≡◌, ◌<◌, ◌≤◌, length, IfOk, OnOk, OnErr};
ghost use Rattle.std.specs.Io.KnownBytes.{ReadConsumes, WriteAppends};
ghost use Rattle.dover_port.specs.Causes.{Rose};

use crate::Failed;
use std::io::{Read, Write};

/// A stream, and how often a call of it has failed.
#[derive(Drop)]
pub(crate) struct Counted<S> {
    pub(crate) stream: S,
    pub(crate) faults: u64,
}

impl<I: Read> Counted<I> {
    /// Reads once. 0 is the end of input.
    #[inline(always)]
    pub(crate) fn read(&mut self, buf: &mut [u8]) -> Result<usize, Failed>
        ensures bound { IfOk result (λ n. n ≤ length buf.new) }
        ensures bytes { ReadConsumes (I.remaining self.old.stream) (I.remaining self.new.stream) result buf.new }
        ensures later { self.old.faults ≤ self.new.faults }
        ensures ok { OnOk result (self.new.faults ≡ self.old.faults) }
        ensures failed { OnErr result (Rose self.old.faults self.new.faults) }
    {
        match self.stream.read(buf) {
            Ok(count) => Ok(count),
            Err(_) => {
                self.faults = self.faults.saturating_add(1);
                Err(Failed)
            }
        }
    }
}

impl<O: Write> Counted<O> {
    /// Writes once. A write that takes none of the bytes has failed.
    #[inline(always)]
    pub(crate) fn write(&mut self, bytes: &[u8]) -> Result<usize, Failed>
        requires { 0 < length bytes.now }
        ensures some { IfOk result (λ n. 0 < n) }
        ensures bound { IfOk result (λ n. n ≤ length bytes.now) }
        ensures bytes { WriteAppends (O.contents self.old.stream) (O.contents self.new.stream) result bytes.now }
        ensures later { self.old.faults ≤ self.new.faults }
        ensures ok { OnOk result (self.new.faults ≡ self.old.faults) }
        ensures failed { OnErr result (Rose self.old.faults self.new.faults) }
    {
        match self.stream.write(bytes) {
            Ok(count) if count > 0 => Ok(count),
            _ => {
                self.faults = self.faults.saturating_add(1);
                Err(Failed)
            }
        }
    }
}
