//! A port that is watched.
use crate::answers::reasons;
use crate::kept::Kept;
use crate::tail::Tail;
use dover_port::{Failed, Port, Status};
use std::alloc::{AllocError, Global};

/// A port, and what it last read and wrote, so that what was wrong can be told. It is the port in all that is said of
/// ports. Where there is no memory for that, nothing is kept and nothing told.
#[derive(Drop)]
pub struct Watched<P: Port + Drop> {
    port: P,
    read: Kept,
    wrote: Tail,
}

impl<P: Port + Drop> Watched<P> {
    /// The port, of which nothing is kept yet.
    pub fn new(alloc: Global, port: P) -> Watched<P> {
        Watched {
            port,
            read: Kept::new(alloc),
            wrote: Tail::new(alloc),
        }
    }

    /// What is said of a run of these words that ended with this status: the lines of it, each with its end. Where the
    /// answer stands elsewhere than where this is said it begins with it.
    ///
    /// # Errors
    ///
    /// `AllocError` where there was no memory for the text.
    pub fn told(
        &self,
        alloc: Global,
        words: &[String],
        status: Status,
        elsewhere: bool,
    ) -> Result<String, AllocError> {
        let mut text = String::new(alloc);
        if status != Status::Refused && status != Status::No {
            return Ok(text);
        }
        let answer = self.wrote.last_line(alloc)?;
        reasons(&mut text, words, answer.as_str(), &self.read, elsewhere)?;
        Ok(text)
    }
}

impl<P: Port + Drop> Port for Watched<P> {
    ghost moves = { λ w. P.moves w.port };

    ghost left = { λ w. P.left w.port };

    ghost read_faults = { λ w. P.read_faults w.port };

    ghost write_faults = { λ w. P.write_faults w.port };

    ghost calls = { λ w. P.calls w.port };

    fn read(&mut self, buf: &mut [u8]) -> Result<usize, Failed> {
        match self.port.read(buf) {
            Ok(count) => {
                self.read.add(&buf[..count]);
                Ok(count)
            }
            Err(failed) => Err(failed),
        }
    }

    fn write(&mut self, bytes: &[u8]) -> Result<usize, Failed> {
        match self.port.write(bytes) {
            Ok(count) => {
                self.wrote.add(&bytes[..count]);
                Ok(count)
            }
            Err(failed) => Err(failed),
        }
    }
}
