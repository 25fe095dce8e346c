//! A port over a reader and a writer, as standard input and output are.
ghost use Rattle.std.specs.Prelude.{◌≡◌, IfSome, IsSome, Some};
ghost use Rattle.std.proofs.Props.{props};
ghost use Rattle.dover_port.specs.Moves.{outs};
ghost use Rattle.dover_port.specs.Told.{begun, left_of};
ghost use Rattle.dover_port.specs.declared.calls.Calls.TheVariants.{Well};

use crate::counted::Counted;
use crate::told::Told;
use crate::{Calls, Failed, Port};
use std::io::{Read, Write};

/// A port over any reader and any writer. Where the reader tells its bytes, and the writer too and holds none yet, the
/// port tells its moves: what was read is what the reader lost, and what was put is what the writer holds.
#[derive(Drop)]
pub struct StreamPort<I: Read + Drop, O: Write + Drop> {
    input: Counted<I>,
    output: Counted<O>,
    told: Told,
    calls: Calls,
    ghost reader_tells: { IfSome told.moves (λ _. IsSome (I.remaining input.stream)) } by { Prim.hlevel props },
    ghost writer_holds: { IfSome told.moves (λ moves. O.contents output.stream ≡ Some (outs moves)) } by { Prim.hlevel props },
}

impl<I: Read + Drop, O: Write + Drop> StreamPort<I, O> {
    /// Nothing was read or written yet.
    pub fn new(input: I, output: O) -> StreamPort<I, O>
        ensures moves { ⟦<StreamPort<I, O> as Port>⟧.moves result ≡ begun (I.remaining input) (O.contents output) }
        ensures left { ⟦<StreamPort<I, O> as Port>⟧.left result
            ≡ left_of (begun (I.remaining input) (O.contents output)) (I.remaining input) }
        ensures reads { ⟦<StreamPort<I, O> as Port>⟧.read_faults result ≡ 0 }
        ensures writes { ⟦<StreamPort<I, O> as Port>⟧.write_faults result ≡ 0 }
        ensures calls { ⟦<StreamPort<I, O> as Port>⟧.calls result ≡ Well }
    {
        let told = Told::begin(&input, &output);
        StreamPort {
            input: Counted {
                stream: input,
                faults: 0,
            },
            output: Counted {
                stream: output,
                faults: 0,
            },
            told,
            calls: Calls::Well,
        }
    }

    /// The writer: it holds what was put.
    pub fn output(&self) -> &O
        ensures { IfSome (⟦<StreamPort<I, O> as Port>⟧.moves self.now)
            (λ moves. O.contents result.now ≡ Some (outs moves)) }
    {
        &self.output.stream
    }
}

impl<I: Read + Drop, O: Write + Drop> Port for StreamPort<I, O> {
    ghost moves = { λ p. p.told.moves };

    ghost left = { λ p. left_of p.told.moves (I.remaining p.input.stream) };

    ghost read_faults = { λ p. p.input.faults };

    ghost write_faults = { λ p. p.output.faults };

    ghost calls = { λ p. p.calls };

    fn read(&mut self, buf: &mut [u8]) -> Result<usize, Failed> {
        match self.input.read(buf) {
            Ok(count) => {
                self.told = self.told.and_read(&buf[..count]);
                self.calls = self.calls.and_one();
                Ok(count)
            }
            Err(failed) => {
                self.calls = self.calls.and_a_failed();
                Err(failed)
            }
        }
    }

    fn write(&mut self, bytes: &[u8]) -> Result<usize, Failed> {
        match self.output.write(bytes) {
            Ok(count) => {
                self.told = self.told.and_put(&bytes[..count]);
                self.calls = self.calls.and_one();
                Ok(count)
            }
            Err(failed) => {
                self.calls = self.calls.and_a_failed();
                Err(failed)
            }
        }
    }
}
