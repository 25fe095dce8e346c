//! Streams that fail once. No clause of a reader or a writer tells how often it was called, so that a call that failed
//! isn't made again is tried.
ghost use Rattle.std.specs.Prelude.{◌≡◌, IfOk};

use dover_port::{Port, StreamPort, put_all};
use std::io;
use std::io::{Read, Write};

/// A reader and a writer whose first call fails, and no other.
#[derive(Drop)]
struct FailsOnce {
    calls: u32,
}

impl FailsOnce {
    /// One call more, which moves so many bytes if it doesn't fail.
    fn answer(&mut self, count: usize) -> io::Result<usize>
        ensures { IfOk result (λ n. n ≡ count) }
    {
        self.calls = self.calls.saturating_add(1);
        if self.calls == 1 {
            return Err(io::Error::from(io::ErrorKind::Interrupted));
        }
        Ok(count)
    }
}

impl Read for FailsOnce {
    fn read(&mut self, buf: &mut [u8]) -> io::Result<usize> {
        self.answer(buf.len())
    }
}

impl Write for FailsOnce {
    fn write(&mut self, buf: &[u8]) -> io::Result<usize> {
        self.answer(buf.len())
    }

    fn flush(&mut self) -> io::Result<()> {
        Ok(())
    }
}

/// A port over such streams, of which no call was made.
fn failing() -> StreamPort<FailsOnce, FailsOnce> {
    StreamPort::new(FailsOnce { calls: 0 }, FailsOnce { calls: 0 })
}

/// Whether the port fails where its reader does.
fn fails_at_a_read() -> bool {
    let mut port = failing();
    let mut buf = [0; 8];
    port.read(&mut buf).is_err()
}

/// Whether the port fails where its writer does, which is called once.
fn fails_at_a_write() -> bool {
    let mut port = failing();
    put_all(&mut port, b"end 0\n").is_err() && port.output().calls == 1
}

#[test]
fn no_failed_call_is_made_again(rt: HostRuntime) {
    assert!(rt; fails_at_a_read());
    assert!(rt; fails_at_a_write());
}
