//! The reading loop.
ghost use Rattle.std.specs.Prelude.{◌≡◌, ℕ, List, [], true, OnOk, OnErr, Ok};
ghost use Rattle.dover_port.specs.Causes.{Causes, HasCause, StopsAtFailure, StopsWith};
ghost use Rattle.dover_port.specs.Moves.{Since, PutsThrough, ins};
ghost use Rattle.dialogue.specs.Talk.{Talks, CanEnd};
ghost use Rattle.dialogue.specs.Turns.{joined, HearsBy, StopCause, StopsOn, ReadsBy, StandsBy, ReadCauses, ReadStops};

use crate::{Stop, Talker};
use dover_port::{Failed, Output, Port, Status};
use line_text::BackLine;

/// How many bytes a read asks for.
const READ_BYTES: usize = 65_536;

/// Puts all that is left to give, each part through `part`.
fn give<P: Port, T: Talker>(
    port: &mut P,
    out: &mut Output,
    talker: &mut T,
    meter: &mut T::Meter,
    part: &mut BackLine,
) -> Result<(), Failed>
    requires { (a : T.about) × (x : List ℕ) × (rest : List (List ℕ)) × T.stands a talker.old meter.old x rest }
    ensures text { (a : T.about) (x : List ℕ) (rest : List (List ℕ)) → T.stands a talker.old meter.old x rest →
        PutsThrough (P.moves port.old) (P.moves port.new) result out.old out.new (joined rest) }
    ensures ready { (a : T.about) (x : List ℕ) (rest : List (List ℕ)) → T.stands a talker.old meter.old x rest →
        OnOk result (T.ready a talker.new meter.new x) }
    ensures left { (a : T.about) (x : List ℕ) (rest : List (List ℕ)) → T.stands a talker.old meter.old x rest →
        OnErr result ((more : List (List ℕ)) × T.stands a talker.new meter.new x more) }
    ensures cause { HasCause
        (P.write_faults port.old) (P.write_faults port.new) (P.read_faults port.old) (P.read_faults port.new) result }
    ensures stops { StopsAtFailure (P.calls port.old) (P.calls port.new) result }
{
    T::laws();
    for _ in 0..u64::MAX {
        if !talker.next_part(meter, part) {
            return Ok(());
        }
        match out.put(port, part.bytes()) {
            Ok(()) => {}
            Err(failed) => return Err(failed),
        }
    }
    unreachable!()
}

/// Takes a piece of the input, up to what ends the talk, and puts what is due for it. Whether the talk goes on.
fn hear<P: Port, T: Talker>(
    port: &mut P,
    out: &mut Output,
    talker: &mut T,
    meter: &mut T::Meter,
    piece: &[u8],
) -> Result<bool, Stop>
    requires { (a : T.about) × (x : List ℕ) × T.ready a talker.old meter.old x × ((T.talk a).goes_on x ≡ true) }
    ensures hears { (a : T.about) (x : List ℕ) → T.ready a talker.old meter.old x → (T.talk a).goes_on x ≡ true →
        HearsBy (T.talk a) (T.ready a talker.new meter.new) (T.costs a meter.new) x piece.now
        (P.moves port.old) (P.moves port.new) out.old out.new result }
    ensures cause { StopCause result
        (P.write_faults port.old) (P.write_faults port.new) (P.read_faults port.old) (P.read_faults port.new) }
    ensures stops { StopsOn result (P.calls port.old) (P.calls port.new) }
{
    T::laws();
    let mut part = BackLine::new();
    let mut rest = piece;
    while !rest.is_empty() {
        let Ok(count) = talker.take(meter, rest) else {
            return Err(Stop::NoMemory);
        };
        rest = &rest[count..];
        match give(port, out, talker, meter, &mut part) {
            Ok(()) => {}
            Err(_) => return Err(Stop::Unwritten),
        }
        if !talker.goes_on(meter) {
            return Ok(false);
        }
    }
    Ok(true)
}

/// Reads until no more is to be read, and says whether the input has ended. An `Err`: the status of a failure.
fn read_all<P: Port, T: Talker>(
    port: &mut P,
    out: &mut Output,
    talker: &mut T,
    meter: &mut T::Meter,
) -> Result<bool, Status>
    requires empty { out.old ≡ [] }
    requires ready { (a : T.about) × T.ready a talker.old meter.old [] }
    ensures reads { (a : T.about) → T.ready a talker.old meter.old [] → Since (P.moves port.old) (P.moves port.new)
        (ReadsBy result (T.talk a) (T.ready a talker.new meter.new) (T.costs a meter.new)) }
    ensures stands { (a : T.about) → T.ready a talker.old meter.old [] →
        StandsBy result (T.talk a) (T.ready a talker.new meter.new) out.new }
    ensures causes { ReadCauses result
        (P.read_faults port.old) (P.read_faults port.new) (P.write_faults port.old) (P.write_faults port.new) }
    ensures stops { ReadStops result (P.calls port.old) (P.calls port.new) }
{
    T::laws();
    let mut buf = [0u8; READ_BYTES];
    for _ in 0..u64::MAX {
        let Ok(count) = port.read(&mut buf) else {
            return Err(Status::ReadFault);
        };
        if count == 0 {
            return Ok(true);
        }
        let more = match hear(port, out, talker, meter, &buf[..count]) {
            Ok(more) => more,
            Err(Stop::NoMemory) => return Err(Status::Memory),
            Err(Stop::Unwritten) => return Err(Status::WriteFault),
        };
        match out.flush(port) {
            Ok(()) => {}
            Err(_) => return Err(Status::WriteFault),
        }
        if !more {
            return Ok(false);
        }
    }
    unreachable!()
}

/// Reads while the talk goes on, and puts what is due for the bytes got before each read; at the end puts the answer.
/// A read asks for up to 65,536 bytes, and what is due for them is put together. It takes no memory of its own.
///
/// The status is that of the answer, and else `ReadFault` or `WriteFault` where the port failed, which is then the last
/// call, and `Memory` where the talker had none.
pub fn converse<P: Port, T: Talker>(port: &mut P, mut talker: T, meter: &mut T::Meter) -> Status
    requires { (a : T.about) × T.ready a talker meter.old [] }
    ensures talks { (a : T.about) → T.ready a talker meter.old [] → Since (P.moves port.old) (P.moves port.new)
        (λ moves. Talks (T.talk a) result moves × T.costs a meter.new (ins moves)) }
    // Whatever the port tells.
    ensures ends { (a : T.about) → T.ready a talker meter.old [] → CanEnd (Talks (T.talk a)) result }
    ensures causes { Causes result
        (P.read_faults port.old) (P.read_faults port.new) (P.write_faults port.old) (P.write_faults port.new) }
    ensures stops { StopsWith result (P.calls port.old) (P.calls port.new) }
{
    T::laws();
    let mut out = Output::new();
    let ended = match read_all(port, &mut out, &mut talker, meter) {
        Ok(ended) => ended,
        Err(status) => return status,
    };
    let status = match talker.answer(meter, port, &mut out, ended) {
        Ok(status) => status,
        Err(Stop::NoMemory) => return Status::Memory,
        Err(Stop::Unwritten) => return Status::WriteFault,
    };
    match out.flush(port) {
        Ok(()) => status,
        Err(_) => Status::WriteFault,
    }
}
