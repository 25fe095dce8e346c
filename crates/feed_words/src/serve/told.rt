//! The answer of what was put.
ghost use Rattle.std.specs.Prelude.{◌≡◌, ℕ, Ok, Err, OnOk, OnErr};
ghost use Rattle.dialogue.specs.Turns.{StopCause, StopsOn};
ghost use Rattle.dialogue.specs.declared.talker.Stop.TheVariants.{Unwritten};
ghost use Rattle.dover_port.specs.Causes.{HasCause, StopsAtFailure};
ghost use Rattle.dover_port.specs.declared.calls.Calls.{Calls};

use dialogue::Stop;
use dover_port::{Failed, Status};

/// The answer with this status where all of its text was put, and else that a write failed.
pub(crate) fn answer_with(put: Result<(), Failed>, status: Status) -> Result<Status, Stop>
    ensures ok { OnOk put (result ≡ Ok status) }
    ensures err { OnErr put (result ≡ Err Unwritten) }
    ensures cause { (writes writes' reads reads' : ℕ) → HasCause writes writes' reads reads' put →
        StopCause result writes writes' reads reads' }
    ensures stops { (old new : Calls) → StopsAtFailure old new put → StopsOn result old new }
{
    match put {
        Ok(()) => Ok(status),
        Err(_) => Err(Stop::Unwritten),
    }
}
