//! Lines of words and numbers.
ghost use Rattle.std.specs.Prelude.{◌<◌, ◌+◌, ◌*◌, ◌++◌, ◌∷◌, [], length};
ghost use Rattle.dover_model.specs.Lines.{with_numbers};
ghost use Rattle.dover_port.specs.Causes.{HasCause, StopsAtFailure};
ghost use Rattle.dover_port.specs.Moves.{PutsThrough};

use dover_port::{Failed, Output, Port};
use line_text::BackLine;

/// Puts the line of a word and numbers with its line feed, or keeps it back in `out`. With 21 bytes for each number it
/// is shorter than 129 bytes. An `Err`: a write failed, and a front of what was kept back and of the line was put, but
/// not all of it.
#[inline(always)]
pub fn put_numbers<P: Port>(
    port: &mut P,
    out: &mut Output,
    word: &[u8],
    numbers: &[u64],
) -> Result<(), Failed>
    requires { length word.now + 21 * length numbers.now < 129 }
    ensures text { PutsThrough (P.moves port.old) (P.moves port.new) result out.old out.new
        (with_numbers word.now numbers.now ++ 10 ∷ []) }
    ensures cause { HasCause (P.write_faults port.old) (P.write_faults port.new) (P.read_faults port.old)
        (P.read_faults port.new) result }
    ensures stops { StopsAtFailure (P.calls port.old) (P.calls port.new) result }
{
    let mut line = BackLine::new();
    line.put_with_wide(word, numbers);
    out.put(port, line.bytes())
}
