//! What the reading loop asks of a word.
ghost use Rattle.std.specs.Prelude.{◌≡◌, ◌<◌, ◌^◌, ◌-◌, ◌++◌, ℕ, List, [], true, length};
ghost use Rattle.dialogue.specs.Talk.{Talk, IsSteady, IsOver};
ghost use Rattle.dialogue.specs.Turns.{TakesBy, GivesBy, AnswersBy, StopCause, StopsOn};

use dover_model::Memory;
use dover_port::{Output, Port, Status};
use line_text::BackLine;

/// Why an answer was not put whole.
#[derive(Clone, Copy)]
pub enum Stop {
    /// There was no memory.
    NoMemory,
    /// The port failed to write.
    Unwritten,
}

/// What a word that reads keeps of its input. It takes bytes, gives what is due for them part by part, and answers at
/// the end. It sees no port before its answer.
pub trait Talker: Drop {
    /// What it counts.
    type Meter;

    /// What a call may be about, as a form or a question, and what stood on the meter before it.
    ghost about: { Type 0 };

    /// What the word says.
    ghost talk: { about → Talk };

    /// The bytes that it stands for with its meter, and the parts that are due for them and not yet given.
    ghost stands: { about → Self → Self.Meter → List ℕ → List (List ℕ) → Type 0 };

    /// The bytes that it stands for, where all that is due for them was given.
    ghost ready: { about → Self → Self.Meter → List ℕ → Type 0 };

    /// What the meter may show at the end, by the bytes got.
    ghost costs: { about → Self.Meter → List ℕ → Type 0 };

    /// What holds of a talk, whatever is read. It does nothing.
    fn laws()
        ensures steady { (a : about) → IsSteady (talk a) }
        ensures few { (a : about) (t : Self) (m : Self.Meter) (x : List ℕ) → ready a t m x →
            (talk a).goes_on x ≡ true → length x < 2 ^ 64 - 1 }
        ensures parts { (a : about) (t : Self) (m : Self.Meter) (x : List ℕ) (rest : List (List ℕ)) →
            stands a t m x rest → length rest < 2 ^ 64 - 1 }
        ensures spent { (a : about) (t : Self) (m : Self.Meter) (x : List ℕ) (rest : List (List ℕ)) →
            stands a t m x rest → costs a m x }
        ensures rested { (a : about) (t : Self) (m : Self.Meter) (x : List ℕ) → ready a t m x → costs a m x }
        ensures behind { (a : about) (m : Self.Meter) (x y : List ℕ) → costs a m x → costs a m (x ++ y) };

    /// Takes a front of the piece, and says how many bytes.
    ///
    /// # Errors
    ///
    /// `Memory` where there is none; the talker isn't called again.
    fn take(&mut self, meter: &mut Self::Meter, piece: &[u8]) -> Result<usize, Memory>
        requires some { 0 < length piece.now }
        requires stands { (a : about) × (x : List ℕ) × ready a self.old meter.old x × ((talk a).goes_on x ≡ true) }
        ensures takes { (a : about) (x : List ℕ) → ready a self.old meter.old x → (talk a).goes_on x ≡ true →
            TakesBy (talk a) (stands a self.new meter.new) (costs a meter.new) x piece.now result };

    /// Whether there is a next part of what is due, which `part` then holds, whatever it held before. If there is none,
    /// all was given, and `part` may hold anything.
    fn next_part(&mut self, meter: &mut Self::Meter, part: &mut BackLine) -> bool
        requires { (a : about) × (x : List ℕ) × (rest : List (List ℕ)) × stands a self.old meter.old x rest }
        ensures gives { (a : about) (x : List ℕ) (rest : List (List ℕ)) → stands a self.old meter.old x rest →
            GivesBy (stands a self.new meter.new) (ready a self.new meter.new) x rest part.new result };

    /// Whether more is to be read.
    fn goes_on(&self, meter: &Self::Meter) -> bool
        requires { (a : about) × (x : List ℕ) × ready a self.now meter.now x }
        ensures { (a : about) (x : List ℕ) → ready a self.now meter.now x → result ≡ (talk a).goes_on x };

    /// Puts the answer, where no more is to be read: the talk is over, or the input has `ended`. Before it nothing is
    /// kept back in `out`.
    ///
    /// # Errors
    ///
    /// `NoMemory` where there was none for the answer, of which nothing was put then, and `Unwritten` where a write
    /// failed.
    fn answer<P: Port>(
        self,
        meter: &mut Self::Meter,
        port: &mut P,
        out: &mut Output,
        ended: bool,
    ) -> Result<Status, Stop>
        requires empty { out.old ≡ [] }
        requires ready { (a : about) × (x : List ℕ) × ready a self meter.old x × IsOver (talk a) x ended }
        ensures answers { (a : about) (x : List ℕ) → ready a self meter.old x → IsOver (talk a) x ended →
            AnswersBy (talk a) x ended (P.moves port.old) (P.moves port.new) out.new result }
        ensures spent { (a : about) (x : List ℕ) → ready a self meter.old x → costs a meter.new x }
        ensures cause { StopCause result
            (P.write_faults port.old) (P.write_faults port.new) (P.read_faults port.old) (P.read_faults port.new) }
        ensures stops { StopsOn result (P.calls port.old) (P.calls port.new) };
}
