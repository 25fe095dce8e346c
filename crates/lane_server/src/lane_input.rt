//! The bytes of many feeds that come in one input.
ghost use Rattle.std.specs.Prelude.{◌≡◌, ◌<◌, ◌∷◌, ℕ, List, [], true, length, IfOk, OnOk};
ghost use Rattle.line_text.specs.Cutting.{IsWholeLine};
ghost use Rattle.lane_server.specs.Kept as kept;
ghost use Rattle.lane_server.specs.Lanes.{goes_on, goes_on_at, input};
ghost use Rattle.lane_server.specs.LaneInput.{standing_of, Stands, Rests, Hands, Adds, Takes, GivesDue, Ends};
ghost use Rattle.lane_server.specs.Spending.{HavePaid, AreFew};
ghost use Rattle.lane_server.specs.declared.lane_input.LaneInput.{LaneInput};

use crate::lane::Lane;
use crate::lanes::{LaneFault, LaneStep, Lanes};
use crate::refusal::InputRefusal;
use comparison_count::Comparisons;
use dover_model::Memory;
use event_feed::DueLine;
use line_text::{ByteEffect, Lines};
use std::alloc::Global;
use std::sync::ledger::Ledger;

/// The line at which an input is refused, and why.
#[derive(Clone, Copy)]
pub struct RefusedInput {
    /// The number of the line, from 1 on.
    pub line: u64,
    /// Why the input is refused there.
    pub cause: InputRefusal,
}

/// Up to 64 feeds that come in one input, piece by piece: the line that has begun, the lanes, and why the input is
/// refused if no more of it comes. It isn't where `close` came, and while it goes on, it is short.
#[derive(Drop)]
pub struct LaneInput {
    lines: Lines,
    lanes: Lanes,
    refusal: Option<InputRefusal>,
}

/// Hands a line to the lanes, and says why the input is then refused if no more of it comes.
#[inline(always)]
fn hand(lanes: &mut Lanes, line: &[u8]) -> Result<Option<InputRefusal>, Memory>
    requires { (ls : List (List ℕ)) × kept.StandsFor lanes.old ls [] × kept.IsReady lanes.old }
    ensures hands { (ls : List (List ℕ)) → kept.StandsFor lanes.old ls []
        → Hands lanes.new ls line.now result }
    ensures paid { (start now : ℕ) → HavePaid lanes.old.lanes start now
        → OnOk result (HavePaid lanes.new.lanes start now) }
{
    match lanes.line(line) {
        Ok(LaneStep::Fed(_)) => Ok(Some(InputRefusal::Short)),
        Ok(LaneStep::Closed) => Ok(None),
        Err(LaneFault::Lines) => Ok(Some(InputRefusal::TooManyLines)),
        Err(LaneFault::BadLane) => Ok(Some(InputRefusal::BadLane)),
        Err(LaneFault::Memory) => Err(Memory),
    }
}

#[inline(always)]
fn is_short(refusal: Option<InputRefusal>) -> bool
    ensures { (lines : ℕ) → result ≡ goes_on_at (standing_of lines refusal) }
{
    match refusal {
        Some(InputRefusal::Short) => true,
        _ => false,
    }
}

impl LaneInput {
    /// What holds of each input of lanes. It does nothing.
    pub fn laws()
        ensures few { (i : LaneInput) (x : List ℕ) (left : List (List ℕ)) (start now : ℕ) → Stands i x left
            → HavePaid i.lanes.lanes start now → AreFew (input x).handed start now }
    {
        Lane::laws();
    }

    /// No byte came yet.
    ///
    /// # Errors
    ///
    /// `Memory` where there is none.
    pub fn new(alloc: Global) -> Result<LaneInput, Memory>
        ensures rests { IfOk result (λ i. Rests i []) }
        ensures paid { IfOk result (λ i. (start : ℕ) → HavePaid i.lanes.lanes start start) }
    {
        Ok(LaneInput {
            lines: Lines::new(),
            lanes: Lanes::new(alloc)?,
            refusal: Some(InputRefusal::Short),
        })
    }

    /// Takes a byte, and says why the input is then refused if no more of it comes.
    #[inline(never)]
    fn take_byte(&mut self, byte: u8) -> Result<Option<InputRefusal>, Memory>
        requires { (x : List ℕ) × Rests self.old x × (goes_on (input x) ≡ true) }
        ensures adds { (x : List ℕ) → Rests self.old x → goes_on (input x) ≡ true
            → Adds self.new x (byte ∷ []) result }
        ensures paid { (start now : ℕ) → HavePaid self.old.lanes.lanes start now
            → OnOk result (HavePaid self.new.lanes.lanes start now) }
    {
        match self.lines.push(byte) {
            ByteEffect::More => Ok(Some(InputRefusal::Short)),
            ByteEffect::Line => hand(&mut self.lanes, self.lines.line()),
            ByteEffect::TooLong => hand(&mut self.lanes, self.lines.line()),
        }
    }

    /// Takes a byte or a whole line, and says why the input is then refused if no more of it comes.
    #[inline(always)]
    fn take_front(&mut self, bytes: &[u8]) -> Result<Option<InputRefusal>, Memory>
        requires some { 0 < length bytes.now }
        requires whole { 1 < length bytes.now → IsWholeLine self.old.lines bytes.now }
        requires rests { (x : List ℕ) × Rests self.old x × (goes_on (input x) ≡ true) }
        ensures adds { (x : List ℕ) → Rests self.old x → goes_on (input x) ≡ true
            → Adds self.new x bytes.now result }
        ensures paid { (start now : ℕ) → HavePaid self.old.lanes.lanes start now
            → OnOk result (HavePaid self.new.lanes.lanes start now) }
    {
        if bytes.len() > 1 {
            return hand(&mut self.lanes, self.lines.pass(bytes));
        }
        self.take_byte(bytes[0])
    }

    /// Takes a front of the piece, at least a byte, and says how many bytes, where the input goes on and all lines that
    /// were due before were given: at first, and then where `next_out` has answered None.
    ///
    /// # Errors
    ///
    /// `Memory` where there is none for a lane's server or for its job; then the input is no longer of use.
    #[inline(always)]
    pub fn take(&mut self, piece: &[u8]) -> Result<usize, Memory>
        requires some { 0 < length piece.now }
        requires rests { (x : List ℕ) × Rests self.old x × (goes_on (input x) ≡ true) }
        ensures takes { (x : List ℕ) → Rests self.old x → goes_on (input x) ≡ true
            → Takes self.new x piece.now result }
        ensures paid { (start now : ℕ) → HavePaid self.old.lanes.lanes start now
            → OnOk result (HavePaid self.new.lanes.lanes start now) }
    {
        let count = self.lines.front(piece);
        match self.take_front(&piece[..count]) {
            Ok(refusal) => {
                self.refusal = refusal;
                Ok(count)
            }
            Err(error) => Err(error),
        }
    }

    /// The next line due, and the lane that it is of. None where all that is due was given. The short lines that
    /// `close` adds aren't among them: the lanes give those at the end.
    #[inline(always)]
    pub fn next_out<L: Ledger>(&mut self, comparisons: &mut Comparisons<L>) -> Option<(u8, DueLine)>
        requires { (x : List ℕ) × (left : List (List ℕ)) × Stands self.old x left }
        ensures gives { (x : List ℕ) (left : List (List ℕ)) → Stands self.old x left
            → GivesDue result self.new x left }
        ensures paid { (start : ℕ) → HavePaid self.old.lanes.lanes start comparisons.old
            → HavePaid self.new.lanes.lanes start comparisons.new }
    {
        if !is_short(self.refusal) {
            return None;
        }
        self.lanes.next_out(comparisons)
    }

    /// Whether neither `close` nor a fault of the whole input came.
    pub fn goes_on(&self) -> bool
        ensures { (x : List ℕ) (left : List (List ℕ)) → Stands self.now x left
            → result ≡ goes_on (input x) }
    {
        is_short(self.refusal)
    }

    /// Where `close` came the lanes, of which the short lines are left to give.
    ///
    /// # Errors
    ///
    /// Else why the input is refused where no more of it comes, and at which line.
    pub fn end(self) -> Result<Lanes, RefusedInput>
        requires { (x : List ℕ) × Rests self x }
        ensures { (x : List ℕ) → Rests self x → Ends result x }
    {
        match self.refusal {
            None => Ok(self.lanes),
            Some(cause) => {
                let line = self.lanes.lines() + 1;
                Err(RefusedInput { line, cause })
            }
        }
    }
}
