//! The lanes of one input.
ghost use Rattle.std.specs.Prelude.{◌≡◌, ◌<◌, ℕ, List, [], length, IfOk, IfSome, IsNone, OnOk, Some, Ok, true, false};
ghost use Rattle.lane_server.specs.Lanes.{lane_count, OfLane, Close, lane_line, Handed, input_of_lines, all_ended};
ghost use Rattle.lane_server.specs.Kept.{AllQuiet, AllStand};
ghost use Rattle.lane_server.specs.Spending.{HavePaid};
ghost use Rattle.lane_server.specs.Shorts.{IsFirstShort};
ghost use Rattle.lane_server.specs.declared.lanes.Phase.TheVariants.{Giving, Closing};

use crate::lane::Lane;
use crate::reading::{LANES, LaneLine, lane_line};
use comparison_count::Comparisons;
use dover_model::{Memory, Version};
use event_feed::{Cause, DueLine};
use std::alloc::Global;
use std::marker::Model;
use std::sync::ledger::Ledger;

/// What a good line of the input is.
#[derive(Clone, Copy)]
pub enum LaneStep {
    /// A line of this lane's feed.
    Fed(u8),
    /// The end of the session.
    Closed,
}

/// Why a line of the input wasn't taken.
#[derive(Clone, Copy)]
pub enum LaneFault {
    /// Its number in the whole input is above 16,000,000,000.
    Lines,
    /// It is longer than 128 bytes, or neither `close` nor a lane's number and a line behind one space.
    BadLane,
    /// There was no memory for the lane's server or for its job.
    Memory,
}

/// Which lines are left to give.
#[derive(Clone, Copy)]
enum Phase {
    /// None.
    Ready,
    /// Those of this lane.
    Giving(u8),
    /// The short lines of the lanes from this one on.
    Closing(u8),
}

/// Up to 64 feeds that come in one input, and what is due for them.
#[derive(Drop)]
pub struct Lanes {
    alloc: Global,
    lanes: Vec<Lane>,
    lines: u64,
    phase: Phase,
}

impl Model for Lanes {
    ghost use Rattle.lane_server.specs.Kept.{Kept};

    ghost Value = { Kept };

    ghost view = { λ l. record { lines = l.lines; lanes = l.lanes.items; phase = l.phase } };
}

fn new_lanes(alloc: Global) -> Result<Vec<Lane>, Memory>
    ensures count { IfOk result (λ lanes. length lanes.items ≡ lane_count) }
    ensures quiet { IfOk result (λ lanes. AllQuiet lanes.items []) }
    ensures paid { IfOk result (λ lanes. (start : ℕ) → HavePaid lanes.items start start) }
{
    let mut lanes = Vec::with_capacity(alloc, usize::from(LANES))?;
    for _ in 0..LANES {
        lanes.push(Lane::new())?;
    }
    Ok(lanes)
}

/// The first lane from this one on that is short, and the line at which it is.
fn next_short(lanes: &[Lane], from: u8) -> Option<(u8, u64)>
    requires { length lanes.now ≡ lane_count }
    ensures within { IfSome result (λ short. short.0 < lane_count) }
    ensures first { (handed : List Handed) → AllQuiet lanes.now handed
        → IsFirstShort result handed from }
{
    for lane in from..LANES {
        if let Some(line) = lanes[usize::from(lane)].short() {
            return Some((lane, line));
        }
    }
    None
}

/// Whether each lane that has a line is ended without a fault.
fn all_fine(lanes: &[Lane]) -> bool
    requires { length lanes.now ≡ lane_count }
    ensures { (handed : List Handed) → AllStand lanes.now handed → result ≡ all_ended handed }
{
    for lane in 0..LANES {
        if !lanes[usize::from(lane)].is_fine() {
            return false;
        }
    }
    true
}

impl Lanes {
    ghost use Rattle.lane_server.specs.Kept.{StandsFor, IsReady, is_closed, Answers, GivesNext};

    /// No line came yet.
    ///
    /// # Errors
    ///
    /// `Memory` where there is none.
    pub fn new(alloc: Global) -> Result<Lanes, Memory>
        ensures ready { IfOk result (λ lanes. IsReady lanes) }
        ensures stands { IfOk result (λ lanes. StandsFor lanes [] []) }
        ensures paid { IfOk result (λ lanes. (start : ℕ) → HavePaid lanes.lanes start start) }
    {
        Ok(Lanes {
            alloc,
            lanes: new_lanes(alloc)?,
            lines: 0,
            phase: Phase::Ready,
        })
    }

    #[inline(always)]
    fn feed(&mut self, lane: u8, line: &[u8]) -> Result<LaneStep, LaneFault>
        requires ready { IsReady self.old }
        requires stands { (ls : List (List ℕ)) × StandsFor self.old ls [] }
        requires room { self.old.lines < 16_000_000_000 }
        requires lane { lane < lane_count }
        ensures answers { (ls : List (List ℕ)) (bytes : List ℕ) → StandsFor self.old ls []
            → lane_line bytes ≡ Some (OfLane lane line.now) →
            Answers result self.old self.new ls bytes }
        ensures paid { (start now : ℕ) → HavePaid self.old.lanes start now
            → OnOk result (HavePaid self.new.lanes start now) }
    {
        match self.lanes[usize::from(lane)].line(self.alloc, line) {
            Ok(()) => {
                self.lines += 1;
                self.phase = Phase::Giving(lane);
                Ok(LaneStep::Fed(lane))
            }
            Err(_) => Err(LaneFault::Memory),
        }
    }

    fn close(&mut self) -> LaneStep
        requires ready { IsReady self.old }
        requires room { self.old.lines < 16_000_000_000 }
        ensures answers { (ls : List (List ℕ)) (bytes : List ℕ) → StandsFor self.old ls []
            → lane_line bytes ≡ Some Close →
            Answers (Ok result) self.old self.new ls bytes }
        ensures lanes { self.new.lanes ≡ self.old.lanes }
    {
        self.lines += 1;
        self.phase = Phase::Closing(0);
        LaneStep::Closed
    }

    /// Takes the next line of the input, without its line feed, where all lines that were due before were given: at
    /// first, and then where `next_out` has answered None. No jobs are compared.
    ///
    /// # Errors
    ///
    /// `Lines`, `BadLane` and `Memory`, as they say. After the first two the lanes are as before.
    #[inline(always)]
    pub fn line(&mut self, line: &[u8]) -> Result<LaneStep, LaneFault>
        requires ready { IsReady self.old }
        requires stands { (ls : List (List ℕ)) × StandsFor self.old ls [] }
        ensures answers { (ls : List (List ℕ)) → StandsFor self.old ls []
            → Answers result self.old self.new ls line.now }
        ensures paid { (start now : ℕ) → HavePaid self.old.lanes start now
            → OnOk result (HavePaid self.new.lanes start now) }
    {
        if self.lines >= Version::Three.most_lines() {
            return Err(LaneFault::Lines);
        }
        match lane_line(line) {
            None => Err(LaneFault::BadLane),
            Some(LaneLine::Close) => Ok(self.close()),
            Some(LaneLine::OfLane(lane, line)) => self.feed(lane, line),
        }
    }

    #[inline(always)]
    fn give<L: Ledger>(
        &mut self,
        lane: u8,
        comparisons: &mut Comparisons<L>,
    ) -> Option<(u8, DueLine)>
        requires phase { self.old.phase ≡ Giving lane }
        requires stands { (ls : List (List ℕ)) × (rest : List (List ℕ))
            × StandsFor self.old ls rest }
        ensures gives { (ls rest : List (List ℕ)) → StandsFor self.old ls rest
            → GivesNext result self.new ls rest }
        ensures ready { IsNone result → is_closed self.old ≡ false → IsReady self.new }
        ensures closed { is_closed self.new ≡ is_closed self.old }
        ensures paid { (start : ℕ) → HavePaid self.old.lanes start comparisons.old
            → HavePaid self.new.lanes start comparisons.new }
    {
        match self.lanes[usize::from(lane)].next_out(comparisons) {
            Some(out) => Some((lane, out)),
            None => {
                self.phase = Phase::Ready;
                None
            }
        }
    }

    #[inline(never)]
    fn give_short(&mut self, from: u8) -> Option<(u8, DueLine)>
        requires phase { self.old.phase ≡ Closing from }
        requires stands { (ls : List (List ℕ)) × (rest : List (List ℕ))
            × StandsFor self.old ls rest }
        ensures gives { (ls rest : List (List ℕ)) → StandsFor self.old ls rest
            → GivesNext result self.new ls rest }
        ensures ready { IsNone result → is_closed self.old ≡ false → IsReady self.new }
        ensures closed { is_closed self.new ≡ is_closed self.old }
        ensures lanes { self.new.lanes ≡ self.old.lanes }
    {
        match next_short(&self.lanes, from) {
            Some((lane, line)) => {
                self.phase = Phase::Closing(lane + 1);
                let cause = Cause::Short;
                Some((lane, DueLine::Refused { line, cause }))
            }
            None => {
                self.phase = Phase::Closing(LANES);
                None
            }
        }
    }

    /// The next line due, and the lane that it is of. Behind `close` no jobs are compared.
    #[inline(always)]
    pub fn next_out<L: Ledger>(&mut self, comparisons: &mut Comparisons<L>) -> Option<(u8, DueLine)>
        requires stands { (ls : List (List ℕ)) × (rest : List (List ℕ))
            × StandsFor self.old ls rest }
        ensures gives { (ls rest : List (List ℕ)) → StandsFor self.old ls rest
            → GivesNext result self.new ls rest }
        ensures ready { IsNone result → is_closed self.old ≡ false → IsReady self.new }
        ensures closed { is_closed self.new ≡ is_closed self.old }
        ensures paid { (start : ℕ) → HavePaid self.old.lanes start comparisons.old
            → HavePaid self.new.lanes start comparisons.new }
        ensures idle { is_closed self.old ≡ true → comparisons.new ≡ comparisons.old }
    {
        match self.phase {
            Phase::Ready => None,
            Phase::Giving(lane) => self.give(lane, comparisons),
            Phase::Closing(lane) => self.give_short(lane),
        }
    }

    /// How many good lines were taken, `close` among them.
    pub fn lines(&self) -> u64
        ensures { result ≡ self.now.lines }
    {
        self.lines
    }

    /// Whether each lane that has a line is ended without a fault.
    pub fn all_ended(&self) -> bool
        requires { (ls : List (List ℕ)) × (rest : List (List ℕ)) × StandsFor self.now ls rest }
        ensures { (ls rest : List (List ℕ)) → StandsFor self.now ls rest
            → result ≡ all_ended (input_of_lines ls).handed }
    {
        all_fine(&self.lanes)
    }
}
