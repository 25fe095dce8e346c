//! One feed, byte by byte: its intake and its server.
ghost use Rattle.std.specs.Prelude.{◌≡◌, ◌<◌, ◌∷◌, ℕ, List, [], true, length, OnOk};
ghost use Rattle.dover_model.specs.Common.{account, is_open, lines_of, rest_of};
ghost use Rattle.line_text.specs.Cutting.{IsWholeLine, begun_line};
ghost use Rattle.lane_server.specs.Lane.{IsQuiet};
ghost use Rattle.lane_server.specs.Feeding.{FeedStands, FeedRests, FeedGives, Hands, Takes};
ghost use Rattle.lane_server.specs.Spending.{HasPaid};

use crate::lane::Lane;
use comparison_count::Comparisons;
use dover_model::Memory;
use event_feed::DueLine;
use line_text::{ByteEffect, Lines};
use std::alloc::Global;
use std::sync::ledger::Ledger;

/// A feed of bytes with its server: pieces of the feed go in, cut anywhere, and each line that is due comes out as soon
/// as it is settled. There is no port in it: its owner reads, and does with the lines what it wants.
///
/// # Limits
///
/// Those of a feed: lines of at most 128 bytes, 4,000,000 of them, and 1,000,000 jobs; from version Three on
/// 16,000,000,000 of them, and 4,000,000,000 jobs. A line that breaks one is a fault, which comes out as the line that
/// refuses the feed, and ends it. Memory is taken at the ratio line and for each admitted job alone, and there is none
/// for more than 1,000,000 jobs that are ready at once.
///
/// # Use
///
/// Each piece goes in front by front: `take` says how many of its bytes it took. Behind each front `next_out` gives the
/// lines that are due for it, one by one, before the next front goes in. Where the input is over, or the lane doesn't
/// go on, its `end` says how it ended.
#[derive(Drop)]
pub struct Feed {
    alloc: Global,
    lines: Lines,
    lane: Lane,
}

impl Feed {
    /// No byte came yet. Takes no memory.
    pub fn new(alloc: Global) -> Feed
        ensures rests { FeedRests result [] }
        ensures paid { (start : ℕ) → HasPaid result.lane.server start start }
    {
        Feed {
            alloc,
            lines: Lines::new(),
            lane: Lane::new(),
        }
    }

    /// Goes on behind whole lines, all of which this lane was handed.
    pub fn behind(alloc: Global, lane: Lane) -> Feed
        ensures rests { (x : List ℕ) → rest_of x ≡ [] → is_open (account x) ≡ true →
            IsQuiet lane (lines_of x) → FeedRests result x }
        ensures lane { result.lane ≡ lane }
    {
        Feed {
            alloc,
            lines: Lines::behind(lane.lines()),
            lane,
        }
    }

    /// Takes a byte.
    fn take_byte(&mut self, byte: u8) -> Result<(), Memory>
        requires { (x : List ℕ) × FeedRests self.old x × (is_open (account x) ≡ true) }
        ensures hands { (x : List ℕ) → FeedRests self.old x → is_open (account x) ≡ true →
            Hands self.new x (byte ∷ []) result }
        ensures paid { (x : List ℕ) (start now : ℕ) → FeedRests self.old x →
            HasPaid self.old.lane.server start now →
            OnOk result (HasPaid self.new.lane.server start now) }
    {
        match self.lines.push(byte) {
            ByteEffect::More => Ok(()),
            ByteEffect::Line => self.lane.line(self.alloc, self.lines.line()),
            ByteEffect::TooLong => self.lane.line(self.alloc, self.lines.line()),
        }
    }

    /// Takes a byte, or a whole line with its line feed where no line has begun.
    fn take_front(&mut self, bytes: &[u8]) -> Result<(), Memory>
        requires some { 0 < length bytes.now }
        requires whole { 1 < length bytes.now → IsWholeLine self.old.lines bytes.now }
        requires rests { (x : List ℕ) × FeedRests self.old x × (is_open (account x) ≡ true) }
        ensures hands { (x : List ℕ) → FeedRests self.old x → is_open (account x) ≡ true →
            Hands self.new x bytes.now result }
        ensures paid { (x : List ℕ) (start now : ℕ) → FeedRests self.old x →
            HasPaid self.old.lane.server start now →
            OnOk result (HasPaid self.new.lane.server start now) }
    {
        if bytes.len() > 1 {
            return self.lane.line(self.alloc, self.lines.pass(bytes));
        }
        self.take_byte(bytes[0])
    }

    /// Takes a front of a piece of the feed, at least a byte, and says how many bytes. The feed goes on, and all that
    /// was due before was given: at first, and then where `next_out` has answered None.
    ///
    /// # Errors
    ///
    /// `Memory` where there is none for the server or for a job; then the feed is no longer of use.
    #[inline(always)]
    pub fn take(&mut self, piece: &[u8]) -> Result<usize, Memory>
        requires some { 0 < length piece.now }
        requires rests { (x : List ℕ) × FeedRests self.old x × (is_open (account x) ≡ true) }
        ensures takes { (x : List ℕ) → FeedRests self.old x → is_open (account x) ≡ true →
            Takes self.new x piece.now result }
        ensures paid { (x : List ℕ) (start now : ℕ) → FeedRests self.old x →
            HasPaid self.old.lane.server start now →
            OnOk result (HasPaid self.new.lane.server start now) }
    {
        let count = self.lines.front(piece);
        match self.take_front(&piece[..count]) {
            Ok(()) => Ok(count),
            Err(error) => Err(error),
        }
    }

    /// The next line due. None exactly where all that is due was given.
    #[inline(always)]
    pub fn next_out<L: Ledger>(&mut self, comparisons: &mut Comparisons<L>) -> Option<DueLine>
        requires { (x : List ℕ) × (left : List (List ℕ)) × FeedStands self.old x left }
        ensures gives { (x : List ℕ) (left : List (List ℕ)) → FeedStands self.old x left →
            FeedGives result self.new x left }
        ensures paid { (start : ℕ) → HasPaid self.old.lane.server start comparisons.old →
            HasPaid self.new.lane.server start comparisons.new }
    {
        self.lane.next_out(comparisons)
    }

    /// How many bytes came since the last line feed, 129 at most.
    pub fn rest(&self) -> usize
        ensures { result ≡ length (begun_line self.now.lines) }
    {
        self.lines.rest()
    }

    /// The lane that its lines are handed to: whether it goes on, why it is refused where no more comes, its mark.
    #[inline(always)]
    pub fn lane(&self) -> &Lane
        ensures { result.now ≡ self.now.lane }
    {
        &self.lane
    }

    /// The lane, where no more bytes come.
    pub fn into_lane(self) -> Lane
        ensures { result ≡ self.lane }
    {
        self.lane
    }
}
