//! Bytes, one by one, cut into lines.
use crate::LINE_BYTES;
use memchr::memchr;
use std::marker::Model;

/// What a byte made of the line.
#[derive(Clone, Copy)]
pub enum ByteEffect {
    /// The line goes on.
    More,
    /// The byte was the line feed that ends the line.
    Line,
    /// The line is longer than 128 bytes. Further bytes are disregarded.
    TooLong,
}

/// Cuts the bytes that are pushed into lines. A line has at most 128 bytes without its line feed.
#[derive(Drop)]
pub struct Lines {
    bytes: [u8; LINE_BYTES],
    used: usize,
    count: u64,
    last: ByteEffect,
}

impl Model for Lines {
    ghost use Rattle.std.specs.Prelude.{take};
    ghost use Rattle.line_text.specs.Cutting.{Cutting, HasRoom};

    ghost Value = { Cutting };

    ghost view = { λ l. record { line = take l.used l.bytes; count = l.count; last = l.last } };

    ghost invariant = { λ l. HasRoom l.last l.used };
}

impl Lines {
    ghost use Rattle.std.specs.Prelude.{◌≡◌, ◌≤◌, ◌<◌, ◌++◌, ◌∷◌, [], ℕ, List, length, take, false, ◌≢◌};
    ghost use Rattle.dover_model.specs.Lines.{whole_lines, rest_of, is_too_long};
    ghost use Rattle.line_text.specs.declared.cutting.ByteEffect.TheVariants.{More, Line};
    ghost use Rattle.line_text.specs.Cutting.{StandsFor, HasCut, step_of, with_byte, after_byte, begun_line};
    ghost use Rattle.line_text.specs.Cutting.{IsWholeLine};

    /// No byte was pushed yet.
    pub fn new() -> Lines
        ensures stands { StandsFor result [] }
        ensures is { result ≡ record { line = []; count = 0; last = More } }
    {
        Lines {
            bytes: [0; LINE_BYTES],
            used: 0,
            count: 0,
            last: ByteEffect::More,
        }
    }

    /// So many whole lines came, and no line has begun.
    pub fn behind(count: u64) -> Lines
        ensures { (bytes : List ℕ) → count ≡ length (whole_lines bytes) → rest_of bytes ≡ [] →
            StandsFor result bytes }
    {
        Lines {
            bytes: [0; LINE_BYTES],
            used: 0,
            count,
            last: ByteEffect::More,
        }
    }

    /// Keeps the next byte, unless the line was too long before.
    fn keep(&mut self, byte: u8) -> ByteEffect
        ensures is { self.new ≡ after_byte self.old byte }
        ensures last { result ≡ self.new.last }
    {
        match self.last {
            ByteEffect::TooLong => return ByteEffect::TooLong,
            ByteEffect::Line => self.used = 0,
            ByteEffect::More => {}
        }
        if byte == b'\n' {
            self.count = self.count.saturating_add(1);
            self.last = ByteEffect::Line;
            return ByteEffect::Line;
        }
        self.bytes[self.used] = byte;
        self.used += 1;
        if self.used == LINE_BYTES {
            self.last = ByteEffect::TooLong;
            return ByteEffect::TooLong;
        }
        self.last = ByteEffect::More;
        ByteEffect::More
    }

    /// Takes the next byte. Once a line was too long, every later byte is disregarded and answered by `TooLong`.
    pub fn push(&mut self, byte: u8) -> ByteEffect
        ensures stands { (bytes : List ℕ) → StandsFor self.old bytes → StandsFor self.new (with_byte bytes byte) }
        ensures step { (bytes : List ℕ) → StandsFor self.old bytes → result ≡ step_of (rest_of bytes) byte }
        ensures cut { (bytes : List ℕ) → StandsFor self.old bytes → is_too_long (rest_of bytes) ≡ false →
            HasCut result self.new.line bytes (bytes ++ byte ∷ []) }
        ensures last { result ≡ self.new.last }
        ensures is { self.new ≡ after_byte self.old byte }
    {
        self.keep(byte)
    }

    /// How many bytes may be taken at once: those of the first line with its line feed, where it came whole and no line
    /// has begun, and else one.
    #[inline(always)]
    pub fn front(&self, bytes: &[u8]) -> usize
        requires { 0 < length bytes.now }
        ensures some { 1 ≤ result }
        ensures within { result ≤ length bytes.now }
        ensures whole { 1 < result → IsWholeLine self.now (take result bytes.now) }
    {
        if self.rest() > 0 {
            return 1;
        }
        let Some(at) = memchr(b'\n', bytes) else {
            return 1;
        };
        if at >= LINE_BYTES {
            return 1;
        }
        at + 1
    }

    /// Takes a line that came whole, where no line has begun. Answers it without its line feed.
    #[inline(always)]
    pub fn pass<'a>(&mut self, bytes: &'a [u8]) -> &'a [u8]
        requires { IsWholeLine self.old bytes.now }
        ensures stands { (x : List ℕ) → StandsFor self.old x → StandsFor self.new (x ++ bytes.now) }
        ensures cut { (x : List ℕ) → StandsFor self.old x → HasCut Line result.now x (x ++ bytes.now) }
    {
        self.count = self.count.saturating_add(1);
        &bytes[..bytes.len() - 1]
    }

    /// After `Line` the line without its line feed, after `TooLong` its first 129 bytes.
    pub fn line(&self) -> &[u8]
        requires { self.now.last ≢ More }
        ensures { result.now ≡ self.now.line }
    {
        &self.bytes[..self.used]
    }

    /// How many lines are whole so far. The count stops at the greatest number.
    pub fn count(&self) -> u64
        ensures { result ≡ self.now.count }
    {
        self.count
    }

    /// How many bytes came since the last line feed, 129 at most.
    #[inline(always)]
    pub fn rest(&self) -> usize
        ensures { result ≡ length (begun_line self.now) }
    {
        if self.last == ByteEffect::Line {
            0
        } else {
            self.used
        }
    }
}
