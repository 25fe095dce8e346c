ghost use Rattle.std.specs.Prelude.{◌≡◌, ◌≢◌, ◌+◌, ◌-◌, ◌<◌, ◌≤◌, ◌↔◌, [], ◌∷◌, ◌++◌, length, take, drop, map, Some};
ghost use Rattle.std.specs.Prelude.{IfOk, OnErr, IsErr, IsTrue, vec_len, vec_capacity, flat_map};
ghost use Rattle.dover_port.specs.Causes.{HasCause, StopsAtFailure};
ghost use Rattle.dover_port.specs.Moves.{Adds, read_move, ins, outs};
ghost use Rattle.dover_port.specs.Moves.Move.{Put};
ghost use Rattle.dover_port.specs.MustFail.{MustFail, end_of, ends_after};
ghost use Rattle.dover_port.specs.declared.calls.Calls.TheVariants.{Well, WentOn};
ghost use Rattle.dover_port.specs.Kept.{got_total, put_total, read_entry_of};

use crate::{Calls, Failed, Port};
use dover_model::Memory;
use std::alloc::{AllocError, Global};

// A move, by how many bytes it took.
#[derive(Clone, Copy)]
pub(crate) enum Kept {
    Read(usize),
    End,
    Wrote(usize),
}

/// A port in memory, with a script of what is read, and of which calls fail. It tells its moves.
#[derive(Drop)]
pub struct MemoryPort {
    input: Vec<u8>,
    ends: Vec<usize>,
    at: usize,
    fail_reads: Vec<u32>,
    fail_writes: Vec<u32>,
    reads: u32,
    writes: u32,
    most: usize,
    room: usize,
    kept: Vec<Kept>,
    written: Vec<u8>,
    read_faults: u64,
    write_faults: u64,
    calls: Calls,
    ghost within: { at ≤ vec_len input },
    ghost some: { 0 < most },
    ghost got: { got_total kept.items ≡ at },
    ghost put: { put_total kept.items ≡ vec_len written },
    ghost room_for_moves: { room ≤ vec_capacity kept },
    ghost room_for_bytes: { room ≤ vec_capacity written },
}

// All pieces joined, and where each ends.
fn join(alloc: Global, script: &[Vec<u8>]) -> Result<(Vec<u8>, Vec<usize>), AllocError>
    ensures input { IfOk result (λ joined. joined.0.items ≡ flat_map (λ piece. piece.items) script.now) }
    ensures ends { IfOk result (λ joined. joined.1.items ≡ ends_after 0 (map (λ piece. piece.items) script.now)) }
{
    let mut input = Vec::new(alloc);
    let mut ends = Vec::new(alloc);
    for piece in script {
        input.extend_from_slice(piece)?;
        ends.push(input.len())?;
    }
    Ok((input, ends))
}

// Where the piece ends that has the byte at this place.
fn piece_end(ends: &[usize], at: usize, len: usize) -> usize
    requires { at ≤ len }
    ensures least { at ≤ result }
    ensures most { result ≤ len }
    ensures some { at < len → at < result }
    ensures exact { result ≡ end_of ends.now at len }
{
    for end in ends {
        if at < *end && *end <= len {
            return *end;
        }
    }
    len
}

fn read_entry(count: usize) -> Kept
    ensures { result ≡ read_entry_of count }
{
    if count == 0 {
        return Kept::End;
    }
    Kept::Read(count)
}

// Whether a call fails: its number is one of those that do, or there is no room for one more move or for its bytes.
fn must_fail(
    failing: &[u32],
    number: u32,
    moves: usize,
    bytes: usize,
    count: usize,
    room: usize,
) -> bool
    ensures { IsTrue result ↔ MustFail failing.now number moves bytes count room }
{
    failing.contains(&number) || moves >= room || bytes > room || count > room - bytes
}

// Adds a move where there is room for it.
fn keep(kept: &mut Vec<Kept>, entry: Kept)
    requires { vec_len kept.old < vec_capacity kept.old }
    ensures items { kept.new.items ≡ kept.old.items ++ entry ∷ [] }
    ensures room { vec_capacity kept.old ≤ vec_capacity kept.new }
{
    kept.push(entry).unwrap();
}

// Adds bytes where there is room for them.
fn append(written: &mut Vec<u8>, bytes: &[u8])
    requires { vec_len written.old + length bytes.now ≤ vec_capacity written.old }
    ensures items { written.new.items ≡ written.old.items ++ bytes.now }
    ensures room { vec_capacity written.old ≤ vec_capacity written.new }
{
    written.extend_from_slice(bytes).unwrap();
}

impl MemoryPort {
    ghost use Rattle.dover_port.specs.Memory.{made};

    /// Reads give the pieces of the script in order, each cut where the buffer is shorter. A call whose number is in
    /// a list of failing calls fails. At most `room` moves, bytes got and bytes put are kept.
    ///
    /// # Errors
    ///
    /// `Memory` where there is none.
    pub fn new(
        alloc: Global,
        script: Vec<Vec<u8>>,
        fail_reads: Vec<u32>,
        fail_writes: Vec<u32>,
        most: usize,
        room: usize,
    ) -> Result<MemoryPort, Memory>
        requires { 0 < most }
        ensures moves { IfOk result (λ port. ⟦<MemoryPort as Port>⟧.moves port ≡ Some []) }
        ensures left { IfOk result
            (λ port. ⟦<MemoryPort as Port>⟧.left port ≡ Some (flat_map (λ piece. piece.items) script.items)) }
        ensures reads { IfOk result (λ port. ⟦<MemoryPort as Port>⟧.read_faults port ≡ 0) }
        ensures writes { IfOk result (λ port. ⟦<MemoryPort as Port>⟧.write_faults port ≡ 0) }
        ensures calls { IfOk result (λ port. ⟦<MemoryPort as Port>⟧.calls port ≡ Well) }
        ensures ends { IfOk result (λ port. port.ends.items ≡ ends_after 0 (map (λ piece. piece.items) script.items)) }
        ensures fail_reads { IfOk result (λ port. port.fail_reads.items ≡ fail_reads.items) }
        ensures fail_writes { IfOk result (λ port. port.fail_writes.items ≡ fail_writes.items) }
        ensures most { IfOk result (λ port. port.most ≡ most) }
        ensures room { IfOk result (λ port. port.room ≡ room) }
        ensures first_read { IfOk result (λ port. port.reads ≡ 0) }
        ensures first_write { IfOk result (λ port. port.writes ≡ 0) }
    {
        let (input, ends) = join(alloc, &script)?;
        let kept = Vec::with_capacity(alloc, room)?;
        let written = Vec::with_capacity(alloc, room)?;
        Ok(MemoryPort {
            input,
            ends,
            at: 0,
            fail_reads,
            fail_writes,
            reads: 0,
            writes: 0,
            most,
            room,
            kept,
            written,
            read_faults: 0,
            write_faults: 0,
            calls: Calls::Well,
        })
    }

    /// All bytes put.
    pub fn written(&self) -> &[u8]
        ensures { outs (made self.now) ≡ result.now }
    {
        &self.written
    }

    /// How its calls went.
    pub fn calls(&self) -> Calls
        ensures { ⟦<MemoryPort as Port>⟧.calls self.now ≡ result }
    {
        self.calls
    }

    /// All bytes got.
    pub fn taken(&self) -> &[u8]
        ensures { ins (made self.now) ≡ result.now }
    {
        &self.input[..self.at]
    }
}

impl Port for MemoryPort {
    ghost use Rattle.dover_port.specs.Memory.{made, read_count, ReadFails, write_count, WriteFails, KeepsScript};
    ghost use Rattle.dover_port.specs.Memory.{number_of};

    ghost moves = { λ m. Some (made m) };

    ghost left = { λ m. Some (drop m.at m.input.items) };

    ghost read_faults = { λ m. m.read_faults };

    ghost write_faults = { λ m. m.write_faults };

    ghost calls = { λ m. m.calls };

    fn read(&mut self, buf: &mut [u8]) -> Result<usize, Failed>
        requires { 0 < length buf.old }
        ensures bound { IfOk result (λ n. n ≤ length buf.new) }
        ensures moved { IfOk result
            (λ n. Adds (Some (made self.old)) (Some (made self.new)) (read_move (take n buf.new))) }
        ensures taken { IfOk result
            (λ n. drop self.old.at self.old.input.items ≡ take n buf.new ++ drop self.new.at self.new.input.items) }
        ensures end { IfOk result (λ n. (n ≡ 0) ↔ (drop self.old.at self.old.input.items ≡ [])) }
        ensures failed { OnErr result
            ((made self.new ≡ made self.old)
            × (drop self.new.at self.new.input.items ≡ drop self.old.at self.old.input.items)) }
        ensures cause { HasCause self.old.read_faults self.new.read_faults self.old.write_faults self.new.write_faults
            result }
        ensures stops { StopsAtFailure self.old.calls self.new.calls result }
        ensures went_on { self.old.calls ≢ Well → self.new.calls ≡ WentOn }
        ensures count { IfOk result (λ n. n ≡ read_count self.old (length buf.old)) }
        ensures fails { IsErr result ↔ ReadFails self.old (length buf.old) }
        ensures script { KeepsScript self.old self.new }
        ensures numbered { self.new.reads ≡ number_of self.old.reads }
        ensures others { self.new.writes ≡ self.old.writes }
    {
        self.reads = self.reads.saturating_add(1);
        let end = piece_end(&self.ends, self.at, self.input.len());
        let count = (end - self.at).min(buf.len());
        if must_fail(
            &self.fail_reads,
            self.reads,
            self.kept.len(),
            self.at,
            count,
            self.room,
        ) {
            self.calls = self.calls.and_a_failed();
            self.read_faults = self.read_faults.saturating_add(1);
            return Err(Failed);
        }
        self.calls = self.calls.and_one();
        buf[..count].copy_from_slice(&self.input[self.at..self.at + count]);
        self.at += count;
        keep(&mut self.kept, read_entry(count));
        Ok(count)
    }

    fn write(&mut self, bytes: &[u8]) -> Result<usize, Failed>
        requires { 0 < length bytes.now }
        ensures some { IfOk result (λ n. 0 < n) }
        ensures bound { IfOk result (λ n. n ≤ length bytes.now) }
        ensures moved { IfOk result (λ n. Adds (Some (made self.old)) (Some (made self.new)) (Put (take n bytes.now))) }
        ensures left { drop self.new.at self.new.input.items ≡ drop self.old.at self.old.input.items }
        ensures failed { OnErr result (made self.new ≡ made self.old) }
        ensures cause { HasCause self.old.write_faults self.new.write_faults self.old.read_faults self.new.read_faults
            result }
        ensures stops { StopsAtFailure self.old.calls self.new.calls result }
        ensures went_on { self.old.calls ≢ Well → self.new.calls ≡ WentOn }
        ensures count { IfOk result (λ n. n ≡ write_count self.old (length bytes.now)) }
        ensures fails { IsErr result ↔ WriteFails self.old (length bytes.now) }
        ensures script { KeepsScript self.old self.new }
        ensures numbered { self.new.writes ≡ number_of self.old.writes }
        ensures others { self.new.reads ≡ self.old.reads }
    {
        self.writes = self.writes.saturating_add(1);
        let count = self.most.min(bytes.len());
        if must_fail(
            &self.fail_writes,
            self.writes,
            self.kept.len(),
            self.written.len(),
            count,
            self.room,
        ) {
            self.calls = self.calls.and_a_failed();
            self.write_faults = self.write_faults.saturating_add(1);
            return Err(Failed);
        }
        self.calls = self.calls.and_one();
        append(&mut self.written, &bytes[..count]);
        keep(&mut self.kept, Kept::Wrote(count));
        Ok(count)
    }
}
