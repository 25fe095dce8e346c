//! The held jobs, with the room that they leave.
#![tactic(auto)]

ghost use Rattle.std.specs.Prelude.{◌≡◌, ◌-◌, ◌^◌, ◌<◌, ◌≤◌, [], ◌∷◌, max, IfOk, IsOk, OnOk, OnErr};
ghost use Rattle.dover_model.specs.Common.{room_of, Each};
ghost use Rattle.held_stack.specs.Stack.{Stack, top_of, value_of, IsByDeadline, IsDueBeforeTop, without_top};

mod rooms;

use dover_model::{Entry, Memory};
pub use rooms::Rooms;
use std::alloc::Global;
use std::marker::Model;

/// A stack of held jobs. Each is due before those below it.
#[derive(Drop)]
pub struct HeldStack {
    entries: Vec<Entry>,
    rooms: Rooms,
}

impl Model for HeldStack {
    ghost use Rattle.std.specs.Prelude.{◌+◌, ◌≤◌, reverse, vec_len, vec_capacity};
    ghost use Rattle.held_stack.specs.Stack.{Stack};
    ghost use Rattle.held_stack.specs.Kept.{AreRoomsOf};

    ghost Value = { Stack };

    ghost view = { λ q. record { held = reverse q.entries.items; spare = q.rooms.spare } };

    ghost invariant = { λ q. AreRoomsOf q.rooms (reverse q.entries.items)
        × (vec_len q.entries + q.rooms.spare ≤ vec_capacity q.entries) };
}

impl HeldStack {
    /// None are held.
    pub fn new(alloc: Global) -> Result<HeldStack, Memory>
        ensures { IfOk result (λ q. q ≡ record { held = []; spare = 0 }) }
    {
        Ok(HeldStack {
            entries: Vec::new(alloc),
            rooms: Rooms::new(alloc),
        })
    }

    /// Makes room for `more` holds. Where there is room for them, it takes no memory; want of it leaves all as before.
    pub fn reserve(&mut self, more: u32) -> Result<(), Memory>
        ensures ok { OnOk result (self.new ≡ record self.old { spare = max self.old.spare more }) }
        ensures err { OnErr result (self.new ≡ self.old) }
        ensures enough { more ≤ self.old.spare → IsOk result }
    {
        if more <= self.rooms.spare() {
            return Ok(());
        }
        self.entries.reserve(more as usize)?;
        self.rooms.reserve(more)?;
        Ok(())
    }

    /// Puts a job on top. It is due before the others, and the sum of the values stays below 10^18.
    pub fn hold(&mut self, e: Entry)
        requires spare { 1 ≤ self.old.spare }
        requires first { IsDueBeforeTop e self.old.held }
        requires total { value_of (e ∷ self.old.held) < 10 ^ 18 }
        ensures { self.new ≡ record { held = e ∷ self.old.held; spare = self.old.spare - 1 } }
    {
        self.rooms.hold(&e);
        self.entries.push_reserved(e);
    }

    /// The one that is due first, if any is held.
    pub fn top(&self) -> Option<Entry>
        ensures top { result ≡ top_of self.now.held }
        ensures order { IsByDeadline self.now.held }
    {
        self.entries.last().copied()
    }

    /// The room of the held jobs with `e`, which is due before them.
    pub fn room_with(&self, e: &Entry, now: u64) -> u64
        requires { Each (λ f. e.now.deadline < f.deadline) self.now.held }
        ensures { result ≡ room_of now (e.now ∷ self.now.held) }
    {
        self.rooms.room_with(e, now)
    }

    /// The sum of the values of the held jobs.
    pub fn value_sum(&self) -> u64
        ensures is { result ≡ value_of self.now.held }
        ensures modest { result < 10 ^ 18 }
    {
        self.rooms.value_sum()
    }

    /// Takes the one on top out, if any is held.
    pub fn release_one(&mut self) -> Option<Entry>
        ensures top { result ≡ top_of self.old.held }
        ensures order { IsByDeadline self.old.held }
        ensures rest { self.new ≡ without_top self.old }
    {
        let e = self.entries.pop()?;
        self.rooms.release_one(e.value);
        Some(e)
    }
}
