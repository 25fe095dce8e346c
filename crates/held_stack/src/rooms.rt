//! The rooms that held jobs leave, kept without the jobs.
ghost use Rattle.std.specs.Prelude.{◌≡◌, ◌+◌, ◌-◌, ◌^◌, ◌<◌, ◌≤◌, [], ◌∷◌, List, length, max, reverse};
ghost use Rattle.std.specs.Prelude.{IsOk, OnOk, OnErr};
ghost use Rattle.dover_model.specs.declared.events.Entry.{Entry};
ghost use Rattle.dover_model.specs.Entries.{room_of};
ghost use Rattle.held_stack.specs.Kept.{AreRoomsOf, first_of};
ghost use Rattle.held_stack.specs.Stack.{IsDueBeforeTop, room_at};

use dover_model::{Entry, Memory};
use std::alloc::Global;
use std::marker::Model;

/// For each job of a stack of held jobs the tick until which the room lasts that it and those below it leave, and the
/// sum of their values. The jobs themselves are the caller's: a clause speaks of any jobs whose rooms these may be.
#[derive(Drop)]
pub struct Rooms {
    untils: Vec<u64>,
    value: u64,
    spare: u32,
}

impl Model for Rooms {
    ghost use Rattle.std.specs.Prelude.{◌+◌, ◌^◌, ◌<◌, ◌≤◌, reverse, vec_len, vec_capacity};
    ghost use Rattle.held_stack.specs.Kept.{Lasting};

    ghost Value = { Lasting };

    ghost view = { λ r. record { untils = reverse r.untils.items; spare = r.spare; value = r.value } };

    ghost invariant = { λ r. (vec_len r.untils + r.spare ≤ vec_capacity r.untils)
        × (vec_len r.untils + r.spare < 2 ^ 32) };
}

// The tick of the job on top, which is the last one.
#[inline(always)]
fn peek(untils: &Vec<u64>) -> Option<u64>
    ensures { result ≡ first_of (reverse untils.now.items) }
{
    untils.last().copied()
}

impl Rooms {
    /// None are held.
    pub fn new(alloc: Global) -> Rooms
        ensures kept { AreRoomsOf result [] }
        ensures spare { result.spare ≡ 0 }
    {
        Rooms {
            untils: Vec::new(alloc),
            value: 0,
            spare: 0,
        }
    }

    /// Makes room for `more` holds. Where there is room for them, it takes no memory.
    ///
    /// # Errors
    ///
    /// `Memory` where there is none, and all is as before. It doesn't come where there is room.
    pub fn reserve(&mut self, more: u32) -> Result<(), Memory>
        ensures ok { OnOk result (self.new ≡ record self.old { spare = max self.old.spare more }) }
        ensures err { OnErr result (self.new ≡ self.old) }
        ensures enough { more ≤ self.old.spare → IsOk result }
    {
        if more <= self.spare {
            return Ok(());
        }
        if more as usize > u32::MAX as usize - self.untils.len() {
            return Err(Memory);
        }
        self.untils.reserve(more as usize)?;
        self.spare = more;
        Ok(())
    }

    /// How many more can be held.
    #[inline(always)]
    pub fn spare(&self) -> u32
        ensures { result ≡ self.now.spare }
    {
        self.spare
    }

    /// How many ticks could go to others from the tick `now` on before some held job misses its deadline, if any is
    /// held.
    #[inline(always)]
    pub fn room(&self, now: u64) -> Option<u64>
        ensures { (held : List Entry) → AreRoomsOf self.now held → result ≡ room_at now held }
    {
        match peek(&self.untils) {
            Some(until) => Some(until.saturating_sub(now)),
            None => None,
        }
    }

    /// The room of the held jobs with `e`, which is due before them.
    #[inline(always)]
    pub fn room_with(&self, e: &Entry, now: u64) -> u64
        ensures { (held : List Entry) → AreRoomsOf self.now held → IsDueBeforeTop e.now held →
            result ≡ room_of now (e.now ∷ held) }
    {
        let alone = e.deadline.saturating_sub(e.left).saturating_sub(now);
        match self.room(now) {
            Some(room) => alone.min(room.saturating_sub(e.left)),
            None => alone,
        }
    }

    /// Puts `e` on top, which is due before the held jobs. The sum of the values stays below 10^18.
    #[inline(always)]
    pub fn hold(&mut self, e: &Entry)
        requires spare { 1 ≤ self.old.spare }
        requires total { self.old.value + e.now.value < 10 ^ 18 }
        ensures kept { (held : List Entry) → AreRoomsOf self.old held → IsDueBeforeTop e.now held →
            AreRoomsOf self.new (e.now ∷ held) }
        ensures spare { self.new.spare ≡ self.old.spare - 1 }
    {
        let until = self.room_with(e, 0);
        self.untils.push_reserved(until);
        self.value += e.value;
        self.spare -= 1;
    }

    /// Takes the job on top out, which has this value.
    #[inline(always)]
    pub fn release_one(&mut self, value: u64)
        requires { (e : Entry) × (below : List Entry) × AreRoomsOf self.old (e ∷ below) × (e.value ≡ value) }
        ensures kept { (e : Entry) (below : List Entry) → AreRoomsOf self.old (e ∷ below) → e.value ≡ value →
            AreRoomsOf self.new below }
        ensures spare { self.new.spare ≡ self.old.spare + 1 }
    {
        self.untils.pop().unwrap();
        self.value -= value;
        self.spare += 1;
    }

    /// None are held any more.
    #[inline(always)]
    pub fn clear(&mut self)
        ensures kept { AreRoomsOf self.new [] }
        ensures spare { (held : List Entry) → AreRoomsOf self.old held →
            self.new.spare ≡ self.old.spare + length held }
    {
        self.spare += self.untils.len() as u32;
        self.untils.clear();
        self.value = 0;
    }

    /// The sum of the values of the held jobs.
    #[inline(always)]
    pub fn value_sum(&self) -> u64
        ensures { result ≡ self.now.value }
    {
        self.value
    }
}
