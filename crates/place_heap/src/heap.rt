//! The heap.
ghost use Rattle.std.specs.Prelude.{◌≡◌, ℕ, ◌+◌, ◌-◌, ◌*◌, ◌^◌, ◌<◌, ◌≤◌, [], ◌++◌, length, replicate};
ghost use Rattle.std.specs.Prelude.{is_some, slice_set, slice_index_or, vec_len, vec_capacity, IsOk, OnOk, OnErr};
ghost use Rattle.std.specs.Prelude.{count_by};
ghost use Rattle.place_heap.specs.Items.{ItemFacts};
ghost use Rattle.place_heap.specs.Table.{IsFirst, IsIndexed, table_of, position};
ghost use Rattle.place_heap.specs.Kept.{IsKept};
ghost use Rattle.place_heap.specs.HeapOrder.{IsHeap};

use crate::item::Item;
use crate::rank::Rank;
use crate::sift::{NOWHERE, settle, sift_up, take_last, take_out};
use comparison_count::Comparisons;
use dover_model::Memory;
use std::alloc::Global;
use std::marker::Model;
use std::sync::ledger::Ledger;

/// A set of items at places of their own, from which the first and that of a place are taken in logarithmic time.
#[derive(Drop)]
pub struct Heap<R: Rank> {
    items: Vec<Item<R>>,
    positions: Vec<u32>,
}

impl<R: Rank> Model for Heap<R> {
    ghost use Rattle.std.specs.Prelude.{List, Option, vec_capacity};
    ghost use Rattle.place_heap.specs.Items.{ItemFacts};
    ghost use Rattle.place_heap.specs.Table.{table_of};
    ghost use Rattle.place_heap.specs.Kept.{IsKept};

    ghost Value = { List (Option ItemFacts) };

    ghost view = { λ h. table_of h.items.items h.positions.items };

    ghost invariant = { λ h. IsKept h.items.items h.positions.items (vec_capacity h.items) };
}

impl<R: Rank> Heap<R> {
    /// No items, and no places.
    pub fn new(alloc: Global) -> Heap<R>
        ensures { result ≡ [] }
    {
        Heap {
            items: Vec::new(alloc),
            positions: Vec::new(alloc),
        }
    }

    /// Makes the places below `places` ready for use, with room for an item at each. Where they are, it takes no
    /// memory.
    ///
    /// # Errors
    ///
    /// `Memory` where there is none, and all is as before. It doesn't come where there is room.
    #[cold]
    pub fn reserve(&mut self, places: u32) -> Result<(), Memory>
        ensures ok { OnOk result (self.new ≡ self.old ++ replicate (places - length self.old) None) }
        ensures err { OnErr result (self.new ≡ self.old) }
        ensures enough { places ≤ length self.old → IsOk result }
    {
        if places <= self.places() {
            return Ok(());
        }
        self.items.reserve(places as usize - self.items.len())?;
        self.positions.resize(places as usize, NOWHERE)?;
        Ok(())
    }

    /// The places below this one are ready for use.
    #[inline(always)]
    pub fn places(&self) -> u32
        ensures { result ≡ length self.now }
    {
        self.positions.len() as u32
    }

    /// How many items there are.
    #[inline(always)]
    pub fn len(&self) -> u32
        ensures { result ≡ count_by is_some self.now }
    {
        self.items.len() as u32
    }

    /// An item before which no other comes, if there is any: one alone where no two have one number.
    #[inline(always)]
    pub fn first(&self) -> Option<Item<R>>
        ensures { IsFirst self.now result }
    {
        self.items.first().copied()
    }

    /// Puts an item in at its place, by at most as many comparisons as the length plus one has binary digits.
    #[inline(always)]
    pub fn insert<L: Ledger>(&mut self, item: Item<R>, comparisons: &mut Comparisons<L>)
        requires ready { item.place < length self.old }
        requires free { slice_index_or self.old item.place None ≡ None }
        ensures in_it { self.new ≡ slice_set self.old item.place (Some item) }
        ensures count { (d : ℕ) → count_by is_some self.old + 1 < 2 ^ d → comparisons.new ≤ comparisons.old + d }
    {
        put(&mut self.items, &mut self.positions, item, comparisons);
    }

    /// Takes the item at the place out, if there is one, by at most three comparisons for each binary digit of the
    /// length plus one.
    #[inline(always)]
    pub fn remove<L: Ledger>(&mut self, place: u32, comparisons: &mut Comparisons<L>)
        ensures out { self.new ≡ slice_set self.old place None }
        ensures count { (d : ℕ) → count_by is_some self.old + 1 < 2 ^ d → comparisons.new ≤ comparisons.old + 3 * d }
    {
        let at = position_of(&self.positions, place);
        if at != NOWHERE {
            take_at(
                &mut self.items,
                &mut self.positions,
                at as usize,
                comparisons,
            );
        }
    }
}

// The position that is kept of a place.
#[inline(always)]
fn position_of(positions: &[u32], place: u32) -> u32
    ensures { result ≡ position positions.now place }
{
    if place as usize >= positions.len() {
        return NOWHERE;
    }
    positions[place as usize]
}

// Puts an item in.
#[inline(always)]
fn put<R: Rank, L: Ledger>(
    items: &mut Vec<Item<R>>,
    positions: &mut [u32],
    item: Item<R>,
    comparisons: &mut Comparisons<L>,
)
    requires room { vec_len items.old < vec_capacity items.old }
    requires few { length items.old.items + 1 < 2 ^ 32 }
    requires ready { item.place < length positions.old }
    requires free { slice_index_or (table_of items.old.items positions.old) item.place None ≡ None }
    requires indexed { IsIndexed items.old.items positions.old }
    requires heap { IsHeap items.old.items }
    ensures more { length items.new.items ≡ length items.old.items + 1 }
    ensures capacity { vec_capacity items.old ≤ vec_capacity items.new }
    ensures indexed { IsIndexed items.new.items positions.new }
    ensures table { table_of items.new.items positions.new
        ≡ slice_set (table_of items.old.items positions.old) item.place (Some item) }
    ensures heap { IsHeap items.new.items }
    ensures count { (d : ℕ) → length items.old.items + 1 < 2 ^ d → comparisons.new ≤ comparisons.old + d }
{
    let last = items.len();
    items.push_reserved(item);
    sift_up(items, positions, item, last, comparisons);
}

// Takes the item at a position out.
#[inline(always)]
fn take_at<R: Rank, L: Ledger>(
    items: &mut Vec<Item<R>>,
    positions: &mut [u32],
    at: usize,
    comparisons: &mut Comparisons<L>,
)
    requires indexed { IsIndexed items.old.items positions.old }
    requires few { length items.old.items < 2 ^ 32 }
    requires at { at < length items.old.items }
    requires heap { IsHeap items.old.items }
    ensures fewer { length items.new.items + 1 ≡ length items.old.items }
    ensures capacity { vec_capacity items.new ≡ vec_capacity items.old }
    ensures indexed { IsIndexed items.new.items positions.new }
    ensures table { (d : ItemFacts) → table_of items.new.items positions.new
        ≡ slice_set (table_of items.old.items positions.old) (slice_index_or items.old.items at d).place None }
    ensures heap { IsHeap items.new.items }
    ensures count { (d : ℕ) → length items.old.items + 1 < 2 ^ d → comparisons.new ≤ comparisons.old + 3 * d }
{
    if at + 1 == items.len() {
        take_last(items, positions);
        return;
    }
    let last = take_out(items, positions, at);
    settle(items, positions, last, at, comparisons);
}
