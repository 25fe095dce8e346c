//! Items in the order of a heap, beside the position of each place. An item that moves leaves a hole into which others
//! move, until it is put where it belongs.
ghost use Rattle.std.specs.Prelude.{◌≡◌, ℕ, ◌+◌, ◌*◌, ◌^◌, ◌<◌, ◌≤◌, [], ◌∷◌, ◌++◌};
ghost use Rattle.std.specs.Prelude.{length, slice_set, slice_index_or, vec_capacity};
ghost use Rattle.place_heap.specs.Items.{ItemFacts};
ghost use Rattle.place_heap.specs.Table.{HasHole, IsIndexed, table_of, table_with};
ghost use Rattle.place_heap.specs.HeapOrder.{IsAhead, IsHeap, IsHeapUp, IsHeapSave};

use crate::item::Item;
use crate::rank::Rank;
use comparison_count::Comparisons;
use std::sync::ledger::Ledger;

/// The position of a place that has no item.
pub(crate) const NOWHERE: u32 = u32::MAX;

// Writes an item at a position, and the position at its place.
#[inline(always)]
fn set_at<R: Rank>(items: &mut [Item<R>], positions: &mut [u32], at: usize, item: Item<R>)
    requires at { at < length items.old }
    requires few { length items.old < 2 ^ 32 }
    requires ready { item.place < length positions.old }
    ensures items { items.new ≡ slice_set items.old at item }
    ensures positions { positions.new ≡ slice_set positions.old item.place at }
{
    positions[item.place() as usize] = at as u32;
    items[at] = item;
}

/// Moves the hole up to where the item's parent comes before it, and puts the item there.
#[inline(always)]
pub(crate) fn sift_up<R: Rank, L: Ledger>(
    items: &mut [Item<R>],
    positions: &mut [u32],
    item: Item<R>,
    hole: usize,
    comparisons: &mut Comparisons<L>,
)
    requires few { length items.old < 2 ^ 32 }
    requires hole { HasHole items.old positions.old item hole }
    requires heap { IsHeapUp (slice_set items.old hole item) hole }
    ensures indexed { IsIndexed items.new positions.new }
    ensures table { table_of items.new positions.new ≡ table_with items.old positions.old item hole }
    ensures heap { IsHeap items.new }
    ensures count { (d : ℕ) → length items.old < 2 ^ d → 2 * comparisons.new ≤ 2 * comparisons.old + d + 1 }
{
    let mut at = hole;
    while at > 0 {
        let parent = (at - 1) / 4;
        let above = items[parent];
        if !item.is_before(&above, comparisons) {
            set_at(items, positions, at, item);
            return;
        }
        set_at(items, positions, at, above);
        at = parent;
    }
    set_at(items, positions, at, item);
}

// Of two positions the one whose item comes first.
#[inline(always)]
fn earlier<R: Rank, L: Ledger>(
    items: &[Item<R>],
    left: usize,
    right: usize,
    comparisons: &mut Comparisons<L>,
) -> usize
    requires order { left ≤ right }
    requires inside { right < length items.now }
    ensures low { left ≤ result }
    ensures high { result ≤ right }
    ensures left { IsAhead items.now result left }
    ensures right { IsAhead items.now result right }
    ensures count { comparisons.new ≡ comparisons.old + 1 }
{
    if items[right].is_before(&items[left], comparisons) {
        right
    } else {
        left
    }
}

// Of four positions, from this one on, the one whose item comes first. Two pairs are compared, then their first ones,
// since that has no unpredictable branch.
#[inline(always)]
fn first_of_four<R: Rank, L: Ledger>(
    items: &[Item<R>],
    low: usize,
    comparisons: &mut Comparisons<L>,
) -> usize
    requires { low + 4 ≤ length items.now }
    ensures low { low ≤ result }
    ensures high { result < low + 4 }
    ensures first { (k : ℕ) → low ≤ k → k < low + 4 → IsAhead items.now result k }
    ensures count { comparisons.new ≡ comparisons.old + 3 }
{
    let four = &items[low..low + 4];
    let left = earlier(four, 0, 1, comparisons);
    let right = earlier(four, 2, 3, comparisons);
    low + earlier(four, left, right, comparisons)
}

// Of the positions from this one on, of which there are fewer than four, the one whose item comes first.
#[inline(always)]
fn first_of_few<R: Rank, L: Ledger>(
    items: &[Item<R>],
    low: usize,
    comparisons: &mut Comparisons<L>,
) -> usize
    requires some { low < length items.now }
    requires few { length items.now < low + 4 }
    ensures low { low ≤ result }
    ensures inside { result < length items.now }
    ensures first { (k : ℕ) → low ≤ k → k < length items.now → IsAhead items.now result k }
    ensures count { comparisons.new ≤ comparisons.old + 3 }
{
    match items.len() - low {
        1 => low,
        2 => earlier(items, low, low + 1, comparisons),
        _ => {
            let left = earlier(items, low, low + 1, comparisons);
            earlier(items, left, low + 2, comparisons)
        }
    }
}

// The child that comes first.
#[inline(always)]
fn first_child<R: Rank, L: Ledger>(
    items: &[Item<R>],
    at: usize,
    comparisons: &mut Comparisons<L>,
) -> usize
    requires child { at * 4 + 1 < length items.now }
    requires few { length items.now < 2 ^ 32 }
    ensures low { at * 4 + 1 ≤ result }
    ensures high { result ≤ at * 4 + 4 }
    ensures inside { result < length items.now }
    ensures first { (k : ℕ) → at * 4 + 1 ≤ k → k ≤ at * 4 + 4 → k < length items.now → IsAhead items.now result k }
    ensures count { comparisons.new ≤ comparisons.old + 3 }
{
    let low = at * 4 + 1;
    if low + 4 <= items.len() {
        return first_of_four(items, low, comparisons);
    }
    first_of_few(items, low, comparisons)
}

/// Moves the hole down to where it has no children, each time to the child that comes first, and then up to where the
/// item belongs. Nothing is compared with the item on the way down, since a heap's last one seldom belongs higher.
#[inline(always)]
pub(crate) fn settle<R: Rank, L: Ledger>(
    items: &mut [Item<R>],
    positions: &mut [u32],
    item: Item<R>,
    hole: usize,
    comparisons: &mut Comparisons<L>,
)
    requires few { length items.old < 2 ^ 32 }
    requires hole { HasHole items.old positions.old item hole }
    requires heap { IsHeapSave (slice_set items.old hole item) hole }
    ensures indexed { IsIndexed items.new positions.new }
    ensures table { table_of items.new positions.new ≡ table_with items.old positions.old item hole }
    ensures heap { IsHeap items.new }
    ensures count { (d : ℕ) → length items.old + 2 < 2 ^ d → comparisons.new ≤ comparisons.old + 3 * d }
{
    let mut at = hole;
    while at * 4 + 1 < items.len() {
        let child = first_child(items, at, comparisons);
        let below = items[child];
        set_at(items, positions, at, below);
        at = child;
    }
    sift_up(items, positions, item, at, comparisons);
}

/// Takes the last item off.
pub(crate) fn take_last<R: Rank>(items: &mut Vec<Item<R>>, positions: &mut [u32])
    requires some { 0 < length items.old.items }
    requires few { length items.old.items < 2 ^ 32 }
    requires indexed { IsIndexed items.old.items positions.old }
    ensures last { (d : ItemFacts) → items.old.items
        ≡ items.new.items ++ slice_index_or items.old.items (length items.new.items) d ∷ [] }
    ensures capacity { vec_capacity items.new ≡ vec_capacity items.old }
    ensures indexed { IsIndexed items.new.items positions.new }
    ensures table { (d : ItemFacts) → table_of items.new.items positions.new
        ≡ slice_set (table_of items.old.items positions.old)
        (slice_index_or items.old.items (length items.new.items) d).place None }
{
    let last = items.pop().unwrap();
    positions[last.place() as usize] = NOWHERE;
}

/// Takes the item at a position out, which leaves a hole, and the last one off, which is to go there.
pub(crate) fn take_out<R: Rank>(
    items: &mut Vec<Item<R>>,
    positions: &mut [u32],
    at: usize,
) -> Item<R>
    requires at { at + 1 < length items.old.items }
    requires few { length items.old.items < 2 ^ 32 }
    requires indexed { IsIndexed items.old.items positions.old }
    requires heap { IsHeap items.old.items }
    ensures fewer { length items.new.items + 1 ≡ length items.old.items }
    ensures capacity { vec_capacity items.new ≡ vec_capacity items.old }
    ensures hole { HasHole items.new.items positions.new result at }
    ensures table { (d : ItemFacts) → table_with items.new.items positions.new result at
        ≡ slice_set (table_of items.old.items positions.old) (slice_index_or items.old.items at d).place None }
    ensures heap { IsHeapSave (slice_set items.new.items at result) at }
{
    let last = items.pop().unwrap();
    positions[items[at].place() as usize] = NOWHERE;
    last
}
