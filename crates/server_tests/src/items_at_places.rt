//! A heap of items beside a list of them by their places, and the order of two items.
ghost use Rattle.std.specs.Prelude.{◌≡◌, ◌<◌, length, IfSome};

use comparison_count::Comparisons;
use dover_model::Version;
use dover_model::jobs::MOST_VALUE;
use place_heap::{Heap, Item, LongRank, ShortRank, tie_of};
use std::marker::Brand;
use std::sync::ledger::{Blank, Ledger};

// A key, a tie, a number and a place, in which no two agree in the first three.
type Row = (u64, u32, u32, u32);

// What is listed of a place without an item: it comes behind all rows.
const FREE: Row = (u64::MAX, 0, 0, 0);

// The next number of the generator.
fn draw(state: &mut u64) -> u64 {
    *state = state.wrapping_mul(1103515245).wrapping_add(12345) % 2147483648;
    *state / 65536
}

// The numbers of an item at this place, below 200, with many ties. The number is that of no other place.
fn drawn(state: &mut u64, place: u32) -> Row
    requires { place < 200 }
    ensures { result.3 ≡ place }
{
    let key = draw(state) % 8;
    let tie = (draw(state) % 4) as u32;
    let number = (draw(state) % 4) as u32 * 200 + (199 - place);
    (key, tie, number, place)
}

// Whether the heap has as many items as are listed, and the first of them is its first.
fn is_as_listed(heap: &Heap<ShortRank>, rows: &[Row]) -> bool {
    let mut first = FREE;
    let mut count: u64 = 0;
    for row in rows {
        if *row < first {
            first = *row;
        }
        if *row != FREE {
            count = count.wrapping_add(1);
        }
    }
    let is_first = match heap.first() {
        Some(item) => item.key() == first.0 && item.place() == first.3,
        None => first == FREE,
    };
    is_first && u64::from(heap.len()) == count
}

// Whether the heap, which begins empty, answers as the list of its items does, round by round.
fn goes_as_listed<L: Ledger>(
    heap: &mut Heap<ShortRank>,
    rows: &mut [Row],
    comparisons: &mut Comparisons<L>,
) -> bool
    requires heap { length heap.old ≡ 200 }
    requires rows { length rows.old ≡ 200 }
{
    let mut state = 1;
    for _ in 0..3000 {
        let place = (draw(&mut state) % 200) as u32;
        heap.remove(place, comparisons);
        rows[place as usize] = FREE;
        if draw(&mut state) % 8 != 0 {
            let row = drawn(&mut state, place);
            heap.insert(Item::new(row.0, row.1, row.2, row.3), comparisons);
            rows[place as usize] = row;
        }
        if !is_as_listed(heap, rows) {
            return false;
        }
    }
    true
}

// A job by its deadline, its value and its number.
type Due = (u64, u64, u32);

/// Two jobs, at the places 0 and 1, and the place of the one that comes first.
static TIES: [(Version, Due, Due, u32); 5] = [
    (Version::One, (0, 1, 7), (1, 1_000_000_000, 0), 0),
    (Version::Two, (1, 1_000_000_000, 0), (0, 1, 7), 1),
    (
        Version::One,
        (1_000_000_000_000, 1_000_000_000, 999_999),
        (1_000_000_000_000, 1, 3),
        1,
    ),
    (
        Version::Two,
        (1_000_000_000_000, 1, 3),
        (1_000_000_000_000, 1_000_000_000, 999_999),
        1,
    ),
    (
        Version::Three,
        (10_000_000_000_000_000, 1_000_000_000, 0),
        (9_999_999_999_999_999, 1, u32::MAX),
        1,
    ),
];

// The item of a job whose value is within its limit.
fn item(version: Version, job: Due, place: u32) -> Option<Item<ShortRank>>
    ensures { IfSome result (λ item. item.place ≡ place) }
{
    if job.1 <= MOST_VALUE {
        return Some(Item::new(job.0, tie_of(version, job.1), job.2, place));
    }
    None
}

// Whether of each two jobs this one comes first. None is in the heap then.
fn come_so<L: Ledger>(
    heap: &mut Heap<ShortRank>,
    rows: &[(Version, Due, Due, u32)],
    comparisons: &mut Comparisons<L>,
) -> bool
    requires { length heap.old ≡ 200 }
    ensures { length heap.new ≡ 200 }
{
    for (version, one, other, place) in rows {
        let (Some(one), Some(other)) = (item(*version, *one, 0), item(*version, *other, 1)) else {
            return false;
        };
        heap.remove(0, comparisons);
        heap.remove(1, comparisons);
        heap.insert(one, comparisons);
        heap.insert(other, comparisons);
        match heap.first() {
            Some(first) if first.place() == *place => {}
            _ => return false,
        }
    }
    heap.remove(0, comparisons);
    heap.remove(1, comparisons);
    true
}

// Whether a heap of 200 places orders its items so.
fn orders<L: Ledger>(rt: &HostRuntime, blank: Blank) -> bool
    requires name { blank.name ≡ L.name }
    requires parts { blank.parts ≡ L.parts }
    requires some { 0 < blank.parts }
{
    let mut comparisons: Comparisons<L> = Comparisons::new(rt.memory(), blank);
    let mut heap = Heap::new(rt.alloc());
    heap.reserve(200).is_ok()
        && come_so(&mut heap, &TIES, &mut comparisons)
        && goes_as_listed(&mut heap, &mut [FREE; 200], &mut comparisons)
}

#[test]
fn the_first_is_that_of_a_list(rt: HostRuntime) {
    assert!(rt; orders::<Brand>(&rt, Blank::new(1)));
}

/// A key, a tie, a number, and the place, which says as which of them the item comes.
static LONG: [(u128, u128, u32, u32); 6] = [
    (1 << 127, 1 << 95, 1, 5),
    (1, 1, 3, 2),
    (0, (1 << 96) - 1, 5, 0),
    (1 << 127, 0, 2, 3),
    (1, 0, 4, 1),
    (1 << 127, 1 << 95, 0, 4),
];

// Puts in the items of the rows, of which none is in the heap then.
fn put_long<L: Ledger>(heap: &mut Heap<LongRank>, comparisons: &mut Comparisons<L>)
    requires { length heap.old ≡ 200 }
    ensures { length heap.new ≡ 200 }
{
    for (key, tie, number, place) in &LONG {
        if *tie < 1 << 96 && *place < 200 {
            heap.remove(*place, comparisons);
            heap.insert(Item::long(*key, *tie, *number, *place), comparisons);
        }
    }
}

// Whether the items come in the order of their places.
fn come_by_place<L: Ledger>(heap: &mut Heap<LongRank>, comparisons: &mut Comparisons<L>) -> bool
    requires { length heap.old ≡ 200 }
{
    put_long(heap, comparisons);
    for place in 0..6 {
        match heap.first() {
            Some(first) if first.place() == place => heap.remove(place, comparisons),
            _ => return false,
        }
    }
    heap.first().is_none()
}

// Whether a heap of long items has them in their order.
fn orders_long<L: Ledger>(rt: &HostRuntime, blank: Blank) -> bool
    requires name { blank.name ≡ L.name }
    requires parts { blank.parts ≡ L.parts }
    requires some { 0 < blank.parts }
{
    let mut comparisons: Comparisons<L> = Comparisons::new(rt.memory(), blank);
    let mut heap = Heap::new(rt.alloc());
    heap.reserve(200).is_ok() && come_by_place(&mut heap, &mut comparisons)
}

#[test]
fn long_items_come_by_key_tie_and_number(rt: HostRuntime) {
    assert!(rt; orders_long::<Brand>(&rt, Blank::new(1)));
}
