//! The jobs that wait.
ghost use Rattle.std.specs.Prelude.{◌≡◌, ℕ, ◌+◌, ◌*◌, ◌/◌, ◌^◌, ◌<◌, ◌≤◌, [], ◌∷◌, ◌++◌, slice_set, length, List};
ghost use Rattle.std.specs.Prelude.{Option, Some, None, max, vec_len, vec_capacity, option_map, IsOk};
ghost use Rattle.std.specs.Prelude.{OnOk, OnErr, replicate, slice_get, slice_index_or, is_some, count_by};
ghost use Rattle.dover_model.specs.declared.events.Version.{Version};
ghost use Rattle.dover_model.specs.declared.events.Task.{Task};
ghost use Rattle.dover_model.specs.Common.{entry_of, latest_start, starts_before, first};
ghost use Rattle.dover_model.specs.Common.{by_density, waiting_order};
ghost use Rattle.place_heap.specs.Items.{ItemFacts};
ghost use Rattle.place_heap.specs.Table.{IsFirst};
ghost use Rattle.place_heap.specs.Orders.{due_item, latest_item, dense_item};
ghost use Rattle.waiting_pool.specs.Reordered.{IsReordered};
ghost use Rattle.waiting_pool.specs.Pools.{HaveOwnNumbers, AreModest, Pooled, IsPool, HasRoom, jobs_at, most_places};
ghost use Rattle.waiting_pool.specs.Pools.{HasItems, IsPlaceOf, item_by_deadline, item_by_density, orders_of};
ghost use Rattle.waiting_pool.specs.Pools.{IsByDensity};
ghost use Rattle.waiting_pool.specs.Short.{no_number};
ghost use Rattle.waiting_pool.specs.Slots.{seen};

use crate::short::{ShortTask, left};
use crate::slot::WaitingSlot;
use comparison_count::Comparisons;
use dover_model::{Memory, Task, Version};
use place_heap::{Heap, Item, LongRank, Rank, ShortRank, tie_of};
use std::alloc::Global;
use std::marker::Model;
use std::sync::ledger::Ledger;

// What is more parts than any density has.
const MOST_DENSITY: u128 = 1 << 112;

// What a tick of the deadline counts for beside the tie.
const DEADLINE: u128 = 1 << 32;

/// A set of jobs that wait, with the first by deadline, the first by latest start and in version Four the densest one
/// at hand. Each has a place, which another takes once it is gone. A place is opened where none is free, so room that
/// no job needs isn't touched.
#[derive(Drop)]
pub struct Pool {
    version: Version,
    slots: Vec<WaitingSlot>,
    free: Vec<u32>,
    by_deadline: Heap<ShortRank>,
    by_latest: Heap<ShortRank>,
    by_density: Heap<LongRank>,
    room: u32,
}

impl Model for Pool {
    ghost use Rattle.std.specs.Prelude.{vec_capacity, length};
    ghost use Rattle.waiting_pool.specs.Pools.{Pooled, IsPool, HasRoom, jobs_at};

    ghost Value = { Pooled };

    ghost view = { λ p. record { version = p.version; tasks = jobs_at p.slots.items; room = p.room } };

    ghost invariant = { λ p. IsPool p.version p.slots.items p.free.items p.by_deadline p.by_latest p.by_density
        × HasRoom p.version p.room (length p.slots.items) (vec_capacity p.slots) (vec_capacity p.free)
        (length p.by_deadline) (length p.by_latest) (length p.by_density) };
}

// The item of the job by its deadline.
#[inline(always)]
fn due_item(version: Version, place: u32, t: &Task) -> Item<ShortRank>
    ensures { result ≡ due_item version place (entry_of t.now) }
{
    Item::new(
        t.job.deadline(),
        tie_of(version, t.job.value()),
        t.number,
        place,
    )
}

// The item of the job by its latest start.
#[inline(always)]
fn latest_item(version: Version, place: u32, t: &Task) -> Item<ShortRank>
    ensures { result ≡ latest_item version place (entry_of t.now) }
{
    Item::new(
        t.job.deadline().saturating_sub(left(t)),
        tie_of(version, t.job.value()),
        t.number,
        place,
    )
}

// The value for each tick of work in 2^80 parts of one, by long division: 34 binary digits, and twice 23 more.
fn density_of(value: u64, work: u64) -> u128
    requires value { value ≤ 1_000_000_000 }
    requires some { 0 < work }
    requires work { work ≤ 1_000_000_000_000 }
    ensures { result ≡ value * 2 ^ 80 / work }
{
    let high = value * (1 << 34);
    let middle = high % work * (1 << 23);
    let low = middle % work * (1 << 23);
    u128::from(high / work) * (1 << 46)
        + (u128::from(middle / work) * (1 << 23) + u128::from(low / work))
}

// The item of the job by its density. Its deadline, value and number are compared where densities are equal.
#[inline(always)]
fn dense_item(place: u32, t: &Task) -> Item<LongRank>
    ensures { result ≡ dense_item place t.now }
{
    let (value, work, deadline) = (t.job.value(), t.job.work(), t.job.deadline());
    let density = density_of(value, work);
    let rest = deadline as u128 * DEADLINE + u128::from(tie_of(Version::Four, value));
    Item::long(MOST_DENSITY - density, rest, t.number, place)
}

// Keeps the item by density of the job at a place, in version Four. Others pay for a test of the version, and no call.
#[inline(always)]
fn add_dense<L: Ledger>(
    version: Version,
    heap: &mut Heap<LongRank>,
    place: u32,
    t: &Task,
    comparisons: &mut Comparisons<L>,
)
    requires ready { IsByDensity version → place < length heap.old }
    requires free { IsByDensity version → slice_index_or heap.old place None ≡ None }
    ensures in_it { IsByDensity version → heap.new ≡ slice_set heap.old place (item_by_density place t.now) }
    ensures count { (d : ℕ) → (IsByDensity version → count_by is_some heap.old + 1 < 2 ^ d) →
        comparisons.new + 2 * d ≤ comparisons.old + orders_of version * d }
{
    if version.by_density(true) {
        heap.insert(dense_item(place, t), comparisons);
    }
}

// Takes out what is kept by density of a place.
#[inline(always)]
fn remove_dense<L: Ledger>(
    version: Version,
    heap: &mut Heap<LongRank>,
    place: u32,
    comparisons: &mut Comparisons<L>,
)
    ensures out { IsByDensity version → heap.new ≡ slice_set heap.old place None }
    ensures count { (d : ℕ) → (IsByDensity version → count_by is_some heap.old + 1 < 2 ^ d) →
        comparisons.new + 6 * d ≤ comparisons.old + 3 * orders_of version * d }
{
    if version.by_density(true) {
        heap.remove(place, comparisons);
    }
}

// The place of the first of the items.
#[inline(always)]
fn first_place<R: Rank>(heap: &Heap<R>) -> Option<u32>
    ensures { (first : Option ItemFacts) × IsFirst heap.now first × (result ≡ option_map (λ i. i.place) first) }
{
    let item = heap.first()?;
    Some(item.place())
}

// The place of the first waiting job.
#[inline(always)]
fn waiting_place(
    version: Version,
    pressed: bool,
    by_deadline: &Heap<ShortRank>,
    dense: &Heap<LongRank>,
) -> Option<u32>
    ensures { (slots : List (Option Task)) → HasItems (item_by_deadline version) slots by_deadline.now →
        (IsByDensity version → HasItems item_by_density slots dense.now) → HaveOwnNumbers (jobs_at slots) →
        AreModest (jobs_at slots) → IsPlaceOf (waiting_order version (by_density version pressed)) slots result }
{
    if version.by_density(pressed) {
        return first_place(dense);
    }
    first_place(by_deadline)
}

// What is at a place.
#[inline(always)]
fn job_at(slots: &Vec<WaitingSlot>, place: u32) -> Option<&ShortTask>
    requires { place < length slots.now.items }
    ensures { slice_get slots.now.items place ≡ Some (seen result) }
{
    slots[place as usize].task()
}

// What is at a place, taken over.
#[inline(always)]
fn task_at(slots: &Vec<WaitingSlot>, place: u32) -> Option<Task>
    requires { place < length slots.now.items }
    ensures { slice_get slots.now.items place ≡ Some result }
{
    match job_at(slots, place) {
        Some(t) => Some(t.task()),
        None => None,
    }
}

// Puts a job at a place.
#[inline(always)]
fn put_at(slots: &mut Vec<WaitingSlot>, place: u32, t: &Task)
    requires inside { place < length slots.old.items }
    requires number { t.now.number < no_number }
    ensures items { slots.new.items ≡ slice_set slots.old.items place (Some t.now) }
    ensures len { vec_len slots.new ≡ vec_len slots.old }
    ensures capacity { vec_capacity slots.new ≡ vec_capacity slots.old }
{
    slots[place as usize] = WaitingSlot::of(t);
}

// Leaves no job at a place.
#[inline(always)]
fn clear_at(slots: &mut Vec<WaitingSlot>, place: u32)
    requires { place < length slots.old.items }
    ensures items { slots.new.items ≡ slice_set slots.old.items place None }
    ensures len { vec_len slots.new ≡ vec_len slots.old }
    ensures capacity { vec_capacity slots.new ≡ vec_capacity slots.old }
{
    slots[place as usize] = WaitingSlot::empty();
}

// Opens the next place, where no job is.
#[inline(always)]
fn open_place(slots: &mut Vec<WaitingSlot>)
    requires { length slots.old.items < vec_capacity slots.old }
    ensures items { slots.new.items ≡ slots.old.items ++ None ∷ [] }
    ensures capacity { vec_capacity slots.new ≡ vec_capacity slots.old }
{
    slots.push_reserved(WaitingSlot::empty());
}

// The last free place, which is free no more. Where none is, the next one is opened.
#[inline(always)]
fn next_place(slots: &mut Vec<WaitingSlot>, free: &mut Vec<u32>) -> u32
    requires room { length (jobs_at slots.old.items) < vec_capacity slots.old }
    requires count { length free.old.items + length (jobs_at slots.old.items) ≡ length slots.old.items }
    requires few { length slots.old.items < 2 ^ 32 }
    ensures pool { (v : Version) (due latest dense : List (Option ItemFacts)) →
        IsPool v slots.old.items free.old.items due latest dense → length slots.new.items ≤ length due →
        length slots.new.items ≤ length latest → (IsByDensity v → length slots.new.items ≤ length dense) →
        length slots.new.items ≤ most_places →
        IsPool v slots.new.items (free.new.items ++ result ∷ []) due latest dense }
    ensures jobs { jobs_at slots.new.items ≡ jobs_at slots.old.items }
    ensures places { length slots.new.items ≤ max (length slots.old.items) (length (jobs_at slots.old.items) + 1) }
    ensures slots { vec_capacity slots.new ≡ vec_capacity slots.old }
    ensures free { vec_capacity free.new ≡ vec_capacity free.old }
{
    match free.pop() {
        Some(place) => place,
        None => {
            let place = slots.len() as u32;
            open_place(slots);
            place
        }
    }
}

// Takes the job at a place out, which is then free.
#[inline(always)]
fn take_at<L: Ledger>(
    version: Version,
    slots: &mut Vec<WaitingSlot>,
    free: &mut Vec<u32>,
    by_deadline: &mut Heap<ShortRank>,
    by_latest: &mut Heap<ShortRank>,
    dense: &mut Heap<LongRank>,
    place: u32,
    comparisons: &mut Comparisons<L>,
)
    requires some { (t : Task) × (slice_get slots.old.items place ≡ Some (Some t)) }
    requires pool { IsPool version slots.old.items free.old.items by_deadline.old by_latest.old dense.old }
    requires room { vec_len slots.old ≤ vec_capacity free.old }
    ensures rest { (t : Task) → slice_get slots.old.items place ≡ Some (Some t)
        → IsReordered (jobs_at slots.old.items) (t ∷ jobs_at slots.new.items) }
    ensures pool { IsPool version slots.new.items free.new.items by_deadline.new by_latest.new dense.new }
    ensures places { vec_len slots.new ≡ vec_len slots.old }
    ensures capacity { vec_capacity free.new ≡ vec_capacity free.old }
    ensures slots { vec_capacity slots.new ≡ vec_capacity slots.old }
    ensures due { length by_deadline.new ≡ length by_deadline.old }
    ensures latest { length by_latest.new ≡ length by_latest.old }
    ensures dense { IsByDensity version → length dense.new ≡ length dense.old }
    ensures count { (d : ℕ) → length (jobs_at slots.old.items) + 1 < 2 ^ d →
        comparisons.new ≤ comparisons.old + 3 * orders_of version * d }
{
    clear_at(slots, place);
    free.push_reserved(place);
    by_deadline.remove(place, comparisons);
    by_latest.remove(place, comparisons);
    remove_dense(version, dense, place, comparisons);
}

// Memory for so many places by density, in version Four.
fn reserve_dense(version: Version, heap: &mut Heap<LongRank>, places: u32) -> Result<(), Memory>
    ensures grows { (k : ℕ) × (heap.new ≡ heap.old ++ replicate k None) }
    ensures fits { OnOk result (IsByDensity version → places ≤ length heap.new) }
{
    if version.by_density(true) {
        return heap.reserve(places);
    }
    Ok(())
}

// Memory for so many places, which all may be free, and for as many in the heaps. Want of it leaves what is there.
fn reserve_places(
    version: Version,
    slots: &mut Vec<WaitingSlot>,
    free: &mut Vec<u32>,
    by_deadline: &mut Heap<ShortRank>,
    by_latest: &mut Heap<ShortRank>,
    dense: &mut Heap<LongRank>,
    places: u32,
) -> Result<(), Memory>
    requires opened { length slots.old.items ≤ places }
    requires free { length free.old.items ≤ places }
    requires most { places ≤ most_places }
    ensures keeps { (room : ℕ) →
        IsPool version slots.old.items free.old.items by_deadline.old by_latest.old dense.old →
        HasRoom version room (length slots.old.items) (vec_capacity slots.old) (vec_capacity free.old)
        (length by_deadline.old) (length by_latest.old) (length dense.old) →
        IsPool version slots.new.items free.new.items by_deadline.new by_latest.new dense.new
        × HasRoom version room (length slots.new.items) (vec_capacity slots.new) (vec_capacity free.new)
        (length by_deadline.new) (length by_latest.new) (length dense.new) }
    ensures same { slots.new.items ≡ slots.old.items }
    ensures fits { OnOk result (HasRoom version places (length slots.new.items) (vec_capacity slots.new)
        (vec_capacity free.new) (length by_deadline.new) (length by_latest.new) (length dense.new)) }
{
    slots.reserve(places as usize - slots.len())?;
    free.reserve(places as usize - free.len())?;
    by_deadline.reserve(places)?;
    by_latest.reserve(places)?;
    reserve_dense(version, dense, places)?;
    Ok(())
}

impl Pool {
    /// No jobs, and no room.
    pub fn new(alloc: Global, version: Version) -> Pool
        ensures { result ≡ record { version = version; tasks = []; room = 0 } }
    {
        Pool {
            version,
            slots: Vec::new(alloc),
            free: Vec::new(alloc),
            by_deadline: Heap::new(alloc),
            by_latest: Heap::new(alloc),
            by_density: Heap::new(alloc),
            room: 0,
        }
    }

    /// The version that breaks ties.
    #[inline(always)]
    pub fn version(&self) -> Version
        ensures { result ≡ self.now.version }
    {
        self.version
    }

    /// How many jobs wait.
    #[inline(always)]
    pub fn count(&self) -> u32
        ensures { result ≡ length self.now.tasks }
    {
        (self.slots.len() - self.free.len()) as u32
    }

    /// Another version in place of version Four, whose room serves any, where no job waits.
    pub fn declare(&mut self, version: Version)
        requires none { self.old.tasks ≡ [] }
        requires dense { IsByDensity self.old.version }
        ensures { self.new ≡ record self.old { version = version } }
    {
        self.version = version;
    }

    /// Room for so many jobs in all. Where there is, it takes no memory; want of it leaves all as before.
    pub fn reserve(&mut self, places: u32) -> Result<(), Memory>
        requires { places ≤ most_places }
        ensures kept { self.new ≡ record self.old { tasks = self.new.tasks; room = self.new.room } }
        ensures same { self.new.tasks ≡ self.old.tasks }
        ensures ok { OnOk result (self.new.room ≡ max self.old.room places) }
        ensures err { OnErr result (self.new.room ≡ self.old.room) }
        ensures enough { places ≤ self.old.room → IsOk result }
    {
        if places <= self.room {
            return Ok(());
        }
        reserve_places(
            self.version,
            &mut self.slots,
            &mut self.free,
            &mut self.by_deadline,
            &mut self.by_latest,
            &mut self.by_density,
            places,
        )?;
        self.room = places;
        Ok(())
    }

    /// A job begins to wait, for which there is room.
    #[inline(always)]
    pub fn add<L: Ledger>(&mut self, t: Task, comparisons: &mut Comparisons<L>)
        requires room { length self.old.tasks < self.old.room }
        requires number { t.number < no_number }
        ensures kept { self.new ≡ record self.old { tasks = self.new.tasks } }
        ensures more { IsReordered (t ∷ self.old.tasks) self.new.tasks }
        ensures count { (d : ℕ) → length self.old.tasks + 1 < 2 ^ d →
            comparisons.new ≤ comparisons.old + orders_of self.old.version * d }
    {
        let place = next_place(&mut self.slots, &mut self.free);
        let due = due_item(self.version, place, &t);
        let latest = latest_item(self.version, place, &t);
        put_at(&mut self.slots, place, &t);
        self.by_deadline.insert(due, comparisons);
        self.by_latest.insert(latest, comparisons);
        add_dense(self.version, &mut self.by_density, place, &t, comparisons);
    }

    /// The first waiting job, if one waits: by deadline, in a pressed state of version Four by density. Ties go by the
    /// version.
    #[inline(always)]
    pub fn first_waiting(&self, pressed: bool) -> Option<&ShortTask>
        requires own { HaveOwnNumbers self.now.tasks }
        requires modest { AreModest self.now.tasks }
        ensures { let version = self.now.version in
            seen result ≡ first (waiting_order version (by_density version pressed)) self.now.tasks }
    {
        let place = waiting_place(self.version, pressed, &self.by_deadline, &self.by_density)?;
        job_at(&self.slots, place)
    }

    /// The first by latest start, if one waits. Ties go by the version.
    #[inline(always)]
    pub fn first_latest(&self) -> Option<&ShortTask>
        requires own { HaveOwnNumbers self.now.tasks }
        requires modest { AreModest self.now.tasks }
        ensures { seen result ≡ first (starts_before self.now.version) self.now.tasks }
    {
        let item = self.by_latest.first()?;
        job_at(&self.slots, item.place())
    }

    /// The latest start of the first by latest start, if one waits.
    #[inline(always)]
    pub fn first_start(&self) -> Option<u64>
        requires own { HaveOwnNumbers self.now.tasks }
        requires modest { AreModest self.now.tasks }
        ensures { result ≡ option_map latest_start (first (starts_before self.now.version) self.now.tasks) }
    {
        let item = self.by_latest.first()?;
        Some(item.key())
    }

    /// Takes the first waiting job out, if one waits.
    #[inline(always)]
    pub fn take_waiting<L: Ledger>(
        &mut self,
        pressed: bool,
        comparisons: &mut Comparisons<L>,
    ) -> Option<Task>
        requires own { HaveOwnNumbers self.old.tasks }
        requires modest { AreModest self.old.tasks }
        ensures was { let version = self.old.version in
            result ≡ first (waiting_order version (by_density version pressed)) self.old.tasks }
        ensures rest { (t : Task) → result ≡ Some t → IsReordered self.old.tasks (t ∷ self.new.tasks) }
        ensures none { result ≡ None → self.new.tasks ≡ self.old.tasks }
        ensures kept { self.new ≡ record self.old { tasks = self.new.tasks } }
        ensures count { (d : ℕ) → length self.old.tasks + 1 < 2 ^ d →
            comparisons.new ≤ comparisons.old + 3 * orders_of self.old.version * d }
    {
        let place = waiting_place(self.version, pressed, &self.by_deadline, &self.by_density)?;
        let task = task_at(&self.slots, place);
        take_at(
            self.version,
            &mut self.slots,
            &mut self.free,
            &mut self.by_deadline,
            &mut self.by_latest,
            &mut self.by_density,
            place,
            comparisons,
        );
        task
    }

    /// Takes the first by latest start out, if one waits.
    #[inline(always)]
    pub fn take_latest<L: Ledger>(&mut self, comparisons: &mut Comparisons<L>)
        requires own { HaveOwnNumbers self.old.tasks }
        requires modest { AreModest self.old.tasks }
        ensures rest { (t : Task) → first (starts_before self.old.version) self.old.tasks ≡ Some t
            → IsReordered self.old.tasks (t ∷ self.new.tasks) }
        ensures none { first (starts_before self.old.version) self.old.tasks ≡ None → self.new.tasks ≡ self.old.tasks }
        ensures kept { self.new ≡ record self.old { tasks = self.new.tasks } }
        ensures count { (d : ℕ) → length self.old.tasks + 1 < 2 ^ d →
            comparisons.new ≤ comparisons.old + 3 * orders_of self.old.version * d }
    {
        if let Some(item) = self.by_latest.first() {
            take_at(
                self.version,
                &mut self.slots,
                &mut self.free,
                &mut self.by_deadline,
                &mut self.by_latest,
                &mut self.by_density,
                item.place(),
                comparisons,
            );
        }
    }
}
