//! The engine for a program in C. A program hands in the address of a place of `dover_size` bytes, which it neither
//! reads nor writes from `dover_init` on. Behind `dover_drop`, and where none was made, each call says that there is no
//! engine.
#![tactic(auto)]

pub mod laws;
mod slot;

ghost use Rattle.std.specs.Prelude.{◌≡◌};
ghost use prog.Memory.{size, capped};
ghost use denote.Param.{layout};
ghost use types.Logic.{sem};
ghost use base.Fraction.{full_share};
ghost use denote.RawPtr.{lies_at, room_at};
ghost use Rattle.dover_model.specs.Common.{fraction, with_factor, job_of_numbers};
ghost use Rattle.dover_c.specs.declared.slot.Slot.{Slot};
ghost use Rattle.dover_c.specs.contracts.slot.Slot.{the_row};
ghost use Rattle.dover_c.specs.Codes.{IsMade, AdmitAnswers, StepAnswers, FinishAnswers, StatusAnswers, ValueAnswers};
ghost use Rattle.dover_c.specs.Codes.{HighAnswers, RoomAnswers, NextAnswers, SuccessorAnswers, DropAnswers, DoneSays};
ghost use Rattle.dover_c.specs.Codes.{RestartAnswers};
ghost use Rattle.dover_c.specs.Places.{after_at};

use crate::slot::Slot;
use std::alloc::Global;
use std::rt::Memory;

/// A place for an engine, as C sees it: only by its address.
#[repr(C)]
#[derive(Drop)]
pub struct Place {
    byte: u8,
}

/// The answer to a job: status 0 and its number, or why it wasn't admitted, with the number of the job that breaks the
/// ratio with it where one does.
#[repr(C)]
#[derive(Clone, Copy)]
pub struct Admitted {
    /// The number of the job, or of the one that breaks the ratio with it; else 0.
    pub number: u64,
    /// 0 where it was admitted, else the cause, by the numbers of the header.
    pub status: u32,
}

/// A decision: its tick; its job; the job that it stops; and its kind, which also says why there is none. At the end it
/// is the value in two words.
#[repr(C)]
#[derive(Clone, Copy)]
pub struct Decided {
    /// The tick of the decision, and at the end the low word of the value of all jobs that completed.
    pub tick: u64,
    /// The number of its job.
    pub job: u64,
    /// The number of the job that it stops, and at the end the high word of the value.
    pub other: u64,
    /// Which decision it is, or why there is none, by the numbers of the header.
    pub kind: u32,
}

/// The tick for which to call next, with status 0, or why there is none.
#[repr(C)]
#[derive(Clone, Copy)]
pub struct Due {
    /// The tick; else 0.
    pub tick: u64,
    /// 0 where there is a tick, else the cause, by the numbers of the header.
    pub status: u32,
}

/// The job that would be next, with status 0, or why there is none.
#[repr(C)]
#[derive(Clone, Copy)]
pub struct Named {
    /// The number of the job; else 0.
    pub job: u64,
    /// 0 where there is one, else the cause, by the numbers of the header.
    pub status: u32,
}

/// The tick that a restart took off the clock, with status 0, or why there was none.
#[repr(C)]
#[derive(Clone, Copy)]
pub struct Restarted {
    /// The tick; else 0.
    pub tick: u64,
    /// 0 where it began anew, else the cause, by the numbers of the header.
    pub status: u32,
}

/// Makes an engine of this ratio and version with room for so many open jobs, and puts it at the address.
/// `dover_status` says whether there is one.
#[unsafe(no_mangle)]
pub unsafe extern "C" fn dover_init(
    alloc: Global,
    place: *mut Place,
    p: u32,
    q: u32,
    version: u32,
    capacity: u32,
)
    requires* { sem 𝓛 (room_at the_row place) }
    ensures* { sem 𝓛 (after_at place (λ made. IsMade (fraction p q) version capacity made)) }
{
    let made = slot::make(alloc, p, q, version, capacity);
    let at = place as *mut Slot;
    at.write(made);
}

/// The same with a factor `b/c` beside the ratio, by which a value has to be more to be heavy.
#[unsafe(no_mangle)]
pub unsafe extern "C" fn dover_init_factor(
    alloc: Global,
    place: *mut Place,
    p: u32,
    q: u32,
    version: u32,
    capacity: u32,
    b: u32,
    c: u32,
)
    requires* { sem 𝓛 (room_at the_row place) }
    ensures* { sem 𝓛 (after_at place (λ made. IsMade (with_factor (fraction p q) b c) version capacity made)) }
{
    let made = slot::make_with_factor(alloc, p, q, version, capacity, b, c);
    let at = place as *mut Slot;
    at.write(made);
}

/// 5 where there is an engine, else why there is none: 0 where it was dropped.
#[unsafe(no_mangle)]
pub unsafe extern "C" fn dover_status(place: *mut Place) -> u32
    ghost v: { Slot }
    requires* { sem 𝓛 (lies_at the_row full_share place v) }
    ensures* { sem 𝓛 (after_at place (λ w. StatusAnswers v w result)) }
{
    slot::status(&mut *(place as *mut Slot))
}

/// Admits the job of these numbers. No memory is taken.
#[unsafe(no_mangle)]
pub unsafe extern "C" fn dover_admit(
    place: *mut Place,
    release: u64,
    work: u64,
    deadline: u64,
    value: u64,
) -> Admitted
    ghost v: { Slot }
    requires* { sem 𝓛 (lies_at the_row full_share place v) }
    ensures* { sem 𝓛 (after_at place (λ w. AdmitAnswers v w (job_of_numbers release work deadline value) result)) }
{
    slot::admit(&mut *(place as *mut Slot), release, work, deadline, value)
}

/// The job is done at the tick, though it has work left: 0, or why that isn't taken, by the numbers of the header. No
/// memory is taken.
#[unsafe(no_mangle)]
pub unsafe extern "C" fn dover_done(place: *mut Place, tick: u64, job: u64) -> u32
    ghost v: { Slot }
    requires* { sem 𝓛 (lies_at the_row full_share place v) }
    ensures* { sem 𝓛 (after_at place (λ w. DoneSays tick job v w result)) }
{
    slot::done(&mut *(place as *mut Slot), tick, job)
}

/// The next decision that no job can change that is released at the mark or later. No memory is taken.
#[unsafe(no_mangle)]
pub unsafe extern "C" fn dover_step(place: *mut Place, mark: u64, memory: Memory) -> Decided
    ghost v: { Slot }
    requires* { sem 𝓛 (lies_at the_row full_share place v) }
    ensures* { sem 𝓛 (after_at place (λ w. StepAnswers mark v w result)) }
{
    slot::step(&mut *(place as *mut Slot), mark, memory)
}

/// The next decision, where no further job can come. No memory is taken.
#[unsafe(no_mangle)]
pub unsafe extern "C" fn dover_finish(place: *mut Place, memory: Memory) -> Decided
    ghost v: { Slot }
    requires* { sem 𝓛 (lies_at the_row full_share place v) }
    ensures* { sem 𝓛 (after_at place (λ w. FinishAnswers v w result)) }
{
    slot::finish(&mut *(place as *mut Slot), memory)
}

/// Begins anew at a moment of rest, as `dover_init` left the place. No memory is taken.
#[unsafe(no_mangle)]
pub unsafe extern "C" fn dover_restart(place: *mut Place) -> Restarted
    ghost v: { Slot }
    requires* { sem 𝓛 (lies_at the_row full_share place v) }
    ensures* { sem 𝓛 (after_at place (λ w. RestartAnswers v w result)) }
{
    slot::restart(&mut *(place as *mut Slot))
}

/// The tick for which to call next. No memory is taken.
#[unsafe(no_mangle)]
pub unsafe extern "C" fn dover_next(place: *mut Place) -> Due
    ghost v: { Slot }
    requires* { sem 𝓛 (lies_at the_row full_share place v) }
    ensures* { sem 𝓛 (after_at place (λ w. NextAnswers v w result)) }
{
    slot::next(&mut *(place as *mut Slot))
}

/// The job that would get the processor next if the one that has it were done at the clock. No memory is taken.
#[unsafe(no_mangle)]
pub unsafe extern "C" fn dover_successor(place: *mut Place) -> Named
    ghost v: { Slot }
    requires* { sem 𝓛 (lies_at the_row full_share place v) }
    ensures* { sem 𝓛 (after_at place (λ w. SuccessorAnswers v w result)) }
{
    slot::successor(&mut *(place as *mut Slot))
}

/// The low word of the value of all jobs that completed.
#[unsafe(no_mangle)]
pub unsafe extern "C" fn dover_value(place: *mut Place) -> u64
    ghost v: { Slot }
    requires* { sem 𝓛 (lies_at the_row full_share place v) }
    ensures* { sem 𝓛 (after_at place (λ w. ValueAnswers v w result)) }
{
    slot::value(&mut *(place as *mut Slot))
}

/// The high word of that value.
#[unsafe(no_mangle)]
pub unsafe extern "C" fn dover_value_high(place: *mut Place) -> u64
    ghost v: { Slot }
    requires* { sem 𝓛 (lies_at the_row full_share place v) }
    ensures* { sem 𝓛 (after_at place (λ w. HighAnswers v w result)) }
{
    slot::value_high(&mut *(place as *mut Slot))
}

/// For how many open jobs more there is room.
#[unsafe(no_mangle)]
pub unsafe extern "C" fn dover_spare(place: *mut Place) -> u32
    ghost v: { Slot }
    requires* { sem 𝓛 (lies_at the_row full_share place v) }
    ensures* { sem 𝓛 (after_at place (λ w. RoomAnswers v w result)) }
{
    slot::room(&mut *(place as *mut Slot))
}

/// Gives back the engine's memory. There is no engine then, so that this may be called again, and so may all others.
#[unsafe(no_mangle)]
pub unsafe extern "C" fn dover_drop(place: *mut Place)
    ghost v: { Slot }
    requires* { sem 𝓛 (lies_at the_row full_share place v) }
    ensures* { sem 𝓛 (after_at place (λ w. DropAnswers v w)) }
{
    slot::end(&mut *(place as *mut Slot));
}

/// How many bytes a place has. It lies at a multiple of 8.
#[unsafe(no_mangle)]
pub extern "C" fn dover_size() -> usize
    ensures { result ≡ capped (size (layout the_row)) }
{
    std::mem::size_of::<Slot>()
}
