//! An engine where one could be made, and its calls with answers in numbers.
ghost use Rattle.std.specs.Prelude.{◌≡◌, ◌<◌};
ghost use Rattle.dover_model.specs.Common.{fraction, with_factor, job_of_numbers, version_number};
ghost use Rattle.dover_model.specs.declared.horizon.Horizon.TheVariants.{End};
ghost use Rattle.dover_engine.specs.Calls.{Decides};
ghost use Rattle.dover_c.specs.Codes.{IsMade, AdmitAnswers, StepAnswers, FinishAnswers, StatusAnswers, DropAnswers};
ghost use Rattle.dover_c.specs.Codes.{ValueAnswers, HighAnswers, RoomAnswers, NextAnswers, SuccessorAnswers, due_of};
ghost use Rattle.dover_c.specs.Codes.{named_of, high_word, low_word, DoneSays, done_code, cause_code, other_in};
ghost use Rattle.dover_c.specs.Codes.{made_code, mark_code, numbers_of, IsStepOf, RestartAnswers, restart_code};

use crate::{Admitted, Decided, Due, Named, Restarted};
use comparison_count::Comparisons;
use dover_engine::{Decision, Engine, NotAdmitted, NotDone, NotMade, NotRestarted, NotStepped};
use dover_model::{Ratio, Version};
use std::alloc::Global;
use std::marker::Brand;
use std::mem::size_of;
use std::rt::Memory;
use std::sync::ledger::{Blank, Ledger};

// 2^64, which is one more than the greatest number of 64 bits.
const WORD: u128 = 1 << 64;

/// An engine, or why there is none. Zeros say that there is none, as after a drop.
#[derive(Drop)]
pub struct Slot {
    status: u32,
    engine: Option<Engine>,
}

// DOVER_WORDS of include/dover.h.
const _: () = prove!(size_of::<Slot>() <= 720);

fn made_code(cause: NotMade) -> u32
    ensures { result ≡ made_code cause }
{
    match cause {
        NotMade::Capacity => 2,
        NotMade::Memory => 3,
    }
}

fn none(status: u32) -> Slot
    ensures { result ≡ record { status = status; engine = None } }
{
    Slot {
        status,
        engine: None,
    }
}

pub(crate) fn make(alloc: Global, p: u32, q: u32, version: u32, capacity: u32) -> Slot
    ensures { IsMade (fraction p q) version capacity result }
{
    let Some(version) = Version::from_number(u64::from(version)) else {
        return none(4);
    };
    let Some(k) = Ratio::new(p, q) else {
        return none(1);
    };
    engine_of(alloc, version, k, capacity)
}

pub(crate) fn make_with_factor(
    alloc: Global,
    p: u32,
    q: u32,
    version: u32,
    capacity: u32,
    b: u32,
    c: u32,
) -> Slot
    ensures { IsMade (with_factor (fraction p q) b c) version capacity result }
{
    let Some(version) = Version::from_number(u64::from(version)) else {
        return none(4);
    };
    let Some(k) = Ratio::new(p, q) else {
        return none(1);
    };
    let Some(k) = k.with_factor(b, c) else {
        return none(6);
    };
    engine_of(alloc, version, k, capacity)
}

// An engine of this ratio and version with room for so many open jobs, if it can be made.
fn engine_of(alloc: Global, version: Version, k: Ratio, capacity: u32) -> Slot
    ensures { IsMade k (version_number version) capacity result }
{
    match Engine::new(alloc, version, k, capacity) {
        Ok(engine) => Slot {
            status: 5,
            engine: Some(engine),
        },
        Err(cause) => none(made_code(cause)),
    }
}

pub(crate) fn end(slot: &mut Slot)
    ensures { DropAnswers slot.old slot.new }
{
    *slot = none(0);
}

pub(crate) fn status(slot: &mut Slot) -> u32
    ensures { StatusAnswers slot.old slot.new result }
{
    slot.status
}

fn cause_code(cause: NotAdmitted) -> u32
    ensures { result ≡ cause_code cause }
{
    match cause {
        NotAdmitted::Unsettled => 1,
        NotAdmitted::BadJob => 2,
        NotAdmitted::Count => 3,
        NotAdmitted::Total => 4,
        NotAdmitted::Ratio { .. } => 5,
        NotAdmitted::Full => 6,
        NotAdmitted::Numbers => 8,
    }
}

// The job that it names, and 0 where it names none.
fn other_in(cause: NotAdmitted) -> u64
    ensures { result ≡ other_in cause }
{
    match cause {
        NotAdmitted::Ratio { other } => other,
        _ => 0,
    }
}

pub(crate) fn admit(slot: &mut Slot, release: u64, work: u64, deadline: u64, value: u64) -> Admitted
    ensures { AdmitAnswers slot.old slot.new (job_of_numbers release work deadline value) result }
{
    let Some(engine) = &mut slot.engine else {
        return Admitted {
            number: 0,
            status: 7,
        };
    };
    match engine.admit(release, work, deadline, value) {
        Ok(number) => Admitted { number, status: 0 },
        Err(cause) => Admitted {
            number: other_in(cause),
            status: cause_code(cause),
        },
    }
}

fn done_code(cause: NotDone) -> u32
    ensures { result ≡ done_code cause }
{
    match cause {
        NotDone::Version => 4,
        NotDone::Unsettled => 1,
        NotDone::NotRunning => 3,
        NotDone::Behind => 2,
    }
}

pub(crate) fn done(slot: &mut Slot, tick: u64, job: u64) -> u32
    ensures { DoneSays tick job slot.old slot.new result }
{
    let Some(engine) = &mut slot.engine else {
        return 7;
    };
    match engine.done(tick, job) {
        Ok(()) => 0,
        Err(cause) => done_code(cause),
    }
}

fn numbers(kind: u32, tick: u64, job: u64, other: u64) -> Decided
    ensures { result ≡ record { tick = tick; job = job; other = other; kind = kind } }
{
    Decided {
        tick,
        job,
        other,
        kind,
    }
}

// The number below 2^64 that a great one leaves.
fn low_word(number: u128) -> u64
    ensures { result ≡ low_word number }
{
    (number % WORD) as u64
}

// How many times 2^64 a great number has.
fn high_word(number: u128) -> u64
    ensures { result ≡ high_word number }
{
    (number / WORD) as u64
}

fn numbers_of(answer: &Option<Decision>) -> Decided
    ensures { result ≡ numbers_of answer.now }
{
    match answer {
        None => numbers(0, 0, 0, 0),
        Some(Decision::Release { number, job }) => numbers(1, job.release(), *number, 0),
        Some(Decision::Run { at, number }) => numbers(2, *at, *number, 0),
        Some(Decision::Preempt { at, stops, starts }) => numbers(3, *at, *starts, *stops),
        Some(Decision::Take { at, stops, starts }) => numbers(4, *at, *starts, *stops),
        Some(Decision::Complete { at, number }) => numbers(5, *at, *number, 0),
        Some(Decision::Abandon { at, number }) => numbers(6, *at, *number, 0),
        Some(Decision::End { value }) => numbers(7, low_word(*value), 0, high_word(*value)),
    }
}

fn mark_code(cause: NotStepped) -> u32
    ensures { result ≡ mark_code cause }
{
    match cause {
        NotStepped::Falls => 8,
        NotStepped::Late => 9,
        NotStepped::Finished => 10,
    }
}

// A step of the engine to the mark, whose comparisons nobody counts.
fn step_to<L: Ledger>(
    engine: &mut Engine,
    mark: u64,
    memory: Memory,
    blank: Blank,
) -> Result<Option<Decision>, NotStepped>
    requires name { blank.name ≡ L.name }
    requires parts { blank.parts ≡ L.parts }
    requires some { 0 < blank.parts }
    ensures { IsStepOf mark engine.old engine.new result }
{
    let mut comparisons = Comparisons::<L>::new(memory, blank);
    engine.step(mark, &mut comparisons)
}

pub(crate) fn step(slot: &mut Slot, mark: u64, memory: Memory) -> Decided
    ensures { StepAnswers mark slot.old slot.new result }
{
    let Some(engine) = &mut slot.engine else {
        return numbers(11, 0, 0, 0);
    };
    match step_to::<Brand>(engine, mark, memory, Blank::new(1)) {
        Ok(answer) => numbers_of(&answer),
        Err(cause) => numbers(mark_code(cause), 0, 0, 0),
    }
}

// A step of the engine to the end, whose comparisons nobody counts.
fn step_to_end<L: Ledger>(engine: &mut Engine, memory: Memory, blank: Blank) -> Option<Decision>
    requires name { blank.name ≡ L.name }
    requires parts { blank.parts ≡ L.parts }
    requires some { 0 < blank.parts }
    ensures { Decides End engine.old engine.new result }
{
    let mut comparisons = Comparisons::<L>::new(memory, blank);
    engine.finish(&mut comparisons)
}

pub(crate) fn finish(slot: &mut Slot, memory: Memory) -> Decided
    ensures { FinishAnswers slot.old slot.new result }
{
    let Some(engine) = &mut slot.engine else {
        return numbers(11, 0, 0, 0);
    };
    let answer = step_to_end::<Brand>(engine, memory, Blank::new(1));
    numbers_of(&answer)
}

fn restart_code(cause: NotRestarted) -> u32
    ensures { result ≡ restart_code cause }
{
    match cause {
        NotRestarted::Finished => 10,
        NotRestarted::Unsettled => 1,
        NotRestarted::Open => 2,
    }
}

pub(crate) fn restart(slot: &mut Slot) -> Restarted
    ensures { RestartAnswers slot.old slot.new result }
{
    let Some(engine) = &mut slot.engine else {
        return Restarted { tick: 0, status: 7 };
    };
    match engine.restart() {
        Ok(tick) => Restarted { tick, status: 0 },
        Err(cause) => Restarted {
            tick: 0,
            status: restart_code(cause),
        },
    }
}

fn due_of(answer: Option<u64>) -> Due
    ensures { result ≡ due_of answer }
{
    match answer {
        Some(tick) => Due { tick, status: 0 },
        None => Due { tick: 0, status: 1 },
    }
}

pub(crate) fn next(slot: &mut Slot) -> Due
    ensures { NextAnswers slot.old slot.new result }
{
    match &slot.engine {
        Some(engine) => due_of(engine.next()),
        None => Due { tick: 0, status: 7 },
    }
}

fn named_of(answer: Option<u64>) -> Named
    ensures { result ≡ named_of answer }
{
    match answer {
        Some(job) => Named { job, status: 0 },
        None => Named { job: 0, status: 1 },
    }
}

pub(crate) fn successor(slot: &mut Slot) -> Named
    ensures { SuccessorAnswers slot.old slot.new result }
{
    match &slot.engine {
        Some(engine) => named_of(engine.successor()),
        None => Named { job: 0, status: 7 },
    }
}

pub(crate) fn value(slot: &mut Slot) -> u64
    ensures { ValueAnswers slot.old slot.new result }
{
    match &slot.engine {
        Some(engine) => low_word(engine.value()),
        None => 0,
    }
}

pub(crate) fn value_high(slot: &mut Slot) -> u64
    ensures { HighAnswers slot.old slot.new result }
{
    match &slot.engine {
        Some(engine) => high_word(engine.value()),
        None => 0,
    }
}

pub(crate) fn room(slot: &mut Slot) -> u32
    ensures { RoomAnswers slot.old slot.new result }
{
    match &slot.engine {
        Some(engine) => engine.spare(),
        None => 0,
    }
}
