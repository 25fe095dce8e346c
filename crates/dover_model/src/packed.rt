//! A printed step in 28 bytes, as it is kept where all those of a run are.
ghost use Rattle.std.specs.Prelude.{◌≡◌, ◌≢◌, ◌≤◌, ◌/◌, ◌^◌};
ghost use Rattle.dover_model.specs.Limits.{last_tick};
ghost use Rattle.dover_model.specs.declared.events.Event.TheVariants as model;
ghost use Rattle.dover_model.specs.declared.kind.Kind.TheVariants.{Release};
ghost use Rattle.dover_model.specs.Packing.{high_of, high_with, low_of, joined, event_of};

use crate::events::Event;
use crate::jobs::Job;
use crate::kind::Kind;
use std::marker::Model;
use std::mem::size_of;

// The first number that doesn't fit the low part of one.
const HIGH: u64 = 1 << 32;

// And that of the high part of a tick.
const TOP: u32 = 1 << 16;

/// A printed step. The ticks of a job are below 2^54 and its work is below 2^40, so that each is kept as its low 32
/// digits and the others.
#[derive(Drop)]
pub struct PackedEvent {
    kind: Kind,
    // The high parts of the release, the work and the deadline of a job: 16 digits of a tick, and then its top ones.
    release_top: u8,
    work: u8,
    deadline_top: u8,
    release: u16,
    deadline: u16,
    number: u32,
    // The low parts of these, or the two of a tick, and what else a step names.
    first: u32,
    second: u32,
    third: u32,
    value: u32,
}

const _: () = prove!(size_of::<PackedEvent>() == 28);

impl Model for PackedEvent {
    ghost use Rattle.dover_model.specs.declared.events.Event.{Event};

    ghost Value = { Event };

    ghost use Rattle.dover_model.specs.Packing.{event_of, high_with, HasJob};

    ghost view = { λ p.
        event_of p.kind p.number p.first p.second p.third (high_with p.release p.release_top) p.work
        (high_with p.deadline p.deadline_top) p.value };

    ghost invariant = { λ p.
        HasJob p.kind p.first p.second p.third (high_with p.release p.release_top) p.work
        (high_with p.deadline p.deadline_top) p.value };
}

/// The low part of a number.
#[inline(always)]
pub fn low_of(number: u64) -> u32
    ensures { result ≡ low_of number }
{
    (number % HIGH) as u32
}

/// The high part of a number.
#[inline(always)]
pub fn high_of(number: u64) -> u32
    ensures { result ≡ high_of number }
{
    (number / HIGH) as u32
}

/// The number of these parts.
#[inline(always)]
pub fn joined(low: u32, high: u32) -> u64
    ensures { result ≡ joined low high }
{
    u64::from(low) + u64::from(high) * HIGH
}

/// What is left of the high part of a tick above 16 digits.
#[inline(always)]
fn top_of(tick: u64) -> u8
    requires { tick ≤ last_tick }
    ensures { result ≡ high_of tick / 2 ^ 16 }
{
    (high_of(tick) / TOP) as u8
}

/// The high part of 16 digits and those above them.
#[inline(always)]
fn high_with(high: u16, top: u8) -> u32
    ensures { result ≡ high_with high top }
{
    u32::from(high) + u32::from(top) * TOP
}

/// A step of this kind, which isn't a release, at a tick.
#[inline(always)]
fn at_tick(kind: Kind, at: u64, number: u32, other: u32) -> PackedEvent
    requires { kind ≢ Release }
    ensures { result ≡ event_of kind number (low_of at) (high_of at) other 0 0 0 0 }
{
    PackedEvent {
        kind,
        release_top: 0,
        work: 0,
        deadline_top: 0,
        release: 0,
        deadline: 0,
        number,
        first: low_of(at),
        second: high_of(at),
        third: other,
        value: 0,
    }
}

/// The release of this job.
#[inline(always)]
fn of_release(number: u32, job: &Job) -> PackedEvent
    ensures { result ≡ model.Release number job.now }
{
    let (release, work, deadline) = (job.release(), job.work(), job.deadline());
    PackedEvent {
        kind: Kind::Release,
        release_top: top_of(release),
        work: high_of(work) as u8,
        deadline_top: top_of(deadline),
        release: (high_of(release) % TOP) as u16,
        deadline: (high_of(deadline) % TOP) as u16,
        number,
        first: low_of(release),
        second: low_of(work),
        third: low_of(deadline),
        value: job.value() as u32,
    }
}

impl PackedEvent {
    /// This step, kept.
    #[inline(always)]
    pub fn new(event: &Event) -> PackedEvent
        ensures { result ≡ event.now }
    {
        match event {
            Event::Release { number, job } => of_release(*number, job),
            Event::Run { at, number } => at_tick(Kind::Run, *at, *number, 0),
            Event::Preempt { at, stops, starts } => at_tick(Kind::Preempt, *at, *stops, *starts),
            Event::Take { at, stops, starts } => at_tick(Kind::Take, *at, *stops, *starts),
            Event::Complete { at, number } => at_tick(Kind::Complete, *at, *number, 0),
            Event::Abandon { at, number } => at_tick(Kind::Abandon, *at, *number, 0),
            Event::End { value } => at_tick(Kind::End, *value, 0, 0),
        }
    }

    /// The step.
    #[inline(always)]
    pub fn event(&self) -> Event
        ensures { result ≡ self.now }
    {
        let (at, number, other) = (joined(self.first, self.second), self.number, self.third);
        match self.kind {
            Kind::Release => {
                let release = joined(self.first, high_with(self.release, self.release_top));
                let work = joined(self.second, u32::from(self.work));
                let deadline = joined(self.third, high_with(self.deadline, self.deadline_top));
                let job = Job::of(release, work, deadline, u64::from(self.value));
                Event::Release { number, job }
            }
            Kind::Run => Event::Run { at, number },
            Kind::Preempt => Event::Preempt {
                at,
                stops: number,
                starts: other,
            },
            Kind::Take => Event::Take {
                at,
                stops: number,
                starts: other,
            },
            Kind::Complete => Event::Complete { at, number },
            Kind::Abandon => Event::Abandon { at, number },
            Kind::End => Event::End { value: at },
        }
    }
}
