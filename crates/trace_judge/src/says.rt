//! What a line of a trace says: what it declares, the cause of a refusal, or a step.
ghost use Rattle.std.specs.Prelude.{◌≡◌, ◌≤◌, ◌+◌, ◌↔◌, IsTrue, Some, ◌==◌, if◌then◌else◌};
ghost use Rattle.std.specs.Bool.{then_some};
ghost use Rattle.dover_model.specs.Common.{last_tick, Prints, is_end, waits_for_mark, rules_with, late_refusal};
ghost use Rattle.dover_model.specs.Session.{is_declarable};
ghost use Rattle.dover_model.specs.declared.events.Refusal.TheVariants.{Full};

use dover_model::{Event, Ratio, Refusal, Version};

/// Both may be declared together: the ratio has no factor, or the version takes one.
pub(crate) fn may_declare(version: Version, ratio: Ratio) -> bool
    ensures { result ≡ is_declarable (rules_with ratio version) }
{
    match (ratio.factor(), version) {
        (None, _) | (Some(_), Version::Three | Version::Four) => true,
        (Some(_), Version::One | Version::Two) => false,
    }
}

/// It is the cause for which a late job line is refused alone.
pub(crate) fn is_late_cause(version: Version, cause: Refusal) -> bool
    ensures { IsTrue result ↔ (late_refusal version ≡ Some cause) }
{
    match version {
        Version::One | Version::Two => false,
        Version::Three | Version::Four => is_same_cause(cause, Refusal::Late),
    }
}

/// It is the cause that as many jobs are ready as may be at once, of a line at its job's release.
pub(crate) fn is_full_cause(release: u64, at: u64, cause: Refusal) -> bool
    ensures { IsTrue result ↔ (then_some (release == at) Full ≡ Some cause) }
{
    if release != at {
        return false;
    }
    is_same_cause(cause, Refusal::Full)
}

/// Both are the same cause.
pub(crate) fn is_same_cause(a: Refusal, b: Refusal) -> bool
    ensures { IsTrue result ↔ (a ≡ b) }
{
    a == b
}

/// The event is the last.
pub(crate) fn is_end(event: &Event) -> bool
    ensures { result ≡ is_end (Prints event.now) }
{
    matches!(event, Event::End { .. })
}

/// The least tick at which the event is settled, right after it is printed.
pub(crate) fn floor_after(event: &Event, clock: u64) -> u64
    requires { clock ≤ last_tick }
    ensures { result ≡ (if waits_for_mark (Prints event.now) then clock + 1 else clock) }
{
    match event {
        Event::Take { .. } => clock + 1,
        Event::Abandon { .. } => clock + 1,
        Event::Release { .. } => clock,
        Event::Run { .. } => clock,
        Event::Preempt { .. } => clock,
        Event::Complete { .. } => clock,
        Event::End { .. } => clock,
    }
}
