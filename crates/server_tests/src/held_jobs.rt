//! A stack of two held jobs.
ghost use Rattle.std.specs.Prelude.{◌≡◌, []};

use dover_model::Entry;
use held_stack::HeldStack;

/// A job, and one that is held before it.
const LATER: Entry = Entry {
    number: 0,
    deadline: 30,
    latest: 27,
    left: 3,
    value: 3,
};

const SOONER: Entry = Entry {
    number: 1,
    deadline: 4,
    latest: 2,
    left: 2,
    value: 2,
};

fn is_empty(stack: &mut HeldStack) -> bool {
    stack.top().is_none() && stack.release_one().is_none()
}

// Whether of two jobs the one that is due first is on top, until each is released.
fn is_due_first(stack: &mut HeldStack) -> bool
    requires { stack.old.held ≡ [] }
{
    if stack.reserve(2).is_err() {
        return false;
    }
    stack.hold(LATER);
    stack.hold(SOONER);
    let is_on_top = stack.top() == Some(SOONER);
    let is_released = stack.release_one() == Some(SOONER) && stack.release_one() == Some(LATER);
    is_on_top && is_released && is_empty(stack)
}

#[test]
fn the_one_due_first_is_on_top(rt: HostRuntime) {
    let mut stack = HeldStack::new(rt.alloc()).expect(&rt, "memory");
    assert!(rt; is_due_first(&mut stack));
}
