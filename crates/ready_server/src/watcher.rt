//! What looks on while a list is run.
ghost use Rattle.std.specs.Prelude.{◌≤◌, ◌++◌, ◌∷◌, List, [], length};
ghost use Rattle.dover_model.specs.declared.events.Event.{Event};

use dover_model::Event;

/// Sees each printed step of a run, in order.
pub trait Watcher {
    /// It has seen these steps.
    ghost seen: { Self → List Event → Type 0 };

    /// Sees one step more. There were at most 20,000,000,000 before it.
    fn see(&mut self, event: &Event)
        requires { (events : List Event) × seen self.old events × (length events ≤ 20_000_000_000) }
        ensures { (events : List Event) → seen self.old events → seen self.new (events ++ event.now ∷ []) };
}
