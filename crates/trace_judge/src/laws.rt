//! What a reader of a trace carries from line to line, and which line may come next. Each law is the contract of a
//! function that does nothing.
ghost use Rattle.std.specs.Prelude.{◌≡◌, ◌⊎◌, ◌∷◌, ◌++◌, [], ℕ, List, true};
ghost use Rattle.dover_model.specs.declared.events.Event.{Event};
ghost use Rattle.dover_model.specs.Common.{Session, instance_of, State, text_of, begins_trace, PrintsNext};
ghost use Rattle.trace_judge.specs.Reading.{Sees, IsReleaseNext, IsRefusedNext, IsCompletionNext};

/// Lines that are seen begin a trace, and some step is printed next.
pub fn lines_seen_begin_a_trace()
    ensures begins { (ls : List (List ℕ)) (S : Session) (floor : ℕ) (z : State) → Sees ls S floor z
        → begins_trace ls ≡ true }
    ensures next { (ls : List (List ℕ)) (S : Session) (floor : ℕ) (z : State) → Sees ls S floor z →
        (e : Event) × (y : State) × PrintsNext (instance_of S).rules z e y }
{}

/// Only the text of the step that is printed next goes on with them, or a release, a refused line or an early
/// completion that may come.
pub fn only_these_lines_go_on()
    ensures { (ls : List (List ℕ)) (S : Session) (floor : ℕ) (z : State) → Sees ls S floor z → (e : Event) (y : State) →
        PrintsNext (instance_of S).rules z e y → (l : List ℕ) → begins_trace (ls ++ l ∷ []) ≡ true →
        (l ≡ text_of e) ⊎ (IsReleaseNext S floor z l
        ⊎ (IsRefusedNext S floor z l ⊎ IsCompletionNext S floor z l)) }
{}
