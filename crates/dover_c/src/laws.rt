//! What a program in C is given, whatever calls it makes and in whatever order, from `dover_init` on: the contract of a
//! function that does nothing. The contracts of the calls are its premises, so it rests on the program's keeping what
//! they require.
ghost use Rattle.dover_model.specs.Common.{Fraction, total_value, observed, printed, completed_value, settled, Each};
ghost use Rattle.dover_model.specs.Common.{Meets, worth, IsWithin, last_tick_in};
ghost use Rattle.std.specs.Prelude.{◌≡◌, ◌≤◌, ◌+◌, ◌++◌, ℕ, List, [], ◌∷◌, map, true};
ghost use Rattle.std.specs.List.{enumerate_from, sum_by};
ghost use Rattle.dover_model.specs.declared.events.Version.{Version};
ghost use Rattle.dover_model.specs.declared.events.Event.TheVariants.{Complete};
ghost use Rattle.dover_model.specs.Finishes as early;
ghost use Rattle.dover_c.specs.declared.slot.Slot.{Slot};
ghost use Rattle.dover_c.specs.declared.Decided.{Decided};
ghost use Rattle.dover_c.specs.declared.Named.{Named};
ghost use Rattle.dover_c.specs.Program.{Act, Past, Done, Step, Finish, IsProgram, told, jobs_told, finishes_told};
ghost use Rattle.dover_c.specs.Program.{all_told, told_anew, is_decision, given, DoesAll};
ghost use Rattle.dover_c.specs.Codes.{shown, shown_next, SuccessorAnswers};

/// The jobs that the program was told were admitted have the numbers 0, 1, 2 and so on. Where a step to a mark answers
/// that none comes, the decisions that were given are all that is settled there of the run of all those jobs, in which
/// those that it was told are done finish early; behind one that is done the next decision is its completion, and the
/// one behind it at the same mark that the job runs which was named as next, or none where none was; with the End they
/// are the whole run; at any moment, also behind a drop, they begin it; and none that was given is changed by what
/// comes later. No schedule of all those jobs, as they were declared or as they were observed, is worth more than
/// the ratio allows that run. Of the jobs as observed, which are as declared where none was done early, some schedule
/// is worth as much as it completes. Where one schedule serves all of them as declared, it completes all, and no
/// decision that was given is a take or an abandonment.
///
/// All that is said from the last `dover_restart` on that answered 0, or from `dover_init` on where there was none. Of
/// all jobs before the restarts and since, each restart's behind the ticks that were taken off, one run completes what
/// these runs complete together, and no schedule is worth more than the ratio allows that.
pub fn a_program_is_given_one_run()
    ensures numbers { (version : Version) (k : Fraction) (capacity : ℕ) (pasts : List Past) (acts : List Act)
        (t : Slot) →
        IsProgram version k capacity pasts acts t →
        told acts ≡ enumerate_from 0 (jobs_told acts) }
    ensures settled { (version : Version) (k : Fraction) (capacity : ℕ) (pasts : List Past) (acts : List Act)
        (mark : ℕ) (answer : Decided)
        (t : Slot) →
        IsProgram version k capacity pasts (acts ++ (Step mark answer ∷ [])) t → answer.kind ≡ 0 →
        given acts ≡ map shown (settled (all_told version k acts) mark) }
    ensures done { (version : Version) (k : Fraction) (capacity : ℕ) (pasts : List Past) (acts : List Act)
        (tick mark : ℕ)
        (f : early.Finish) (answer : Decided) (t : Slot) →
        IsProgram version k capacity pasts (acts ++ (Done tick f 0 ∷ Step mark answer ∷ [])) t →
        is_decision answer ≡ true → answer ≡ shown (Complete tick f.number) }
    ensures successor { (version : Version) (k : Fraction) (capacity : ℕ) (pasts : List Past) (acts : List Act)
        (tick : ℕ) (named : Named) (f : early.Finish) (first second : Decided) (s t : Slot) →
        IsProgram version k capacity pasts acts s → SuccessorAnswers s s named → tick ≤ last_tick_in version →
        DoesAll (Done tick f 0 ∷ Step tick first ∷ Step tick second ∷ []) s t → second ≡ shown_next tick named }
    ensures ended { (version : Version) (k : Fraction) (capacity : ℕ) (pasts : List Past) (acts : List Act)
        (answer : Decided) (t : Slot) →
        IsProgram version k capacity pasts (acts ++ (Finish answer ∷ [])) t → answer.kind ≡ 7 →
        given (acts ++ (Finish answer ∷ [])) ≡ map shown (printed (all_told version k acts)) }
    ensures online { (acts more : List Act) → given (acts ++ more) ≡ given acts ++ given more }
    ensures begins { (version : Version) (k : Fraction) (capacity : ℕ) (pasts : List Past) (acts : List Act)
        (t : Slot) →
        IsProgram version k capacity pasts acts t → (later : List Decided)
        × (map shown (printed (all_told version k acts)) ≡ given acts ++ later) }
    ensures within { (version : Version) (k : Fraction) (capacity : ℕ) (pasts : List Past) (acts : List Act)
        (t : Slot) (s : List ℕ) →
        IsProgram version k capacity pasts acts t →
        IsWithin k (worth (all_told version k acts) s)
        (completed_value (all_told version k acts)) }
    ensures observed { (version : Version) (k : Fraction) (capacity : ℕ) (pasts : List Past) (acts : List Act)
        (t : Slot) (s : List ℕ) →
        IsProgram version k capacity pasts acts t →
        IsWithin k (worth (observed (all_told version k acts)) s)
        (completed_value (all_told version k acts)) }
    ensures as_declared { (version : Version) (k : Fraction) (capacity : ℕ) (pasts : List Past) (acts : List Act)
        (t : Slot) →
        IsProgram version k capacity pasts acts t → finishes_told acts ≡ [] →
        observed (all_told version k acts) ≡ all_told version k acts }
    ensures honest { (version : Version) (k : Fraction) (capacity : ℕ) (pasts : List Past) (acts : List Act)
        (t : Slot) →
        IsProgram version k capacity pasts acts t →
        (s : List ℕ) × (completed_value (all_told version k acts) ≤ worth (observed (all_told version k acts)) s) }
    ensures underload { (version : Version) (k : Fraction) (capacity : ℕ) (pasts : List Past) (acts : List Act)
        (t : Slot) →
        IsProgram version k capacity pasts acts t →
        Meets (all_told version k acts) → completed_value (all_told version k acts) ≡ total_value (jobs_told acts) }
    ensures none_lost { (version : Version) (k : Fraction) (capacity : ℕ) (pasts : List Past) (acts : List Act)
        (t : Slot) →
        IsProgram version k capacity pasts acts t → Meets (all_told version k acts) →
        Each (λ answer. (answer.kind ≡ 4 → ⊥) × (answer.kind ≡ 6 → ⊥)) (given acts) }
    ensures within_anew { (version : Version) (k : Fraction) (capacity : ℕ) (pasts : List Past) (acts : List Act)
        (t : Slot) (s : List ℕ) → IsProgram version k capacity pasts acts t →
        IsWithin k (worth (told_anew version k pasts acts) s)
        (completed_value (told_anew version k pasts acts)) }
    ensures observed_anew { (version : Version) (k : Fraction) (capacity : ℕ) (pasts : List Past) (acts : List Act)
        (t : Slot) (s : List ℕ) → IsProgram version k capacity pasts acts t →
        IsWithin k (worth (observed (told_anew version k pasts acts)) s)
        (completed_value (told_anew version k pasts acts)) }
    ensures value_anew { (version : Version) (k : Fraction) (capacity : ℕ) (pasts : List Past) (acts : List Act)
        (t : Slot) → IsProgram version k capacity pasts acts t →
        completed_value (told_anew version k pasts acts)
        ≡ sum_by (λ past. completed_value (all_told version k past.acts)) pasts
        + completed_value (all_told version k acts) }
{}
