//! Laws of runs that come to rest, and of jobs in parts.
ghost use Rattle.std.specs.Prelude.{◌≡◌, ◌≤◌, ◌+◌, ◌++◌, ◌↔◌, ℕ, List, [], ◌∷◌, map, length, false};
ghost use Rattle.dover_model.specs.Common.{Finish, JobFacts, End, Rules, Instance, IsValid, total_value, run, printed};
ghost use Rattle.dover_model.specs.Common.{completed_value, observed, settled, Prints, Meets, worth, IsWithin};
ghost use Rattle.dover_model.specs.Common.{takes_or_abandons, Each, AreOwn, instead_with, followed_by, NoneBefore};
ghost use Rattle.dover_model.specs.Common.{IsAtRest, end_tick, behind, before_end, Turn, turn_under, turns_jobs};
ghost use Rattle.dover_model.specs.Common.{turns_finishes, turns_observed, one_run, TurnsEnd, printed_turns};
ghost use Rattle.dover_model.specs.Common.{completed_turns, later_job, later_event, anew, printed_anew, IsTurn};
ghost use Rattle.dover_model.specs.Common.{part_of};
ghost use Rattle.dover_model.specs.Rest.{AreAnew, completed_anew};
ghost use Rattle.dover_model.specs.Parts.{IsParted, part_under, completed_in_parts, bounds_of_parts};

/// What holds of runs in turn and of parts. Each clause begins with the name of its law, whose remark stands above. It
/// does nothing.
pub fn laws_of_rest()
    // From the tick of its End on a run is at rest, and then all that it prints is settled but its End.
    ensures all_is_settled_at_rest_rest { (J : Instance) (m : ℕ) → IsValid J → IsAtRest J m ↔ (end_tick J ≤ m) }
    ensures all_is_settled_at_rest_settled { (J : Instance) (m : ℕ) → IsValid J → IsAtRest J m
        → settled J m ≡ before_end (printed J) }
    ensures all_is_settled_at_rest_end { (J : Instance) (m : ℕ) → IsValid J → IsAtRest J m
        → printed J ≡ before_end (printed J) ++ (End (completed_value J) ∷ []) }

    // A run falls apart at rest: with jobs that are released then or later, and their finishes, it prints what it
    // prints without them, and then what they print alone, numbered behind.
    ensures runs_fall_apart_at_rest_printed { (J : Instance) (more : List JobFacts) (finishes : List Finish) (m : ℕ)
        → AreOwn J → IsValid J → IsValid (instead_with J more finishes) → IsAtRest J m → NoneBefore m more
        → printed (followed_by J more finishes) ≡ before_end (printed J)
        ++ map (behind (length J.jobs) (completed_value J)) (printed (instead_with J more finishes)) }
    ensures runs_fall_apart_at_rest_settled { (J : Instance) (more : List JobFacts) (finishes : List Finish)
        (m mark : ℕ) → AreOwn J → IsValid J → IsValid (instead_with J more finishes) → IsAtRest J m → NoneBefore m more
        → m ≤ mark → settled (followed_by J more finishes) mark ≡ before_end (printed J)
        ++ map (behind (length J.jobs) (completed_value J)) (settled (instead_with J more finishes) mark) }
    ensures runs_fall_apart_at_rest_value { (J : Instance) (more : List JobFacts) (finishes : List Finish) (m : ℕ)
        → AreOwn J → IsValid J → IsValid (instead_with J more finishes) → IsAtRest J m → NoneBefore m more
        → completed_value (followed_by J more finishes)
        ≡ completed_value J + completed_value (instead_with J more finishes) }

    // So does the run of many lists in turn, whose jobs may finish early, each list under finishes of its own. They may
    // have more jobs together, and be worth more, than one run may. All of them are one run, what is settled or printed
    // of the last one is what is settled or printed of it alone, and the jobs that the one run observes are those that
    // each list's run observes. No schedule of all the jobs is worth more than the one run allows, as they are declared
    // and as they were observed, and some schedule of the jobs as observed is worth what it completes. Where no job
    // finishes early, they are observed as they are declared. Where one schedule serves all jobs as they are declared,
    // none is lost.
    ensures turns_with_finishes_are_one_run_printed { (rules : Rules) (turns : List Turn) (last : ℕ)
        → TurnsEnd rules 0 turns last → printed (one_run rules turns) ≡ printed_turns rules turns }
    ensures turns_with_finishes_are_one_run_value { (rules : Rules) (turns : List Turn) (last : ℕ)
        → TurnsEnd rules 0 turns last → completed_value (one_run rules turns) ≡ completed_turns rules turns }
    ensures turns_with_finishes_are_one_run_settled { (rules : Rules) (turns : List Turn) (more : Turn) (last mark : ℕ)
        → TurnsEnd rules 0 turns last → IsValid (turn_under rules more) → NoneBefore last more.jobs → last ≤ mark
        → settled (one_run rules (turns ++ more ∷ [])) mark ≡ before_end (printed (one_run rules turns))
        ++ map (behind (length (turns_jobs turns)) (completed_turns rules turns))
        (settled (turn_under rules more) mark) }
    ensures turns_with_finishes_are_one_run_further { (rules : Rules) (turns : List Turn) (more : Turn) (last : ℕ)
        → TurnsEnd rules 0 turns last → IsTurn rules last more
        → printed (one_run rules (turns ++ more ∷ [])) ≡ before_end (printed (one_run rules turns))
        ++ map (behind (length (turns_jobs turns)) (completed_turns rules turns)) (printed (turn_under rules more)) }
    ensures turns_with_finishes_are_one_run_declared { (rules : Rules) (turns : List Turn) (last : ℕ) (s : List ℕ)
        → TurnsEnd rules 0 turns last
        → IsWithin rules.ratio (worth (one_run rules turns) s) (completed_value (one_run rules turns)) }
    ensures turns_with_finishes_are_one_run_observed { (rules : Rules) (turns : List Turn) (last : ℕ) (s : List ℕ)
        → TurnsEnd rules 0 turns last
        → IsWithin rules.ratio (worth (observed (one_run rules turns)) s) (completed_value (one_run rules turns)) }
    ensures turns_with_finishes_are_one_run_observes { (rules : Rules) (turns : List Turn) (last : ℕ)
        → TurnsEnd rules 0 turns last → (observed (one_run rules turns)).jobs ≡ turns_observed rules turns }
    ensures turns_with_finishes_are_one_run_as_declared { (rules : Rules) (turns : List Turn) (last : ℕ)
        → TurnsEnd rules 0 turns last → turns_finishes turns ≡ []
        → observed (one_run rules turns) ≡ one_run rules turns }
    ensures turns_with_finishes_are_one_run_honest { (rules : Rules) (turns : List Turn) (last : ℕ)
        → TurnsEnd rules 0 turns last
        → (s : List ℕ) × (completed_value (one_run rules turns) ≤ worth (observed (one_run rules turns)) s) }
    ensures turns_with_finishes_are_one_run_none_lost { (rules : Rules) (turns : List Turn) (last : ℕ)
        → TurnsEnd rules 0 turns last → Meets (one_run rules turns)
        → Each (λ e. takes_or_abandons (Prints e) ≡ false) (printed (one_run rules turns)) }
    ensures turns_with_finishes_are_one_run_all_value { (rules : Rules) (turns : List Turn) (last : ℕ)
        → TurnsEnd rules 0 turns last → Meets (one_run rules turns)
        → completed_value (one_run rules turns) ≡ total_value (turns_jobs turns) }

    // A run of jobs moved in time is the run, moved in time.
    ensures runs_move_in_time { (J : Instance) (c : ℕ) → IsValid J
        → IsValid (record { rules = J.rules; jobs = map (later_job c) J.jobs })
        → printed (record { rules = J.rules; jobs = map (later_job c) J.jobs }) ≡ map (later_event c) (printed J) }

    // So runs one after another, each in a time of its own, are one run, of any length: its jobs together keep no limit
    // of count, sum, ratio or time.
    ensures runs_anew_are_one_run_printed { (rules : Rules) (turns : List (ℕ × Turn)) → AreAnew rules turns
        → printed (turn_under rules (anew turns)) ≡ printed_anew rules turns }
    ensures runs_anew_are_one_run_value { (rules : Rules) (turns : List (ℕ × Turn)) → AreAnew rules turns
        → completed_value (turn_under rules (anew turns)) ≡ completed_anew rules turns }
    ensures runs_anew_are_one_run_declared { (rules : Rules) (turns : List (ℕ × Turn)) (s : List ℕ)
        → AreAnew rules turns → IsWithin rules.ratio (worth (turn_under rules (anew turns)) s)
        (completed_value (turn_under rules (anew turns))) }
    ensures runs_anew_are_one_run_observed { (rules : Rules) (turns : List (ℕ × Turn)) (s : List ℕ)
        → AreAnew rules turns → IsWithin rules.ratio (worth (observed (turn_under rules (anew turns))) s)
        (completed_value (turn_under rules (anew turns))) }
    ensures runs_anew_are_one_run_honest { (rules : Rules) (turns : List (ℕ × Turn)) → AreAnew rules turns
        → (s : List ℕ)
        × (completed_value (turn_under rules (anew turns)) ≤ worth (observed (turn_under rules (anew turns))) s) }

    // Bounds add up: no schedule of all jobs is worth more than the runs of the parts allow, each part valid by itself.
    ensures bounds_add_up_common { (rules : Rules) (owner : ℕ → ℕ) (parts : List ℕ) (jobs : List JobFacts) (s : List ℕ)
        → IsParted owner parts jobs → Each (λ part. IsValid (part_under (λ _. rules) owner jobs part)) parts
        → IsWithin rules.ratio (worth (record { rules = rules; jobs = jobs }) s)
        (completed_in_parts (λ _. rules) owner parts jobs) }
    ensures bounds_add_up_own { (J : Instance) (rules : ℕ → Rules) (owner : ℕ → ℕ) (parts : List ℕ) (s : List ℕ)
        → IsParted owner parts J.jobs → Each (λ part. IsValid (part_under rules owner J.jobs part)) parts
        → worth J s ≤ bounds_of_parts rules owner parts J.jobs }
    ensures bounds_add_up_in_turn { (rules : Rules) (turns : List Turn) (s : List ℕ)
        → Each (λ turn. IsValid (turn_under rules turn)) turns
        → IsWithin rules.ratio (worth (one_run rules turns) s) (completed_turns rules turns) }

    // Where one schedule serves all jobs, no part and no turn takes or abandons anything.
    ensures no_part_loses_in_underload_parted { (J : Instance) (rules : Rules) (owner : ℕ → ℕ) (part : ℕ) → Meets J
        → IsValid (part_under (λ _. rules) owner J.jobs part)
        → completed_value (part_under (λ _. rules) owner J.jobs part) ≡ total_value (part_of owner part J.jobs) }
    ensures no_part_loses_in_underload_in_turn { (rules : Rules) (turns : List Turn)
        → Each (λ turn. IsValid (turn_under rules turn)) turns → Meets (one_run rules turns)
        → Each (λ turn. Each (λ x. takes_or_abandons x.move ≡ false) (run (turn_under rules turn))) turns }
    ensures no_part_loses_in_underload_value { (rules : Rules) (turns : List Turn)
        → Each (λ turn. IsValid (turn_under rules turn)) turns → Meets (one_run rules turns)
        → completed_turns rules turns ≡ total_value (turns_jobs turns) }
{}
