//! Laws of on-line schedulers.
ghost use Rattle.std.specs.Prelude.{ℕ, List, ◌≤◌, ◌≡◌, [], None, length};
ghost use Rattle.dover_model.specs.Common.{IsWithin, Fraction, jobs_under, JobFacts, most_jobs, ran, worth};
ghost use Rattle.dover_model.specs.declared.events.Version.{Version};
ghost use Rattle.dover_model.specs.declared.events.Version.TheVariants.{One};
ghost use Rattle.policy_lab.specs.Picks.{Picks};
ghost use Rattle.policy_lab.specs.PolicyRun.{policy_run};
ghost use Rattle.stated_jobs.specs.duel.Game.{Scheduler, ArePlain, AreValid, IsOnline, Loses, LosesOnFront};
ghost use Rattle.stated_jobs.specs.duel.Jobs.{duel_jobs};
ghost use Rattle.stated_jobs.specs.duel.Links.{IsTooMuch};
ghost use Rattle.stated_jobs.specs.duel.Rows.{farsighted, k_of};

/// What holds of on-line schedulers. Each clause begins with the name of its law, whose remark stands above. It does
/// nothing.
pub fn laws_of_duels()
    // The rules save all that an on-line scheduler can be sure to save. Their own schedule is on-line, and is worth at
    // least 1 / (1 + √(p/q))² of any other; and for every larger share each on-line scheduler, whatever it does, has
    // jobs within the ratio on which it is worth less than this share of some schedule. The first two are said of valid
    // jobs. The third has no limits on sizes, and so is said of schedulers that are on-line for plain jobs; what stands
    // within the limits is `each_scheduler_loses_on_a_front`.
    ensures the_rules_save_the_most_on_line { (version : Version) (k : Fraction)
        → IsOnline (AreValid version k) (λ jobs. ran (jobs_under version k jobs)) }
    ensures the_rules_save_the_most_saved { (version : Version) (k : Fraction) (jobs : List JobFacts) (s : List ℕ)
        → AreValid version k jobs → IsWithin k (worth (jobs_under version k jobs) s)
        (worth (jobs_under version k jobs) (ran (jobs_under version k jobs))) }
    ensures the_rules_save_the_most_no_more { (k : Fraction) (whole part : ℕ) (scheduler : Scheduler) → 1 ≤ k.q
        → k.q ≤ k.p → 1 ≤ part
        → IsTooMuch k whole part → IsOnline (ArePlain k) scheduler → Loses (ArePlain k) k whole part scheduler }

    // Where the jobs of the duel for a share are valid, and no more than version One has, each scheduler that is
    // on-line for valid jobs is worth less than this share of some schedule on one of their fronts.
    ensures each_scheduler_loses_on_a_front { (version : Version) (k : Fraction) (whole part : ℕ) (scheduler :
        Scheduler) → 1 ≤ part
        → AreValid version k (duel_jobs k whole part) → length (duel_jobs k whole part) ≤ most_jobs One
        → IsOnline (AreValid version k) scheduler → LosesOnFront k whole part scheduler (duel_jobs k whole part) }

    // So within the limits none is sure of much more than the rules save: of 100/393 at ratio 1, where they save
    // 100/400; of 25/143 at ratio 2, 25/221 at ratio 4 and 1/118 at ratio 100, where they save 25/145.7, 25/225 and
    // 1/121.
    ensures none_saves_much_more_within_the_limits_one { (scheduler : Scheduler)
        → IsOnline (AreValid One (k_of 1)) scheduler
        → LosesOnFront (k_of 1) 393 100 scheduler (duel_jobs (k_of 1) 393 100) }
    ensures none_saves_much_more_within_the_limits_two { (scheduler : Scheduler)
        → IsOnline (AreValid One (k_of 2)) scheduler
        → LosesOnFront (k_of 2) 143 25 scheduler (duel_jobs (k_of 2) 143 25) }
    ensures none_saves_much_more_within_the_limits_four { (scheduler : Scheduler)
        → IsOnline (AreValid One (k_of 4)) scheduler
        → LosesOnFront (k_of 4) 221 25 scheduler (duel_jobs (k_of 4) 221 25) }
    ensures none_saves_much_more_within_the_limits_hundred { (scheduler : Scheduler)
        → IsOnline (AreValid One (k_of 100)) scheduler
        → LosesOnFront (k_of 100) 118 1 scheduler (duel_jobs (k_of 100) 118 1) }

    // Whatever looks at no job is on-line: it may idle while jobs wait, be late, and name what isn't there. Each policy
    // is on-line. A scheduler that sees the future isn't.
    ensures on_line_is_neither_weak_nor_strong_blind { (version : Version) (k : Fraction) (s : List ℕ)
        → IsOnline (AreValid version k) (λ jobs. s) }
    ensures on_line_is_neither_weak_nor_strong_policies { (version : Version) (k : Fraction) (picks : Picks)
        → picks [] ≡ None → IsOnline (AreValid version k) (policy_run picks) }
    ensures on_line_is_neither_weak_nor_strong_farsighted { IsOnline (AreValid One (k_of 1)) farsighted → ⊥ }
{}
