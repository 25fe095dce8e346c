//! Laws of snapshots.
ghost use Rattle.std.specs.Prelude.{◌≡◌, ◌++◌, ℕ, List, Some};
ghost use Rattle.dover_model.specs.declared.events.Task.{Task};
ghost use Rattle.dover_model.specs.Common.{whole_lines, Begins, Item, HasNumerals, DoneLine};
ghost use Rattle.snapshot.specs.Snapshot.{MayPause, snapshot, Head, head_line, IsHead, state_line, IsState, done_line};
ghost use Rattle.snapshot.specs.Reading.{Refused, reading_of, read_head, read_task, read_done};
ghost use Rattle.snapshot.specs.Kept.{IsWhole};
ghost use Rattle.snapshot.specs.Feeds.{IsSnapshot, GoOnEqually};

/// What holds of snapshots. Each clause begins with the name of its law, whose remark stands above. It does nothing.
pub fn laws_of_snapshots()
    // The lines of a snapshot have one spelling: what is written is read as the same, and what is read was written so.
    ensures lines_have_one_spelling_head_again { (h : Head) → IsHead h → read_head (head_line h) ≡ Some h }
    ensures lines_have_one_spelling_head_only { (line : List ℕ) (h : Head) → read_head line ≡ Some h
        → (head_line h ≡ line) × IsHead h }
    ensures lines_have_one_spelling_job_again { (t : Task) → IsState t → read_task (state_line t) ≡ Some t }
    ensures lines_have_one_spelling_finish_again { (at n : ℕ) → HasNumerals (DoneLine at n)
        → read_done (done_line at n) ≡ Some (at, n) }
    ensures lines_have_one_spelling_finish_only { (line : List ℕ) (at n : ℕ) → read_done line ≡ Some (at, n)
        → done_line at n ≡ line }
    ensures lines_have_one_spelling_job_only { (line : List ℕ) (t : Task) → read_task line ≡ Some t
        → (state_line t ≡ line) × IsState t }

    // Each feed that may pause has a snapshot that is taken: it is read to its last line, and no front of it is
    // refused.
    ensures each_snapshot_is_taken_whole { (F : List ℕ) → MayPause F → (h : Head) × (items : List Item)
        × (tasks : List Task) × IsWhole h items tasks (whole_lines (snapshot F)) }
    ensures each_snapshot_is_taken_never_refused { (F : List ℕ) (ls : List (List ℕ)) (at : ℕ) → MayPause F
        → Begins ls (whole_lines (snapshot F)) → reading_of ls ≡ Refused at → ⊥ }

    // A snapshot that is taken is that of a feed.
    ensures each_taken_is_a_snapshot { (h : Head) (items : List Item) (tasks : List Task) (ls : List (List ℕ))
        → IsWhole h items tasks ls → IsSnapshot ls }

    // Feeds with the same snapshot go on in the same way, whatever follows.
    ensures equal_snapshots_go_on_equally { (F G H : List ℕ) → MayPause F → MayPause G → snapshot F ≡ snapshot G
        → GoOnEqually F G H }

    // A snapshot ends by itself: what follows it is no part of it.
    ensures snapshots_end_by_themselves { (F G H I : List ℕ) → MayPause F → MayPause G
        → snapshot F ++ H ≡ snapshot G ++ I → (snapshot F ≡ snapshot G) × (H ≡ I) }
{}
