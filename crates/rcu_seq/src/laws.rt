//! Laws of cookies.
ghost use Rattle.std.specs.Prelude.{◌≡◌, ◌≢◌, ◌≤◌, List, [], ◌∷◌, ℕ, nat_le, nat_lt, true, false};
ghost use Rattle.rcu_seq.specs.Seq.{Periods, Turn, Begin, End, Renumber, AreAccepted, IsWithin};
ghost use Rattle.rcu_seq.specs.Seq.{after_turns, cookie_of, has_full_period, is_done, number_of};
ghost use Rattle.rcu_seq.specs.Tags.{clock_of, cookie_at, is_before, is_done_at, is_done_first};
ghost use Rattle.rcu_seq.specs.Numbers.{is_last, is_running, snapshot};
ghost use Rattle.rcu_seq.specs.declared.tag.Tag.{Tag};
ghost use Rattle.rcu_seq.specs.declared.cookie.Cookie.{Cookie};

/// A cookie tests done exactly if a full grace period lies after its snapshot: one that began after
/// it and ended. This holds over any number of renumberings.
pub fn done_means_a_full_grace_period()
    ensures { (taking : Periods) (turns : List Turn) → IsWithin taking → AreAccepted taking turns
        → is_done (cookie_of taking) (after_turns taking turns) ≡ has_full_period turns }
{}

/// The law above holds for each counter whose number is at most its last number, in any epoch,
/// whether a grace period runs or not.
pub fn a_counter_is_within_its_last_number()
    ensures { (p : Periods) → number_of p ≤ p.last → is_last p.last ≡ true → IsWithin p }
{}

/// It holds for no turn, and for one turn more: a begin while none runs, below the last number; an
/// end while one runs; a renumbering while none runs, at the last number.
pub fn turns_are_accepted_one_by_one()
    ensures none { (p : Periods) → AreAccepted p [] }
    ensures begin { (p : Periods) (turns : List Turn) → AreAccepted p turns
        → (after_turns p turns).running ≡ false → number_of (after_turns p turns) ≢ p.last
        → AreAccepted p (Begin ∷ turns) }
    ensures end { (p : Periods) (turns : List Turn) → AreAccepted p turns
        → (after_turns p turns).running ≡ true → AreAccepted p (End ∷ turns) }
    ensures renumber { (p : Periods) (turns : List Turn) → AreAccepted p turns
        → (after_turns p turns).running ≡ false → number_of (after_turns p turns) ≡ p.last
        → AreAccepted p (Renumber ∷ turns) }
{}

/// In the first epoch the last number has no part in the test of a cookie.
pub fn done_in_the_first_epoch()
    ensures { (last : ℕ) (cookie : Cookie) (number : ℕ)
        → is_done_at last cookie (record { epoch = 0; number = number })
        ≡ is_done_first cookie number }
{}

/// So a cookie tests done exactly if the count over all epochs is at least the snapshot of the
/// count when it was taken.
pub fn done_is_told_by_the_clock()
    ensures { (last : ℕ) (taking now : Tag) → is_last last ≡ true → taking.number ≤ last
        → now.number ≤ last → is_done_at last (cookie_at taking) now
        ≡ nat_le (snapshot (clock_of last taking)) (clock_of last now) }
{}

/// A tag is before that of a running grace period exactly if its count is lower.
pub fn before_is_told_by_the_clock()
    ensures { (last : ℕ) (tag now : Tag) → tag.number ≤ last → is_running now.number ≡ true
        → now.number ≤ last → is_before tag now ≡ nat_lt (clock_of last tag) (clock_of last now) }
{}
