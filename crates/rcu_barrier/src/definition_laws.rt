//! Laws that pin the definitions of runs, on small runs.
ghost use Rattle.std.specs.Prelude.{◌≡◌, ◌<◌, ◌==◌, ◌+◌, ◌++◌, ◌⊎◌, [], ◌∷◌, ℕ, All, Bool, List};
ghost use Rattle.std.specs.Prelude.{None, Some, true, false, if◌then◌else◌};
ghost use Rattle.std.specs.List.{list_any};
ghost use Rattle.rcu_seq.specs.Numbers.{Number};
ghost use Rattle.rcu_seq.specs.declared.tag.Tag.{Tag};
ghost use Rattle.rcu_cblist.specs.SegList.{Done, Of, Unmarked, behind, callbacks, take_answer};
ghost use Rattle.rcu_barrier.specs.Lists.{AllLists, at_first, barrier_test_answer, cpus_of};
ghost use Rattle.rcu_barrier.specs.Lists.{list_of};
ghost use Rattle.rcu_barrier.specs.Runs.{Call, IsNew, IsRun, copies, lists_after, queued_as};
ghost use Rattle.rcu_barrier.specs.Runs.{queued_before_barrier, times_handed_out, times_listed};
ghost use Rattle.rcu_barrier.specs.Runs.{begins_barrier, whereabouts};
ghost use Rattle.rcu_barrier.specs.Settled.{unsettles};
ghost use Rattle.rcu_barrier.specs.declared.lists.BarrierState.{BarrierState};

/// A callback is handed out once: it is queued, tended at number 0, tended at 4, and run. It comes
/// out as it was queued, and then no list has it.
pub fn a_run_hands_its_callback_out<T: Drop>()
    ensures run { (most : ℕ) (at : Tag) (value : T) → IsRun (at_first 2 most) (Call.Run 0 1
        ∷ Call.Tend 0 4 ∷ Call.Tend 0 0 ∷ Call.Queue 0 at value ∷ []) }
    ensures once { (most : ℕ) (at : Tag) (value : T) → whereabouts 1 (at_first 2 most)
        (Call.Run 0 1 ∷ Call.Tend 0 4 ∷ Call.Tend 0 0 ∷ Call.Queue 0 at value ∷ []) ≡ (1, 0) }
    ensures queued { (most : ℕ) (at : Tag) (value : T) (place : ℕ) → queued_as place
        (at_first 2 most) (Call.Run 0 1 ∷ Call.Tend 0 4 ∷ Call.Queue 0 at value ∷ [])
        ≡ (if 1 == place then Some (record { ord = 1; at = at; value = value }) else None) }
{}

/// A waiting callback is not handed out: tended at number 0 and then at 1, it stays in its list.
pub fn a_callback_that_waits_stays_listed<T: Drop>()
    ensures { (most : ℕ) (at : Tag) (value : T) → whereabouts 1 (at_first 2 most)
        (Call.Run 0 1 ∷ Call.Tend 0 1 ∷ Call.Tend 0 0 ∷ Call.Queue 0 at value ∷ []) ≡ (0, 1) }
{}

/// A callback whose list moved is handed out by processor 0, and by no other.
pub fn a_moved_callback_is_of_processor_0<T: Drop>()
    ensures run { (most : ℕ) (at : Tag) (value : T) → IsRun (at_first 2 most) (Call.Run 0 1
        ∷ Call.Migrate 1 ∷ Call.Tend 1 4 ∷ Call.Tend 1 0 ∷ Call.Queue 1 at value ∷ []) }
    ensures by { (most : ℕ) (at : Tag) (value : T) (cpu : ℕ) → times_handed_out 1
        (at_first 2 most) (Call.Run cpu 1 ∷ Call.Migrate 1 ∷ Call.Tend 1 4 ∷ Call.Tend 1 0
        ∷ Call.Queue 1 at value ∷ []) ≡ (if cpu == 0 then 1 else 0) }
{}

/// Each copy counts. A run adds the callbacks that it hands out to those handed out before; a
/// callback that is twice in a list is listed twice.
pub fn each_copy_is_counted<T: Drop>()
    ensures run { (first : AllLists T) (calls : List (Call T)) (place cpu most : ℕ) →
        times_handed_out place first (Call.Run cpu most ∷ calls) ≡ copies place (take_answer
        (list_of (lists_after first calls) cpu) most) + times_handed_out place first calls }
    ensures copies { (at : Tag) (value : T) → copies 1 (record { ord = 1; at = at; value = value }
        ∷ record { ord = 2; at = at; value = value }
        ∷ record { ord = 1; at = at; value = value } ∷ []) ≡ 2 }
    ensures listed { (most : ℕ) (at : Tag) (value : T) → times_listed 1 (record (at_first 2 most) {
      lists = (Of (record { ord = 1; at = at; value = value }) Done ∷ [])
          ∷ (Of (record { ord = 1; at = at; value = value }) Unmarked ∷ []) ∷ [];
    }) ≡ 2 }
{}

/// After a renumbering a waiting callback has no number, so the next tend marks it again. A done
/// one stays done.
pub fn a_renumbering_takes_the_numbers<T: Drop>()
    ensures run { (most : ℕ) (at : Tag) (value : T) → IsRun (at_first 2 most) (Call.Renumber
        ∷ Call.Tend 0 0 ∷ Call.Queue 0 at value ∷ []) }
    ensures waits { (most : ℕ) (at : Tag) (value : T) → times_handed_out 1 (at_first 2 most)
        (Call.Run 0 1 ∷ Call.Tend 0 4 ∷ Call.Renumber ∷ Call.Tend 0 0
        ∷ Call.Queue 0 at value ∷ []) ≡ 0 }
    ensures done { (most : ℕ) (at : Tag) (value : T) → times_handed_out 1 (at_first 2 most)
        (Call.Run 0 1 ∷ Call.Renumber ∷ Call.Tend 0 4 ∷ Call.Tend 0 0
        ∷ Call.Queue 0 at value ∷ []) ≡ 1 }
{}

/// A barrier waits for the callback that was queued before it, and not for a later one: a callback
/// behind its marker is not counted. Each begin counts the queued callbacks again, and no later
/// call changes that count.
pub fn a_barrier_waits_for_what_was_before_it<T: Drop>()
    ensures run { (most : ℕ) (at : Tag) (value : T) → IsRun (at_first 2 most) (Call.BarrierTest
        ∷ Call.Queue 0 at value ∷ Call.Visit 1 ∷ Call.Visit 0 ∷ Call.BarrierBegin ∷ Call.Tend 0 4
        ∷ Call.Tend 0 0 ∷ Call.Queue 0 at value ∷ []) }
    ensures before { (first : AllLists T) (later calls : List (Call T)) →
        list_any begins_barrier later ≡ false → queued_before_barrier first
        (later ++ Call.BarrierBegin ∷ calls) ≡ (lists_after first calls).queued }
    ensures waits { (most : ℕ) (at : Tag) (value : T) (ran : Bool) → barrier_test_answer
        (lists_after (at_first 2 most) ((if ran then Call.Run 0 1 ∷ [] else [])
        ++ Call.Queue 0 at value ∷ Call.Visit 1 ∷ Call.Visit 0 ∷ Call.BarrierBegin ∷ Call.Tend 0 4
        ∷ Call.Tend 0 0 ∷ Call.Queue 0 at value ∷ []))
        ≡ (if ran then BarrierState.Done else BarrierState.Waits 1) }
{}

/// A run has no call for a processor that does not exist, no migration of processor 0, no second
/// barrier during one, and no visit or test while no barrier runs.
pub fn a_run_has_only_calls_that_may_be_made<T: Drop>()
    ensures { (most : ℕ) (at : Tag) (value : T) → All
        (λ calls. IsRun (at_first 2 most) calls → ⊥) ((Call.Queue 2 at value ∷ [])
        ∷ (Call.Migrate 0 ∷ []) ∷ (Call.BarrierBegin ∷ Call.BarrierBegin ∷ [])
        ∷ (Call.Visit 0 ∷ []) ∷ (Call.BarrierTest ∷ []) ∷ []) }
{}

/// The empty list is a run. A run can be continued by each allowed call: a call for an existing
/// processor, a migration of a processor other than 0, the begin of a barrier if none runs, a visit
/// or a test of a running one, and a renumbering at any time. The calls before the newest one of a
/// run are a run.
pub fn a_run_is_made_call_by_call<T: Drop>()
    ensures none { (first : AllLists T) → IsRun first [] }
    ensures queue { (first : AllLists T) (calls : List (Call T)) (cpu : ℕ) (at : Tag) (value : T) →
        IsRun first calls → cpu < cpus_of (lists_after first calls) →
        IsRun first (Call.Queue cpu at value ∷ calls) }
    ensures tend { (first : AllLists T) (calls : List (Call T)) (cpu : ℕ) (number : Number) →
        IsRun first calls → cpu < cpus_of (lists_after first calls) →
        IsRun first (Call.Tend cpu number ∷ calls) }
    ensures run { (first : AllLists T) (calls : List (Call T)) (cpu most : ℕ) →
        IsRun first calls → cpu < cpus_of (lists_after first calls) →
        IsRun first (Call.Run cpu most ∷ calls) }
    ensures migrate { (first : AllLists T) (calls : List (Call T)) (cpu : ℕ) →
        IsRun first calls → 0 < cpu → cpu < cpus_of (lists_after first calls) →
        IsRun first (Call.Migrate cpu ∷ calls) }
    ensures begin { (first : AllLists T) (calls : List (Call T)) →
        IsRun first calls → (lists_after first calls).running ≡ false →
        IsRun first (Call.BarrierBegin ∷ calls) }
    ensures visit { (first : AllLists T) (calls : List (Call T)) (cpu : ℕ) →
        IsRun first calls → cpu < cpus_of (lists_after first calls) →
        (lists_after first calls).running ≡ true → IsRun first (Call.Visit cpu ∷ calls) }
    ensures test { (first : AllLists T) (calls : List (Call T)) →
        IsRun first calls → (lists_after first calls).running ≡ true →
        IsRun first (Call.BarrierTest ∷ calls) }
    ensures renumber { (first : AllLists T) (calls : List (Call T)) →
        IsRun first calls → IsRun first (Call.Renumber ∷ calls) }
    ensures earlier { (first : AllLists T) (call : Call T) (calls : List (Call T)) →
        IsRun first (call ∷ calls) → IsRun first calls }
{}

/// A list is unsettled by its own migration and by a renumbering, and by no other call.
pub fn a_list_is_unsettled_by_two_calls<T: Drop>()
    ensures migration { (cpu : ℕ) → unsettles {X = T} cpu (Call.Migrate cpu) ≡ true }
    ensures renumbering { (cpu : ℕ) → unsettles {X = T} cpu Call.Renumber ≡ true }
    ensures no_other { (cpu : ℕ) (call : Call T) → unsettles cpu call ≡ true →
        (call ≡ Call.Migrate cpu) ⊎ (call ≡ Call.Renumber) }
{}

/// Two tends finish a callback. Each of them counts, and so does the number of the second: after
/// one tend the callback waits, and it still waits if the grace period that it waits for has not
/// ended.
pub fn a_callback_waits_until_a_second_tend<T: Drop>()
    ensures second { (most : ℕ) (at : Tag) (value : T) → copies 1 (callbacks (behind (list_of
        (lists_after (at_first 2 most) (Call.Tend 0 4 ∷ Call.Tend 0 0 ∷ Call.Queue 0 at value ∷ []))
        0))) ≡ 0 }
    ensures first { (most number : ℕ) (at : Tag) (value : T) → copies 1 (callbacks (behind (list_of
        (lists_after (at_first 2 most) (Call.Tend 0 number ∷ Call.Queue 0 at value ∷ [])) 0)))
        ≡ 1 }
    ensures early { (most : ℕ) (at : Tag) (value : T) → copies 1 (callbacks (behind (list_of
        (lists_after (at_first 2 most) (Call.Tend 0 1 ∷ Call.Tend 0 0 ∷ Call.Queue 0 at value ∷ []))
        0))) ≡ 1 }
{}

/// Lists are new before any call, and not after a callback was queued.
pub fn lists_are_new_until_a_queueing<T: Drop>()
    ensures new { (cpus most : ℕ) → IsNew {X = T} (at_first cpus most) }
    ensures used { (most : ℕ) (at : Tag) (value : T) →
        IsNew (lists_after (at_first 2 most) (Call.Queue 0 at value ∷ [])) → ⊥ }
{}
