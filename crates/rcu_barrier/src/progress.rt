//! The steps after which a callback is handed out, and after which a barrier is done, in every run
//! of calls on the lists, by any callers.
ghost use Rattle.std.specs.Prelude.{◌≡◌, ◌<◌, ◌≤◌, ◌∷◌, ◌++◌, ℕ, List, false, length, true};
ghost use Rattle.std.specs.List.{list_any};
ghost use Rattle.rcu_seq.specs.Numbers.{snapshot};
ghost use Rattle.rcu_cblist.specs.SegList.{IsAtMost, behind, callbacks, front};
ghost use Rattle.rcu_barrier.specs.Lists.{AllLists, barrier_test_answer, cpus_of, is_visited};
ghost use Rattle.rcu_barrier.specs.Lists.{list_of};
ghost use Rattle.rcu_barrier.specs.Runs.{Call, IsNew, IsRun, begins_barrier, copies, lists_after};
ghost use Rattle.rcu_barrier.specs.Runs.{times_handed_out};
ghost use Rattle.rcu_barrier.specs.Settled.{unsettles};
ghost use Rattle.rcu_barrier.specs.declared.lists.BarrierState.{BarrierState};

/// Two tends finish a list: if the number of the second has reached the snapshot of the number of
/// the first, no callback that was in the list before them waits, and a run with a limit of at
/// least as many as are done hands it out. Any calls may come between, except a migration of this
/// list and a renumbering. Before the first tend no callback may wait for a number above that
/// snapshot, which holds if the lists were tended at the engine's number.
pub fn two_tends_finish_callbacks<T: Drop>()
    ensures done { (first : AllLists T) (later earlier : List (Call T))
        (cpu number reached place : ℕ) → IsNew first →
        IsRun first (Call.Tend cpu reached ∷ later ++ Call.Tend cpu number ∷ earlier) →
        IsAtMost (snapshot number) (list_of (lists_after first earlier) cpu) →
        snapshot number ≤ reached → list_any (unsettles cpu) later ≡ false → 0 < place →
        place ≤ (lists_after first earlier).queued →
        copies place (callbacks (list_of (lists_after first earlier) cpu)) ≡ 1 →
        copies place (callbacks (behind (list_of (lists_after first
        (Call.Tend cpu reached ∷ later ++ Call.Tend cpu number ∷ earlier)) cpu))) ≡ 0 }
    ensures handed_out { (first : AllLists T) (later earlier : List (Call T))
        (cpu number reached most place : ℕ) → IsNew first → IsRun first
        (Call.Run cpu most ∷ Call.Tend cpu reached ∷ later ++ Call.Tend cpu number ∷ earlier) →
        IsAtMost (snapshot number) (list_of (lists_after first earlier) cpu) →
        snapshot number ≤ reached → list_any (unsettles cpu) later ≡ false → 0 < place →
        place ≤ (lists_after first earlier).queued →
        copies place (callbacks (list_of (lists_after first earlier) cpu)) ≡ 1 →
        length (callbacks (front (list_of (lists_after first
        (Call.Tend cpu reached ∷ later ++ Call.Tend cpu number ∷ earlier)) cpu))) ≤ most →
        times_handed_out place first
        (Call.Run cpu most ∷ Call.Tend cpu reached ∷ later ++ Call.Tend cpu number ∷ earlier) ≡ 1 }
{}

/// A barrier's test answers done once the barrier has visited each processor and each callback
/// queued before that has been handed out. Any calls may come between, migrations too.
pub fn handed_out_callbacks_finish_a_barrier<T: Drop>()
    ensures { (first : AllLists T) (later visited : List (Call T)) → IsNew first →
        IsRun first (Call.BarrierTest ∷ later ++ visited) →
        ((cpu : ℕ) → cpu < cpus_of (lists_after first visited) →
        is_visited (lists_after first visited) cpu ≡ true) →
        list_any begins_barrier later ≡ false →
        ((place : ℕ) → 0 < place → place ≤ (lists_after first visited).queued →
        times_handed_out place first (later ++ visited) ≡ 1) →
        barrier_test_answer (lists_after first (later ++ visited)) ≡ BarrierState.Done }
{}
