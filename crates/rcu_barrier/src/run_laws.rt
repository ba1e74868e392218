//! Laws of every run of calls on the lists, by any callers.
ghost use Rattle.std.specs.Prelude.{◌≡◌, ◌<◌, ◌≤◌, ◌+◌, ◌∷◌, ℕ, List, Some, slice_get};
ghost use Rattle.rcu_cblist.specs.SegList.{take_answer};
ghost use Rattle.rcu_cblist.specs.declared.items.Queued.{Queued};
ghost use Rattle.rcu_barrier.specs.Lists.{AllLists, barrier_test_answer, list_of};
ghost use Rattle.rcu_barrier.specs.Runs.{Call, IsNew, IsRun, lists_after, queued_as};
ghost use Rattle.rcu_barrier.specs.Runs.{queued_before_barrier, times_handed_out, times_listed};
ghost use Rattle.rcu_barrier.specs.declared.lists.BarrierState.{BarrierState};

/// No callback runs twice: each is handed out at most once.
pub fn no_callback_runs_twice<T: Drop>()
    ensures { (first : AllLists T) (calls : List (Call T)) (place : ℕ) → IsNew first →
        IsRun first calls → times_handed_out place first calls ≤ 1 }
{}

/// No callback is lost: each queued callback was handed out once, or is in one list once.
pub fn no_callback_is_lost<T: Drop>()
    ensures { (first : AllLists T) (calls : List (Call T)) (place : ℕ) → IsNew first →
        IsRun first calls → 0 < place → place ≤ (lists_after first calls).queued →
        times_handed_out place first calls + times_listed place (lists_after first calls) ≡ 1 }
{}

/// A barrier covers earlier callbacks: when its test returns done, each callback that was queued
/// before it began has been handed out.
pub fn barrier_covers_earlier_callbacks<T: Drop>()
    ensures { (first : AllLists T) (calls : List (Call T)) (place : ℕ) → IsNew first →
        IsRun first (Call.BarrierTest ∷ calls) →
        barrier_test_answer (lists_after first calls) ≡ BarrierState.Done → 0 < place →
        place ≤ queued_before_barrier first calls → times_handed_out place first calls ≡ 1 }
{}

/// The callbacks that a run hands out were queued: each has the place, the tag and the value with
/// which it was queued.
pub fn handed_callbacks_were_queued<T: Drop>()
    ensures { (first : AllLists T) (calls : List (Call T)) (cpu most at : ℕ) (handed : Queued T) →
        IsNew first → IsRun first calls →
        slice_get (take_answer (list_of (lists_after first calls) cpu) most) at ≡ Some handed →
        queued_as handed.ord first calls ≡ Some handed }
{}
