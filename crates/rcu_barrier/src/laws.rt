//! Laws of tends.
ghost use Rattle.std.specs.Prelude.{◌≡◌, ◌≢◌, ◌≤◌, ◌+◌, ◌%◌, ◌==◌, ◌||◌, ℕ, All, List, Some, true};
ghost use Rattle.std.specs.Prelude.{slice_get};
ghost use Rattle.rcu_seq.specs.Numbers.{Number};
ghost use Rattle.rcu_cblist.specs.SegList.{IsAtMost, Item, Of, Unmarked, after_accelerate};
ghost use Rattle.rcu_cblist.specs.SegList.{after_advance, numbers};
ghost use Rattle.rcu_cblist.specs.declared.items.Queued.{Queued};
ghost use Rattle.rcu_barrier.specs.Tending.{AreFours, MayWait, after_tend};
ghost use Rattle.rcu_seq.specs.Numbers.{snapshot};

/// A tend leaves no callback without a mark.
pub fn tend_marks_each_callback<T: Drop>()
    ensures { (number : Number) (xs : List (Item T)) (place : ℕ) (call : Queued T)
        → slice_get (after_tend xs number) place ≢ Some (Of call Unmarked) }
{}

/// A tend is an advance to the number and an acceleration with its snapshot: it never finds two
/// numbers below the snapshot.
pub fn tend_is_advance_and_accelerate<T: Drop>()
    ensures { (number : Number) (xs : List (Item T)) → number % 4 ≤ 1 → AreFours xs
        → after_accelerate (after_advance xs number) (snapshot number) ≡ after_tend xs number }
{}

/// An advance leaves only numbers that a callback may wait for: multiples of 4 above the number and
/// at most its snapshot.
pub fn advance_leaves_numbers_that_may_wait<T: Drop>()
    ensures { (number : Number) (xs : List (Item T)) → AreFours xs → IsAtMost (snapshot number) xs
        → All (MayWait number) (numbers (after_advance xs number)) }
{}

/// At most two numbers qualify: the snapshot, and 4 below it.
pub fn two_numbers_may_wait()
    ensures { (number n : Number) → number % 4 ≤ 1 → MayWait number n
        → (n == snapshot number || n + 4 == snapshot number) ≡ true }
{}
