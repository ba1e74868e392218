//! Laws of the numbers that callbacks carry, of a migration, and of a take.
ghost use Rattle.std.specs.Prelude.{◌≡◌, ◌≤◌, ◌+◌, ◌++◌, All, Bool, List, None, Some, ℕ, count_by};
ghost use Rattle.rcu_seq.specs.Numbers.{Number};
ghost use Rattle.rcu_cblist.specs.SegList.{Item, after_migrate, after_take, callbacks, greatest};
ghost use Rattle.rcu_cblist.specs.SegList.{markers, markers_passed, take_answer};

use crate::items::Queued;

/// If the greatest number is at most a bound, or there is no number, each number is at most the
/// bound.
pub fn greatest_bounds_each()
    ensures none { (bound : Number) (numbers : List Number) → greatest numbers ≡ None
        → All (λ n. n ≤ bound) numbers }
    ensures some { (bound most : Number) (numbers : List Number) → greatest numbers ≡ Some most
        → most ≤ bound → All (λ n. n ≤ bound) numbers }
{}

/// A migration neither loses nor duplicates a callback or a marker: as many callbacks of both lists
/// pass any test as before, and both lists together have as many markers.
pub fn migration_keeps_each_item<T: Drop>()
    ensures callbacks { (test : Queued T → Bool) (xs ys : List (Item T))
        → count_by test (callbacks (after_migrate ys xs))
        ≡ count_by test (callbacks xs) + count_by test (callbacks ys) }
    ensures markers { (xs ys : List (Item T))
        → markers (after_migrate ys xs) ≡ markers xs + markers ys }
{}

/// The callbacks that a take hands out and those that it leaves are the callbacks of the list, in
/// order; the markers likewise.
pub fn take_and_rest_are_the_list<T: Drop>()
    ensures callbacks { (most : ℕ) (xs : List (Item T))
        → take_answer xs most ++ callbacks (after_take xs most) ≡ callbacks xs }
    ensures markers { (most : ℕ) (xs : List (Item T))
        → markers_passed xs most + markers (after_take xs most) ≡ markers xs }
{}

/// Two takes one after another hand out what one take of both limits together hands out, in the
/// same order, and leave the same list. So taking callbacks one at a time is the same as taking
/// them together.
pub fn takes_add_up<T: Drop>()
    ensures calls { (a b : ℕ) (xs : List (Item T))
        → take_answer xs (a + b) ≡ take_answer xs a ++ take_answer (after_take xs a) b }
    ensures left { (a b : ℕ) (xs : List (Item T))
        → after_take xs (a + b) ≡ after_take (after_take xs a) b }
{}
