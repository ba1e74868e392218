//! The rule of requests: moments at which it holds, and moments at which it does not.
ghost use Rattle.std.specs.Prelude.{◌≡◌, ◌≢◌, ◌<◌, ◌≤◌, ℕ, [], false, true};
ghost use mathlib.Core.Option.{some};
ghost use lib.ListN.{get_elem?};
ghost use Rattle.atomic_table.specs.Table.{opening};
ghost use Rattle.rcu_request.specs.Rule.{IsKept, Moment, cpu_at, greatest_at};
ghost use Rattle.rcu_request.specs.Requests.{IsNoLess, Requesting, driver_at_first, first_words};
ghost use Rattle.rcu_request.specs.declared.knowledge.Knowledge.{Knowledge};

/// The words as they are opened fulfil the rule. No moment does in which a request was lost, in
/// which the greatest request was never made, in which the driver sleeps through a request, or in
/// which threads load a processor other than the one that the driver stored.
pub fn no_moment_has_lost_a_request()
    ensures opened { IsKept (opening first_words [] driver_at_first) }
    ensures lost { (s : Moment) (id : ℕ) (v : Knowledge) → get_elem? s.views id ≡ some v →
        greatest_at s < v.raised → IsKept s → ⊥ }
    ensures from_nowhere { (s : Moment) → ((id : ℕ) (v : Knowledge) →
        get_elem? s.views id ≡ some v → v.raised ≢ greatest_at s) → IsKept s → ⊥ }
    ensures slept_through { (s : Moment) (i j : ℕ) (driver thread : Knowledge) →
        get_elem? s.views i ≡ some driver → get_elem? s.views j ≡ some thread →
        driver.drives ≡ true → driver.asleep ≡ true → driver.has_looked ≡ true →
        thread.drives ≡ false → thread.has_looked ≡ true → driver.found < thread.raised →
        thread.asleep ≡ false → IsKept s → ⊥ }
    ensures misled { (s : Moment) (id : ℕ) (driver : Knowledge) →
        get_elem? s.views id ≡ some driver → driver.drives ≡ true →
        cpu_at s ≢ driver.sleeps_for → IsKept s → ⊥ }
{}

/// A greatest request that is no less than an end's knowledge is no less than the greatest one that
/// it found, and than its own request.
pub fn no_less_is_of_what_was_found_and_what_was_requested()
    ensures found { (w : Requesting) (greatest : ℕ) → IsNoLess w greatest →
        w.knows.found ≤ greatest }
    ensures raised { (w : Requesting) (greatest : ℕ) → IsNoLess w greatest →
        w.knows.raised ≤ greatest }
    ensures both { (w : Requesting) (greatest : ℕ) → w.knows.found ≤ greatest →
        w.knows.raised ≤ greatest → IsNoLess w greatest }
{}
