//! The laws of requests, at each moment.
ghost use Rattle.std.specs.Prelude.{◌≡◌, ℕ, ◌<◌, ◌≤◌, false, true};
ghost use mathlib.Core.Option.{some};
ghost use lib.ListN.{get_elem?};
ghost use Rattle.rcu_request.specs.Rule.{IsKept, Moment, cpu_at, greatest_at};
ghost use Rattle.rcu_request.specs.declared.knowledge.Knowledge.{Knowledge};

/// No request is lost: the greatest request is at least each one that was made, and is one of them.
/// So a lesser request never overwrites a greater one, and the greatest one was really made.
pub fn the_greatest_request_is_kept()
    ensures least { (s : Moment) (id : ℕ) (v : Knowledge) → IsKept s →
        get_elem? s.views id ≡ some v → v.raised ≤ greatest_at s }
    ensures made { (s : Moment) → IsKept s → (id : ℕ) × (v : Knowledge) ×
        (get_elem? s.views id ≡ some v) × (v.raised ≡ greatest_at s) }
{}

/// No request is slept through: suppose that the driver has said that it sleeps, has looked since,
/// and found less than the greatest request. Then the thread that made this request has to wake the
/// driver once it has looked, as its call does before it returns.
pub fn no_request_is_slept_through()
    ensures { (s : Moment) (id : ℕ) (driver : Knowledge) → IsKept s →
        get_elem? s.views id ≡ some driver → driver.drives ≡ true → driver.asleep ≡ true →
        driver.has_looked ≡ true → driver.found < greatest_at s →
        (at : ℕ) × (thread : Knowledge) × (get_elem? s.views at ≡ some thread)
        × (thread.drives ≡ false) × (thread.raised ≡ greatest_at s)
        × (thread.has_looked ≡ true → thread.asleep ≡ true) }
{}

/// The word that threads load names the processor for which the driver sleeps, as the driver said
/// last, at each moment.
pub fn the_driver_sleeps_for_whom_it_said()
    ensures { (s : Moment) (id : ℕ) (driver : Knowledge) → IsKept s →
        get_elem? s.views id ≡ some driver → driver.drives ≡ true →
        cpu_at s ≡ driver.sleeps_for }
{}
