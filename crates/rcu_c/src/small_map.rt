//! The premises of the laws of maps, met by a seat beside the small run of `rcu_map`. In that run
//! the key 3 stays; the key 6 is inserted behind it, and removed before the section comes to it.
ghost use Rattle.std.specs.Prelude.{◌≡◌, ◌≢◌, ◌∷◌, [], ℕ, List, length};
ghost use Rattle.rcu_live.specs.Watcher.{Watching};
ghost use Rattle.rcu_graph.specs.declared.known.Planned.{Planned};
ghost use Rattle.rcu_graph.specs.declared.plan.Plan.{Plan};
ghost use Rattle.rcu_map.specs.Beside.{AreMadeOver, IsMapOver, IsReadOver, since};
ghost use Rattle.rcu_map.specs.Keys.{key_in};
ghost use Rattle.rcu_map.specs.Runs.{HasKeyThroughout, IsRun};
ghost use Rattle.rcu_map.specs.SmallMap.{small_looked, small_moments, small_plan};
ghost use Rattle.rcu_c.specs.MapEntries.{IsKeyed};
ghost use Rattle.rcu_c.specs.Maps.{IsGotBetween, IsNextBetween};
ghost use Rattle.rcu_c.specs.Seats.{Seat};
ghost use Rattle.rcu_c.specs.SmallSeat.{small_seat};

use rcu_map::definition_laws;

/// Between the moments 1 and 9 of the run the section gets the entry of the key 6, and between the
/// moments 0 and 1 it gets none of the key 5. No get of the key 6 between those moments writes the
/// key 0. A get is not between them if the section had made its first hop only, if the buffer has
/// another number of words, or if the seat reads the map of another plan.
pub fn a_seat_gets_entries_between_moments()
    ensures got { (seat : Seat) → IsGotBetween small_plan 6 (small_moments 1) (small_moments 9)
        (small_seat seat 1) (0 ∷ 0 ∷ []) (6 ∷ 60 ∷ []) (small_seat seat 3) }
    ensures got_none { (seat : Seat) →
        IsGotBetween small_plan 5 (small_moments 0) (small_moments 1) (small_seat seat 0)
        (7 ∷ 70 ∷ []) (0 ∷ 70 ∷ []) (small_seat seat 1) }
    ensures not_none { (seat : Seat) (room entry : List ℕ) → key_in entry ≡ 0 →
        IsGotBetween small_plan 6 (small_moments 1) (small_moments 9) (small_seat seat 1) room entry
        (small_seat seat 3) → ⊥ }
    ensures not_yet { (seat : Seat) (room entry : List ℕ) →
        IsGotBetween small_plan 6 (small_moments 1) (small_moments 9) (small_seat seat 1) room entry
        (small_seat seat 1) → ⊥ }
    ensures not_sized { (seat : Seat) (room entry : List ℕ) → length room ≢ 2 →
        IsGotBetween small_plan 6 (small_moments 1) (small_moments 9) (small_seat seat 1) room entry
        (small_seat seat 3) → ⊥ }
    ensures not_planned { (plan : Plan) (seat : Seat) (room entry : List ℕ) → plan ≢ small_plan →
        IsGotBetween plan 6 (small_moments 1) (small_moments 9) (small_seat seat 1) room entry
        (small_seat seat 3) → ⊥ }
{
    definition_laws::a_section_finds_entries();
}

/// Between the moments 1 and 9 the section goes on from the key 3 to the entry of the key 6, and
/// between the moments 0 and 2 from the key 5, of the first bucket, to that of the key 3. No step
/// from the key 3 between the first two writes the key 0. A step is not between them if the section
/// had made its first hop only, or if the seat reads the map of another plan.
pub fn a_seat_goes_on_to_entries_between_moments()
    ensures next { (seat : Seat) → IsNextBetween small_plan 3 (small_moments 1) (small_moments 9)
        (small_seat seat 1) (0 ∷ 0 ∷ []) (6 ∷ 60 ∷ []) (small_seat seat 3) }
    ensures in_next_bucket { (seat : Seat) →
        IsNextBetween small_plan 5 (small_moments 0) (small_moments 2) (small_seat seat 0)
        (0 ∷ 0 ∷ []) (3 ∷ 30 ∷ []) (small_seat seat 2) }
    ensures not_none { (seat : Seat) (room entry : List ℕ) → key_in entry ≡ 0 →
        IsNextBetween small_plan 3 (small_moments 1) (small_moments 9) (small_seat seat 1) room
        entry (small_seat seat 3) → ⊥ }
    ensures not_yet { (seat : Seat) (room entry : List ℕ) →
        IsNextBetween small_plan 3 (small_moments 1) (small_moments 9) (small_seat seat 1) room
        entry (small_seat seat 1) → ⊥ }
    ensures not_planned { (plan : Plan) (seat : Seat) (room entry : List ℕ) → plan ≢ small_plan →
        IsNextBetween plan 3 (small_moments 1) (small_moments 9) (small_seat seat 1) room entry
        (small_seat seat 3) → ⊥ }
{}

/// The other premises of the laws are met over the same moments: the map is kept by its writer, its
/// calls are a run over them, in which the key 3 stays, and the section is open from the moment 1
/// to the moment 9.
pub fn the_moments_between_are_of_a_run()
    ensures map { IsMapOver IsKeyed small_plan 1 10 small_moments }
    ensures reads { IsReadOver IsKeyed small_plan 0 4 8 (since 1 small_moments) }
    ensures run { (own : Watching Planned) →
        (run : IsRun IsKeyed small_plan 4 (small_looked own))
        × AreMadeOver IsKeyed small_plan 4 small_moments 10 (small_looked own) run
        × HasKeyThroughout IsKeyed small_plan 4 3 (small_looked own) run }
{
    definition_laws::a_map_changes_beside_a_section();
}
