//! Laws of the entries that sections find in the map of an engine, over runs of the shared words by
//! atomic steps.
ghost use Rattle.std.specs.Prelude.{◌≡◌, ◌≤◌, ◌<◌, ◌+◌, ℕ, List, Option, length};
ghost use Rattle.rcu_live.specs.Watcher.{Watching};
ghost use Rattle.rcu_graph.specs.Beside.{Moment};
ghost use Rattle.rcu_graph.specs.declared.known.Planned.{Planned};
ghost use Rattle.rcu_graph.specs.declared.plan.Plan.{Plan};
ghost use Rattle.rcu_map.specs.After.{IsBehind, IsUpTo};
ghost use Rattle.rcu_map.specs.Beside.{AreMadeOver, HadEntry, HadKey, IsMapOver, IsReadOver};
ghost use Rattle.rcu_map.specs.Beside.{since};
ghost use Rattle.rcu_map.specs.Keys.{key_in};
ghost use Rattle.rcu_map.specs.Runs.{HasKeyThroughout, IsRun};
ghost use Rattle.rcu_c.specs.Answers.{number_in_c};
ghost use Rattle.rcu_c.specs.MapEntries.{IsKeyed};
ghost use Rattle.rcu_c.specs.Maps.{IsGotBetween, IsGotInC, IsNextBetween, IsNextInC, known_of};
ghost use Rattle.rcu_c.specs.Maps.{map_plan, reading_refusal};
ghost use Rattle.rcu_c.specs.Refusals.{seat_number};
ghost use Rattle.rcu_c.specs.declared.contents.Contents.{Contents};

use crate::keyed_words::KeyedWords;
use rcu_map::laws;

/// A key that is in the map when a run begins, and after each of its calls, is found by an
/// `rcu_map_get` in the run: it writes an entry of that key.
pub fn keys_that_stay_are_found()
    ensures { (plan : Plan) (opened key writer id from done last : ℕ) (moments : ℕ → Moment)
        (now : Watching Planned) (run : IsRun IsKeyed plan opened now)
        (before after : Option Contents) (room entry : List ℕ) →
        0 < plan.roots → plan.links ≡ 1 → 2 ≤ plan.words → 0 < key → from + done ≤ last →
        IsMapOver IsKeyed plan writer last moments →
        AreMadeOver IsKeyed plan opened moments last now run →
        HasKeyThroughout IsKeyed plan opened key now run →
        IsReadOver IsKeyed plan id opened done (since from moments) →
        IsGotBetween plan key (moments from) (moments (from + done)) before room entry
        after →
        key_in entry ≡ key }
{
    laws::keys_that_stay_are_found_over_a_run::<KeyedWords, 0>();
}

/// An entry that an `rcu_map_get` in such a run writes was in the map when the run began, or after
/// one of its calls.
pub fn found_keys_were_there()
    ensures { (plan : Plan) (opened key writer id from done last : ℕ) (moments : ℕ → Moment)
        (now : Watching Planned) (run : IsRun IsKeyed plan opened now)
        (before after : Option Contents) (room entry : List ℕ) →
        0 < plan.roots → plan.links ≡ 1 → 2 ≤ plan.words → 0 < key → from + done ≤ last →
        IsMapOver IsKeyed plan writer last moments →
        AreMadeOver IsKeyed plan opened moments last now run →
        IsReadOver IsKeyed plan id opened done (since from moments) →
        IsGotBetween plan key (moments from) (moments (from + done)) before room entry
        after →
        0 < key_in entry → HadKey IsKeyed plan opened key now run }
{
    laws::keys_found_over_a_run_were_there::<KeyedWords, 0>();
}

/// So were its words: the entry that it writes was in the map when the run began, or after one of
/// its calls, and is the key's.
pub fn found_entries_were_there()
    ensures { (plan : Plan) (opened key writer id from done last : ℕ) (moments : ℕ → Moment)
        (now : Watching Planned) (run : IsRun IsKeyed plan opened now)
        (before after : Option Contents) (room entry : List ℕ) →
        0 < plan.roots → plan.links ≡ 1 → 2 ≤ plan.words → 0 < key → from + done ≤ last →
        IsMapOver IsKeyed plan writer last moments →
        AreMadeOver IsKeyed plan opened moments last now run →
        IsReadOver IsKeyed plan id opened done (since from moments) →
        IsGotBetween plan key (moments from) (moments (from + done)) before room entry
        after →
        0 < key_in entry → HadEntry IsKeyed plan opened entry now run × (key_in entry ≡ key) }
{
    laws::words_found_over_a_run_were_there::<KeyedWords, 0>();
}

/// A read is between two moments of a run if the seat reads the map of its plan, the section's
/// knowledge at the call is that of the first moment, and its knowledge at the return is that of
/// the last one. The clauses of an `rcu_map_get` or an `rcu_map_next` that returns 0 give the rest.
pub fn reads_are_between_the_moments_that_they_know()
    ensures got { (plan : Plan) (key : ℕ) (first last : Moment) (before after : Option Contents)
        (room entry : List ℕ) → map_plan before ≡ plan → known_of before ≡ first.section →
        known_of after ≡ last.section →
        seat_number before (number_in_c (reading_refusal before (length room))) ≡ 0 →
        IsGotInC key before room entry after →
        IsGotBetween plan key first last before room entry after }
    ensures next { (plan : Plan) (key : ℕ) (first last : Moment) (before after : Option Contents)
        (room entry : List ℕ) → map_plan before ≡ plan → known_of before ≡ first.section →
        known_of after ≡ last.section → IsNextInC key before room entry after →
        IsNextBetween plan key first last before room entry after }
{}

/// No `rcu_map_next` from a key skips a later key that stays in the map over such a run: it writes
/// an entry, of that key or of one before it.
pub fn no_key_that_stays_is_passed_over()
    ensures { (plan : Plan) (opened key stays writer id from done last : ℕ) (moments : ℕ → Moment)
        (now : Watching Planned) (run : IsRun IsKeyed plan opened now)
        (before after : Option Contents) (room entry : List ℕ) →
        0 < plan.roots → plan.links ≡ 1 → 2 ≤ plan.words → 0 < stays → from + done ≤ last →
        IsMapOver IsKeyed plan writer last moments →
        AreMadeOver IsKeyed plan opened moments last now run →
        HasKeyThroughout IsKeyed plan opened stays now run →
        IsReadOver IsKeyed plan id opened done (since from moments) →
        IsBehind plan.roots plan.seed key stays →
        IsNextBetween plan key (moments from) (moments (from + done)) before room entry after →
        (0 < key_in entry) × IsUpTo plan.roots plan.seed stays (key_in entry) }
{
    laws::no_words_of_a_key_that_stays_are_passed_over::<KeyedWords, 0>();
}
