//! The laws of a map's keys, and of walks over its entries, about the definitions alone.
ghost use Rattle.std.specs.Prelude.{◌≡◌, ◌↔◌, ◌<◌, ◌≤◌, ◌+◌, ◌++◌, ◌∷◌, ℕ, Bool, Contains, IsSome};
ghost use Rattle.std.specs.Prelude.{IsSomeAnd, List, Option, Some};
ghost use Rattle.rcu_live.specs.Watcher.{Watching};
ghost use Rattle.rcu_graph.specs.Absence.{AreMadeBy, IsHistory, IsLinkedKey};
ghost use Rattle.rcu_graph.specs.Beside.{Moment};
ghost use Rattle.rcu_graph.specs.Nodes.{IsHeld, hops_in};
ghost use Rattle.rcu_graph.specs.Search.{IsSearched};
ghost use Rattle.rcu_graph.specs.declared.known.Hop.{Hop};
ghost use Rattle.rcu_graph.specs.declared.known.Known.{Known};
ghost use Rattle.rcu_graph.specs.declared.known.Node.{Node};
ghost use Rattle.rcu_graph.specs.declared.known.Planned.{Planned};
ghost use Rattle.rcu_graph.specs.declared.plan.Plan.{Plan};
ghost use Rattle.rcu_map.specs.After.{IsBehind, IsNextAfter, IsUpTo};
ghost use Rattle.rcu_map.specs.Beside.{AreMadeOver, HadEntry, HadKey, IsMapOver, IsReadOver};
ghost use Rattle.rcu_map.specs.Beside.{since};
ghost use Rattle.rcu_map.specs.Chains.{IsMap};
ghost use Rattle.rcu_map.specs.Entries.{HasKey};
ghost use Rattle.rcu_map.specs.Found.{IsGot};
ghost use Rattle.rcu_map.specs.Keys.{bucket_of, key_in};
ghost use Rattle.rcu_map.specs.Listing.{GoOn, IsAtEnd, IsListed, at_root};
ghost use Rattle.rcu_map.specs.Nexts.{AreNexts, Nexted, after_nexts, keys_of};
ghost use Rattle.rcu_map.specs.Runs.{HasKeyThroughout, IsRun, last_of, seen_in};
ghost use Rattle.rcu_map.specs.Words.{as_words};
ghost use Rattle.rcu_map.specs.declared.cursor.Cursor.{Cursor};

use crate::entry::Entry;
use crate::shape::MapShape;
use rcu_graph::Invariant;
use rcu_graph::laws::{
    found_keys_were_linked, hops_are_made_by_their_run, keys_found_over_a_run_were_linked,
    keys_linked_over_a_run_are_found, linked_keys_are_found, runs_are_histories,
    words_found_over_a_run_were_linked,
};

/// A key is in a map exactly if the chain of its bucket leads to it. So a statement about linked
/// keys (for example, that a section finds them) is one about the keys of entries.
pub fn keys_of_a_map_are_linked<E: Entry<W>, const W: usize>()
    ensures { (buckets seed key count : ℕ) (nodes : List Node) → 0 < buckets → 0 < key →
        IsMap E.holds buckets seed W count nodes →
        HasKey buckets nodes key ↔ IsLinkedKey (bucket_of buckets seed key) key nodes }
{}

/// Calls of `next` one after another go on like one: from the cursor before the first to the cursor
/// after the last, by the hops of all.
pub fn calls_go_on()
    ensures { (buckets seed : ℕ) (start mid at : Cursor) (before after : List Hop) →
        GoOn buckets seed start before mid → GoOn buckets seed mid after at →
        GoOn buckets seed start (after ++ before) at }
{}

/// The hops of a listing come to each key that is linked at each moment from the section's
/// beginning to the end of the last bucket. Meanwhile each step of the writer is as `IsWriterStep`
/// says: it stores no link of a node that it took off the chain.
pub fn linked_keys_are_listed()
    ensures { (ours : List ℕ → Bool) (opened buckets seed key last : ℕ) (nodes : ℕ → List Node)
        (hops : List Hop) (at : Cursor) → 0 < buckets → 0 < key →
        GoOn buckets seed (at_root 0) hops at → at.bucket ≡ buckets →
        IsHistory ours opened (bucket_of buckets seed key) last nodes →
        ((t : ℕ) → t ≤ last → IsLinkedKey (bucket_of buckets seed key) key (nodes t)) →
        AreMadeBy nodes last hops → IsListed key hops }
{
    linked_keys_are_found();
}

/// A search finds a key that is in the map at the section's beginning and after each call of the
/// writer until the search ends, whatever the calls are. So while a key is replaced, a search finds
/// the old entry or the new one.
pub fn keys_that_stay_are_found<E: Invariant, const W: usize>()
    ensures { (plan : Plan) (opened key : ℕ) (now : Watching Planned)
        (run : IsRun E.holds plan opened now) (was known : Known) (found : Option ℕ)
        (search : IsSearched (bucket_of plan.roots plan.seed key) key was found known) →
        0 < plan.roots → 2 ≤ plan.words → 0 < key →
        HasKeyThroughout E.holds plan opened key now run →
        AreMadeBy (seen_in E.holds plan opened now run) (last_of E.holds plan opened now run)
        (search.last ∷ search.path) → IsSome found }
{
    linked_keys_are_found();
}

/// A key that a section finds was in the map at a moment of the section: the chain of its bucket
/// led to it then.
pub fn found_keys_were_there<E: Invariant, const W: usize>()
    ensures { (plan : Plan) (opened key : ℕ) (now : Watching Planned)
        (run : IsRun E.holds plan opened now) (was known : Known) (node : ℕ)
        (search : IsSearched (bucket_of plan.roots plan.seed key) key was (Some node) known) →
        0 < plan.roots → 2 ≤ plan.words → 0 < key →
        AreMadeBy (seen_in E.holds plan opened now run) (last_of E.holds plan opened now run)
        (search.last ∷ search.path) →
        (t : ℕ) × (t ≤ last_of E.holds plan opened now run)
        × IsLinkedKey (bucket_of plan.roots plan.seed key) key
        (seen_in E.holds plan opened now run t) }
{
    found_keys_were_linked();
}

/// A lookup finds a key that stays in the map: if the key is in the map at the beginning of a run
/// of atomic steps and after each of the writer's calls in it, a search that begins and ends in the
/// run finds it, also while it is replaced. The section's hops are loads of the run, and the
/// writer's calls are made of its steps.
pub fn keys_that_stay_are_found_over_a_run<E: Invariant, const W: usize>()
    ensures { (plan : Plan) (opened key writer seat from done last : ℕ) (moments : ℕ → Moment)
        (now : Watching Planned) (run : IsRun E.holds plan opened now) (found : Option ℕ) →
        0 < plan.roots → plan.links ≡ 1 → 2 ≤ plan.words → 0 < key → from + done ≤ last →
        IsMapOver E.holds plan writer last moments →
        AreMadeOver E.holds plan opened moments last now run →
        HasKeyThroughout E.holds plan opened key now run →
        IsReadOver E.holds plan seat opened done (since from moments) →
        IsSearched (bucket_of plan.roots plan.seed key) key (moments from).section found
        (moments (from + done)).section → IsSome found }
{
    keys_linked_over_a_run_are_found::<MapShape<E, W>>();
}

/// A key that a search in such a run finds was in the map at the run's beginning, or after one of
/// its calls.
pub fn keys_found_over_a_run_were_there<E: Invariant, const W: usize>()
    ensures { (plan : Plan) (opened key writer seat from done last node : ℕ)
        (moments : ℕ → Moment) (now : Watching Planned) (run : IsRun E.holds plan opened now) →
        0 < plan.roots → plan.links ≡ 1 → 2 ≤ plan.words → 0 < key → from + done ≤ last →
        IsMapOver E.holds plan writer last moments →
        AreMadeOver E.holds plan opened moments last now run →
        IsReadOver E.holds plan seat opened done (since from moments) →
        IsSearched (bucket_of plan.roots plan.seed key) key (moments from).section (Some node)
        (moments (from + done)).section → HadKey E.holds plan opened key now run }
{
    keys_found_over_a_run_were_linked::<MapShape<E, W>>();
}

/// The words with which the section then holds the key are those of one entry, which was in the map
/// at the run's beginning, or after one of its calls.
pub fn words_found_over_a_run_were_there<E: Invariant, const W: usize>()
    ensures { (plan : Plan) (opened key writer seat from done last node : ℕ)
        (moments : ℕ → Moment) (now : Watching Planned) (run : IsRun E.holds plan opened now)
        (words : List ℕ) →
        0 < plan.roots → plan.links ≡ 1 → 2 ≤ plan.words → 0 < key → from + done ≤ last →
        IsMapOver E.holds plan writer last moments →
        AreMadeOver E.holds plan opened moments last now run →
        IsReadOver E.holds plan seat opened done (since from moments) →
        IsSearched (bucket_of plan.roots plan.seed key) key (moments from).section (Some node)
        (moments (from + done)).section →
        IsHeld (moments (from + done)).section node words → key_in words ≡ key →
        HadEntry E.holds plan opened words now run }
{
    words_found_over_a_run_were_linked::<MapShape<E, W>>();
}

/// A lookup returns only an entry that was there: what a `get` in such a run returns was in the map
/// at the run's beginning, or after one of its calls, as the entry of that key, with the words of
/// one moment.
pub fn found_entries_were_there<E: Entry<W>, const W: usize>()
    ensures { (plan : Plan) (opened key writer seat from done last : ℕ)
        (moments : ℕ → Moment) (now : Watching Planned) (run : IsRun E.holds plan opened now)
        (entry : E) →
        0 < plan.roots → plan.links ≡ 1 → 2 ≤ plan.words → 0 < key → from + done ≤ last →
        IsMapOver E.holds plan writer last moments →
        AreMadeOver E.holds plan opened moments last now run →
        IsReadOver E.holds plan seat opened done (since from moments) →
        IsGot E.holds E.decode plan.roots plan.seed key (moments from).section (Some entry)
        (moments (from + done)).section →
        (words : List ℕ) × HadEntry E.holds plan opened words now run × (key_in words ≡ key)
        × (entry ≡ E.decode words) }
{
    words_found_over_a_run_were_there::<E, W>();
}

/// The hops of a listing that begins and ends in such a run come to each key that stays in the map.
pub fn keys_that_stay_are_listed_over_a_run<E: Invariant, const W: usize>()
    ensures { (plan : Plan) (opened key writer seat from done last : ℕ) (moments : ℕ → Moment)
        (now : Watching Planned) (run : IsRun E.holds plan opened now) (hops : List Hop)
        (at : Cursor) →
        0 < plan.roots → plan.links ≡ 1 → 2 ≤ plan.words → 0 < key → from + done ≤ last →
        IsMapOver E.holds plan writer last moments →
        AreMadeOver E.holds plan opened moments last now run →
        HasKeyThroughout E.holds plan opened key now run →
        IsReadOver E.holds plan seat opened done (since from moments) →
        hops_in (moments (from + done)).section ≡ hops ++ hops_in (moments from).section →
        GoOn plan.roots plan.seed (at_root 0) hops at → at.bucket ≡ plan.roots →
        IsListed key hops }
{
    hops_are_made_by_their_run::<MapShape<E, W>>();
    runs_are_histories::<MapShape<E, W>>();
    linked_keys_are_listed();
}

/// An iterator returns each key that stays in the map: if the calls of `next` begin at an
/// iterator's beginning in such a run, and go on until one comes to the end, one of them returned
/// an entry of the key.
pub fn keys_that_stay_are_returned_by_next<E: Entry<W>, const W: usize>()
    ensures { (plan : Plan) (opened key writer seat from done last : ℕ) (moments : ℕ → Moment)
        (now : Watching Planned) (run : IsRun E.holds plan opened now) (first : Nexted)
        (calls : List Nexted) (at : Cursor) →
        0 < plan.roots → plan.links ≡ 1 → 2 ≤ plan.words → 0 < key → from + done ≤ last →
        IsMapOver E.holds plan writer last moments →
        AreMadeOver E.holds plan opened moments last now run →
        HasKeyThroughout E.holds plan opened key now run →
        IsReadOver E.holds plan seat opened done (since from moments) →
        first.known ≡ (moments from).section → first.at ≡ at_root 0 →
        AreNexts E.holds E.decode plan.roots plan.seed first calls →
        IsAtEnd plan.roots plan.seed (after_nexts first calls).known (after_nexts first calls).at
        (moments (from + done)).section at → Contains (keys_of calls) key }
{
    keys_that_stay_are_listed_over_a_run::<E, W>();
}

/// Each key is behind 0, so
pub fn each_key_lies_behind_0()
    ensures { (buckets seed key : ℕ) → 0 < key → IsBehind buckets seed 0 key }
{}

/// A step to the next entry behind a key finds words, and passes over no key that stays in the map
/// over such a run and is behind the first one: the words are of that key, or of one before it.
pub fn no_words_of_a_key_that_stays_are_passed_over<E: Invariant, const W: usize>()
    ensures { (plan : Plan) (opened key stays writer seat from done last : ℕ)
        (moments : ℕ → Moment) (now : Watching Planned) (run : IsRun E.holds plan opened now)
        (next : Option (List ℕ)) →
        0 < plan.roots → plan.links ≡ 1 → 2 ≤ plan.words → 0 < stays → from + done ≤ last →
        IsMapOver E.holds plan writer last moments →
        AreMadeOver E.holds plan opened moments last now run →
        HasKeyThroughout E.holds plan opened stays now run →
        IsReadOver E.holds plan seat opened done (since from moments) →
        IsBehind plan.roots plan.seed key stays →
        IsNextAfter E.holds as_words plan.roots plan.seed key (moments from).section next
        (moments (from + done)).section →
        IsSomeAnd next (λ words. IsUpTo plan.roots plan.seed stays (key_in words)) }
{
    hops_are_made_by_their_run::<MapShape<E, W>>();
    runs_are_histories::<MapShape<E, W>>();
    linked_keys_are_found();
}

/// A step to the next entry behind a key passes over no entry that stays: it returns that of the
/// key that stays over such a run and is behind the first one, or one before it.
pub fn no_key_that_stays_is_passed_over<E: Entry<W>, const W: usize>()
    ensures { (plan : Plan) (opened key stays writer seat from done last : ℕ)
        (moments : ℕ → Moment) (now : Watching Planned) (run : IsRun E.holds plan opened now)
        (next : Option E) →
        0 < plan.roots → plan.links ≡ 1 → 2 ≤ plan.words → 0 < stays → from + done ≤ last →
        IsMapOver E.holds plan writer last moments →
        AreMadeOver E.holds plan opened moments last now run →
        HasKeyThroughout E.holds plan opened stays now run →
        IsReadOver E.holds plan seat opened done (since from moments) →
        IsBehind plan.roots plan.seed key stays →
        IsNextAfter E.holds E.decode plan.roots plan.seed key (moments from).section next
        (moments (from + done)).section →
        IsSomeAnd next (λ entry. IsUpTo plan.roots plan.seed stays (E.key_of entry)) }
{
    no_words_of_a_key_that_stays_are_passed_over::<E, W>();
}
