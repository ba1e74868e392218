//! The definitions of runs of a writer's calls, and a small run that meets the laws' premises.
ghost use Rattle.std.specs.Prelude.{◌<◌, ◌↔◌, ◌∷◌, ◌≡◌, ◌≤◌, [], ℕ, Bool, Err, List, None, Ok};
ghost use Rattle.std.specs.Prelude.{Some, false, true};
ghost use Rattle.rcu_live.specs.Numbers.{is_open_at};
ghost use Rattle.rcu_live.specs.Watcher.{Watching};
ghost use Rattle.rcu_graph.specs.Beside.{Moment};
ghost use Rattle.rcu_graph.specs.Writer.{after_look};
ghost use Rattle.rcu_graph.specs.Nodes.{IsHeld, nodes_in, stored_in};
ghost use Rattle.rcu_graph.specs.Puts.{IsFreeNode};
ghost use Rattle.rcu_graph.specs.declared.writer.Full.{Full};
ghost use Rattle.rcu_graph.specs.declared.known.Node.{Node};
ghost use Rattle.rcu_graph.specs.declared.known.Planned.{Planned};
ghost use Rattle.rcu_graph.specs.declared.plan.Plan.{Plan};
ghost use Rattle.rcu_graph.specs.Absence.{AreMadeBy};
ghost use Rattle.rcu_graph.specs.Search.{IsSearched};
ghost use Rattle.rcu_map.specs.Beside.{AreMadeOver, HadEntry, HadKey, IsMapOver, IsReadOver};
ghost use Rattle.rcu_map.specs.Chains.{HasSizes, IsMap, buckets_in, capacity, plan_of_map};
ghost use Rattle.rcu_map.specs.Compared.{IsAsRead, compared};
ghost use Rattle.rcu_map.specs.Entries.{HasEntry, HasKey};
ghost use Rattle.rcu_map.specs.Keys.{bucket_of, key_in};
ghost use Rattle.rcu_map.specs.Puts.{HasChanged, IsByOneStore, IsPutIn};
ghost use Rattle.rcu_map.specs.Room.{IsAtCapacity, IsNoneFreeYet, LacksRoom};
ghost use Rattle.rcu_map.specs.Words.{answered, as_words, words_if};
ghost use Rattle.rcu_map.specs.Runs.{HasKeyThroughout, IsMapOf, IsRun, begun, changed, last_of};
ghost use Rattle.rcu_map.specs.Runs.{seen_in};
ghost use Rattle.rcu_map.specs.declared.compared.Compared.{Compared};
ghost use Rattle.rcu_map.specs.After.{IsNextAfter};
ghost use Rattle.rcu_map.specs.Found.{IsGot};
ghost use Rattle.rcu_map.specs.Listing.{GoOn, IsAtEnd, IsNextEntry, at_root};
ghost use Rattle.rcu_map.specs.Nexts.{AreNexts, after_nexts};
ghost use Rattle.rcu_map.specs.SmallMap.{hop_1, hop_2, small_calls, small_decode, small_first};
ghost use Rattle.rcu_map.specs.SmallMap.{small_holds, small_hops, small_looked, small_moments};
ghost use Rattle.rcu_map.specs.SmallMap.{small_nodes, small_plan};
ghost use Rattle.rcu_map.specs.declared.cursor.Cursor.{Cursor};

use crate::entry::Entry;

/// A writer has the map of a plan if it knows that plan, and its nodes are those of a map of the
/// plan's sizes. Such a map begins a run. The run goes on by each call that puts an entry, and by
/// each load of a number at which the section may be open. A key that was put is there, whether or
/// not it replaced another entry. A key that is there throughout is there at the end.
pub fn runs_go_on_by_calls<E: Entry<W>, const W: usize>()
    ensures map { (plan : Plan) (now : Watching Planned) → now.view.client.plan ≡ plan →
        IsMap E.holds plan.roots plan.seed plan.words plan.nodes
        (nodes_in now.view.client.known) → IsMapOf E.holds plan now }
    ensures begun { (plan : Plan) (opened : ℕ) (now : Watching Planned) →
        IsMapOf E.holds plan now → IsRun E.holds plan opened now }
    ensures changed { (plan : Plan) (opened : ℕ) (words : List ℕ) (there : Bool)
        (before now : Watching Planned) → IsRun E.holds plan opened before →
        HasChanged (IsPutIn plan.roots words there) before now → IsMapOf E.holds plan now →
        IsRun E.holds plan opened now }
    ensures looked { (plan : Plan) (opened number : ℕ) (before now : Watching Planned) →
        IsRun E.holds plan opened before → is_open_at number opened ≡ true →
        now ≡ after_look before number → IsMapOf E.holds plan now → IsRun E.holds plan opened now }
    ensures put { (plan : Plan) (words : List ℕ) (there : Bool) (before now : Watching Planned) →
        HasChanged (IsPutIn plan.roots words there) before now →
        HasKey plan.roots (nodes_in now.view.client.known) (key_in words) }
    ensures throughout { (plan : Plan) (opened key : ℕ) (now : Watching Planned)
        (run : IsRun E.holds plan opened now) → HasKeyThroughout E.holds plan opened key now run →
        HasKey plan.roots (nodes_in now.view.client.known) key }
{}

/// A change of a map is one store, which is the latest one in the writer's view.
pub fn a_change_is_one_store()
    ensures { (before after : Watching Planned) (by : IsByOneStore before after) →
        stored_in after.view.client.known ≡ by.stored ∷ stored_in before.view.client.known }
{}

/// Calls are made over moments if only they change the writer's knowledge: it is the same from the
/// moment 0 to that before the first call, and each call is at or after the one before. So a run
/// with no call may have any moments. A key that is there throughout was there, and if there was no
/// call it was there at the beginning.
pub fn calls_are_made_over_moments<E: Entry<W>, const W: usize>()
    ensures begun { (plan : Plan) (opened t : ℕ) (moments : ℕ → Moment) (now : Watching Planned)
        (map : IsMapOf E.holds plan now) →
        AreMadeOver E.holds plan opened moments t now (begun now map) ↔
        (((moments 0).writer ≡ now.view.client.known)
        × ((moments t).writer ≡ now.view.client.known)) }
    ensures changed { (plan : Plan) (opened s t : ℕ) (moments : ℕ → Moment)
        (before now : Watching Planned) (run : IsRun E.holds plan opened before)
        (by : IsByOneStore before now) (map : IsMapOf E.holds plan now) →
        AreMadeOver E.holds plan opened moments s before run → s ≤ t →
        (moments t).writer ≡ now.view.client.known →
        AreMadeOver E.holds plan opened moments t now (changed before now run by map) }
    ensures in_order { (plan : Plan) (opened t : ℕ) (moments : ℕ → Moment)
        (before now : Watching Planned) (run : IsRun E.holds plan opened before)
        (by : IsByOneStore before now) (map : IsMapOf E.holds plan now) →
        AreMadeOver E.holds plan opened moments t now (changed before now run by map) →
        (s : ℕ) × (s ≤ t) × AreMadeOver E.holds plan opened moments s before run }
    ensures had { (plan : Plan) (opened key : ℕ) (now : Watching Planned)
        (run : IsRun E.holds plan opened now) → HasKeyThroughout E.holds plan opened key now run →
        HadKey E.holds plan opened key now run }
    ensures had_at_first { (plan : Plan) (opened key : ℕ) (now : Watching Planned)
        (map : IsMapOf E.holds plan now) → HadKey E.holds plan opened key now (begun now map) →
        HasKey plan.roots (nodes_in now.view.client.known) key }
    ensures had_entry { (plan : Plan) (opened : ℕ) (words : List ℕ) (now : Watching Planned)
        (map : IsMapOf E.holds plan now) → HadEntry E.holds plan opened words now (begun now map) →
        HasEntry plan.roots (nodes_in now.view.client.known) words }
{}

/// The words of an entry are their own decoding. A call that found an entry has its words, and a
/// call that found none has none.
pub fn words_tell_themselves()
    ensures themselves { (words : List ℕ) → as_words words ≡ words }
    ensures there { (words : List ℕ) → words_if true words ≡ Some words }
    ensures none { (words : List ℕ) → words_if false words ≡ None }
    ensures had { (words : List ℕ) → answered (Ok true) words ≡ Ok (Some words) }
    ensures had_none { (words : List ℕ) → answered (Ok false) words ≡ Ok None }
    ensures full { (full : Full) (words : List ℕ) → answered (Err full) words ≡ Err full }
{}

/// A map has room for as many entries as it was opened for.
pub fn a_map_has_room_for_its_entries()
    ensures { (buckets width entries seed : ℕ) →
        capacity (plan_of_map buckets width entries seed) ≡ entries }
{}

/// A map has no room for an entry if it is one too many, or if no node is free yet. An entry whose
/// key is in the map is never one too many: it only waits for a node.
pub fn a_full_map_replaces()
    ensures replaced { (writer : Watching Planned) (key : ℕ) →
        HasKey (buckets_in writer) (nodes_in writer.view.client.known) key → LacksRoom writer key →
        IsNoneFreeYet (nodes_in writer.view.client.known) }
    ensures one_too_many { (writer : Watching Planned) (key : ℕ) →
        ¬ HasKey (buckets_in writer) (nodes_in writer.view.client.known) key →
        IsAtCapacity writer → LacksRoom writer key }
    ensures none_free { (writer : Watching Planned) (key : ℕ) →
        IsNoneFreeYet (nodes_in writer.view.client.known) → LacksRoom writer key }
    ensures room { (writer : Watching Planned) (key node : ℕ) →
        IsFreeNode (nodes_in writer.view.client.known) node → ¬ IsAtCapacity writer →
        ¬ LacksRoom writer key }
{}

/// The entry of a key is as it was read if it has all words that were read.
pub fn an_entry_is_as_it_was_read()
    ensures as_read { (buckets : ℕ) (nodes : List Node) (words : List ℕ) →
        HasEntry buckets nodes words → IsAsRead buckets nodes (key_in words) words }
    ensures there { (buckets key : ℕ) (nodes : List Node) (words : List ℕ) →
        IsAsRead buckets nodes key words → HasEntry buckets nodes words }
    ensures keyed { (buckets key : ℕ) (nodes : List Node) (words : List ℕ) →
        IsAsRead buckets nodes key words → key_in words ≡ key }
    ensures same { (words : List ℕ) → compared (Ok Compared.Same) words ≡ Ok (Some words) }
    ensures changed { (words : List ℕ) → compared (Ok Compared.Changed) words ≡ Ok (Some words) }
    ensures gone { (words : List ℕ) → compared (Ok Compared.Gone) words ≡ Ok None }
    ensures full { (full : Full) (words : List ℕ) → compared (Err full) words ≡ Err full }
{}

/// A map may have sizes with a bucket and with a word of an entry beside its key, and no others.
pub fn an_entry_has_a_word_beside_its_key()
    ensures least { HasSizes 1 2 0 }
    ensures key_alone { (buckets entries : ℕ) → HasSizes buckets 1 entries → ⊥ }
    ensures no_bucket { (width entries : ℕ) → HasSizes 0 width entries → ⊥ }
{}

/// The writer's calls are a run over the moments, which are those of a map, with the writer's seat
/// 1 and a section of the number 4 on the seat 0. The key 3 is in the map throughout, since its
/// entry is replaced. The key 6 is there between two calls only, and the key 8 never. The section's
/// hops to both are true of the nodes at moments of the calls. The calls are no run over the
/// moments before the look, and between the store of a replacement and the mark of the old node the
/// nodes are those of no map.
pub fn a_map_changes_beside_a_section()
    ensures plan { (0 < small_plan.roots) × (small_plan.links ≡ 1) × (2 ≤ small_plan.words) }
    ensures map { IsMapOver small_holds small_plan 1 10 small_moments }
    ensures not_writer { IsMapOver small_holds small_plan 0 10 small_moments → ⊥ }
    ensures reads { IsReadOver small_holds small_plan 0 4 10 small_moments }
    ensures not_later { IsReadOver small_holds small_plan 0 8 10 small_moments → ⊥ }
    ensures no_map { IsMap small_holds 2 small_plan.seed 2 5 (small_nodes 2) → ⊥ }
    ensures run { (own : Watching Planned) →
        (run : IsRun small_holds small_plan 4 (small_looked own))
        × AreMadeOver small_holds small_plan 4 small_moments 10 (small_looked own) run
        × (AreMadeOver small_holds small_plan 4 small_moments 7 (small_looked own) run → ⊥)
        × HasKeyThroughout small_holds small_plan 4 3 (small_looked own) run
        × (HasKeyThroughout small_holds small_plan 4 6 (small_looked own) run → ⊥)
        × HadKey small_holds small_plan 4 6 (small_looked own) run
        × (HadKey small_holds small_plan 4 8 (small_looked own) run → ⊥)
        × HadEntry small_holds small_plan 4 (6 ∷ 60 ∷ []) (small_looked own) run
        × AreMadeBy (seen_in small_holds small_plan 4 (small_looked own) run)
        (last_of small_holds small_plan 4 (small_looked own) run) (hop_2 ∷ hop_1 ∷ []) }
{}

/// The section finds the entry of the key 3, and that of the key 6 when it was removed already, and
/// none of the key 5, which belongs to the other bucket. It does not find the key 6 before it
/// comes to that node, and then it does not miss it.
pub fn a_section_finds_entries()
    ensures stays { IsSearched (bucket_of 2 small_plan.seed 3) 3 (small_moments 1).section (Some 2)
        (small_moments 2).section }
    ensures searched { IsSearched (bucket_of 2 small_plan.seed 6) 6 (small_moments 1).section
        (Some 3) (small_moments 9).section }
    ensures held { IsHeld (small_moments 9).section 3 (6 ∷ 60 ∷ []) }
    ensures got { IsGot small_holds small_decode 2 small_plan.seed 6 (small_moments 1).section
        (Some 60) (small_moments 9).section }
    ensures got_none { IsGot small_holds small_decode 2 small_plan.seed 5 (small_moments 0).section
        None (small_moments 1).section }
    ensures not_none { IsGot small_holds small_decode 2 small_plan.seed 6
        (small_moments 1).section None (small_moments 9).section → ⊥ }
    ensures not_yet { IsSearched (bucket_of 2 small_plan.seed 6) 6 (small_moments 1).section
        (Some 3) (small_moments 2).section → ⊥ }
{}

/// The section lists both entries, by calls of `next` up to the end, and by steps from a key to the
/// next one. No iterator is at its end if it passed over an entry, or before the end of the last
/// bucket, and none goes on to the second entry over the first one.
pub fn a_section_lists_entries()
    ensures lists { GoOn 2 small_plan.seed (at_root 0) (small_hops 4) (at_root 2) }
    ensures first { small_first.known ≡ (small_moments 0).section }
    ensures nexts { AreNexts small_holds small_decode 2 small_plan.seed small_first small_calls }
    ensures ended { IsAtEnd 2 small_plan.seed (after_nexts small_first small_calls).known
        (after_nexts small_first small_calls).at (small_moments 10).section (at_root 2) }
    ensures next_after { IsNextAfter small_holds small_decode 2 small_plan.seed 3
        (small_moments 1).section (Some 60) (small_moments 9).section }
    ensures in_next_bucket { IsNextAfter small_holds small_decode 2 small_plan.seed 5
        (small_moments 0).section (Some 30) (small_moments 2).section }
    ensures not_at_end { (at : Cursor) → IsAtEnd 2 small_plan.seed (small_moments 0).section
        (at_root 0) (small_moments 9).section at → ⊥ }
    ensures not_ended { IsAtEnd 2 small_plan.seed (small_moments 0).section (at_root 0)
        (small_moments 1).section (at_root 1) → ⊥ }
    ensures not_passed { (entry : ℕ) (at : Cursor) → IsNextEntry small_holds small_decode 2
        small_plan.seed (small_moments 1).section (at_root 1) (small_moments 9).section at entry →
        ⊥ }
{}
