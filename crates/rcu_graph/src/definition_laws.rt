//! The definitions of searches and of the writer's steps beside them, on a small run.
ghost use Rattle.std.specs.Prelude.{◌≡◌, ◌<◌, ◌≤◌, ◌+◌, [], ◌∷◌, ℕ, List, Some, length};
ghost use Rattle.std.specs.Prelude.{max, suc, true};
ghost use Rattle.rcu_graph.specs.Absence.{AreMadeBy, AreSameFor, IsHistory, IsLinkedKey};
ghost use Rattle.rcu_graph.specs.Beside.{AreOnChain, CanGoOn, GoesOn, IsChainOf, IsKeptAt};
ghost use Rattle.rcu_graph.specs.Beside.{IsKeptOver, IsOnChain, IsOpenAt, IsOpenOver};
ghost use Rattle.rcu_graph.specs.Beside.{IsSectionMove, IsWriterMove, Moment, nodes_at};
ghost use Rattle.rcu_graph.specs.Writer.{IsReady};
ghost use Rattle.rcu_graph.specs.Nodes.{IsOn, IsTarget, IsUnlinked, hops_in, in_state, latest_in};
ghost use Rattle.rcu_graph.specs.Nodes.{linked_to, node_at, nodes_in, reclaimed, renewed, state_at};
ghost use Rattle.rcu_graph.specs.Nodes.{stored_in, worded};
ghost use Rattle.rcu_graph.specs.Search.{IsSearched, key_after};
ghost use Rattle.rcu_graph.specs.SmallRun.{first_hop, second_hop, small_first, small_fits};
ghost use Rattle.rcu_graph.specs.SmallRun.{small_joins, small_moment, small_moments, small_nodes};
ghost use Rattle.rcu_graph.specs.SmallRun.{small_plan};
ghost use Rattle.rcu_graph.specs.Steps.{IsLedTo, keeping, storing};
ghost use Rattle.rcu_graph.specs.declared.known.Hop.{Hop};
ghost use Rattle.rcu_graph.specs.declared.known.Known.{Known};
ghost use Rattle.rcu_graph.specs.declared.known.Known.TheVariants.{Reader, Writer};
ghost use Rattle.rcu_graph.specs.declared.node_state.NodeState.TheVariants.{Free, Live, Unlinked};
ghost use Rattle.rcu_graph.specs.declared.plan.Plan.{Plan};

use crate::rule::Shape;

/// A writer publishes a node between two hops of a search. The key that was linked before is linked
/// behind it, and the search goes on to the new node. It could not go there before.
pub fn a_search_may_go_on_beside_its_writer()
    ensures history { (opened : ℕ) → IsHistory (λ _. true) opened 0 1 small_nodes }
    ensures linked { (t : ℕ) → t ≤ 1 → IsLinkedKey 0 5 (small_nodes t) }
    ensures later { IsLinkedKey 0 7 (small_nodes 1) }
    ensures not_before { IsLinkedKey 0 7 (small_nodes 0) → ⊥ }
    ensures made { AreMadeBy small_nodes 1 (second_hop ∷ first_hop ∷ []) }
    ensures begun_later { AreMadeBy small_nodes 1 (second_hop ∷ []) }
    ensures made_in_order { AreMadeBy small_nodes 0 (second_hop ∷ []) → ⊥ }
    ensures not_aside { (opened : ℕ) → AreSameFor opened (small_nodes 0) (small_nodes 1) → ⊥ }
    ensures searched { IsSearched 0 7 (Reader []) (Some 2)
        (Reader (second_hop ∷ first_hop ∷ [])) }
{}

/// A section makes a hop, the writer publishes a node, and the section goes on to it, each by one
/// move. The node that leads to the new one is on the chain of the root.
pub fn a_section_goes_on_over_a_run()
    ensures kept { (kept : IsKeptOver small_fits small_joins small_first small_plan 0 3
        small_moments) × AreOnChain small_fits small_joins small_first small_plan (λ _. true) 0 0 3
        small_moments kept }
    ensures walks { IsOpenOver small_fits small_joins small_first small_plan 1 0 3 small_moments }
    ensures chain { IsChainOf small_joins small_first small_plan (λ _. true) 0 }
    ensures nodes { (t : ℕ) → t ≤ 1 → nodes_at small_moments (suc t) ≡ small_nodes t }
{}

/// In that run no earlier move takes the section to the new node, and none takes the store back.
/// The node that leads to the new one is on no chain behind it. The section's seat is no writer's,
/// the section did not begin at a later number, and a node that is no root has no chain.
pub fn a_run_has_no_other_moves()
    ensures not_before { IsSectionMove small_fits small_joins small_first small_plan
        (small_moment 0 (first_hop ∷ [])) (small_moment 0 (second_hop ∷ first_hop ∷ [])) → ⊥ }
    ensures not_back { IsWriterMove small_plan (small_moment 1 []) (small_moment 0 []) → ⊥ }
    ensures not_on_chain { (move : IsWriterMove small_plan (small_moments 1) (small_moments 2)) →
        IsOnChain small_plan (small_moments 1) (small_moments 2) (λ _. true) 2 move → ⊥ }
    ensures not_writer { IsKeptAt small_fits small_joins small_first small_plan 1
        (small_moment 0 []) → ⊥ }
    ensures not_later { IsOpenAt small_fits small_joins small_first small_plan 1 1
        (small_moment 0 []) → ⊥ }
    ensures not_chain { IsChainOf small_joins small_first small_plan (λ _. true) 1 → ⊥ }
{}

/// A run goes on by each step that a section or the writer may make: the step is a move from one
/// such moment to another.
pub fn runs_go_on_by_steps<F: Shape>()
    ensures followed { (plan : Plan) (writer seat opened number node link : ℕ) (words : List ℕ)
        (before : Moment) →
        CanGoOn F.fits F.joins F.first plan writer seat opened number before →
        link < plan.links → IsOn (F.first plan) plan.roots before.section node words →
        (after : Moment) × GoesOn F.fits F.joins F.first plan writer seat opened before after
        × (hop : Hop) × (hops_in after.section ≡ hop ∷ hops_in before.section)
        × (hop.from ≡ node) × (hop.link ≡ link) }
    ensures wrote { (plan : Plan) (writer seat opened number node word value : ℕ)
        (before : Moment) →
        CanGoOn F.fits F.joins F.first plan writer seat opened number before →
        node < length (nodes_in before.writer) → state_at (nodes_in before.writer) node ≡ Free →
        word < plan.words →
        (after : Moment) × GoesOn F.fits F.joins F.first plan writer seat opened before after
        × (after.writer ≡ keeping before.writer
        (renewed (nodes_in before.writer) node (worded word value))) }
    ensures wrote_link { (plan : Plan) (writer seat opened number node link value : ℕ)
        (before : Moment) →
        CanGoOn F.fits F.joins F.first plan writer seat opened number before →
        node < length (nodes_in before.writer) → state_at (nodes_in before.writer) node ≡ Free →
        link < plan.links →
        (after : Moment) × GoesOn F.fits F.joins F.first plan writer seat opened before after
        × (after.writer ≡ keeping before.writer
        (renewed (nodes_in before.writer) node (linked_to link value))) }
    ensures led { (plan : Plan) (writer seat opened number node link value : ℕ)
        (before : Moment) →
        CanGoOn F.fits F.joins F.first plan writer seat opened number before →
        node < length (nodes_in before.writer) → link < plan.links →
        state_at (nodes_in before.writer) node ≡ Live →
        IsTarget (F.joins plan link) (node_at (nodes_in before.writer) node).words
        (nodes_in before.writer) value →
        (after : Moment) × GoesOn F.fits F.joins F.first plan writer seat opened before after
        × (after.writer ≡ storing before.writer
        (renewed (nodes_in before.writer) node (linked_to link value))) }
    ensures published { (plan : Plan) (writer seat opened number from link to : ℕ)
        (before : Moment) →
        CanGoOn F.fits F.joins F.first plan writer seat opened number before →
        from < length (nodes_in before.writer) → to < length (nodes_in before.writer) →
        link < plan.links → state_at (nodes_in before.writer) from ≡ Live →
        IsReady (F.fits plan) (F.joins plan) plan.links (nodes_in before.writer) to →
        F.joins plan link (node_at (nodes_in before.writer) from).words
        (node_at (nodes_in before.writer) to).words →
        (after : Moment) × GoesOn F.fits F.joins F.first plan writer seat opened before after
        × (after.writer ≡ storing before.writer
        (renewed (renewed (nodes_in before.writer) to (in_state Live)) from
        (linked_to link (suc to)))) }
    ensures mark_unlinked { (plan : Plan) (writer seat opened number node : ℕ) (before : Moment) →
        CanGoOn F.fits F.joins F.first plan writer seat opened number before →
        node < length (nodes_in before.writer) → 0 < plan.links + plan.words →
        plan.roots ≤ node → state_at (nodes_in before.writer) node ≡ Live →
        IsUnlinked plan.links (nodes_in before.writer) node →
        (after : Moment) × GoesOn F.fits F.joins F.first plan writer seat opened before after
        × (after.writer ≡ keeping before.writer
        (renewed (nodes_in before.writer) node (in_state Unlinked))) }
    ensures looked { (plan : Plan) (writer seat opened number : ℕ) (before : Moment) →
        CanGoOn F.fits F.joins F.first plan writer seat opened number before →
        (after : Moment) × GoesOn F.fits F.joins F.first plan writer seat opened before after
        × (after.writer ≡ Writer (max number (latest_in before.writer))
        (reclaimed number (max number (latest_in before.writer)) (nodes_in before.writer))
        (stored_in before.writer)) }
{}

/// The node that a search finds is the one to which its last hop led, and it has the key.
pub fn what_is_found_has_the_key()
    ensures { (root key node : ℕ) (was now : Known)
        (search : IsSearched root key was (Some node) now) →
        (search.last.to ≡ suc node) × (key_after search.last ≡ key) }
{}

/// A link that leads nowhere leads to no words.
pub fn nowhere_has_no_words<F: Shape>()
    ensures { (plan : Plan) (link width count : ℕ) (from words : List ℕ) →
        IsLedTo (F.fits plan) (F.joins plan link from) width count 0 words → words ≡ [] }
{}
