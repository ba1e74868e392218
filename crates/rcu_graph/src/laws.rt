//! The laws of graphs, about the definitions alone: the places of cells, the nodes that open
//! sections hold, and the nodes that their hops find.
ghost use Rattle.std.specs.Prelude.{◌≡◌, ◌≢◌, ◌<◌, ◌≤◌, ◌+◌, ◌*◌, ◌↔◌, ◌++◌, ◌∷◌, Bool};
ghost use Rattle.std.specs.Prelude.{IsSome, IsTrue};
ghost use Rattle.std.specs.Prelude.{List, Option, Some, ℕ, slice_index, slice_set, suc, true};
ghost use mathlib.Core.Option.{some};
ghost use lib.ListN.{get_elem?};
ghost use Rattle.rcu_live.specs.Client.{Views};
ghost use Rattle.rcu_live.specs.Numbers.{is_open_at};
ghost use Rattle.rcu_live.specs.Watcher.{Watching};
ghost use Rattle.rcu_graph.specs.Absence.{AreLinkedWords, AreMadeBy, IsChained, IsHistory};
ghost use Rattle.rcu_graph.specs.Absence.{IsLinkedKey, IsOnIfOurs, IsTrueOf, IsWriterStep};
ghost use Rattle.rcu_graph.specs.Beside.{AreOnChain, IsChainOf, IsKeptOver, IsOpenOver, Moment};
ghost use Rattle.rcu_graph.specs.Beside.{nodes_at};
ghost use Rattle.rcu_graph.specs.Writer.{after_link, after_look, after_mark_unlinked};
ghost use Rattle.rcu_graph.specs.Writer.{after_publish, after_write, after_write_link};
ghost use Rattle.rcu_graph.specs.Nodes.{IsHeld, IsOn, IsReader, first_place, hops_in};
ghost use Rattle.rcu_graph.specs.Nodes.{nodes_in, place_of, state_at, stored_in};
ghost use Rattle.rcu_graph.specs.Planned.{IsKeptBy, of_plan, tells_follow};
ghost use Rattle.rcu_graph.specs.Search.{Ascends, IsSearched};
ghost use Rattle.rcu_graph.specs.declared.known.Hop.{Hop};
ghost use Rattle.rcu_graph.specs.declared.known.Known.{Known};
ghost use Rattle.rcu_graph.specs.declared.known.Planned.{Planned};
ghost use Rattle.rcu_graph.specs.declared.known.Known.TheVariants.{Writer};
ghost use Rattle.rcu_graph.specs.declared.known.Node.{Node};
ghost use Rattle.rcu_graph.specs.declared.node_state.NodeState.TheVariants.{Free, Live};
ghost use Rattle.rcu_graph.specs.declared.plan.Plan.{Plan};

use crate::rule::Shape;

/// Each link and each word of a node has a place of its own, inside the words of the graph. The
/// words of a node are side by side, and so are the links of one root and of the next.
pub fn each_cell_has_a_place_of_its_own()
    ensures own { (plan : Plan) (node other k l : ℕ) → k < plan.links + plan.words →
        l < plan.links + plan.words → place_of plan.roots plan.links plan.words node k
        ≡ place_of plan.roots plan.links plan.words other l → (node ≡ other) × (k ≡ l) }
    ensures inside { (plan : Plan) (node k : ℕ) → plan.roots ≤ plan.nodes → node < plan.nodes →
        k < plan.links + plan.words →
        (first_place ≤ place_of plan.roots plan.links plan.words node k)
        × (place_of plan.roots plan.links plan.words node k
        < first_place + (plan.links + plan.words) * plan.nodes) }
    ensures words { (plan : Plan) (node word : ℕ) →
        place_of plan.roots plan.links plan.words node (plan.links + word)
        ≡ place_of plan.roots plan.links plan.words node plan.links + word }
    ensures links_of_roots { (plan : Plan) (root k : ℕ) → suc root < plan.roots → k < plan.links →
        place_of plan.roots plan.links plan.words (suc root) k
        ≡ place_of plan.roots plan.links plan.words root k + plan.links }
{}

/// A node that a section holds keeps its words: at any two moments at which the seat holds the
/// node, the words are the same. So the node was not used again in between. The rule holds at both
/// moments, as at each.
pub fn held_nodes_keep_their_words<F: Shape>()
    ensures { (plan : Plan) (before after : List ℕ) (xs ys : Views Planned)
        (seat node word : ℕ) (cpu section here later : Option ℕ)
        (was now : Planned) (words : List ℕ) →
        IsKeptBy F.fits F.joins F.first plan before xs →
        IsKeptBy F.fits F.joins F.first plan after ys →
        get_elem? xs seat ≡ some (cpu, section, was) → get_elem? ys seat ≡ some (here, later, now) →
        IsReader was.known → IsReader now.known → IsHeld was.known node words →
        IsHeld now.known node words → word < plan.words →
        slice_index after (place_of plan.roots plan.links plan.words node (plan.links + word))
        ≡ slice_index before (place_of plan.roots plan.links plan.words node (plan.links + word)) }
{}

/// No seat holds a node that the writer knows as free, and so may write.
pub fn free_nodes_are_not_held<F: Shape>()
    ensures { (plan : Plan) (table : List ℕ) (xs : Views Planned)
        (writer seat node latest : ℕ) (who own cpu section : Option ℕ) (nodes : List Node)
        (stored : List (List Node))
        (known : Planned) (words : List ℕ) (v : Node) →
        IsKeptBy F.fits F.joins F.first plan table xs →
        get_elem? xs writer ≡ some (who, own, of_plan plan (Writer latest nodes stored)) →
        get_elem? xs seat ≡ some (cpu, section, known) → IsReader known.known →
        IsHeld known.known node words → get_elem? nodes node ≡ some v → v.state ≢ Free }
{}

/// A section holds a node with the words that the writer knows.
pub fn held_nodes_are_as_known<F: Shape>()
    ensures { (plan : Plan) (table : List ℕ) (xs : Views Planned)
        (writer seat node latest : ℕ) (who own cpu section : Option ℕ) (nodes : List Node)
        (stored : List (List Node))
        (known : Planned) (words : List ℕ) (v : Node) →
        IsKeptBy F.fits F.joins F.first plan table xs →
        get_elem? xs writer ≡ some (who, own, of_plan plan (Writer latest nodes stored)) →
        get_elem? xs seat ≡ some (cpu, section, known) → IsReader known.known →
        IsHeld known.known node words → get_elem? nodes node ≡ some v → v.words ≡ words }
{}

/// A link of a live node leads to a live node, and the user's fact joins the two, whoever loads the
/// link and whenever.
pub fn live_nodes_lead_to_live_nodes<F: Shape>()
    ensures { (plan : Plan) (table : List ℕ) (xs : Views Planned)
        (writer node link next latest : ℕ) (who own : Option ℕ) (nodes : List Node)
        (stored : List (List Node)) (v : Node) →
        IsKeptBy F.fits F.joins F.first plan table xs →
        get_elem? xs writer ≡ some (who, own, of_plan plan (Writer latest nodes stored)) →
        get_elem? nodes node ≡ some v → v.state ≡ Live → link < plan.links →
        slice_index table (place_of plan.roots plan.links plan.words node link) ≡ suc next →
        (to : Node) × (get_elem? nodes next ≡ some to) × (to.state ≡ Live)
        × F.joins plan link v.words to.words }
{}

/// A hop is true at its load: the word that it loaded is that of the link, as the writer knows the
/// nodes then, and the node to which it came has the words of the hop. So a lookup by one hop takes
/// effect at its load, also if it finds nothing.
pub fn hops_are_true_of_the_nodes<F: Shape>()
    ensures { (plan : Plan) (table : List ℕ) (xs : Views Planned)
        (writer seat node link latest : ℕ) (who own cpu section : Option ℕ) (nodes : List Node)
        (stored : List (List Node))
        (was now : Planned) (words : List ℕ) →
        IsKeptBy F.fits F.joins F.first plan table xs →
        IsKeptBy F.fits F.joins F.first plan table (slice_set xs seat (cpu, section, now)) →
        get_elem? xs writer ≡ some (who, own, of_plan plan (Writer latest nodes stored)) →
        get_elem? xs seat ≡ some (cpu, section, was) → IsReader was.known →
        IsOn (F.first plan) plan.roots was.known node words → link < plan.links →
        tells_follow F.fits F.joins F.first
        (place_of plan.roots plan.links plan.words node link) was
        (slice_index table (place_of plan.roots plan.links plan.words node link)) now →
        (hop : Hop) × (hops_in now.known ≡ hop ∷ hops_in was.known) × (hop.from ≡ node)
        × (hop.link ≡ link) × IsTrueOf nodes hop }
{}

/// The chain of a root goes up at each moment: a live node leads along its first link to a live
/// node of the same chain with a greater key, if the user's facts say so of two joined nodes.
pub fn chains_go_up<F: Shape>()
    ensures { (plan : Plan) (ours : List ℕ → Bool) (root : ℕ) (table : List ℕ)
        (xs : Views Planned) (writer latest : ℕ) (who own : Option ℕ)
        (nodes : List Node) (stored : List (List Node)) →
        IsKeptBy F.fits F.joins F.first plan table xs →
        get_elem? xs writer ≡ some (who, own, of_plan plan (Writer latest nodes stored)) →
        Ascends (F.joins plan) 0 →
        ((from to : List ℕ) → F.joins plan 0 from to → IsTrue (ours from) → IsTrue (ours to)) →
        root < plan.roots → 0 < plan.links → IsTrue (ours (F.first plan root)) →
        IsChained ours root nodes }
{}

/// Each call of the writer is a step of such a history beside an open section. For `Graph::link`
/// and `Graph::publish` the node whose link is stored still has to be on its chain.
pub fn calls_are_writer_steps()
    ensures write { (ours : List ℕ → Bool) (opened root node word value : ℕ)
        (writer : Watching Planned) → state_at (nodes_in writer.view.client.known) node ≡ Free →
        IsWriterStep ours opened root (nodes_in writer.view.client.known)
        (nodes_in (after_write writer node word value).view.client.known) }
    ensures write_link { (ours : List ℕ → Bool) (opened root node link value : ℕ)
        (writer : Watching Planned) → state_at (nodes_in writer.view.client.known) node ≡ Free →
        IsWriterStep ours opened root (nodes_in writer.view.client.known)
        (nodes_in (after_write_link writer node link value).view.client.known) }
    ensures link { (ours : List ℕ → Bool) (opened root node link value : ℕ)
        (writer : Watching Planned) →
        IsOnIfOurs ours root (nodes_in writer.view.client.known) node →
        IsWriterStep ours opened root (nodes_in writer.view.client.known)
        (nodes_in (after_link writer node link value).view.client.known) }
    ensures publish { (ours : List ℕ → Bool) (opened root from link to : ℕ)
        (writer : Watching Planned) → state_at (nodes_in writer.view.client.known) from ≡ Live →
        state_at (nodes_in writer.view.client.known) to ≡ Free →
        IsOnIfOurs ours root (nodes_in writer.view.client.known) from →
        IsWriterStep ours opened root (nodes_in writer.view.client.known)
        (nodes_in (after_publish writer from link to).view.client.known) }
    ensures mark_unlinked { (ours : List ℕ → Bool) (opened root node : ℕ)
        (writer : Watching Planned) →
        IsWriterStep ours opened root (nodes_in writer.view.client.known)
        (nodes_in (after_mark_unlinked writer node).view.client.known) }
    ensures look { (ours : List ℕ → Bool) (opened root number : ℕ) (writer : Watching Planned) →
        is_open_at number opened ≡ true → IsWriterStep ours opened root
        (nodes_in writer.view.client.known)
        (nodes_in (after_look writer number).view.client.known) }
{}

/// A search finds a key that is linked at each moment from the section's beginning to the search's
/// end. Meanwhile each step of the writer is as `IsWriterStep` says: it stores no link of a node
/// that it took off the chain.
pub fn linked_keys_are_found()
    ensures { (ours : List ℕ → Bool) (opened root key last : ℕ) (nodes : ℕ → List Node)
        (was now : Known) (found : Option ℕ) (search : IsSearched root key was found now) →
        IsHistory ours opened root last nodes →
        ((t : ℕ) → t ≤ last → IsLinkedKey root key (nodes t)) →
        AreMadeBy nodes last (search.last ∷ search.path) → IsSome found }
{}

/// A key that a search finds was linked at a moment of its section. Meanwhile each step of the
/// writer is as `IsWriterStep` says.
pub fn found_keys_were_linked()
    ensures { (ours : List ℕ → Bool) (opened root key last : ℕ) (nodes : ℕ → List Node)
        (was now : Known) (node : ℕ) (search : IsSearched root key was (Some node) now) →
        IsHistory ours opened root last nodes →
        AreMadeBy nodes last (search.last ∷ search.path) →
        (t : ℕ) × (t ≤ last) × IsLinkedKey root key (nodes t) }
{}

/// The hops of a section over a run are made by the run's moments: each is true of the nodes at its
/// load, and they are in order.
pub fn hops_are_made_by_their_run<F: Shape>()
    ensures { (plan : Plan) (writer seat opened last : ℕ) (moments : ℕ → Moment) →
        IsKeptOver F.fits F.joins F.first plan writer last moments →
        IsOpenOver F.fits F.joins F.first plan seat opened last moments →
        (hops : List Hop)
        × (hops_in (moments last).section ≡ hops ++ hops_in (moments 0).section)
        × AreMadeBy (nodes_at moments) last hops }
{}

/// The nodes at the moments of a run beside an open section are a history, if each live node that
/// the writer led elsewhere was on its chain.
pub fn runs_are_histories<F: Shape>()
    ensures { (plan : Plan) (ours : List ℕ → Bool) (root writer seat opened last : ℕ)
        (moments : ℕ → Moment) → IsChainOf F.joins F.first plan ours root →
        (kept : IsKeptOver F.fits F.joins F.first plan writer last moments) →
        IsOpenOver F.fits F.joins F.first plan seat opened last moments →
        AreOnChain F.fits F.joins F.first plan ours root writer last moments kept →
        IsHistory ours opened root last (nodes_at moments) }
{}

/// If the writer leads no live node elsewhere between two moments of a run, the same keys are
/// linked at both.
pub fn keys_stay_linked_between_stores<F: Shape>()
    ensures { (plan : Plan) (ours : List ℕ → Bool) (root key writer last before after : ℕ)
        (moments : ℕ → Moment) → IsChainOf F.joins F.first plan ours root →
        IsKeptOver F.fits F.joins F.first plan writer last moments →
        before ≤ after → after ≤ last →
        stored_in (moments after).writer ≡ stored_in (moments before).writer →
        IsLinkedKey root key (nodes_at moments before) ↔
        IsLinkedKey root key (nodes_at moments after) }
{}

/// A search finds a key that is linked at each moment of a run, from the search's beginning to its
/// end. The search's hops are the loads of the run.
pub fn keys_linked_over_a_run_are_found<F: Shape>()
    ensures { (plan : Plan) (ours : List ℕ → Bool) (root key writer seat opened last : ℕ)
        (moments : ℕ → Moment) (found : Option ℕ) → IsChainOf F.joins F.first plan ours root →
        (kept : IsKeptOver F.fits F.joins F.first plan writer last moments) →
        IsOpenOver F.fits F.joins F.first plan seat opened last moments →
        AreOnChain F.fits F.joins F.first plan ours root writer last moments kept →
        IsSearched root key (moments 0).section found (moments last).section →
        ((t : ℕ) → t ≤ last → IsLinkedKey root key (nodes_at moments t)) → IsSome found }
{}

/// A key that a search over a run finds was linked at a moment of the run.
pub fn keys_found_over_a_run_were_linked<F: Shape>()
    ensures { (plan : Plan) (ours : List ℕ → Bool) (root key writer seat opened last node : ℕ)
        (moments : ℕ → Moment) → IsChainOf F.joins F.first plan ours root →
        (kept : IsKeptOver F.fits F.joins F.first plan writer last moments) →
        IsOpenOver F.fits F.joins F.first plan seat opened last moments →
        AreOnChain F.fits F.joins F.first plan ours root writer last moments kept →
        IsSearched root key (moments 0).section (Some node) (moments last).section →
        (t : ℕ) × (t ≤ last) × IsLinkedKey root key (nodes_at moments t) }
{}

/// The words with which the section then holds the key were linked at a moment of the run.
pub fn words_found_over_a_run_were_linked<F: Shape>()
    ensures { (plan : Plan) (ours : List ℕ → Bool) (root key writer seat opened last node : ℕ)
        (moments : ℕ → Moment) (words : List ℕ) → IsChainOf F.joins F.first plan ours root →
        (kept : IsKeptOver F.fits F.joins F.first plan writer last moments) →
        IsOpenOver F.fits F.joins F.first plan seat opened last moments →
        AreOnChain F.fits F.joins F.first plan ours root writer last moments kept →
        IsSearched root key (moments 0).section (Some node) (moments last).section →
        IsHeld (moments last).section node words →
        (t : ℕ) × (t ≤ last) × AreLinkedWords root words (nodes_at moments t) }
{}
