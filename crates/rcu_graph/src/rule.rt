//! The rule of a graph, as a client of the running engine, and its kinds of step.
ghost use Rattle.std.specs.Prelude.{List, ℕ};

use crate::first_words::first_words;
use crate::known::Planned;
use crate::places::FIRST;
use crate::plan::Plan;
use rcu_live::{Alone, Client, CpuSeat, Live, NumberStep, Watcher, Within, WordStep};
use std::alloc::{AllocError, Global};
use std::marker::PhantomData;

/// A user's facts on the nodes of a graph of a plan: the fact on the words of a node in use, which
/// nodes a link may join (for example, that the keys go up), and which words the roots have.
pub trait Shape {
    ghost use Rattle.std.specs.Prelude.{◌≡◌, ◌<◌, slice_index};
    ghost use Rattle.rcu_graph.specs.declared.plan.Plan.{Plan};

    ghost fits: { Plan → List ℕ → Type 0 };

    // A relation of the link's number, the words of its node, and the words of the node that it
    // leads to.
    ghost joins: { Plan → ℕ → List ℕ → List ℕ → Type 0 };

    ghost first: { Plan → ℕ → List ℕ };

    /// Returns a word of a root.
    fn first_word(plan: Plan, root: usize, word: usize) -> u64
        requires root { root < plan.roots }
        requires word { word < plan.words }
        ensures { result ≡ slice_index (first plan root) word };
}

/// The rule of a graph of a plan, whose nodes in use satisfy `F`.
pub struct GraphRule<F> {
    shape: PhantomData<F>,
}

impl<F: Shape> Client for GraphRule<F> {
    type Plan = Plan;

    type Known = Planned;

    ghost use Rattle.std.specs.Prelude.{◌+◌, ◌*◌};
    ghost use Rattle.rcu_graph.specs.Nodes.{closed, first_place};
    ghost use Rattle.rcu_graph.specs.Opening.{AreWhole, IsSized};
    ghost use Rattle.rcu_graph.specs.Planned.{IsKeptBy, knowing, of_plan};
    ghost use Rattle.rcu_graph.specs.Planned.{planned_is_stable};
    ghost use Rattle.rcu_graph.specs.Stability.{is_stable};
    ghost use Rattle.rcu_graph.specs.declared.known.Known.TheVariants.{Idle, Owner};

    ghost holds = { IsKeptBy F.fits F.joins F.first };

    ghost first = { λ plan. of_plan plan Owner };

    ghost idle = { λ c. knowing c Idle };

    ghost closed = { λ c. knowing c (closed c.known) };

    ghost suits = { λ plan. IsSized plan × AreWhole (F.fits plan) (F.first plan) plan };

    ghost size = { λ plan. first_place + (plan.links + plan.words) * plan.nodes };

    fn count(plan: Plan) -> usize {
        FIRST + (plan.links + plan.words) * plan.nodes
    }

    fn add_words(alloc: Global, plan: Plan, words: &mut Vec<u64>) -> Result<(), AllocError> {
        let own = first_words::<F>(alloc, plan)?;
        words.extend_from_slice(own.as_slice())?;
        Ok(())
    }

    ghost stable = { λ plan. planned_is_stable _ plan (λ _. Idle) closed
        (is_stable (F.fits plan) (F.joins plan) (F.first plan) plan.roots plan.links plan.words
        plan.nodes) };
}

/// The engine of a graph, which threads share: the graph is its only client.
pub type GraphEngine<const LEAF: u32, const FAN: u32, T, F> = Live<LEAF, FAN, T, GraphRule<F>>;

/// A processor's seat of a graph's engine: the graph is its only client, or one of several, at this
/// place.
pub type GraphSeat<F, P = Alone> = CpuSeat<<P as Within<GraphRule<F>>>::Whole>;

/// A watcher's seat of such an engine.
pub type GraphWatcher<F, P = Alone> = Watcher<<P as Within<GraphRule<F>>>::Whole>;

/// Loads a link of a root, or of a node that the section holds: the section comes to the node that
/// it leads to.
pub struct Follow<F> {
    shape: PhantomData<F>,
}

impl<F: Shape> WordStep<Planned> for Follow<F> {
    ghost use Rattle.rcu_graph.specs.Planned.{tells_follow};

    ghost then = { tells_follow F.fits F.joins F.first };
}

/// Loads a word of a root, or of a node that the section holds.
pub struct Read<F> {
    shape: PhantomData<F>,
}

impl<F: Shape> WordStep<Planned> for Read<F> {
    ghost use Rattle.rcu_graph.specs.Planned.{tells_read};

    ghost then = { tells_read F.first };
}

/// Loads a word, and makes the seat the writer of the nodes.
pub struct Claim<F> {
    shape: PhantomData<F>,
}

impl<F: Shape> WordStep<Planned> for Claim<F> {
    ghost use Rattle.rcu_graph.specs.Planned.{tells_claim};

    ghost then = { tells_claim F.first };
}

/// Stores a word of a free node.
pub struct Write;

impl WordStep<Planned> for Write {
    ghost use Rattle.rcu_graph.specs.Planned.{tells_write};

    ghost then = { tells_write };
}

/// Stores a link of a free node.
pub struct WriteLink;

impl WordStep<Planned> for WriteLink {
    ghost use Rattle.rcu_graph.specs.Planned.{tells_write_link};

    ghost then = { tells_write_link };
}

/// Stores a link of a live node, which then leads nowhere or to a live one.
pub struct Link;

impl WordStep<Planned> for Link {
    ghost use Rattle.rcu_graph.specs.Planned.{tells_link};

    ghost then = { tells_link };
}

/// Stores a link of a live node, which then leads to a node that was free and is now live.
pub struct Publish;

impl WordStep<Planned> for Publish {
    ghost use Rattle.rcu_graph.specs.Planned.{tells_publish};

    ghost then = { tells_publish };
}

/// Loads a word of a live node to which no live one leads: the node is unlinked.
pub struct MarkUnlinked;

impl WordStep<Planned> for MarkUnlinked {
    ghost use Rattle.rcu_graph.specs.Planned.{tells_mark_unlinked};

    ghost then = { tells_mark_unlinked };
}

/// Loads the number, by which nodes become free.
pub struct Reclaim;

impl NumberStep<Planned> for Reclaim {
    ghost use Rattle.rcu_graph.specs.Planned.{tells_reclaim};

    ghost then = { tells_reclaim };
}
