//! The opening of a graph.
ghost use Rattle.std.specs.Prelude.{◌≡◌, ◌↔◌, ◌+◌, ◌*◌, ◌^◌, Err, IfOk};
ghost use Rattle.rcu_geometry.specs.Opening.{opening_refusal};
ghost use Rattle.rcu_live.specs.Opening.{AreDealt, AreFanouts, engine_at_first};
ghost use Rattle.rcu_graph.specs.Writer.{IsWriterOf};
ghost use Rattle.rcu_graph.specs.Nodes.{first_place};
ghost use Rattle.rcu_graph.specs.Opening.{AreWhole, IsSized, tested_opening, writer_at_first};
ghost use Rattle.rcu_graph.specs.Planned.{of_plan};
ghost use Rattle.rcu_graph.specs.declared.known.Known.TheVariants.{Idle};
ghost use Rattle.rcu_graph.specs.declared.not_opened.NotOpened.{NotOpened};

use crate::graph::Graph;
use crate::not_opened::NotOpened;
use crate::plan::Plan;
use crate::rule::{GraphEngine, GraphRule, GraphSeat, GraphWatcher, Shape};
use rcu_live::{Engine, Live, Parts};
use rcu_node::Tree;
use rcu_seq::Fault;
use std::alloc::Global;
use std::sync::Arc;

/// The most callbacks that may be queued: more than any program queues.
const MOST: u64 = 1 << 62;

/// A graph as it is opened, with its engine.
#[derive(Drop)]
pub struct Opened<L: Drop, F: Shape> {
    /// The engine, shared by threads or under no lock. A thread has to drive it.
    pub live: L,
    /// The nodes, which its seats read.
    pub graph: Graph<F>,
    /// A seat for each processor, in order.
    pub seats: Vec<GraphSeat<F>>,
    /// A watcher for each processor.
    pub watchers: Vec<GraphWatcher<F>>,
    /// The watcher of the nodes' writer.
    pub own: GraphWatcher<F>,
}

/// The engine of a graph, for a program with a lock of its own.
pub type UnlockedEngine<const LEAF: u32, const FAN: u32, T, F> = Engine<
    Tree<LEAF, FAN>,
    T,
    GraphRule<F>,
>;

impl<F: Shape> Graph<F> {
    /// Opens a graph of a plan, whose roots have their first words and lead nowhere, and whose
    /// other nodes are free. Opens its engine too: of `cpus` processors, idle at number 0, with
    /// processor 0 alone online.
    ///
    /// Faults: `BadSizes` if no graph may have these sizes; `TooManyCpus` (17) for no processor,
    /// more than 4,096, or more than four levels hold; `BadLast` (19) if `last` is not a legal last
    /// number; `NoMemory` (16).
    pub fn open<const LEAF: u32, const FAN: u32, T: Drop>(
        alloc: Global,
        cpus: u32,
        last: u64,
        plan: Plan,
    ) -> Result<Opened<GraphEngine<LEAF, FAN, T, F>, F>, NotOpened>
        requires fanouts { AreFanouts LEAF FAN }
        requires first { AreWhole (F.fits plan) (F.first plan) plan }
        ensures bad_sizes { (result ≡ Err NotOpened.BadSizes) ↔ ¬ IsSized plan }
        ensures fault { IsSized plan →
            tested_opening result ≡ opening_refusal LEAF FAN cpus last }
        ensures dealt { IfOk result (λ opened. AreDealt cpus last (2 ^ 62)
            (first_place + (plan.links + plan.words) * plan.nodes) (of_plan plan Idle)
            opened.graph opened.seats.items opened.watchers.items) }
        ensures plan { IfOk result (λ opened. opened.graph.plan ≡ plan) }
        ensures live { IfOk result (λ opened. opened.live ≡ opened.graph) }
        ensures writer { IfOk result (λ opened. IsWriterOf opened.graph opened.own) }
        ensures own { IfOk result (λ opened.
            opened.own ≡ writer_at_first (F.first plan) opened.graph.table cpus plan) }
    {
        let opened = Self::open_unlocked::<LEAF, FAN, T>(alloc, cpus, last, plan)?;
        let Opened {
            live: engine,
            graph,
            seats,
            watchers,
            own,
        } = opened;
        let Ok(board) = Arc::try_clone(&graph.board) else {
            return Err(NotOpened::Fault(Fault::NoMemory));
        };
        Ok(Opened {
            live: Live::new(board, engine),
            graph,
            seats,
            watchers,
            own,
        })
    }

    /// Opens a graph as [`open`](Self::open) does, with its engine under no lock: its owner has to
    /// make one call at a time.
    pub fn open_unlocked<const LEAF: u32, const FAN: u32, T: Drop>(
        alloc: Global,
        cpus: u32,
        last: u64,
        plan: Plan,
    ) -> Result<Opened<UnlockedEngine<LEAF, FAN, T, F>, F>, NotOpened>
        requires fanouts { AreFanouts LEAF FAN }
        requires first { AreWhole (F.fits plan) (F.first plan) plan }
        ensures bad_sizes { (result ≡ Err NotOpened.BadSizes) ↔ ¬ IsSized plan }
        ensures fault { IsSized plan →
            tested_opening result ≡ opening_refusal LEAF FAN cpus last }
        ensures dealt { IfOk result (λ opened. AreDealt cpus last (2 ^ 62)
            (first_place + (plan.links + plan.words) * plan.nodes) (of_plan plan Idle)
            opened.graph opened.seats.items opened.watchers.items) }
        ensures plan { IfOk result (λ opened. opened.graph.plan ≡ plan) }
        ensures engine { IfOk result (λ opened. opened.live ≡ engine_at_first
            opened.graph.table cpus last (2 ^ 62) (of_plan plan Idle)) }
        ensures writer { IfOk result (λ opened. IsWriterOf opened.graph opened.own) }
        ensures own { IfOk result (λ opened.
            opened.own ≡ writer_at_first (F.first plan) opened.graph.table cpus plan) }
    {
        if !plan.is_sized() {
            return Err(NotOpened::BadSizes);
        }
        let Parts {
            board,
            engine,
            seats,
            watchers,
            mut own,
        } = Parts::<LEAF, FAN, T, GraphRule<F>>::open_for(alloc, cpus, last, MOST, plan)?;
        let base = board.base();
        let graph = Graph { board, plan, base };
        graph.claim(&mut own);
        Ok(Opened {
            live: engine,
            graph,
            seats,
            watchers,
            own,
        })
    }
}
