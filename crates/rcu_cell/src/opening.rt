//! The opening of a cell.
ghost use Rattle.std.specs.Prelude.{◌≡◌, ◌↔◌, ◌+◌, ◌*◌, ◌^◌, ◌<◌, Err, IfOk, MatchOption};
ghost use Rattle.rcu_geometry.specs.Opening.{opening_refusal};
ghost use Rattle.rcu_live.specs.Opening.{AreDealt, AreFanouts};
ghost use Rattle.rcu_graph.specs.Graph.{IsWatcherOf};
ghost use Rattle.rcu_graph.specs.Writer.{IsWriterOf};
ghost use Rattle.rcu_graph.specs.Nodes.{first_place};
ghost use Rattle.rcu_graph.specs.Opening.{tested_opening, writer_at_first};
ghost use Rattle.rcu_graph.specs.Planned.{of_plan};
ghost use Rattle.rcu_graph.specs.Steps.{IsClaimed};
ghost use Rattle.rcu_graph.specs.declared.known.Known.TheVariants.{Idle};
ghost use Rattle.rcu_graph.specs.declared.not_opened.NotOpened.{NotOpened};
ghost use Rattle.rcu_cell.specs.Opening.{HasSizes, ShowsFirst, plan_of_cell};

use crate::cell::Cell;
use crate::shape::{CellRule, CellSeat, CellWatcher, Version};
use crate::writer::Writer;
use rcu_graph::{Graph, NotOpened, Plan};
use rcu_live::Live;
use rcu_seq::Fault;
use std::alloc::{AllocError, Global};

/// Returns the plan of a cell of this many slots, at least two. It may be the plan of no graph.
pub(crate) fn plan_of(width: usize, slots: usize) -> Option<Plan>
    ensures { MatchOption result (¬ HasSizes width slots)
        (λ plan. (1 < slots) × (plan ≡ plan_of_cell width slots)) }
{
    if slots < 2 {
        return None;
    }
    Some(Plan {
        roots: 1,
        links: 1,
        words: width,
        nodes: slots.checked_add(1)?,
        seed: 0,
    })
}

/// Returns the writer of a cell whose nodes are as at first, after it shows these words.
fn keep<F: Version<W>, const W: usize>(
    alloc: Global,
    cell: &Cell<F, W>,
    seat: CellWatcher<F, W>,
    words: &[u64; W],
) -> Result<Writer<F, W>, AllocError>
    requires writer { IsWriterOf cell.now seat }
    requires nodes { IsClaimed (λ _. F.first) cell.now.plan.roots cell.now.plan.links
        cell.now.plan.words cell.now.plan.nodes seat.view.client.known }
    requires several { 2 < cell.now.plan.nodes }
    requires whole { F.holds words.now }
    ensures { IfOk result (λ writer. ShowsFirst seat words.now writer) }
{
    // A borrow of a field gives the prover the invariant of the type: there is one root.
    let _ = &cell.graph;
    let mut writer = Writer::new(alloc, cell, seat)?;
    let Ok(_) = writer.update(words) else {
        unreachable!()
    };
    Ok(writer)
}

/// A cell as it is opened, with its engine.
#[derive(Drop)]
pub struct Opened<L: Drop, F: Version<W>, const W: usize> {
    /// The engine, which threads share. A thread has to drive it.
    pub live: L,
    /// The cell, which its seats read.
    pub cell: Cell<F, W>,
    /// A seat for each processor, in order.
    pub seats: Vec<CellSeat<F, W>>,
    /// A watcher for each processor.
    pub watchers: Vec<CellWatcher<F, W>>,
    /// The writer, which publishes versions.
    pub writer: Writer<F, W>,
}

impl<F: Version<W>, const W: usize> Cell<F, W> {
    /// Opens a cell of this many slots that shows these words. Opens its engine too: of `cpus`
    /// processors, idle at number 0, with processor 0 alone online.
    ///
    /// Faults: `BadSizes` for fewer than two slots, no word, or more than 2^32 words in all;
    /// `TooManyCpus` (17) for no processor, more than 4,096, or more than four levels hold;
    /// `BadLast` (19) if `last` is not a legal last number; `NoMemory` (16).
    pub fn open<const LEAF: u32, const FAN: u32, T: Drop>(
        alloc: Global,
        cpus: u32,
        last: u64,
        slots: usize,
        words: &[u64; W],
    ) -> Result<Opened<Live<LEAF, FAN, T, CellRule<F, W>>, F, W>, NotOpened>
        requires fanouts { AreFanouts LEAF FAN }
        requires whole { F.holds words.now }
        ensures bad_sizes { (result ≡ Err NotOpened.BadSizes) ↔ ¬ HasSizes W slots }
        ensures fault { HasSizes W slots →
            tested_opening result ≡ opening_refusal LEAF FAN cpus last }
        ensures dealt { IfOk result (λ opened. AreDealt cpus last (2 ^ 62)
            (first_place + (1 + W) * (1 + slots)) (of_plan opened.cell.plan Idle) opened.cell
            opened.seats.items opened.watchers.items) }
        ensures plan { IfOk result (λ opened. opened.cell.plan ≡ plan_of_cell W slots) }
        ensures live { IfOk result (λ opened. opened.live ≡ opened.cell) }
        ensures writer { IfOk result (λ opened. IsWatcherOf opened.cell opened.writer) }
        ensures shown { IfOk result (λ opened. ShowsFirst
            (writer_at_first (λ _. F.first) opened.cell.table cpus (plan_of_cell W slots))
            words.now opened.writer) }
    {
        let Some(plan) = plan_of(W, slots) else {
            return Err(NotOpened::BadSizes);
        };
        F::first_word(0);
        let opened = Graph::open::<LEAF, FAN, T>(alloc, cpus, last, plan)?;
        let rcu_graph::Opened {
            live,
            graph,
            seats,
            watchers,
            own,
        } = opened;
        let cell = Cell::over(graph);
        let Ok(writer) = keep(alloc, &cell, own, words) else {
            return Err(NotOpened::Fault(Fault::NoMemory));
        };
        Ok(Opened {
            live,
            cell,
            seats,
            watchers,
            writer,
        })
    }
}
