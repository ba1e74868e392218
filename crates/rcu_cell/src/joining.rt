//! A cell that is one of several clients of its engine.
ghost use Rattle.std.specs.Prelude.{◌≡◌, ◌<◌, IfErr, IfOk, OnErr, OnOk};
ghost use Rattle.std.specs.Arc.{arc_value};
ghost use Rattle.rcu_live.specs.InPart.{engine_part, watcher_part};
ghost use Rattle.rcu_live.specs.Watcher.{after_word_step};
ghost use Rattle.rcu_graph.specs.Joining.{CanJoin};
ghost use Rattle.rcu_graph.specs.Writer.{IsWriterOf};
ghost use Rattle.rcu_graph.specs.Opening.{claimed_first};
ghost use Rattle.rcu_graph.specs.Planned.{of_plan};
ghost use Rattle.rcu_graph.specs.declared.known.Known.TheVariants.{Idle};
ghost use Rattle.rcu_graph.specs.declared.not_opened.NotOpened.{NotOpened};
ghost use Rattle.rcu_cell.specs.Opening.{HasSizes, plan_of_cell};

use crate::cell::Cell;
use crate::opening::plan_of;
use crate::shape::{CellRule, CellWatcher, Version};
use rcu_graph::{Graph, NotOpened, Plan};
use rcu_live::{Board, Client, Within};
use std::alloc::{AllocError, Global};
use std::sync::Arc;

impl<F: Version<W>, const W: usize, P: Within<CellRule<F, W>>> Cell<F, W, P> {
    /// Returns the cell at this place of an engine that was opened by this plan, and the watcher
    /// that its writer takes ([`Graph::join`]).
    pub fn join(
        board: &Arc<Board<P::Whole>, Global>,
        own: &mut CellWatcher<F, W, P>,
        plan: <P::Whole as Client>::Plan,
    ) -> Result<(Cell<F, W, P>, CellWatcher<F, W, P>), AllocError>
        requires can { CanJoin P.lens P.own_plan P.begins P.Whole.suits P.Whole.size plan
            (arc_value board.now) own.old }
        requires root { (P.own_plan plan).roots ≡ 1 }
        requires one { (P.own_plan plan).links ≡ 1 }
        requires version { (P.own_plan plan).words ≡ W }
        ensures cell { IfOk result (λ joined.
            joined.0 ≡ engine_part P.own_plan P.begins (arc_value board.now)) }
        ensures writer { IfOk result (λ joined.
            IsWriterOf joined.0 (watcher_part P.lens joined.1)) }
        ensures claimed { IfOk result (λ joined. P.lens.get joined.1.view.client
            ≡ claimed_first (λ _. F.first) (P.own_plan plan)) }
        ensures left { OnOk result (own.new ≡ after_word_step own.old
            (P.lens.set own.old.view.client (of_plan (P.own_plan plan) Idle))) }
        ensures unchanged { OnErr result (own.new ≡ own.old) }
    {
        let (graph, writer) = Graph::join(board, own, plan)?;
        Ok((Cell::over(graph), writer))
    }
}

impl<F: Version<W>, const W: usize> Cell<F, W> {
    /// Returns the plan of a cell of this many slots, as one of several clients.
    ///
    /// Returns `BadSizes` for fewer than two slots, no word, or more than 2^32 words in all.
    pub fn sized(slots: usize) -> Result<Plan, NotOpened>
        ensures plan { IfOk result (λ plan. plan ≡ plan_of_cell W slots) }
        ensures several { IfOk result (λ plan. 2 < plan.nodes) }
        ensures suits { IfOk result ⟦<CellRule<F, W> as Client>⟧.suits }
        ensures bad_sizes { OnErr result (¬ HasSizes W slots) }
        ensures fault { IfErr result (λ fault. fault ≡ NotOpened.BadSizes) }
    {
        F::first_word(0);
        let Some(plan) = plan_of(W, slots) else {
            return Err(NotOpened::BadSizes);
        };
        if !plan.is_sized() {
            return Err(NotOpened::BadSizes);
        }
        Ok(plan)
    }
}
