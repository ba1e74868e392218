//! A graph that is one of several of its engine.
ghost use Rattle.std.specs.Prelude.{◌≡◌, IfOk, OnErr, OnOk};
ghost use Rattle.std.specs.Arc.{arc_value};
ghost use Rattle.rcu_live.specs.InPart.{engine_part, watcher_part};
ghost use Rattle.rcu_live.specs.Watcher.{after_word_step, watcher_at_first};
ghost use Rattle.rcu_graph.specs.Joining.{CanJoin};
ghost use Rattle.rcu_graph.specs.Writer.{IsWriterOf};
ghost use Rattle.rcu_graph.specs.Opening.{claimed_first};
ghost use Rattle.rcu_graph.specs.Planned.{of_plan};
ghost use Rattle.rcu_graph.specs.declared.known.Known.TheVariants.{Idle};

use crate::graph::Graph;
use crate::rule::{GraphRule, GraphWatcher, Shape};
use rcu_live::{Board, Client, Within, in_part};
use std::alloc::{AllocError, Global};
use std::sync::Arc;

impl<F: Shape, P: Within<GraphRule<F>>> Graph<F, P> {
    /// Returns the graph at this place of an engine that was opened by this plan, and the writer's
    /// watcher of its nodes. The writer's watcher gets the knowledge of the engine's own watcher
    /// about the graph; the engine's own watcher keeps the rest.
    pub fn join(
        board: &Arc<Board<P::Whole>, Global>,
        own: &mut GraphWatcher<F, P>,
        plan: <P::Whole as Client>::Plan,
    ) -> Result<(Graph<F, P>, GraphWatcher<F, P>), AllocError>
        requires { CanJoin P.lens P.own_plan P.begins P.Whole.suits P.Whole.size plan
            (arc_value board.now) own.old }
        ensures graph { IfOk result (λ joined.
            joined.0 ≡ engine_part P.own_plan P.begins (arc_value board.now)) }
        ensures writer { IfOk result (λ joined.
            IsWriterOf joined.0 (watcher_part P.lens joined.1)) }
        ensures claimed { IfOk result (λ joined. P.lens.get joined.1.view.client
            ≡ claimed_first (F.first (P.own_plan plan)) (P.own_plan plan)) }
        ensures new { IfOk result (λ joined. joined.1
            ≡ watcher_at_first own.old.table own.old.view.base
            (P.lens.set (P.Whole.idle own.old.view.client)
            (claimed_first (F.first (P.own_plan plan)) (P.own_plan plan)))) }
        ensures left { OnOk result (own.new ≡ after_word_step own.old
            (P.lens.set own.old.view.client (of_plan (P.own_plan plan) Idle))) }
        ensures unchanged { OnErr result (own.new ≡ own.old) }
    {
        let words = &**board;
        words.fits();
        let behind = P::base(plan);
        let graph = Graph {
            board: Arc::try_clone(board)?,
            plan: P::plan(plan),
            base: words.base() + behind,
        };
        let mut writer = in_part::hand_over::<GraphRule<F>, P>(own, words);
        graph.claim(&mut writer);
        Ok((graph, writer))
    }
}
