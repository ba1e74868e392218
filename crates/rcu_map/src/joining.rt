//! A map that is one of several clients of its engine.
ghost use Rattle.std.specs.Prelude.{◌≡◌, IfErr, IfOk, OnErr, OnOk};
ghost use Rattle.std.specs.Arc.{arc_value};
ghost use Rattle.rcu_live.specs.InPart.{engine_part, watcher_part};
ghost use Rattle.rcu_live.specs.Watcher.{after_word_step};
ghost use Rattle.rcu_graph.specs.Joining.{CanJoin};
ghost use Rattle.rcu_graph.specs.Writer.{IsWriterOf};
ghost use Rattle.rcu_graph.specs.Opening.{claimed_first};
ghost use Rattle.rcu_graph.specs.Planned.{of_plan};
ghost use Rattle.rcu_graph.specs.declared.known.Known.TheVariants.{Idle};
ghost use Rattle.rcu_graph.specs.declared.not_opened.NotOpened.{NotOpened};
ghost use Rattle.rcu_map.specs.Chains.{HasSizes, IsPlanOfMap, plan_of_map};
ghost use Rattle.rcu_map.specs.Keys.{root_words};

use crate::entry::{Entry, words_are_two};
use crate::map::Map;
use crate::opening::make_plan;
use crate::shape::{MapRule, MapWatcher};
use rcu_graph::{Graph, Invariant, NotOpened, Plan};
use rcu_live::{Board, Client, Within};
use std::alloc::{AllocError, Global};
use std::sync::Arc;

impl<E: Invariant, const W: usize, P: Within<MapRule<E, W>>> Map<E, W, P> {
    /// Returns the map at this place of an engine that was opened by this plan, and the watcher
    /// that its writer takes ([`Graph::join`]).
    pub fn join(
        board: &Arc<Board<P::Whole>, Global>,
        own: &mut MapWatcher<E, W, P>,
        plan: <P::Whole as Client>::Plan,
    ) -> Result<(Map<E, W, P>, MapWatcher<E, W, P>), AllocError>
        requires can { CanJoin P.lens P.own_plan P.begins P.Whole.suits P.Whole.size plan
            (arc_value board.now) own.old }
        requires plan { IsPlanOfMap W (P.own_plan plan) }
        ensures map { IfOk result (λ joined.
            joined.0 ≡ engine_part P.own_plan P.begins (arc_value board.now)) }
        ensures writer { IfOk result (λ joined.
            IsWriterOf joined.0 (watcher_part P.lens joined.1)) }
        ensures claimed { IfOk result (λ joined. P.lens.get joined.1.view.client
            ≡ claimed_first (root_words (P.own_plan plan).words) (P.own_plan plan)) }
        ensures left { OnOk result (own.new ≡ after_word_step own.old
            (P.lens.set own.old.view.client (of_plan (P.own_plan plan) Idle))) }
        ensures unchanged { OnErr result (own.new ≡ own.old) }
    {
        let (graph, writer) = Graph::join(board, own, plan)?;
        Ok((Map::over(graph), writer))
    }
}

impl<E: Entry<W>, const W: usize> Map<E, W> {
    /// Returns the plan of a map of this many buckets and entries, and of this seed, as one of
    /// several clients.
    ///
    /// Returns `BadSizes` if no map may be this large.
    pub fn sized(buckets: usize, entries: usize, seed: u64) -> Result<Plan, NotOpened>
        ensures plan { IfOk result (λ plan. plan ≡ plan_of_map buckets W entries seed) }
        ensures of_map { IfOk result (IsPlanOfMap W) }
        ensures suits { IfOk result ⟦<MapRule<E, W> as Client>⟧.suits }
        ensures bad_sizes { OnErr result (¬ HasSizes buckets W entries) }
        ensures fault { IfErr result (λ fault. fault ≡ NotOpened.BadSizes) }
    {
        words_are_two::<E, W>();
        let plan = make_plan(buckets, W, entries, seed)?;
        if !plan.is_sized() {
            return Err(NotOpened::BadSizes);
        }
        Ok(plan)
    }
}
