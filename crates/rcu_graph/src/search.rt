//! Chains whose first words, the keys, go up: a section's search in one ends, whatever the writer
//! does meanwhile.
ghost use Rattle.std.specs.Prelude.{◌≡◌, ℕ, IfSome, List, slice_index};
ghost use Rattle.rcu_live.specs.CpuSeat.{after_word_step};
ghost use Rattle.rcu_live.specs.InPart.{seat_part};
ghost use Rattle.rcu_graph.specs.Graph.{IsAt, IsWalking};
ghost use Rattle.rcu_graph.specs.Nodes.{IsOn};
ghost use Rattle.rcu_graph.specs.Opening.{layout_of};
ghost use Rattle.rcu_graph.specs.Search.{HeadsChain, IsFound, IsSearched};

use crate::graph::Graph;
use crate::plan::Layout;
use crate::rule::{GraphRule, GraphSeat, Shape};
use rcu_live::Within;

impl<F: Shape, P: Within<GraphRule<F>>> Graph<F, P> {
    /// The key of a node on which the section is.
    fn key_of(&self, seat: &mut GraphSeat<F, P>, layout: Layout, node: usize) -> u64
        requires layout { layout ≡ layout_of self.now }
        requires at { IsAt (F.first self.now.plan) self.now (seat_part P.lens seat.old) node }
        ensures same { seat.new ≡ seat.old }
        ensures told { (words : List ℕ) → IsOn (F.first self.now.plan) self.now.plan.roots
            (P.lens.get seat.old.view.client).known node words →
            result ≡ slice_index words 0 }
    {
        self.kept();
        self.read(seat, layout, node, 0)
    }

    /// Searches the chain of a root for a key, by one load for each hop, and one for each key. The
    /// section holds each node that it came to; the node that it returns has the key, and is
    /// complete. It returns none only if a hop led nowhere, or to a greater key. The layout is as
    /// for [`follow`](Self::follow).
    pub fn find(
        &self,
        seat: &mut GraphSeat<F, P>,
        layout: Layout,
        root: usize,
        key: u64,
    ) -> Option<usize>
        requires layout { layout ≡ layout_of self.now }
        requires walking { IsWalking self.now (seat_part P.lens seat.old) }
        requires chain { HeadsChain (F.joins self.now.plan) self.now.plan root }
        ensures same { seat.new ≡ after_word_step seat.old
            (P.lens.set seat.old.view.client (P.lens.get seat.new.view.client)) }
        ensures walking { IsWalking self.now (seat_part P.lens seat.new) }
        ensures searched { IsSearched root key (P.lens.get seat.old.view.client).known result
            (P.lens.get seat.new.view.client).known }
        ensures found { IfSome result (λ node. IsFound (F.fits self.now.plan) key
            (P.lens.get seat.new.view.client).known node) }
        ensures on { IfSome result (λ node.
            IsAt (F.first self.now.plan) self.now (seat_part P.lens seat.new) node) }
    {
        self.kept();
        let mut on = root;
        let mut least = 0;
        'chain: loop {
            let word = self.follow_word(seat, layout, on, 0);
            if word == 0 {
                return None;
            }
            let next = (word - 1) as usize;
            let found = self.key_of(seat, layout, next);
            if found == key {
                return Some(next);
            }
            if found > key {
                return None;
            }
            on = next;
            least = found;
        }
    }
}
