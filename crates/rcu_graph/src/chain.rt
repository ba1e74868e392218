//! A writer's step on chains: on nodes with one link each.
ghost use Rattle.std.specs.Prelude.{MatchResult};
ghost use Rattle.rcu_graph.specs.Puts.{CanPut, HasPut, IsFull};

use crate::rule::{GraphRule, Shape};
use crate::writer::{Full, Writer};
use rcu_live::Within;

impl<F: Shape, P: Within<GraphRule<F>>> Writer<F, P> {
    /// Writes these words to a free node, which leads to the next one, leads the previous one to it
    /// by one store, and returns it. A node to which no live node leads then is unlinked. `Full`
    /// means that no node is free. It is for nodes with one link each.
    pub fn put(
        &mut self,
        previous: usize,
        words: &[u64],
        next: Option<usize>,
    ) -> Result<usize, Full>
        requires { CanPut (F.fits self.old.view.client.plan) (F.joins self.old.view.client.plan)
            self.old previous words.now next }
        ensures { MatchResult result
            (λ node. HasPut (F.fits self.old.view.client.plan) (F.joins self.old.view.client.plan)
            self.old self.new previous node words.now next)
            (λ _. IsFull self.old self.new) }
    {
        let node = self.free_node()?;
        self.fill(node, words, &[next]);
        self.publish(previous, 0, node);
        self.kept();
        Ok(node)
    }
}
