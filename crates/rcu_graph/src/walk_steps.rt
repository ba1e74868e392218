//! The steps of a walk.
ghost use Rattle.std.specs.Prelude.{◌≡◌, ◌<◌, ℕ, IfSome, List, slice_index};
ghost use Rattle.rcu_live.specs.InPart.{seat_part};
ghost use Rattle.rcu_graph.specs.Graph.{IsAt, IsWalking, word_to};
ghost use Rattle.rcu_graph.specs.Nodes.{IsOn};
ghost use Rattle.rcu_graph.specs.Search.{HeadsChain, IsFound, IsSearched};
ghost use Rattle.rcu_graph.specs.Steps.{Followed};
ghost use Rattle.rcu_graph.specs.Walks.{after_walk, known_in, walked};

use crate::graph::Graph;
use crate::rule::{GraphRule, GraphSeat, Shape};
use crate::walk::Walk;
use rcu_live::Within;

impl<F: Shape, P: Within<GraphRule<F>>> Graph<F, P> {
    /// Lends the seat to a walk of its open section, which continues from the hops that it has
    /// made. Loads nothing.
    pub fn walk<'a>(&'a self, seat: &'a mut GraphSeat<F, P>) -> Walk<'a, F, P>
        requires { IsWalking self.now (seat_part P.lens seat.old) }
        ensures graph { (walked result).graph ≡ self.now }
        ensures seat { (walked result).seat ≡ seat.old }
        ensures name { (walked result).name ≡ seat.entry.ghost_name }
    {
        Walk { graph: self, seat }
    }
}

impl<'a, F: Shape, P: Within<GraphRule<F>>> Walk<'a, F, P> {
    /// Loads a link of a node that the section is on, as [`Graph::follow`] does.
    pub fn follow(&mut self, from: usize, link: usize) -> Option<usize>
        requires at { IsAt (F.first (walked self.old).graph.plan) (walked self.old).graph
            (seat_part P.lens (walked self.old).seat) from }
        requires link { link < (walked self.old).graph.plan.links }
        ensures same { walked self.new ≡ after_walk P.lens (walked self.old)
            (known_in P.lens (walked self.new)) }
        ensures walking { IsWalking (walked self.new).graph
            (seat_part P.lens (walked self.new).seat) }
        ensures came { (words : List ℕ) → IsOn (F.first (walked self.old).graph.plan)
            (walked self.old).graph.plan.roots (known_in P.lens (walked self.old)) from words →
            Followed (F.fits (walked self.old).graph.plan)
            (F.joins (walked self.old).graph.plan link words) (walked self.old).graph.plan.words
            (walked self.old).graph.plan.nodes (known_in P.lens (walked self.old)) from link
            (word_to result) (known_in P.lens (walked self.new)) }
        ensures on { IfSome result (λ node.
            IsAt (F.first (walked self.old).graph.plan) (walked self.new).graph
            (seat_part P.lens (walked self.new).seat) node) }
    {
        self.graph
            .follow(self.seat, self.graph.layout(), from, link)
    }

    /// Loads a word of a node that the section is on, as [`Graph::read`] does.
    pub fn read(&mut self, node: usize, word: usize) -> u64
        requires at { IsAt (F.first (walked self.old).graph.plan) (walked self.old).graph
            (seat_part P.lens (walked self.old).seat) node }
        requires word { word < (walked self.old).graph.plan.words }
        ensures same { walked self.new ≡ walked self.old }
        ensures told { (words : List ℕ) → IsOn (F.first (walked self.old).graph.plan)
            (walked self.old).graph.plan.roots (known_in P.lens (walked self.old)) node words →
            result ≡ slice_index words word }
    {
        self.graph.read(self.seat, self.graph.layout(), node, word)
    }

    /// Searches the chain of a root for a key, as [`Graph::find`] does.
    pub fn find(&mut self, root: usize, key: u64) -> Option<usize>
        requires chain { HeadsChain (F.joins (walked self.old).graph.plan)
            (walked self.old).graph.plan root }
        ensures same { walked self.new ≡ after_walk P.lens (walked self.old)
            (known_in P.lens (walked self.new)) }
        ensures walking { IsWalking (walked self.new).graph
            (seat_part P.lens (walked self.new).seat) }
        ensures searched { IsSearched root key (known_in P.lens (walked self.old)) result
            (known_in P.lens (walked self.new)) }
        ensures found { IfSome result (λ node.
            IsFound (F.fits (walked self.old).graph.plan) key
            (known_in P.lens (walked self.new)) node) }
        ensures on { IfSome result (λ node.
            IsAt (F.first (walked self.old).graph.plan) (walked self.new).graph
            (seat_part P.lens (walked self.new).seat) node) }
    {
        self.graph.find(self.seat, self.graph.layout(), root, key)
    }
}
