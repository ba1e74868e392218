//! A walk of a graph in an open section.
ghost use Rattle.std.proofs.Props.{props};
ghost use Rattle.rcu_live.specs.InPart.{seat_part};
ghost use Rattle.rcu_graph.specs.Graph.{IsWalking};
ghost use Rattle.rcu_graph.specs.Nodes.{reader_once};

use crate::graph::Graph;
use crate::rule::{GraphRule, GraphSeat, Shape};
use rcu_live::{Alone, Within};

/// An open section that walks a graph. It borrows the processor's seat, so that the section cannot
/// close while it walks: a step after the exit is refused by the type.
#[derive(Drop)]
pub struct Walk<'a, F: Shape, P: Within<GraphRule<F>> = Alone> {
    pub(crate) graph: &'a Graph<F, P>,
    pub(crate) seat: &'a mut GraphSeat<F, P>,
    ghost walking: { IsWalking graph.now
        (seat_part P.lens seat.now) } by { Prim.hlevel (props, reader_once) },
}
