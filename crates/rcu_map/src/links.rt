//! A writer's steps on chains: on nodes with one link each.
ghost use Rattle.std.specs.Prelude.{IfOk};
ghost use Rattle.rcu_live.specs.InPart.{watcher_part};
ghost use Rattle.rcu_map.specs.Splices.{CanKeep, CanPass, HasKept, HasPassed};

use rcu_graph::rule::GraphRule;
use rcu_graph::{Graph, GraphWatcher, Shape, Writer};
use rcu_live::Within;
use std::alloc::{AllocError, Global};

/// Returns the writer of a graph whose nodes are as at first.
pub(crate) fn keep<F: Shape, P: Within<GraphRule<F>>>(
    alloc: Global,
    graph: &Graph<F, P>,
    seat: GraphWatcher<F, P>,
) -> Result<Writer<F, P>, AllocError>
    requires { CanKeep (F.fits graph.now.plan) (F.first graph.now.plan) graph.now
        (watcher_part P.lens seat) }
    ensures { IfOk result (λ writer.
        HasKept (F.fits graph.now.plan) (F.joins graph.now.plan) graph.now
        (watcher_part P.lens seat) writer) }
{
    let writer = Writer::new(alloc, graph, seat)?;
    writer.kept();
    Ok(writer)
}

/// Leads the previous node to the target of the old one, by one store. Every node to which no live
/// node leads then is unlinked.
pub(crate) fn pass<F: Shape, P: Within<GraphRule<F>>>(
    writer: &mut Writer<F, P>,
    previous: usize,
    old: usize,
)
    requires { CanPass (F.joins writer.old.view.client.plan) writer.old previous old }
    ensures { HasPassed (F.fits writer.old.view.client.plan) (F.joins writer.old.view.client.plan)
        writer.old writer.new previous old }
{
    let next = writer.link_of(old, 0);
    writer.link(previous, 0, next);
    writer.kept();
}
