//! The places of the links and the words of the nodes.
ghost use Rattle.std.specs.Prelude.{◌≡◌, ◌+◌, ◌*◌, ◌<◌, ◌≤◌, ◌^◌};
ghost use Rattle.rcu_graph.specs.Nodes.{first_place, place_of};

use crate::plan::Plan;

/// The first place of the links and the words of the nodes.
pub const FIRST: usize = 16;

/// Returns the place of the cell `k` of a root. The links of the roots are side by side, so that
/// one cache line has those of many.
pub(crate) fn root_place(plan: Plan, root: usize, k: usize) -> usize
    requires root { root < plan.roots }
    requires inside { k < plan.links + plan.words }
    requires roots { plan.roots ≤ plan.nodes }
    requires small { first_place + (plan.links + plan.words) * plan.nodes < 2 ^ 64 }
    ensures place { result ≡ place_of plan.roots plan.links plan.words root k }
    ensures inside { result < first_place + (plan.links + plan.words) * plan.nodes }
{
    if k < plan.links {
        return FIRST + plan.links * root + k;
    }
    FIRST + plan.links * plan.roots + plan.words * root + (k - plan.links)
}

/// Returns the place of the cell `k` of a node that is no root.
pub(crate) fn row_place(plan: Plan, node: usize, k: usize) -> usize
    requires behind { plan.roots ≤ node }
    requires node { node < plan.nodes }
    requires inside { k < plan.links + plan.words }
    requires small { first_place + (plan.links + plan.words) * plan.nodes < 2 ^ 64 }
    ensures place { result ≡ place_of plan.roots plan.links plan.words node k }
    ensures inside { result < first_place + (plan.links + plan.words) * plan.nodes }
{
    FIRST + (plan.links + plan.words) * node + k
}

/// Returns the place of the cell `k` of a node: its links are the first ones, and its words are
/// behind them.
pub fn place_of(plan: Plan, node: usize, k: usize) -> usize
    requires node { node < plan.nodes }
    requires inside { k < plan.links + plan.words }
    requires roots { plan.roots ≤ plan.nodes }
    requires small { first_place + (plan.links + plan.words) * plan.nodes < 2 ^ 64 }
    ensures place { result ≡ place_of plan.roots plan.links plan.words node k }
    ensures inside { result < first_place + (plan.links + plan.words) * plan.nodes }
{
    if node < plan.roots {
        return root_place(plan, node, k);
    }
    row_place(plan, node, k)
}
