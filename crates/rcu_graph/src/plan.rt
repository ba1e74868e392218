//! The size of a graph.

/// The sizes of a graph, and a number of the user's, chosen once, at the opening.
#[derive(Clone, Copy, Debug, PartialEq, Eq)]
pub struct Plan {
    /// The number of roots: the first nodes.
    pub roots: usize,
    /// The number of links of a node.
    pub links: usize,
    /// The number of words of a node.
    pub words: usize,
    /// The number of nodes, including the roots.
    pub nodes: usize,
    /// A number that the user's facts may use, such as the seed of a hash.
    pub seed: u64,
}

/// The layout of the links and words of nodes in the table of an engine.
#[derive(Clone, Copy, Debug, PartialEq, Eq)]
pub struct Layout {
    /// The place at which the graph's words begin.
    pub base: usize,
    /// The plan of the graph.
    pub plan: Plan,
}

/// The most links and words of a graph.
const MOST: usize = 1 << 32;

impl Plan {
    ghost use Rattle.std.specs.Prelude.{◌↔◌, IsTrue};
    ghost use Rattle.rcu_graph.specs.Opening.{IsSized};

    /// Returns whether a graph may have these sizes: its roots are nodes, each node has a word, and
    /// all links and words are no more than 2^32.
    pub fn is_sized(self) -> bool
        ensures { IsTrue result ↔ IsSized self }
    {
        if self.words == 0 || self.roots > self.nodes {
            return false;
        }
        let Some(row) = self.links.checked_add(self.words) else {
            return false;
        };
        if row > MOST {
            return false;
        }
        matches!(row.checked_mul(self.nodes), Some(cells) if cells <= MOST)
    }
}
