//! The states of nodes.
ghost use Rattle.std.specs.Prelude.{◌≡◌, ◌≤◌, ◌^◌};
ghost use Rattle.rcu_graph.specs.Nodes.{is_free, is_live, reclaimed_state};

use rcu_seq::cookie::snapshot;

/// The state of a node.
#[derive(Clone, Copy, Debug, PartialEq, Eq)]
pub enum NodeState {
    /// No section is on it: it was never linked, or unlinked a full grace period ago.
    Free,
    /// Sections may come to it.
    Live,
    /// No live node leads to it, since a number that is not known yet.
    Unlinked,
    /// No live node leads to it, since this number at the latest.
    Retired(u64),
}

impl NodeState {
    /// Returns whether it is free.
    pub fn is_free(self) -> bool
        ensures { result ≡ is_free self }
    {
        matches!(self, NodeState::Free)
    }

    /// Returns whether it is live.
    pub fn is_live(self) -> bool
        ensures { result ≡ is_live self }
    {
        matches!(self, NodeState::Live)
    }

    /// Returns the state after a load of this number, which is at most 2^62: an unlinked node is
    /// then retired, and a node that was retired a full grace period ago is free.
    pub fn reclaimed(self, number: u64) -> NodeState
        requires { number ≤ 2 ^ 62 }
        ensures { result ≡ reclaimed_state number number self }
    {
        match self {
            NodeState::Free | NodeState::Live => self,
            NodeState::Unlinked => NodeState::Retired(number),
            NodeState::Retired(at) => {
                if at <= number && snapshot(at) <= number {
                    NodeState::Free
                } else {
                    NodeState::Retired(at)
                }
            }
        }
    }
}
