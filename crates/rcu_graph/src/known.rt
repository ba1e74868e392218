//! The knowledge of a seat about a graph. It exists only in proofs: no value of these types is
//! made.
use crate::node_state::NodeState;
use crate::plan::Plan;
use std::collections::LinkedList;

/// A node: its state, the target of each of its links (0: nowhere, else one more than a node), and
/// its words.
pub struct Node {
    pub state: NodeState,
    pub links: LinkedList<u64>,
    pub words: LinkedList<u64>,
}

/// A load of a link by an open section: the node and the link, the word that was found (0: it leads
/// nowhere, else one more than the node that it leads to), and that node's words, none if it leads
/// nowhere.
pub struct Hop {
    pub from: u64,
    pub link: u64,
    pub to: u64,
    pub words: LinkedList<u64>,
}

/// The knowledge of a seat.
pub enum Known {
    /// Nothing.
    Idle,
    /// The knowledge of the seat that will write the nodes, which are as at first.
    Owner,
    /// The hops of its section, the latest one first.
    Reader(LinkedList<Hop>),
    /// The writer's knowledge: a number that no retirement is above, all nodes, and the nodes after
    /// each store that led a live one elsewhere, the latest store first.
    Writer(u64, LinkedList<Node>, LinkedList<LinkedList<Node>>),
}

/// The knowledge of a seat, and the plan of the graph.
pub struct Planned {
    pub plan: Plan,
    pub known: Known,
}
