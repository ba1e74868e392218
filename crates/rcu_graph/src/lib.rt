//! Nodes that lead to one another, beside the words of the running engine: sections walk them
//! without a lock, and each node is used again when no section can be on it.
#![tactic(auto)]

mod chain;
mod counted_nodes;
mod cycle;
pub mod definition_laws;
mod first_words;
pub mod graph;
mod joining;
pub mod known;
mod known_nodes;
pub mod laws;
mod mirror;
pub mod node_state;
pub mod not_opened;
pub mod opening;
pub mod places;
pub mod plan;
pub mod rule;
mod search;
mod steps;
pub mod value;
pub mod walk;
mod walk_steps;
pub mod writer;
mod writer_steps;
mod writer_waits;

pub use graph::Graph;
pub use node_state::NodeState;
pub use not_opened::NotOpened;
pub use opening::{Opened, UnlockedEngine};
pub use plan::{Layout, Plan};
pub use rule::{GraphEngine, GraphSeat, GraphWatcher, Shape};
pub use value::{Invariant, Value};
pub use walk::Walk;
pub use writer::{Full, Writer};
