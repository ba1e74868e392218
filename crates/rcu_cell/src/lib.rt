//! Data that readers read without a lock, and that is reclaimed with a proof: a value in the nodes
//! of a graph with one root.
#![tactic(auto)]

pub mod cell;
mod joining;
pub mod opening;
mod section;
pub mod shape;
pub mod version_guard;
mod version_reads;
pub mod writer;
mod writer_waits;

pub use cell::Cell;
pub use opening::Opened;
pub use rcu_graph::{Full, Invariant, NotOpened, Value};
pub use shape::{CellRule, CellSeat, CellWatcher, OneLink, Version};
pub use version_guard::VersionGuard;
pub use writer::{Retired, Writer};
