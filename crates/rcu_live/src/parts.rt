//! The parts of an engine, for callers with a lock of their own.

use crate::board::Board;
use crate::client::{Client, NoClient};
use crate::cpu_seat::CpuSeat;
use crate::engine::Engine;
use crate::watcher::Watcher;
use rcu_node::Tree;
use std::alloc::Global;
use std::sync::Arc;

/// The parts of a running engine, with its state under no lock: their owner has to make one call at
/// a time.
#[derive(Drop)]
pub struct Parts<const LEAF: u32, const FAN: u32, T: Drop, P: Client = NoClient> {
    /// The shared words.
    pub board: Arc<Board<P>, Global>,
    /// The engine.
    pub engine: Engine<Tree<LEAF, FAN>, T, P>,
    /// A seat for each processor, in order.
    pub seats: Vec<CpuSeat<P>>,
    /// A watcher for each processor.
    pub watchers: Vec<Watcher<P>>,
    /// The client's own watcher, which has the client's first knowledge.
    pub own: Watcher<P>,
}
