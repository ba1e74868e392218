//! The views of seats at the shared words.
use std::collections::LinkedList;

/// The owner of a seat.
pub enum Role {
    Cpu,
    Watcher,
    Engine,
    /// An asking: that step makes the seat, which takes no other step.
    Asker,
}

/// The view of a seat: what it has seen. It exists only in proofs: no value of it is made.
pub struct View<C> {
    pub role: Role,
    /// For a processor's seat, its processor; for the engine's, the first processor without a seat;
    /// for an asking, the processor that was asked.
    pub cpu: u32,
    /// The greatest number seen; for the engine's seat, the number.
    pub seen: u64,
    /// How many loads the seat made. A load of an online mask counts once for each own word that it
    /// shows.
    pub loads: u64,
    /// How many times the seat stored its processor's own word. For an asking, how many times that
    /// had happened by then.
    pub stores: u64,
    /// How many times the seat loaded which processor is asked to wake sleeping waiters.
    pub looks: u64,
    /// Since its latest store of the own word, the seat loaded which processor is asked, and either
    /// found another one, or none, or took the asking back.
    pub answered: bool,
    /// The processor's own word.
    pub own_word: u64,
    /// The number at which the open section began.
    pub section: Option<u64>,
    /// The engine's loads of own words since the latest begin, the newest first: place and word.
    pub own_word_loads: LinkedList<(u64, u64)>,
    /// The processor's bit is set in its online mask, and it is about to arrive.
    pub announced: bool,
    /// The place where the client's words begin.
    pub base: u64,
    /// The client's part of the view.
    pub client: C,
}
