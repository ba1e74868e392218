//! The facts on the versions of a cell, and the seats of its engine.
use rcu_graph::rule::GraphRule;
use rcu_graph::{GraphSeat, GraphWatcher, Invariant, Plan, Shape};
use rcu_live::Alone;
use std::marker::PhantomData;

/// A user's fact on the versions of a cell of `W` words, with words that satisfy it. The cell shows
/// them until others are published, which the opening does.
pub trait Version<const W: usize>: Invariant {
    ghost use Rattle.std.specs.Prelude.{◌≡◌, List, ℕ, length, slice_index};

    ghost first: { List ℕ };

    /// Returns one of these words, and 0 beyond them.
    fn first_word(word: usize) -> u64
        ensures word { result ≡ slice_index first word }
        ensures sized { length first ≡ W }
        ensures whole { Self.holds first };
}

/// The facts of a cell: a node in use has a version. The link of the root leads to the current one.
pub struct OneLink<F, const W: usize> {
    fact: PhantomData<F>,
}

impl<F: Version<W>, const W: usize> Shape for OneLink<F, W> {
    ghost fits = { λ _. F.holds };

    ghost joins = { λ _ _ _ _. Unit {0} };

    ghost first = { λ _ _. F.first };

    fn first_word(_plan: Plan, _root: usize, word: usize) -> u64 {
        F::first_word(word)
    }
}

/// The rule of a cell, as a client of its engine.
pub type CellRule<F, const W: usize> = GraphRule<OneLink<F, W>>;

/// A processor's seat of a cell's engine: the cell is its only client, or one of several, at this
/// place.
pub type CellSeat<F, const W: usize, P = Alone> = GraphSeat<OneLink<F, W>, P>;

/// A watcher's seat of a cell's engine.
pub type CellWatcher<F, const W: usize, P = Alone> = GraphWatcher<OneLink<F, W>, P>;
