//! The facts on the nodes of a map, and the seats of its engine.
use rcu_graph::rule::GraphRule;
use rcu_graph::{GraphSeat, GraphWatcher, Invariant, Plan, Shape};
use rcu_live::Alone;
use std::marker::PhantomData;

/// The facts of a map whose roots are those of the buckets: a node in use is a root, or has an
/// entry's words. A link leads to a node of the same bucket with a greater key.
pub struct MapShape<E, const W: usize> {
    entry: PhantomData<E>,
}

impl<E: Invariant, const W: usize> Shape for MapShape<E, W> {
    ghost use Rattle.rcu_map.specs.Keys.{GoesUp, IsWhole, root_words};

    ghost fits = { λ plan. IsWhole E.holds plan.words };

    ghost joins = { λ plan _ from to. GoesUp plan.roots plan.seed from to };

    ghost first = { λ plan. root_words plan.words };

    fn first_word(_plan: Plan, root: usize, word: usize) -> u64 {
        if word == 1 {
            return root as u64;
        }
        0
    }
}

/// The rule of a map, as a client of its engine.
pub type MapRule<E, const W: usize> = GraphRule<MapShape<E, W>>;

/// A processor's seat of a map's engine: the map is its only client, or one of several, at this
/// place.
pub type MapSeat<E, const W: usize, P = Alone> = GraphSeat<MapShape<E, W>, P>;

/// A watcher's seat of a map's engine.
pub type MapWatcher<E, const W: usize, P = Alone> = GraphWatcher<MapShape<E, W>, P>;
