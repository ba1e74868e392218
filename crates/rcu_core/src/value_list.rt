//! A list of values.
ghost use Rattle.std.specs.Prelude.{◌≡◌, ◌<◌, ◌==◌, length, map, slice_index};

use rcu_cblist::Queued;
use std::marker::Model;

/// The values of callbacks that a run hands out. Contracts see the list of the values.
#[derive(Debug, Drop)]
pub struct ValueList {
    /// The callbacks, in order.
    calls: Vec<Queued<u64>>,
}

impl Model for ValueList {
    ghost use Rattle.std.specs.Prelude.{List, ℕ, map};

    ghost Value = { List ℕ };

    ghost view = { λ list. map (λ call. call.value) list.calls.items };
}

impl ValueList {
    /// Returns the values of these callbacks, without a copy.
    pub fn new(calls: Vec<Queued<u64>>) -> ValueList
        ensures { result ≡ map (λ call. call.value) calls.items }
    {
        ValueList { calls }
    }

    /// Returns how many values the list has.
    pub fn len(&self) -> usize
        ensures { result ≡ length self.now }
    {
        self.calls.len()
    }

    /// Returns whether the list is empty.
    pub fn is_empty(&self) -> bool
        ensures { result ≡ length self.now == 0 }
    {
        self.calls.is_empty()
    }

    /// Returns the value at an index, counted from 0.
    pub fn value(&self, index: usize) -> u64
        requires { index < length self.now }
        ensures { result ≡ slice_index self.now index }
    {
        self.calls[index].value
    }
}
