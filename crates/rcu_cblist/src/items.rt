//! The callbacks that go into a list, its items, and the callbacks that come out.

use rcu_seq::{Fault, Tag};

/// A callback that was queued.
#[derive(Debug, Drop)]
pub struct Queued<T: Drop> {
    /// Its place among all queued callbacks, counted from 1.
    pub ord: u64,
    /// The tag at which it was queued.
    pub at: Tag,
    /// The value that the caller queued.
    pub value: T,
}

/// An item of a list as it is stored. The segment that a callback is in gives the number that it
/// waits for.
#[derive(Debug, Drop)]
pub(crate) enum Entry<T: Drop> {
    /// A callback.
    Call(Queued<T>),
    /// A barrier's marker.
    Marker,
}

/// The callbacks taken from a list.
#[derive(Debug, Drop)]
pub struct Taken<T: Drop> {
    /// The callbacks, in order.
    pub calls: Vec<Queued<T>>,
    /// How many markers were dropped with them.
    pub markers: u64,
}

/// A refused call, with the value that the caller passed.
#[derive(Debug, Drop)]
pub struct Refused<V: Drop> {
    /// The fault.
    pub fault: Fault,
    /// The caller's value.
    pub value: V,
}
