//! The actions of one worker.
ghost use Rattle.std.specs.Prelude.{◌≡◌, ◌+◌, ◌<◌, ◌≤◌, ◌^◌, All, OnErr, OnOk, [], length};
ghost use Rattle.rcu_stress.specs.Ledger.{after_run, most_rounds, ran_of};

use rcu_live::Ran;
use rcu_seq::cookie::snapshot;
use std::alloc::{AllocError, Global};
use std::marker::Model;

/// The actions of one worker, or of the program at the end: how many callbacks it queued, the ids
/// of those that were handed out to it, and how often a cookie or a callback came early.
#[derive(Drop)]
pub struct LedgerShare {
    queued: u64,
    early: u64,
    /// The ids in the order in which the callbacks were handed out.
    ids: Vec<u64>,
}

impl Model for LedgerShare {
    ghost use Rattle.std.specs.Prelude.{◌+◌, ◌-◌, ◌≤◌, length, vec_capacity, vec_len};
    ghost use Rattle.rcu_stress.specs.Ledger.{Counts, most_rounds};

    ghost Value = { Counts };

    ghost view = { λ share. record {
      queued = share.queued;
      early = share.early;
      ids = share.ids.items;
      room = vec_capacity share.ids - vec_len share.ids;
    } };

    ghost invariant = { λ share. record {
      queued : share.queued ≤ most_rounds;
      early : share.early ≤ most_rounds + length share.ids.items;
    } };
}

impl LedgerShare {
    /// Returns the share of a worker that did nothing.
    pub fn new(alloc: Global) -> LedgerShare
        ensures { result ≡ record { queued = 0; early = 0; ids = []; room = result.room } }
    {
        LedgerShare {
            queued: 0,
            early: 0,
            ids: Vec::new(alloc),
        }
    }

    /// Returns the number of callbacks that it queued.
    pub fn queued(&self) -> u64
        ensures queued { result ≡ self.now.queued }
        ensures bounded { result ≤ most_rounds }
    {
        self.queued
    }

    /// Returns the number of callbacks that were handed out to it.
    pub fn ran(&self) -> u64
        ensures { result ≡ ran_of self.now }
    {
        self.ids.len() as u64
    }

    /// Returns how often a cookie or a callback came early: a cookie that was done inside the
    /// section in which it was taken, or a callback that was handed out before a full grace period
    /// had passed.
    pub fn early(&self) -> u64
        ensures early { result ≡ self.now.early }
        ensures bounded { result ≤ most_rounds + length self.now.ids }
    {
        self.early
    }

    /// Returns the ids of the callbacks that were handed out to it, in order.
    pub fn ids(&self) -> &[u64]
        ensures { result.now ≡ self.now.ids }
    {
        self.ids.as_slice()
    }

    /// Counts one more queued callback.
    pub(crate) fn note_queued(&mut self)
        requires { self.old.queued < most_rounds }
        ensures { self.new ≡ record self.old { queued = self.old.queued + 1 } }
    {
        self.queued += 1;
    }

    /// Counts a cookie that was done inside the section in which it was taken.
    pub(crate) fn note_early(&mut self)
        requires { self.old.early < most_rounds + length self.old.ids }
        ensures { self.new ≡ record self.old { early = self.old.early + 1 } }
    {
        self.early += 1;
    }

    /// Makes room for the ids of `count` callbacks.
    pub(crate) fn make_room(&mut self, count: usize) -> Result<(), AllocError>
        ensures room { OnOk result (count ≤ self.new.room) }
        ensures rest { self.new ≡ record self.old { room = self.new.room } }
        ensures unchanged { OnErr result (self.new ≡ self.old) }
    {
        self.ids.reserve(count)
    }

    /// Records the callbacks that a run handed out, for which there is room.
    pub(crate) fn take_down(&mut self, ran: &Ran<u64>)
        requires room { length ran.now.calls.items ≤ self.old.room }
        requires bounded { All (λ call. call.at.number ≤ 2 ^ 62) ran.now.calls.items }
        ensures { self.new ≡ after_run self.old ran.now.number ran.now.calls.items }
    {
        for call in &ran.calls {
            self.ids.push_reserved(call.value);
            self.early += u64::from(snapshot(call.at.number) > ran.number);
        }
    }
}
