//! A thread's end of the requests.
ghost use Rattle.std.specs.Prelude.{◌≡◌, ◌==◌, ◌&&◌, IfOk, Some, nat_lt};
ghost use Rattle.std.specs.Arc.{arc_value};
ghost use Rattle.rcu_request.specs.Requests.{IsNoLess, after_naming, after_request, cpu_word};
ghost use Rattle.rcu_request.specs.Requests.{requester_at_first, thread_at_first};

use crate::request_words::{RequestSeat, RequestWords};
use std::alloc::{AllocError, Global};
use std::marker::Model;
use std::sync::Arc;

/// A thread's end of the requests.
#[derive(Drop)]
pub struct Requester {
    words: Arc<RequestWords, Global>,
    seat: RequestSeat,
}

impl Model for Requester {
    ghost use Rattle.std.specs.Prelude.{◌≡◌, false};
    ghost use Rattle.std.specs.Arc.{arc_value};
    ghost use Rattle.rcu_request.specs.Requests.{Requesting};

    ghost Value = { Requesting };

    ghost view = { λ w. record { words = w.seat.table_id; knows = w.seat.me.0 } };

    ghost invariant = { λ w. record {
      table : w.seat.table_id ≡ arc_value w.words;
      thread : w.seat.me.0.drives ≡ false;
    } };
}

impl Requester {
    /// Returns a thread's end of these words.
    pub(crate) fn new(words: Arc<RequestWords, Global>, seat: RequestSeat) -> Requester
        requires table { seat.table_id ≡ arc_value words }
        requires thread { seat.me.0 ≡ thread_at_first }
        ensures { result ≡ requester_at_first (arc_value words) }
    {
        Requester { words, seat }
    }

    /// Returns the end of another thread.
    pub fn another(&self) -> Result<Requester, AllocError>
        ensures { IfOk result (λ requester. requester ≡ requester_at_first self.now.words) }
    {
        let words = Arc::try_clone(&self.words)?;
        let seat = words.deal();
        Ok(Requester::new(words, seat))
    }

    /// Requests the grace period of a cookie. If the cookie is greater than each request before, it
    /// becomes the greatest request, and then one load tests if the driver sleeps. Returns whether
    /// it does: then the caller has to wake it. It never waits.
    pub fn request(&mut self, cookie: u64) -> bool
        ensures state { self.new ≡
            after_request self.old cookie self.new.knows.found self.new.knows.asleep }
        ensures later { IsNoLess self.old self.new.knows.found }
        ensures wakes { result ≡ (nat_lt self.new.knows.found cookie && self.new.knows.asleep) }
    {
        let was = self.words.raise(&mut self.seat, cookie);
        was < cookie && self.words.look_at_driver(&mut self.seat) == 1
    }

    /// Returns whether the driver sleeps until this processor's quiescent state, by one load. Call
    /// it after such a state: if it returns true, the caller has to wake the driver.
    pub fn is_slept_for(&mut self, cpu: u32) -> bool
        ensures state { self.new ≡ after_naming self.old self.new.knows.sleeps_for }
        ensures value { result ≡ (self.new.knows.sleeps_for == cpu_word (Some cpu)) }
    {
        self.words.look_at_cpu(&mut self.seat) == u64::from(cpu) + 1
    }
}
