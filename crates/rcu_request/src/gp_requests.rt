//! The driver's end of the requests.
ghost use Rattle.std.specs.Prelude.{◌≡◌, IfOk};
ghost use Rattle.std.specs.Arc.{arc_value};
ghost use Rattle.rcu_request.specs.Requests.{IsNoLess, after_look, after_naming, cpu_word};
ghost use Rattle.rcu_request.specs.Requests.{requester_at_first, requests_at_first};

use crate::request_words::{RequestSeat, RequestWords};
use crate::requester::Requester;
use std::alloc::{AllocError, Global};
use std::marker::Model;
use std::sync::Arc;

/// The driver's end of the requests.
#[derive(Drop)]
pub struct GpRequests {
    words: Arc<RequestWords, Global>,
    seat: RequestSeat,
}

impl Model for GpRequests {
    ghost use Rattle.std.specs.Prelude.{◌≡◌, true};
    ghost use Rattle.std.specs.Arc.{arc_value};
    ghost use Rattle.rcu_request.specs.Requests.{Requesting};

    ghost Value = { Requesting };

    ghost view = { λ w. record { words = w.seat.table_id; knows = w.seat.me.0 } };

    ghost invariant = { λ w. record {
      table : w.seat.table_id ≡ arc_value w.words;
      driver : w.seat.me.0.drives ≡ true;
    } };
}

impl GpRequests {
    /// Returns the driver's end, with words of its own: nothing was requested yet, and it does not
    /// sleep.
    pub fn open(alloc: Global) -> Result<GpRequests, AllocError>
        ensures { IfOk result (λ requests. requests ≡ requests_at_first requests.words) }
    {
        let (words, seat) = RequestWords::open(alloc)?;
        let words = Arc::new(alloc, words)?;
        Ok(GpRequests { words, seat })
    }

    /// Returns a thread's end.
    pub fn requester(&self) -> Result<Requester, AllocError>
        ensures { IfOk result (λ requester. requester ≡ requester_at_first self.now.words) }
    {
        let words = Arc::try_clone(&self.words)?;
        let seat = words.deal();
        Ok(Requester::new(words, seat))
    }

    /// Announces whether the driver is about to sleep, and then loads and returns the greatest
    /// request: 1, a cookie that is done at any number, if there is none.
    pub fn find(&mut self, sleeps: bool) -> u64
        ensures state { self.new ≡ after_look self.old sleeps result }
        ensures later { IsNoLess self.old result }
    {
        self.words.say(&mut self.seat, u64::from(sleeps));
        self.words.find(&mut self.seat)
    }

    /// Announces the processor until whose quiescent state the driver is about to sleep, or `None`.
    /// The driver looks at that processor once more before it sleeps.
    pub fn sleep_for(&mut self, cpu: Option<u32>)
        ensures { self.new ≡ after_naming self.old (cpu_word cpu) }
    {
        let word = match cpu {
            Some(cpu) => u64::from(cpu) + 1,
            None => 0,
        };
        self.words.name_cpu(&mut self.seat, word)
    }
}
