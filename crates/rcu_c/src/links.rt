//! Links in nodes of the caller's own, deferred by a seat alone, as the values are. Each is a
//! number here, its address, which no call follows: `rcu_defer_link` and `rcu_defer_take` write and
//! read what links one to the next. The nodes stay the caller's if a seat or an engine closes.
ghost use Rattle.std.specs.Prelude.{◌≡◌, ◌≢◌, ◌≤◌, IfOk, None, OnErr, OnOk, false, nat_lt, true};
ghost use Rattle.std.specs.Result.{result_err};
ghost use Rattle.rcu_defer.specs.Marks.{defer_refusal, ready_of};
ghost use Rattle.rcu_live.specs.Watcher.{after_watch};
ghost use Rattle.rcu_c.specs.Answers.{number_for};
ghost use Rattle.rcu_c.specs.Holding.{links_of, on_links, on_watcher, watcher_of};
ghost use Rattle.rcu_c.specs.Links.{after_links_tend, after_pop, after_push, last_link, no_links};
ghost use Rattle.rcu_c.specs.Links.{ready_link};
ghost use Rattle.rcu_c.specs.Refusals.{seat_number, seat_refusal};
ghost use Rattle.rcu_c.specs.Staying.{BothStay};

use crate::codes::{accepted, write_out};
use crate::handle::RcuSeat;
use rcu_defer::Marks;
use rcu_seq::Fault;

/// The links that a thread deferred, in order: the numbers that they wait for, the first one that
/// was not taken out, and the last one.
#[derive(Drop)]
pub struct Links {
    /// The numbers that they wait for.
    pub(crate) marks: Marks,
    /// The first one that was not taken out, meaningless if there is none.
    pub(crate) first: u64,
    /// The last one that was deferred, 0 before any.
    pub(crate) last: u64,
}

impl Links {
    /// No link.
    pub(crate) fn new() -> Links
        ensures { result ≡ no_links }
    {
        Links {
            marks: Marks::new(),
            first: 0,
            last: 0,
        }
    }

    /// Puts a link behind all others, and returns the one before it, 0 if there is none.
    ///
    /// Fault `CallbacksFull` (15) if 2^62 were deferred.
    fn push(&mut self, link: u64) -> Result<u64, Fault>
        ensures fault { result_err result ≡ defer_refusal self.old.marks }
        ensures last { IfOk result (λ last. last ≡ last_link self.old) }
        ensures state { OnOk result (self.new ≡ after_push self.old link) }
        ensures unchanged { OnErr result (self.new ≡ self.old) }
    {
        let is_first = self.marks.count() == 0;
        self.marks.defer()?;
        let before = self.last;
        self.last = link;
        if is_first {
            self.first = link;
            return Ok(0);
        }
        Ok(before)
    }

    /// Returns the first link if it is done, else 0.
    fn ready(&self) -> u64
        ensures { result ≡ ready_link self.now }
    {
        if self.marks.ready() == 0 {
            return 0;
        }
        self.first
    }
}

/// Defers a link, behind all others; `rcu_defer_link` is built on it. Writes the link before it, or
/// 0 if none is left.
///
/// Fault 15: 2^62 were deferred.
#[unsafe(no_mangle)]
pub extern "C" fn rcu_links_push(seat: &mut RcuSeat, link: u64, last: &mut u64) -> u32
    ensures fault { result ≡ seat_number seat.old.contents
        (number_for (defer_refusal (links_of seat.old.contents).marks)) }
    ensures last { result ≡ 0 → last.new ≡ last_link (links_of seat.old.contents) }
    ensures state { result ≡ 0 →
        seat.new.contents ≡ on_links (λ l. after_push l link) seat.old.contents }
    ensures unchanged { result ≢ 0 →
        BothStay seat.old.contents seat.new.contents last.old last.new }
{
    let seat = accepted!(seat.seat());
    write_out(seat.links.push(link), last)
}

/// Returns the first link if it is known to be done, without a load of the number. Else 0, and if
/// `seat` is not an open seat.
#[unsafe(no_mangle)]
pub extern "C" fn rcu_links_ready(seat: &mut RcuSeat) -> u64
    ensures unchanged { seat.new.contents ≡ seat.old.contents }
    ensures value { result ≡ ready_link (links_of seat.old.contents) }
{
    let Ok(seat) = seat.seat() else {
        return 0;
    };
    seat.links.ready()
}

/// Returns the first link that is done, after one load of the number: those that were deferred
/// since the last load wait from now on. 0 if none is done, or if `seat` is not an open seat.
///
/// Fence: before.
#[unsafe(no_mangle)]
pub extern "C" fn rcu_links_tend_unfenced(seat: &mut RcuSeat) -> u64
    ensures state { seat_refusal seat.old.contents ≡ None → seat.new.contents ≡
        on_links (λ l. after_links_tend l (watcher_of seat.new.contents).view.seen)
        (on_watcher (λ w. after_watch w (watcher_of seat.new.contents).view.seen)
        seat.old.contents) }
    ensures later { (watcher_of seat.old.contents).view.seen
        ≤ (watcher_of seat.new.contents).view.seen }
    ensures value { result ≡ ready_link (links_of seat.new.contents) }
    ensures unchanged { seat_refusal seat.old.contents ≢ None →
        seat.new.contents ≡ seat.old.contents }
{
    let Ok(seat) = seat.seat() else {
        return 0;
    };
    let number = seat.watcher.number(&**seat.map.board());
    seat.links.marks.tend(number);
    seat.links.ready()
}

/// Takes the first link out, if it is done: `next` is the first one from now on. Returns whether it
/// was done; false if `seat` is not an open seat.
#[unsafe(no_mangle)]
pub extern "C" fn rcu_links_pop(seat: &mut RcuSeat, next: u64) -> bool
    ensures value { result ≡ nat_lt 0 (ready_of (links_of seat.old.contents).marks) }
    ensures state { result ≡ true →
        seat.new.contents ≡ on_links (λ l. after_pop l next) seat.old.contents }
    ensures unchanged { result ≡ false → seat.new.contents ≡ seat.old.contents }
{
    let Ok(seat) = seat.seat() else {
        return false;
    };
    if seat.links.marks.ready() == 0 {
        return false;
    }
    seat.links.marks.take(1);
    seat.links.first = next;
    true
}
