//! Requests for grace periods. A thread requests by its seat, with no lock, beside all calls on
//! other handles: in a section or not, online or not. The driver reads the greatest request, under
//! the caller's lock, and drives for it (`rcu_drive_for`).
//!
//! No request is slept through: a thread that makes the greatest request while the driver says that
//! it sleeps, and has not found a request as great, learns that it has to wake the driver.
ghost use Rattle.std.specs.Prelude.{◌≡◌, ◌≢◌, ◌&&◌, nat_lt};
ghost use Rattle.rcu_request.specs.Requests.{IsNoLess, after_look, after_request};
ghost use Rattle.rcu_c.specs.Answers.{flag_number};
ghost use Rattle.rcu_c.specs.Holding.{HoldsEngine, on_requester, on_requests, requester_of};
ghost use Rattle.rcu_c.specs.Holding.{requests_of};
ghost use Rattle.rcu_c.specs.Refusals.{engine_number, seat_number};
ghost use Rattle.rcu_c.specs.Staying.{BothStay};

use crate::codes::accepted;
use crate::handle::{Rcu, RcuSeat};

/// Requests the grace period of a cookie: if that is greater than each that was requested before,
/// `rcu_requested_gp` finds it from then on. Writes 1 if it is, and the driver says that it sleeps:
/// then the caller wakes it, by means of the program's own. Else 0. It orders no other memory
/// access, unlike a snapshot. A request cannot be taken back: for a cookie that no snapshot
/// returned, such as 2^64 - 1, the driver makes grace periods without end.
#[unsafe(no_mangle)]
pub extern "C" fn rcu_seat_request_gp(seat: &mut RcuSeat, cookie: u64, wakes: &mut u32) -> u32
    ensures fault { result ≡ seat_number seat.old.contents 0 }
    ensures state { result ≡ 0 → seat.new.contents ≡ on_requester (λ w. after_request w cookie
        (requester_of seat.new.contents).knows.found (requester_of seat.new.contents).knows.asleep)
        seat.old.contents }
    ensures later { result ≡ 0 →
        IsNoLess (requester_of seat.old.contents) (requester_of seat.new.contents).knows.found }
    ensures wakes { result ≡ 0 → wakes.new ≡
        flag_number (nat_lt (requester_of seat.new.contents).knows.found cookie
        && (requester_of seat.new.contents).knows.asleep) }
    ensures unchanged { result ≢ 0 →
        BothStay seat.old.contents seat.new.contents wakes.old wakes.new }
{
    let seat = accepted!(seat.seat());
    *wakes = u32::from(seat.requester.request(cookie));
    0
}

/// Says whether the driver sleeps from now on, and then writes the greatest cookie that was
/// requested: 1, which is done at any number, if none was. The next step is `rcu_drive_for` of it;
/// or, if `rcu_poll` says that it is done, to sleep until a thread wakes the caller, which lets go
/// of the lock and sleeps in one step, as a condition variable does.
#[unsafe(no_mangle)]
pub extern "C" fn rcu_requested_gp(rcu: &mut Rcu, sleeps: bool, cookie: &mut u64) -> u32
    ensures open { HoldsEngine rcu.old.contents → HoldsEngine rcu.new.contents }
    ensures fault { result ≡ engine_number rcu.old.contents 0 }
    ensures state { result ≡ 0 → rcu.new.contents ≡
        on_requests (λ w. after_look w sleeps cookie.new) rcu.old.contents }
    ensures later { result ≡ 0 → IsNoLess (requests_of rcu.old.contents) cookie.new }
    ensures unchanged { result ≢ 0 →
        BothStay rcu.old.contents rcu.new.contents cookie.old cookie.new }
{
    let opened = accepted!(rcu.engine());
    *cookie = opened.requests.find(sleeps);
    0
}
