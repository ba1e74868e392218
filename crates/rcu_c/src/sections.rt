//! A thread by its seat, with no lock, beside all calls on other handles. No call here waits or
//! takes memory.
ghost use Rattle.std.specs.Prelude.{◌≡◌, ◌≢◌, ◌==◌, None, false, not};
ghost use Rattle.rcu_seq.specs.Numbers.{snapshot};
ghost use Rattle.rcu_seq.specs.Tags.{is_done_first};
ghost use Rattle.rcu_live.specs.CpuSeat.{after_enter, after_exit, after_idle, after_quiesce};
ghost use Rattle.rcu_live.specs.CpuSeat.{after_quiesce_since, enter_refusal, exit_refusal};
ghost use Rattle.rcu_live.specs.CpuSeat.{quiesce_refusal, renew_refusal, wake_refusal};
ghost use Rattle.rcu_live.specs.Numbers.{idle_word};
ghost use Rattle.rcu_c.specs.Answers.{number_for};
ghost use Rattle.rcu_c.specs.Holding.{AcceptedAt, RenewedAt, WatchedAt, cpu_of, never_done};
ghost use Rattle.rcu_c.specs.Holding.{on_cpu, watcher_of};
ghost use Rattle.rcu_c.specs.Refusals.{seat_number, seat_refusal};
ghost use Rattle.rcu_c.specs.Seats.{closing};
ghost use Rattle.rcu_c.specs.Staying.{BothStay};

use crate::codes::{NEVER_DONE, NO_CPU, accepted, status, write_out};
use crate::handle::RcuSeat;
use rcu_seq::Cookie;

/// Returns the seat's processor, or 2^32 - 1, which is none, if `seat` is not an open seat.
#[unsafe(no_mangle)]
pub extern "C" fn rcu_seat_cpu(seat: &mut RcuSeat) -> u32
    ensures unchanged { seat.new.contents ≡ seat.old.contents }
    ensures value { result ≡ (cpu_of seat.old.contents).cpu }
{
    let Ok(seat) = seat.seat() else {
        return NO_CPU;
    };
    seat.cpu.cpu()
}

/// Returns how deep the read sections of the seat nest: 0 if none is open, or if `seat` is not an
/// open seat.
#[unsafe(no_mangle)]
pub extern "C" fn rcu_seat_depth(seat: &mut RcuSeat) -> u32
    ensures unchanged { seat.new.contents ≡ seat.old.contents }
    ensures value { result ≡ (cpu_of seat.old.contents).depth }
{
    let Ok(seat) = seat.seat() else {
        return 0;
    };
    seat.cpu.depth()
}

/// Returns whether the seat's processor is online, awake or idle. False if `seat` is not an open
/// seat.
#[unsafe(no_mangle)]
pub extern "C" fn rcu_seat_is_online(seat: &mut RcuSeat) -> bool
    ensures unchanged { seat.new.contents ≡ seat.old.contents }
    ensures value { result ≡ not ((cpu_of seat.old.contents).view.own_word == 0) }
{
    let Ok(seat) = seat.seat() else {
        return false;
    };
    seat.cpu.is_online()
}

/// Returns whether the seat's processor is idle. False if `seat` is not an open seat.
#[unsafe(no_mangle)]
pub extern "C" fn rcu_seat_is_idle(seat: &mut RcuSeat) -> bool
    ensures unchanged { seat.new.contents ≡ seat.old.contents }
    ensures value { result ≡ ((cpu_of seat.old.contents).view.own_word == idle_word) }
{
    let Ok(seat) = seat.seat() else {
        return false;
    };
    seat.cpu.is_idle()
}

/// Opens a read section by one load, or nests one deeper in the open one by none.
///
/// Faults: 2 if the processor is offline; 23 if it is idle; 6 if the depth is 65,535.
#[unsafe(no_mangle)]
pub extern "C" fn rcu_seat_enter(seat: &mut RcuSeat) -> u32
    ensures fault { result ≡ seat_number seat.old.contents
        (number_for (enter_refusal (cpu_of seat.old.contents))) }
    ensures state { result ≡ 0 → AcceptedAt after_enter seat.old.contents
        (cpu_of seat.new.contents).view.seen seat.new.contents }
    ensures unchanged { result ≢ 0 → seat.new.contents ≡ seat.old.contents }
{
    let seat = accepted!(seat.seat());
    status(seat.cpu.enter(&**seat.map.board()))
}

/// Leaves the innermost section. One load closes the outermost one.
///
/// Neither this nor `rcu_seat_enter` orders what the thread stores: what a section did comes before
/// the next quiescent state or departure.
///
/// Fault 5: no section is open.
#[unsafe(no_mangle)]
pub extern "C" fn rcu_seat_exit(seat: &mut RcuSeat) -> u32
    ensures fault { result ≡ seat_number seat.old.contents
        (number_for (exit_refusal (cpu_of seat.old.contents))) }
    ensures state { result ≡ 0 → AcceptedAt (after_exit closing) seat.old.contents
        (cpu_of seat.new.contents).view.seen seat.new.contents }
    ensures unchanged { result ≢ 0 → seat.new.contents ≡ seat.old.contents }
{
    let seat = accepted!(seat.seat());
    status(seat.cpu.exit(&**seat.map.board()))
}

/// Passes a quiescent state, by one load and one store: from here on the thread uses nothing that
/// it read before. Writes the number that it saw.
///
/// All that the thread did before comes before what follows the collection or the begin that finds
/// this call. The sections that follow see what came before a begin whose number it saw, and what a
/// thread did before it took a cookie that such a grace period makes done. A full fence precedes
/// the load, so the number tests a cookie as `rcu_seat_poll` does. Unfenced the last does not hold,
/// and what came before an `rcu_seat_take` is sure to be seen by sequentially consistent loads
/// alone.
///
/// Faults: 2 if the processor is offline; 23 if it is idle; 4 if a section is open.
///
/// Fence: before and behind.
#[unsafe(no_mangle)]
pub extern "C" fn rcu_seat_quiesce_unfenced(seat: &mut RcuSeat, number: &mut u64) -> u32
    ensures fault { result ≡ seat_number seat.old.contents
        (number_for (quiesce_refusal (cpu_of seat.old.contents))) }
    ensures state { result ≡ 0 →
        AcceptedAt after_quiesce seat.old.contents number.new seat.new.contents }
    ensures unchanged { result ≢ 0 →
        BothStay seat.old.contents seat.new.contents number.old number.new }
{
    let seat = accepted!(seat.seat());
    write_out(seat.cpu.quiesce(&**seat.map.board()), number)
}

/// Passes a quiescent state by a load alone, if the last one still counts: if the number is the one
/// that the seat's last `rcu_seat_quiesce`, `rcu_seat_wake`, `rcu_arrive` or call of this saw, it
/// stores nothing. No grace period began or ended since, so the earlier report still counts. Else
/// it does what `rcu_seat_quiesce` does. Writes the number that it saw.
///
/// `number` has what the seat's last `rcu_seat_quiesce`, `rcu_seat_wake` or call of this wrote, or
/// 0. If that is still the number, this call executes no fence: the call that wrote it executed the
/// fence, or no grace period has begun yet. The sections that follow see the same as after
/// `rcu_seat_quiesce`. No fence precedes the load: its number tests no cookie for a thread that
/// stored a request to be woken. Unfenced, they are sure to see what came before an `rcu_seat_take`
/// by sequentially consistent loads alone.
///
/// Faults: 2 if the processor is offline; 23 if it is idle; 4 if a section is open.
///
/// Fence: behind if `number` changed.
#[unsafe(no_mangle)]
pub extern "C" fn rcu_seat_quiesce_since_unfenced(seat: &mut RcuSeat, number: &mut u64) -> u32
    ensures fault { result ≡ seat_number seat.old.contents
        (number_for (quiesce_refusal (cpu_of seat.old.contents))) }
    ensures state { result ≡ 0 →
        AcceptedAt after_quiesce_since seat.old.contents number.new seat.new.contents }
    ensures unchanged { result ≢ 0 →
        BothStay seat.old.contents seat.new.contents number.old number.new }
{
    let seat = accepted!(seat.seat());
    write_out(seat.cpu.quiesce_since(&**seat.map.board()), number)
}

/// Renews the open section: closes it, passes a quiescent state, and opens the next one, by two
/// loads. For a thread that reads all the time: it keeps one section open, and makes this call
/// between two looks at the data. From here on it uses nothing that it read before. Writes the
/// number of the quiescent state.
///
/// If the number is the one of the seat's last quiescent state, wake or renewal, it stores nothing.
/// `number` is as in `rcu_seat_quiesce_since`, and so are the order and the fence. The section that
/// follows is one of those that "follow".
///
/// Faults: 2 if the processor is offline; 23 if it is idle; 5 if no section is open; 4 if the open
/// one nests.
///
/// Fence: behind if `number` changed.
#[unsafe(no_mangle)]
pub extern "C" fn rcu_seat_renew_unfenced(seat: &mut RcuSeat, number: &mut u64) -> u32
    ensures fault { result ≡ seat_number seat.old.contents
        (number_for (renew_refusal (cpu_of seat.old.contents))) }
    ensures state { result ≡ 0 → RenewedAt seat.old.contents number.new seat.new.contents }
    ensures unchanged { result ≢ 0 →
        BothStay seat.old.contents seat.new.contents number.old number.new }
{
    let seat = accepted!(seat.seat());
    write_out(seat.cpu.renew(&**seat.map.board()), number)
}

/// Makes the processor idle by one store, until it wakes or departs: it opens no section, and no
/// grace period waits for it. It stays online, and its callbacks stay. For a thread that is about
/// to block.
///
/// All that the thread did before comes before what follows the collection or the begin that finds
/// it idle.
///
/// Faults: 2 if the processor is offline; 23 if it is idle; 4 if a section is open.
#[unsafe(no_mangle)]
pub extern "C" fn rcu_seat_idle(seat: &mut RcuSeat) -> u32
    ensures fault { result ≡ seat_number seat.old.contents
        (number_for (quiesce_refusal (cpu_of seat.old.contents))) }
    ensures state { result ≡ 0 → seat.new.contents ≡ on_cpu after_idle seat.old.contents }
    ensures unchanged { result ≢ 0 → seat.new.contents ≡ seat.old.contents }
{
    let seat = accepted!(seat.seat());
    status(seat.cpu.idle(&**seat.map.board()))
}

/// Wakes the processor, by one load and one store. Writes the number that it saw.
///
/// A section may open once it returns. A grace period that begins later awaits the processor. Of
/// one that found it idle, or whose number it saw, the section sees what came before its begin, and
/// what a thread did before it took a cookie that is done at its end. Unfenced, what came before an
/// `rcu_seat_take` is sure to be seen by sequentially consistent loads alone. No fence precedes the
/// load: a thread that stored a request to be woken polls by `rcu_seat_poll`, and not by this
/// number.
///
/// Faults: 2 if the processor is offline; 24 if it is awake.
///
/// Fence: behind.
#[unsafe(no_mangle)]
pub extern "C" fn rcu_seat_wake_unfenced(seat: &mut RcuSeat, number: &mut u64) -> u32
    ensures fault { result ≡ seat_number seat.old.contents
        (number_for (wake_refusal (cpu_of seat.old.contents))) }
    ensures state { result ≡ 0 →
        AcceptedAt after_quiesce seat.old.contents number.new seat.new.contents }
    ensures unchanged { result ≢ 0 →
        BothStay seat.old.contents seat.new.contents number.old number.new }
{
    let seat = accepted!(seat.seat());
    write_out(seat.cpu.wake(&**seat.map.board()), number)
}

/// Takes a cookie, as `rcu_take`, at the number that one load sees, which no later load is below.
/// In a section or not, online or not. Returns 2^64 - 1, which is never done, if `seat` is not an
/// open seat.
///
/// A full fence lies between what the thread did before, as an unlink, and that load. Unfenced, a
/// section may still reach unlinked data after the cookie is done.
///
/// Fence: before.
#[unsafe(no_mangle)]
pub extern "C" fn rcu_seat_take_unfenced(seat: &mut RcuSeat) -> u64
    ensures look { seat_refusal seat.old.contents ≡ None → WatchedAt seat.old.contents
        (watcher_of seat.new.contents).view.seen seat.new.contents }
    ensures cookie { seat_refusal seat.old.contents ≡ None →
        result ≡ snapshot (watcher_of seat.new.contents).view.seen }
    ensures not_taken { seat_refusal seat.old.contents ≢ None → result ≡ never_done }
    ensures unchanged { seat_refusal seat.old.contents ≢ None →
        seat.new.contents ≡ seat.old.contents }
{
    let Ok(seat) = seat.seat() else {
        return NEVER_DONE;
    };
    seat.watcher.take(&**seat.map.board()).number
}

/// Returns whether a cookie is done, as `rcu_poll`, at the number that one load sees, which no
/// later load is below. In a section or not, online or not. False if `seat` is not an open seat.
///
/// If it returns false, all that the thread stored before it is seen by what follows the `rcu_end`,
/// the `rcu_turn` or the `rcu_seat_poll` that makes or finds the cookie done. Unfenced it is not: a
/// thread that stores a request to be woken, polls, and sleeps may sleep for good.
///
/// Fence: before, and behind if it returns true.
#[unsafe(no_mangle)]
pub extern "C" fn rcu_seat_poll_unfenced(seat: &mut RcuSeat, cookie: u64) -> bool
    ensures look { seat_refusal seat.old.contents ≡ None → WatchedAt seat.old.contents
        (watcher_of seat.new.contents).view.seen seat.new.contents }
    ensures done { seat_refusal seat.old.contents ≡ None →
        result ≡ is_done_first (record { epoch = 0; number = cookie })
        (watcher_of seat.new.contents).view.seen }
    ensures not_taken { seat_refusal seat.old.contents ≢ None → result ≡ false }
    ensures unchanged { seat_refusal seat.old.contents ≢ None →
        seat.new.contents ≡ seat.old.contents }
{
    let cookie = Cookie {
        epoch: 0,
        number: cookie,
    };
    let Ok(seat) = seat.seat() else {
        return false;
    };
    seat.watcher.poll(&**seat.map.board(), cookie)
}
