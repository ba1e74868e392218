//! A thread that may block at any time, by its seat: it is idle but in its sections.
ghost use Rattle.std.specs.Prelude.{◌≡◌, ◌≢◌};
ghost use Rattle.rcu_live.specs.CpuSeat.{after_pin, after_unpin, pin_refusal, repin_refusal};
ghost use Rattle.rcu_live.specs.CpuSeat.{unpin_refusal};
ghost use Rattle.rcu_c.specs.Answers.{number_for};
ghost use Rattle.rcu_c.specs.Holding.{AcceptedAt, RenewedAt, cpu_of};
ghost use Rattle.rcu_c.specs.Refusals.{seat_number};
ghost use Rattle.rcu_c.specs.Seats.{closing};
ghost use Rattle.rcu_c.specs.Staying.{BothStay};

use crate::codes::{accepted, status, write_out};
use crate::handle::RcuSeat;

/// Opens a read section, or nests one deeper in the open one. An idle processor wakes first, by one
/// exchange, without a load of the number: no `rcu_seat_wake` is needed.
///
/// It passes no quiescent state: a grace period that begins before the section ends awaits the
/// processor until it unpins. Of one that found it idle, or at whose number the section began, the
/// section sees what came before its begin, and what a thread did before it took a cookie that is
/// done at its end. Unfenced, what came before an `rcu_seat_take` is sure to be seen by
/// sequentially consistent loads alone: if all readers load by such, the unfenced form is enough,
/// and so it is for an inner section.
///
/// Faults: 2 if the processor is offline; 6 if the depth is 65,535.
///
/// Fence: behind.
#[unsafe(no_mangle)]
pub extern "C" fn rcu_seat_pin_unfenced(seat: &mut RcuSeat) -> u32
    ensures fault { result ≡ seat_number seat.old.contents
        (number_for (pin_refusal (cpu_of seat.old.contents))) }
    ensures state { result ≡ 0 → AcceptedAt after_pin seat.old.contents
        (cpu_of seat.new.contents).view.seen seat.new.contents }
    ensures unchanged { result ≢ 0 → seat.new.contents ≡ seat.old.contents }
{
    let seat = accepted!(seat.seat());
    status(seat.cpu.pin(&**seat.map.board()))
}

/// Leaves the innermost section. If it was the outermost one, the processor is idle from then on,
/// as by `rcu_seat_idle`, even if it was awake before the section.
///
/// All that the thread did before comes before what follows the collection or the begin that finds
/// it idle.
///
/// Faults: 2 if the processor is offline; 5 if no section is open.
#[unsafe(no_mangle)]
pub extern "C" fn rcu_seat_unpin(seat: &mut RcuSeat) -> u32
    ensures fault { result ≡ seat_number seat.old.contents
        (number_for (unpin_refusal (cpu_of seat.old.contents))) }
    ensures state { result ≡ 0 → AcceptedAt (after_unpin closing) seat.old.contents
        (cpu_of seat.new.contents).view.seen seat.new.contents }
    ensures unchanged { result ≢ 0 → seat.new.contents ≡ seat.old.contents }
{
    let seat = accepted!(seat.seat());
    status(seat.cpu.unpin(&**seat.map.board()))
}

/// Renews the section that a pin opened, as `rcu_seat_renew`: no grace period that began before
/// waits for it any more. From here on the thread uses nothing that the section read before. Writes
/// the number of the quiescent state.
///
/// `number` is as in `rcu_seat_renew`, and 0 after a pin; so are the order and the fence.
///
/// Faults: 2 if the processor is offline; 5 if no section is open; 4 if the open one nests.
///
/// Fence: behind if `number` changed.
#[unsafe(no_mangle)]
pub extern "C" fn rcu_seat_repin_unfenced(seat: &mut RcuSeat, number: &mut u64) -> u32
    ensures fault { result ≡ seat_number seat.old.contents
        (number_for (repin_refusal (cpu_of seat.old.contents))) }
    ensures state { result ≡ 0 → RenewedAt seat.old.contents number.new seat.new.contents }
    ensures unchanged { result ≢ 0 →
        BothStay seat.old.contents seat.new.contents number.old number.new }
{
    let seat = accepted!(seat.seat());
    write_out(seat.cpu.repin(&**seat.map.board()), number)
}
