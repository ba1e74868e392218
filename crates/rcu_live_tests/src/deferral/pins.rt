//! A thread that is idle except in its sections: its refusals, and the processors that grace
//! periods await.
ghost use Rattle.std.specs.Prelude.{◌≡◌};

use crate::deferral::LAST;
use crate::live::steps::Script;
use crate::live::threads::{last_seat, opened};
use rcu_live::CpuSeat;
use rcu_seq::Fault;
use rcu_state::Turned;
use std::process::Abort;
use std::sync::Wait;

/// Sections of processor 0, opened by pins, beside grace periods.
fn pin_beside<R: Abort + Wait>(script: &Script<'_, R>, seat: &mut CpuSeat)
    requires { seat.old.table ≡ script.now.live.now.table }
{
    script.unpin(seat, Err(Fault::NotOpen));
    script.repin(seat, Err(Fault::NotOpen));
    script.pin(seat, Ok(1));
    script.unpin(seat, Ok(0));
    script.stands(seat, 0, true, true);
    script.unpin(seat, Err(Fault::NotOpen));
    script.repin(seat, Err(Fault::NotOpen));
    script.renew(seat, Err(Fault::CpuIdle));
    script.drive_for(4, Ok(Turned::Ended(4)));
    script.pin(seat, Ok(1));
    script.pin(seat, Ok(2));
    script.repin(seat, Err(Fault::InSection));
    script.unpin(seat, Ok(1));
    script.drive_for(8, Ok(Turned::Begun(5, 1)));
    script.drive_for(8, Ok(Turned::Waiting(1)));
    script.repin(seat, Ok(5));
    script.drive_for(8, Ok(Turned::Ended(8)));
    script.drive_for(12, Ok(Turned::Begun(9, 1)));
    script.unpin(seat, Ok(0));
    script.drive_for(12, Ok(Turned::Ended(12)));
}

#[test]
fn pins_are_awaited_until_they_end(rt: HostRuntime) {
    let (live, mut seats, _) = opened(&rt, rt.alloc(), 2, LAST);
    let _ = last_seat(&live, &mut seats);
    let mut seat = last_seat(&live, &mut seats);
    pin_beside(&Script::new(&rt, &live), &mut seat);
}

/// A processor that is offline pins no section.
fn refuse_offline<R: Abort + Wait>(script: &Script<'_, R>, seat: &mut CpuSeat)
    requires { seat.old.table ≡ script.now.live.now.table }
{
    script.pin(seat, Err(Fault::Offline));
    script.unpin(seat, Err(Fault::Offline));
    script.repin(seat, Err(Fault::Offline));
    script.renew(seat, Err(Fault::Offline));
}

#[test]
fn offline_processors_pin_nothing(rt: HostRuntime) {
    let (live, mut seats, _) = opened(&rt, rt.alloc(), 2, LAST);
    let mut seat = last_seat(&live, &mut seats);
    refuse_offline(&Script::new(&rt, &live), &mut seat);
}
