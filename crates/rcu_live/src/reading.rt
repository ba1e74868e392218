//! A watcher that meets an open section, without a handle of threads: no call here waits or needs
//! memory.
ghost use Rattle.std.specs.Prelude.{◌≡◌, IfOk, IsSome, OnErr, OnOk, false};
ghost use Rattle.std.specs.Result.{result_err};
ghost use Rattle.rcu_live.specs.CpuSeat.{HasMade, quiesce_refusal};
ghost use Rattle.rcu_live.specs.Watcher.{HasWatched};

use crate::client::Client;
use crate::cpu_seat::CpuSeat;
use crate::live::Live;
use crate::watcher::Watcher;
use rcu_seq::Fault;

/// A watcher meets an open section, takes a cookie, polls it, and meets the section again. Returns
/// whether the cookie tested done: it never does.
pub fn is_done_beside<const LEAF: u32, const FAN: u32, T: Drop, P: Client>(
    live: &Live<LEAF, FAN, T, P>,
    seat: &mut CpuSeat<P>,
    watcher: &mut Watcher<P>,
) -> bool
    requires seat { seat.old.table ≡ live.now.table }
    requires watcher { watcher.old.table ≡ live.now.table }
    requires open { IsSome seat.old.view.section }
    ensures seat { HasMade 2 0 seat.old seat.new }
    ensures watcher { HasWatched 4 watcher.old watcher.new }
    ensures cpu { seat.new.cpu ≡ seat.old.cpu }
    ensures depth { seat.new.depth ≡ seat.old.depth }
    ensures own_word { seat.new.view.own_word ≡ seat.old.view.own_word }
    ensures never { result ≡ false }
{
    let first = live.meet(seat, watcher).is_some();
    let cookie = watcher.take(live);
    let is_done = watcher.poll(live, cookie);
    let again = live.meet(seat, watcher).is_some();
    first & again & is_done
}

/// Lets the processor pass a quiescent state, read beside the watcher, and pass another one.
///
/// Faults: `Offline` (2) if the processor is offline; `CpuIdle` (23) if it is idle; `InSection` (4)
/// if a section is open.
pub fn read_beside<const LEAF: u32, const FAN: u32, T: Drop, P: Client>(
    live: &Live<LEAF, FAN, T, P>,
    seat: &mut CpuSeat<P>,
    watcher: &mut Watcher<P>,
) -> Result<bool, Fault>
    requires seat { seat.old.table ≡ live.now.table }
    requires watcher { watcher.old.table ≡ live.now.table }
    ensures seat { OnOk result (HasMade 6 2 seat.old seat.new) }
    ensures watcher { OnOk result (HasWatched 4 watcher.old watcher.new) }
    ensures fault { result_err result ≡ quiesce_refusal seat.old }
    ensures unchanged { OnErr result (seat.new ≡ seat.old) }
    ensures unwatched { OnErr result (watcher.new ≡ watcher.old) }
    ensures never { IfOk result (λ is_done. is_done ≡ false) }
{
    seat.quiesce(live)?;
    seat.enter(live)?;
    let is_done = is_done_beside(live, seat, watcher);
    seat.exit(live)?;
    seat.quiesce(live)?;
    Ok(is_done)
}
