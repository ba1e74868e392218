//! Queries of an engine: `rcu` is under the caller's lock. On a handle that is not an open engine
//! they return 0 or false, unless the note says otherwise.
ghost use Rattle.std.specs.Prelude.{◌≡◌, ◌≢◌, ◌<◌, ◌≤◌, None, false};
ghost use Rattle.rcu_seq.specs.Seq.{cookie_of, number_of};
ghost use Rattle.rcu_seq.specs.Tags.{is_done_first};
ghost use Rattle.rcu_node.specs.CpuSet.{is_in};
ghost use Rattle.rcu_state.specs.GpState.{awaited_in};
ghost use Rattle.rcu_c.specs.Holding.{engine_of, grace_of, never_done};
ghost use Rattle.rcu_c.specs.Refusals.{engine_refusal};

use crate::codes::NEVER_DONE;
use crate::handle::Rcu;
use rcu_node::Awaited;
use rcu_seq::Cookie;

/// Returns how many processors the engine has.
#[unsafe(no_mangle)]
pub extern "C" fn rcu_cpus(rcu: &mut Rcu) -> u32
    ensures unchanged { rcu.new.contents ≡ rcu.old.contents }
    ensures value { result ≡ (engine_of rcu.old.contents).cpus }
{
    let Ok(opened) = rcu.engine() else {
        return 0;
    };
    opened.inner.cpus()
}

/// Returns the grace-period number: 4 for each grace period that ended, and 1 more while one runs.
#[unsafe(no_mangle)]
pub extern "C" fn rcu_number(rcu: &mut Rcu) -> u64
    ensures unchanged { rcu.new.contents ≡ rcu.old.contents }
    ensures value { result ≡ number_of (grace_of rcu.old.contents).seq }
{
    let Ok(opened) = rcu.engine() else {
        return 0;
    };
    opened.inner.grace().value()
}

/// Returns whether a grace period runs.
#[unsafe(no_mangle)]
pub extern "C" fn rcu_running(rcu: &mut Rcu) -> bool
    ensures unchanged { rcu.new.contents ≡ rcu.old.contents }
    ensures value { result ≡ (grace_of rcu.old.contents).seq.running }
{
    let Ok(opened) = rcu.engine() else {
        return false;
    };
    opened.inner.grace().is_running()
}

/// Returns whether the engine has the processor as online. False if there is no such processor.
#[unsafe(no_mangle)]
pub extern "C" fn rcu_online(rcu: &mut Rcu, cpu: u32) -> bool
    ensures unchanged { rcu.new.contents ≡ rcu.old.contents }
    ensures value { cpu < (engine_of rcu.old.contents).cpus →
        result ≡ is_in (grace_of rcu.old.contents).processors.online cpu }
    ensures no_such_cpu { (engine_of rcu.old.contents).cpus ≤ cpu → result ≡ false }
{
    let Ok(opened) = rcu.engine() else {
        return false;
    };
    cpu < opened.cpus() && opened.inner.grace().online(cpu)
}

/// Returns whether the running grace period awaits the processor. False if there is no such
/// processor.
#[unsafe(no_mangle)]
pub extern "C" fn rcu_awaits(rcu: &mut Rcu, cpu: u32) -> bool
    ensures unchanged { rcu.new.contents ≡ rcu.old.contents }
    ensures value { cpu < (engine_of rcu.old.contents).cpus →
        result ≡ is_in (grace_of rcu.old.contents).processors.awaited cpu }
    ensures no_such_cpu { (engine_of rcu.old.contents).cpus ≤ cpu → result ≡ false }
{
    let Ok(opened) = rcu.engine() else {
        return false;
    };
    cpu < opened.cpus() && opened.inner.grace().awaited().awaits(cpu)
}

/// Returns how many processors the running grace period awaits.
#[unsafe(no_mangle)]
pub extern "C" fn rcu_awaited(rcu: &mut Rcu) -> u32
    ensures unchanged { rcu.new.contents ≡ rcu.old.contents }
    ensures value { result ≡ awaited_in (grace_of rcu.old.contents) }
{
    let Ok(opened) = rcu.engine() else {
        return 0;
    };
    opened.inner.grace().awaited().count()
}

/// Takes a cookie: the number at which a grace period that begins from now on has ended. It
/// requests no grace period: begin one (`rcu_begin`, or `rcu_turn` if a tended callback waits).
/// Returns 2^64 - 1, which is never done, if `rcu` is not an open engine.
#[unsafe(no_mangle)]
pub extern "C" fn rcu_take(rcu: &mut Rcu) -> u64
    ensures unchanged { rcu.new.contents ≡ rcu.old.contents }
    ensures cookie { engine_refusal rcu.old.contents ≡ None →
        result ≡ (cookie_of (grace_of rcu.old.contents).seq).number }
    ensures not_taken { engine_refusal rcu.old.contents ≢ None → result ≡ never_done }
{
    let Ok(opened) = rcu.engine() else {
        return NEVER_DONE;
    };
    opened.inner.grace().take().number
}

/// Returns whether a cookie is done: the number has reached it, so each section that was open when
/// it was taken has ended. For a number that no snapshot returned, the result means no more than
/// that the number has reached it. False if `rcu` is not an open engine.
///
/// If it returns true, of each section one of two holds: all of it comes before what follows this
/// call, or it sees what the thread that took the cookie did before it took it.
#[unsafe(no_mangle)]
pub extern "C" fn rcu_poll(rcu: &mut Rcu, cookie: u64) -> bool
    ensures unchanged { rcu.new.contents ≡ rcu.old.contents }
    ensures done { engine_refusal rcu.old.contents ≡ None →
        result ≡ is_done_first (record { epoch = 0; number = cookie })
        (number_of (grace_of rcu.old.contents).seq) }
    ensures not_taken { engine_refusal rcu.old.contents ≢ None → result ≡ false }
{
    let cookie = Cookie {
        epoch: 0,
        number: cookie,
    };
    let Ok(opened) = rcu.engine() else {
        return false;
    };
    opened.inner.grace().done(cookie)
}
