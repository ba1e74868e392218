//! Opening and closing.
ghost use Rattle.std.specs.Prelude.{◌≡◌, ◌≢◌, IfErr, IfOk, IsNone, None, OnErr, OnOk, Some};
ghost use Rattle.std.specs.Prelude.{is_some};
ghost use Rattle.rcu_geometry.specs.Opening.{opening_refusal};
ghost use Rattle.rcu_c.specs.Answers.{number_for, number_in_c, tested_number};
ghost use Rattle.rcu_c.specs.Engines.{opened_at_first, seat_at, with_seat, without_seat};
ghost use Rattle.rcu_c.specs.Holding.{HoldsEngine, HoldsSeat, engine_of, on_opened, opened_of};
ghost use Rattle.rcu_c.specs.Holding.{requests_of, seat_of};
ghost use Rattle.rcu_c.specs.MapSizes.{least_sizes, map_opening_refusal, plan_of_sizes};
ghost use Rattle.rcu_c.specs.Refusals.{deal_refusal, engine_number, engine_refusal};
ghost use Rattle.rcu_c.specs.Refusals.{return_refusal, seat_refusal, tested_refusal};
ghost use Rattle.rcu_c.specs.Staying.{BothStay};

use crate::codes::accepted;
use crate::contents::Contents;
use crate::dealt_seat::DealtSeat;
use crate::engine_box::EngineBox;
use crate::handle::{Handle, Rcu, RcuSeat};
use crate::identity::Identity;
use crate::making::make_engine;
use crate::map_sizes::MapSizes;
use crate::open_engine::OpenEngine;
use crate::raw_box::RawBox;
use crate::refusal::Refusal;
use rcu_seq::Fault;
use std::alloc::Global;

/// Returns the engine, with a map of these sizes, and a seat for each processor, in a box.
fn box_engine(
    alloc: Global,
    cpus: u32,
    max_number: u64,
    identity: Identity,
    sizes: MapSizes,
) -> Result<Box<Contents, Global>, Refusal>
    ensures open { IfOk result (λ contents. HoldsEngine (Some contents.value)) }
    ensures state { IfOk result (λ contents. opened_of (Some contents.value)
        ≡ opened_at_first identity (engine_of (Some contents.value)).table
        (requests_of (Some contents.value)).words (plan_of_sizes sizes) cpus max_number) }
    ensures fault { tested_refusal result ≡ map_opening_refusal sizes cpus max_number }
{
    let made = make_engine(alloc, cpus, max_number, identity, sizes)?;
    let Ok(made) = EngineBox::new(alloc, made) else {
        return Err(Refusal::Engine(Fault::NoMemory));
    };
    Ok(Box::new(alloc, Contents::Engine(made))?)
}

/// Puts what lies in a box into a closed handle.
fn put(handle: &mut Handle, contents: Box<Contents, Global>)
    requires { IsNone handle.old.contents }
    ensures { handle.new.contents ≡ Some contents.value }
{
    *handle = Handle::of(RawBox::of(contents));
}

/// Opens an engine of 1 to 4,096 processors at number 0. Processor 0 alone is online, no callback
/// is queued, and no seat is dealt. No grace period begins at `max_number`, a multiple of 4 from 4
/// to 2^62. Needs: `rcu` is closed.
///
/// The identity is one that no other engine of the process has: an engine takes no seat of another
/// one (26), and compares identities for that. `rcu_open` makes it, of a counter and the place of
/// that. A program in another language makes its own.
///
/// Faults: 17 for no processor or more than 4,096; 19 if `max_number` is no such number; 16.
#[unsafe(no_mangle)]
pub extern "C" fn rcu_open_as(
    alloc: Global,
    cpus: u32,
    max_number: u64,
    identity: Identity,
    rcu: &mut Rcu,
) -> u32
    requires closed { IsNone rcu.old.contents }
    ensures fault { tested_number result ≡ number_for (opening_refusal 16 64 cpus max_number) }
    ensures open { result ≡ 0 → HoldsEngine rcu.new.contents }
    ensures state { result ≡ 0 → opened_of rcu.new.contents ≡
        opened_at_first identity (engine_of rcu.new.contents).table
        (requests_of rcu.new.contents).words (plan_of_sizes least_sizes) cpus max_number }
    ensures unchanged { result ≢ 0 → rcu.new.contents ≡ rcu.old.contents }
{
    rcu_open_map_as(alloc, cpus, max_number, identity, &MapSizes::least(), rcu)
}

/// Opens an engine as `rcu_open_as`, with a map of these sizes, which is empty. Each of its seats
/// reads it. Needs: `rcu` is closed.
///
/// Faults: 29 if there is no bucket, an entry has one word, or there are more than 2^32 words in
/// all: an entry's and one more for each bucket, for each entry, and once for replacements; 17 for
/// no processor or more than 4,096; 19 if `max_number` is no such number; 16.
///
/// Header: `rcu/map.h`.
#[unsafe(no_mangle)]
pub extern "C" fn rcu_open_map_as(
    alloc: Global,
    cpus: u32,
    max_number: u64,
    identity: Identity,
    sizes: &MapSizes,
    rcu: &mut Rcu,
) -> u32
    requires closed { IsNone rcu.old.contents }
    ensures fault { tested_number result ≡
        number_in_c (map_opening_refusal sizes.now cpus max_number) }
    ensures open { result ≡ 0 → HoldsEngine rcu.new.contents }
    ensures state { result ≡ 0 → opened_of rcu.new.contents ≡
        opened_at_first identity (engine_of rcu.new.contents).table
        (requests_of rcu.new.contents).words (plan_of_sizes sizes.now) cpus max_number }
    ensures unchanged { result ≢ 0 → rcu.new.contents ≡ rcu.old.contents }
{
    let contents = accepted!(box_engine(alloc, cpus, max_number, identity, *sizes));
    put(rcu, contents);
    0
}

/// Closes an engine, and frees all that it has; values that are still queued are not handed out.
/// Seats that are open go on, and are closed in turn. If `rcu` is not an open engine, it does
/// nothing. Needs: `rcu` is under the caller's lock.
#[unsafe(no_mangle)]
pub extern "C" fn rcu_close(alloc: Global, rcu: &mut Rcu)
    ensures closed { engine_refusal rcu.old.contents ≡ None → IsNone rcu.new.contents }
    ensures unchanged { engine_refusal rcu.old.contents ≢ None →
        rcu.new.contents ≡ rcu.old.contents }
{
    if rcu.holds_engine() {
        drop(rcu.close(alloc).into_box());
    }
}

/// Takes the seat of a processor out of the engine, and puts it into a box.
fn deal_seat(
    alloc: Global,
    opened: &mut OpenEngine,
    cpu: u32,
) -> Result<Box<Contents, Global>, Refusal>
    ensures open { IfOk result (λ contents. HoldsSeat (Some contents.value)) }
    ensures seat { IfOk result (λ contents.
        seat_at opened.old cpu ≡ Some (seat_of (Some contents.value))) }
    ensures state { OnOk result (opened.new ≡ without_seat opened.old cpu) }
    ensures dealt { OnOk result (deal_refusal opened.old cpu ≡ None) }
    ensures fault { IfErr result (λ refusal. deal_refusal opened.old cpu ≢ None →
        deal_refusal opened.old cpu ≡ Some refusal) }
    ensures memory { IfErr result (λ refusal. deal_refusal opened.old cpu ≡ None →
        refusal ≡ Refusal.Engine Fault.NoMemory) }
    ensures unchanged { OnErr result (opened.new ≡ opened.old) }
{
    if cpu >= opened.cpus() {
        return Err(Refusal::Engine(Fault::BadCpu));
    }
    if !opened.has_seat(cpu) {
        return Err(Refusal::SeatDealt);
    }
    let mut room = Box::new(alloc, Contents::Room)?;
    let Ok(seat) = opened.deal(alloc, cpu) else {
        return Err(Refusal::Engine(Fault::NoMemory));
    };
    hold(&mut room, seat);
    Ok(room)
}

/// Has a seat held in place of what was held.
fn hold(contents: &mut Contents, seat: DealtSeat)
    ensures { contents.new ≡ Contents.Seat seat }
{
    *contents = Contents::Seat(seat);
}

/// Deals the seat of a processor; each has one. The seat of processor 0 is online at first, any
/// other offline; one that was returned is as it was then. Processor 0 is awaited like any other:
/// if no thread reads on it, make its seat idle once. A seat takes its memory when it is dealt for
/// the first time. Needs: `rcu` is under the caller's lock, and `seat` is closed.
///
/// Faults: 1 if there is no such processor; 25 if its seat is dealt; 16.
#[unsafe(no_mangle)]
pub extern "C" fn rcu_seat_open(alloc: Global, rcu: &mut Rcu, cpu: u32, seat: &mut RcuSeat) -> u32
    requires closed { IsNone seat.old.contents }
    ensures fault { tested_number result ≡ engine_number rcu.old.contents
        (number_in_c (deal_refusal (opened_of rcu.old.contents) cpu)) }
    ensures open { result ≡ 0 → HoldsSeat seat.new.contents }
    ensures seat { result ≡ 0 →
        seat_at (opened_of rcu.old.contents) cpu ≡ Some (seat_of seat.new.contents) }
    ensures state { result ≡ 0 →
        rcu.new.contents ≡ on_opened (λ o. without_seat o cpu) rcu.old.contents }
    ensures unchanged { result ≢ 0 →
        BothStay rcu.old.contents rcu.new.contents seat.old.contents seat.new.contents }
{
    let opened = accepted!(rcu.engine());
    let contents = accepted!(deal_seat(alloc, opened, cpu));
    put(seat, contents);
    0
}

/// Returns whether `rcu_seat_open` can deal the seat of the processor: there is such a processor,
/// and its seat is not dealt. False if `rcu` is not an open engine. Needs: `rcu` is under the
/// caller's lock.
#[unsafe(no_mangle)]
pub extern "C" fn rcu_has_seat(rcu: &mut Rcu, cpu: u32) -> bool
    ensures unchanged { rcu.new.contents ≡ rcu.old.contents }
    ensures value { result ≡ is_some (seat_at (opened_of rcu.old.contents) cpu) }
{
    let Ok(opened) = rcu.engine() else {
        return false;
    };
    opened.has_seat(cpu)
}

/// Returns a seat to its engine, which can deal it again, and closes it: for a thread that ends.
/// Its processor stays as it is: depart first, or make processor 0 idle. Else each grace period
/// waits until another thread has the seat. Needs: `rcu` is under the caller's lock, and `seat` is
/// in no other call.
///
/// Fault 26: the seat is of another engine.
#[unsafe(no_mangle)]
pub extern "C" fn rcu_seat_return(alloc: Global, rcu: &mut Rcu, seat: &mut RcuSeat) -> u32
    ensures fault { result ≡ number_in_c (return_refusal rcu.old.contents seat.old.contents) }
    ensures state { result ≡ 0 → rcu.new.contents ≡
        on_opened (λ o. with_seat o (seat_of seat.old.contents)) rcu.old.contents }
    ensures closed { result ≡ 0 → IsNone seat.new.contents }
    ensures unchanged { result ≢ 0 →
        BothStay rcu.old.contents rcu.new.contents seat.old.contents seat.new.contents }
{
    accepted!(rcu.has_dealt(seat));
    let mut contents = seat.close(alloc).into_box();
    rcu.open_engine().take_back(contents.take_seat());
    0
}

/// Closes a seat, which its engine does not deal again: for when the engine goes. Its processor
/// stays as it is: one that is online is awaited by each grace period that begins, for good. If
/// `seat` is not an open seat, it does nothing.
#[unsafe(no_mangle)]
pub extern "C" fn rcu_seat_close(alloc: Global, seat: &mut RcuSeat)
    ensures closed { seat_refusal seat.old.contents ≡ None → IsNone seat.new.contents }
    ensures unchanged { seat_refusal seat.old.contents ≢ None →
        seat.new.contents ≡ seat.old.contents }
{
    if seat.holds_seat() {
        drop(seat.close(alloc).into_box());
    }
}
