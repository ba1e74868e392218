//! Updates of the map of an engine: `rcu` is under the caller's lock. Sections read the map
//! meanwhile, and see the entries as they were before a call or as they are after it.
//!
//! Header: `rcu/map.h`.
ghost use Rattle.std.specs.Prelude.{◌≡◌, ◌≢◌, None, length};
ghost use Rattle.rcu_map.specs.Entries.{entries_in};
ghost use Rattle.rcu_map.specs.Room.{IsOnlyForReplacements};
ghost use Rattle.rcu_map.specs.declared.put.Put.{Put};
ghost use Rattle.rcu_c.specs.Answers.{number_in_c};
ghost use Rattle.rcu_c.specs.Holding.{HoldsEngine, writer_of};
ghost use Rattle.rcu_c.specs.Maps.{HasReclaimedInC, HasWaitedInC, IsFoundInC, IsNotPutInC};
ghost use Rattle.rcu_c.specs.Maps.{IsPutInC, IsTakenOutInC, entry_refusal, map_buckets, map_nodes};
ghost use Rattle.rcu_c.specs.Maps.{waiting_refusal, width_refusal, writer_width};
ghost use Rattle.rcu_c.specs.Refusals.{engine_number};
ghost use Rattle.rcu_c.specs.Staying.{BothStay};

use crate::codes::{accepted, code};
use crate::handle::{Rcu, RcuSeat};
use crate::keyed_words::tell;
use crate::refusal::Refusal;
use rcu_map::Put;
use rcu_seq::{Cookie, Fault, Tag};

/// Puts an entry of these words in so, and writes those of the one that had its key.
fn put(rcu: &mut Rcu, how: Put, entry: &[u64], old: &mut [u64]) -> u32
    ensures fault { result ≢ 31 → result ≡ engine_number rcu.old.contents
        (number_in_c (entry_refusal rcu.old.contents entry.now (length old.old))) }
    ensures put { result ≡ 0 →
        IsPutInC how entry.now rcu.old.contents old.old old.new rcu.new.contents }
    ensures full { result ≡ 31 →
        IsNotPutInC how entry.now (length old.old) rcu.old.contents rcu.new.contents }
    ensures unchanged { result ≢ 0 →
        BothStay rcu.old.contents rcu.new.contents old.old old.new }
{
    let opened = accepted!(rcu.engine());
    let words = opened.map.plan().words;
    if entry.len() != words || old.len() != words {
        return Refusal::BadWords.number();
    }
    if entry[0] == 0 {
        return Refusal::BadKey.number();
    }
    let Ok(there) = opened.map.put_words(how, entry, old) else {
        return Refusal::MapFull.number();
    };
    tell(there, old);
    0
}

/// Puts an entry of these words in, by one store, if none has its key, and writes the key 0. Else
/// it writes the words of the entry that has the key, and changes nothing. It costs a step for each
/// entry of the key's bucket up to there, and for each word.
///
/// All that the thread did before comes before what follows a section's `rcu_map_get` that finds
/// the entry.
///
/// Faults: 32 if an entry has another number of words than `entry` or `old`; 30 if the key is 0; 31
/// if no entry has the key, and the map is full or no node is free yet. It is full if it has as
/// many entries as it was opened for.
#[unsafe(no_mangle)]
pub extern "C" fn rcu_map_insert(rcu: &mut Rcu, entry: &[u64], old: &mut [u64]) -> u32
    ensures fault { result ≢ 31 → result ≡ engine_number rcu.old.contents
        (number_in_c (entry_refusal rcu.old.contents entry.now (length old.old))) }
    ensures put { result ≡ 0 →
        IsPutInC Put.Insert entry.now rcu.old.contents old.old old.new rcu.new.contents }
    ensures full { result ≡ 31 →
        IsNotPutInC Put.Insert entry.now (length old.old) rcu.old.contents rcu.new.contents }
    ensures unchanged { result ≢ 0 →
        BothStay rcu.old.contents rcu.new.contents old.old old.new }
{
    put(rcu, Put::Insert, entry, old)
}

/// Puts an entry in the place of the one that has its key, by one store, and writes that: a section
/// finds the old one or the new one. If none has the key, it writes the key 0, and changes nothing.
/// Costs and orders as `rcu_map_insert`.
///
/// Data that words of the old entry lead to may be freed when a full grace period has passed, as by
/// `rcu_queue` or `rcu_defer_link`.
///
/// Faults: 32 as of `rcu_map_insert`; 30 if the key is 0; 31 if an entry has the key, and no node
/// is free yet. One will be, also in a full map: a node that no entry has waits for its grace
/// period.
#[unsafe(no_mangle)]
pub extern "C" fn rcu_map_replace(rcu: &mut Rcu, entry: &[u64], old: &mut [u64]) -> u32
    ensures fault { result ≢ 31 → result ≡ engine_number rcu.old.contents
        (number_in_c (entry_refusal rcu.old.contents entry.now (length old.old))) }
    ensures put { result ≡ 0 →
        IsPutInC Put.Replace entry.now rcu.old.contents old.old old.new rcu.new.contents }
    ensures full { result ≡ 31 →
        IsNotPutInC Put.Replace entry.now (length old.old) rcu.old.contents rcu.new.contents }
    ensures unchanged { result ≢ 0 →
        BothStay rcu.old.contents rcu.new.contents old.old old.new }
{
    put(rcu, Put::Replace, entry, old)
}

/// Puts an entry in, by one store: in the place of the one that has its key, as `rcu_map_replace`,
/// or if none has it, as `rcu_map_insert`. Writes the one that had it, or the key 0.
///
/// Faults: 32 as of `rcu_map_insert`; 30 if the key is 0; 31 if no node is free yet, or if the map
/// is full and no entry has the key.
#[unsafe(no_mangle)]
pub extern "C" fn rcu_map_put(rcu: &mut Rcu, entry: &[u64], old: &mut [u64]) -> u32
    ensures fault { result ≢ 31 → result ≡ engine_number rcu.old.contents
        (number_in_c (entry_refusal rcu.old.contents entry.now (length old.old))) }
    ensures put { result ≡ 0 →
        IsPutInC Put.Upsert entry.now rcu.old.contents old.old old.new rcu.new.contents }
    ensures full { result ≡ 31 →
        IsNotPutInC Put.Upsert entry.now (length old.old) rcu.old.contents rcu.new.contents }
    ensures unchanged { result ≢ 0 →
        BothStay rcu.old.contents rcu.new.contents old.old old.new }
{
    put(rcu, Put::Upsert, entry, old)
}

/// Takes the entry of a key out, by one store, and writes its words, or the key 0 if there is none.
/// Its node is free again once a call of `rcu_map_reclaim` has found it removed, and a later one
/// finds that a full grace period has passed since. Data that its words lead to may be freed when a
/// full grace period has passed.
///
/// Fault 32: an entry has another number of words.
#[unsafe(no_mangle)]
pub extern "C" fn rcu_map_remove(rcu: &mut Rcu, key: u64, old: &mut [u64]) -> u32
    ensures fault { result ≡ engine_number rcu.old.contents
        (number_in_c (width_refusal (writer_width rcu.old.contents) (length old.old))) }
    ensures removed { result ≡ 0 →
        IsTakenOutInC key rcu.old.contents old.old old.new rcu.new.contents }
    ensures unchanged { result ≢ 0 →
        BothStay rcu.old.contents rcu.new.contents old.old old.new }
{
    let opened = accepted!(rcu.engine());
    if old.len() != opened.map.plan().words {
        return Refusal::BadWords.number();
    }
    let there = opened.map.remove_words(key, old);
    tell(there, old);
    0
}

/// Writes the words of the entry of a key as it is now, or the key 0: under the lock no change is
/// missed, as it may be by a section.
///
/// Fault 32: an entry has another number of words.
#[unsafe(no_mangle)]
pub extern "C" fn rcu_map_find(rcu: &mut Rcu, key: u64, entry: &mut [u64]) -> u32
    ensures fault { result ≡ engine_number rcu.old.contents
        (number_in_c (width_refusal (writer_width rcu.old.contents) (length entry.old))) }
    ensures state { rcu.new.contents ≡ rcu.old.contents }
    ensures found { result ≡ 0 → IsFoundInC key rcu.old.contents entry.old entry.new }
    ensures unchanged { result ≢ 0 → entry.new ≡ entry.old }
{
    let opened = accepted!(rcu.engine());
    if entry.len() != opened.map.plan().words {
        return Refusal::BadWords.number();
    }
    let there = opened.map.get_words(key, entry);
    tell(there, entry);
    0
}

/// Returns how many entries the map has. 0 if `rcu` is not an open engine.
#[unsafe(no_mangle)]
pub extern "C" fn rcu_map_len(rcu: &mut Rcu) -> u64
    ensures unchanged { rcu.new.contents ≡ rcu.old.contents }
    ensures value { result ≡
        entries_in (map_buckets rcu.old.contents) (map_nodes rcu.old.contents) }
{
    let Ok(opened) = rcu.engine() else {
        return 0;
    };
    opened.map.len() as u64
}

/// Reclaims nodes, after one load of the number: the nodes of entries that were replaced or removed
/// wait from now on for the grace period of the cookie that this writes, and those whose grace
/// period has passed are free. No entry changes. It costs a load, and a step for each node that
/// waits from now on or is free.
///
/// If a put finds no node free (31): call it, drive until the cookie is done, and call it again; or
/// call `rcu_map_wait`.
#[unsafe(no_mangle)]
pub extern "C" fn rcu_map_reclaim(rcu: &mut Rcu, cookie: &mut u64) -> u32
    ensures fault { result ≡ engine_number rcu.old.contents 0 }
    ensures reclaimed { result ≡ 0 → HasReclaimedInC rcu.old.contents cookie.new rcu.new.contents }
    ensures unchanged { result ≢ 0 →
        BothStay rcu.old.contents rcu.new.contents cookie.old cookie.new }
{
    let opened = accepted!(rcu.engine());
    let number = opened.map.reclaim();
    *cookie = Cookie::of(Tag::of_first_epoch(number)).number;
    0
}

/// One step of waiting for a free node, for the driver: it loads the number, as `rcu_map_reclaim`
/// does. If no node is free then, it takes a step of driving for the cookie of that number, as
/// `rcu_drive_for` does. No entry changes.
///
/// If a call that puts an entry in finds no node free (31): call this, and that again, until the
/// entry is in or this is refused. In between let other threads run; the caller's own processor is
/// idle or offline, or passes quiescent states. It orders what `rcu_drive_for` orders.
///
/// Faults: 31 if the map is full and a node is free, by which an entry can be replaced: there is no
/// room beside the entries before one is removed; 11 if a grace period would begin, and the number
/// is the last one. At 11 it has looked.
///
/// Fence: behind.
#[unsafe(no_mangle)]
pub extern "C" fn rcu_map_wait_unfenced(rcu: &mut Rcu) -> u32
    ensures open { HoldsEngine rcu.old.contents → HoldsEngine rcu.new.contents }
    ensures closed { ¬ HoldsEngine rcu.old.contents →
        (result ≡ engine_number rcu.old.contents 0) × (rcu.new.contents ≡ rcu.old.contents) }
    ensures full { HoldsEngine rcu.old.contents →
        IsOnlyForReplacements (writer_of rcu.old.contents) →
        (result ≡ 31) × (rcu.new.contents ≡ rcu.old.contents) }
    ensures fault { HoldsEngine rcu.old.contents → result ≢ 0 → result ≢ 31 → result ≡ 11 }
    ensures waited { HoldsEngine rcu.old.contents →
        ¬ IsOnlyForReplacements (writer_of rcu.old.contents) →
        HasWaitedInC rcu.old.contents result rcu.new.contents }
{
    let opened = accepted!(rcu.engine());
    if opened.map.is_only_for_replacements() {
        return Refusal::MapFull.number();
    }
    let cookie = Cookie::of(Tag::of_first_epoch(opened.map.reclaim()));
    if opened.map.has_free_node() {
        return 0;
    }
    match opened.inner.drive_for(cookie) {
        Ok(_) => 0,
        Err(fault) => code(fault),
    }
}

/// One step of waiting for a free node, as `rcu_map_wait`, by the thread of a seat: in a section of
/// its own it would wait for itself, so it is refused. (A thread that has no seat calls
/// `rcu_map_wait`.) It orders what `rcu_map_wait` orders.
///
/// Faults: 26 if the seat is of another engine; 4 if a section is open on the seat; 31 as of
/// `rcu_map_wait`; 11 as of `rcu_map_wait`.
///
/// Fence: behind.
#[unsafe(no_mangle)]
pub extern "C" fn rcu_seat_map_wait_unfenced(rcu: &mut Rcu, seat: &mut RcuSeat) -> u32
    ensures seat { seat.new.contents ≡ seat.old.contents }
    ensures refused { waiting_refusal rcu.old.contents seat.old.contents ≢ None →
        (result ≡ number_in_c (waiting_refusal rcu.old.contents seat.old.contents))
        × (rcu.new.contents ≡ rcu.old.contents) }
    ensures full { waiting_refusal rcu.old.contents seat.old.contents ≡ None →
        IsOnlyForReplacements (writer_of rcu.old.contents) →
        (result ≡ 31) × (rcu.new.contents ≡ rcu.old.contents) }
    ensures fault { waiting_refusal rcu.old.contents seat.old.contents ≡ None →
        result ≢ 0 → result ≢ 31 → result ≡ 11 }
    ensures waited { waiting_refusal rcu.old.contents seat.old.contents ≡ None →
        ¬ IsOnlyForReplacements (writer_of rcu.old.contents) →
        HasWaitedInC rcu.old.contents result rcu.new.contents }
{
    accepted!(rcu.has_dealt(seat));
    if seat.open_seat().cpu.depth() > 0 {
        return code(Fault::InSection);
    }
    rcu_map_wait_unfenced(rcu)
}
