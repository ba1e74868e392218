//! The map of an engine, as a seat's section reads it: with no lock, beside all calls on other
//! handles. An entry that a section found stays as it is until the section ends.
//!
//! Header: `rcu/map.h`.
ghost use Rattle.std.specs.Prelude.{◌≡◌, ◌≢◌, length};
ghost use Rattle.rcu_c.specs.Answers.{number_in_c};
ghost use Rattle.rcu_c.specs.Maps.{HasWalked, IsGotInC, IsNextInC, reading_refusal};
ghost use Rattle.rcu_c.specs.Refusals.{seat_number};
ghost use Rattle.rcu_c.specs.Staying.{BothStay};

use crate::codes::{accepted, code};
use crate::handle::RcuSeat;
use crate::keyed_words::tell;
use crate::refusal::Refusal;
use rcu_seq::Fault;

/// Looks a key up in the open section, and writes the words of its entry, or the key 0 if it finds
/// none: then the others stay. A key that is in the map from the section's beginning on is found,
/// even if its entry is replaced meanwhile; what is found was there at some moment of the section.
/// It costs two loads for each entry of the key's bucket up to there, and one for each further
/// word.
///
/// If it finds an entry, all that the thread that put it in did before comes before what follows
/// this call.
///
/// Faults: 5 if no section is open; 32 if an entry has another number of words.
#[unsafe(no_mangle)]
pub extern "C" fn rcu_map_get(seat: &mut RcuSeat, key: u64, entry: &mut [u64]) -> u32
    ensures fault { result ≡ seat_number seat.old.contents
        (number_in_c (reading_refusal seat.old.contents (length entry.old))) }
    ensures state { result ≡ 0 → HasWalked seat.old.contents seat.new.contents }
    ensures got { result ≡ 0 → IsGotInC key seat.old.contents entry.old entry.new
        seat.new.contents }
    ensures unchanged { result ≢ 0 →
        BothStay seat.old.contents seat.new.contents entry.old entry.new }
{
    let seat = accepted!(seat.seat());
    if seat.cpu.depth() == 0 {
        return code(Fault::NotOpen);
    }
    if seat.map.plan().words != entry.len() {
        return Refusal::BadWords.number();
    }
    let there = seat.map.get_words(&mut seat.cpu, key, entry);
    tell(there, entry);
    0
}

/// Goes on from a key to the entry behind it, in the open section, and writes the words of that, or
/// the key 0 if there is no further one. From the key 0 it goes to the first one. The entries are
/// in the order of their buckets, and in each of their keys; the key need not be in the map. So
/// calls from the key 0 on, each with the key that the one before wrote, write each key that is in
/// the map as long as the section lasts. It costs two loads for each entry of the key's bucket up
/// to there, one for each bucket with no further entry, and one for each further word.
///
/// It orders what `rcu_map_get` orders.
///
/// Faults: 5 if no section is open; 32 if an entry has another number of words.
#[unsafe(no_mangle)]
pub extern "C" fn rcu_map_next(seat: &mut RcuSeat, key: u64, entry: &mut [u64]) -> u32
    ensures fault { result ≡ seat_number seat.old.contents
        (number_in_c (reading_refusal seat.old.contents (length entry.old))) }
    ensures state { result ≡ 0 → HasWalked seat.old.contents seat.new.contents }
    ensures next { result ≡ 0 → IsNextInC key seat.old.contents entry.old entry.new
        seat.new.contents }
    ensures unchanged { result ≢ 0 →
        BothStay seat.old.contents seat.new.contents entry.old entry.new }
{
    let seat = accepted!(seat.seat());
    if seat.cpu.depth() == 0 {
        return code(Fault::NotOpen);
    }
    if seat.map.plan().words != entry.len() {
        return Refusal::BadWords.number();
    }
    let there = seat.map.next_words_after(&mut seat.cpu, key, entry);
    tell(there, entry);
    0
}
