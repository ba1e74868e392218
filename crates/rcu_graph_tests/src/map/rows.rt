//! Entries of as many words as their map's plan says, which are read and put in by their words.
ghost use Rattle.std.specs.Prelude.{◌≡◌, ◌≤◌, ◌<◌, IfOk, length, slice_index};
ghost use Rattle.rcu_live.specs.CpuSeat.{after_word_step};
ghost use Rattle.rcu_graph.specs.Graph.{IsWalking};

use crate::compare::compare;
use crate::seats::{enters, exits};
use rcu_graph::{Full, Invariant, NotOpened};
use rcu_live::Live;
use rcu_map::{Map, MapSeat, MapWriter, Put, make_plan};
use rcu_seq::Fault;
use std::alloc::{AllocError, Global};
use std::process::Abort;
use std::sync::Arc;

/// Words of which the first one is a key: 1 or more.
struct Row;

impl Invariant for Row {
    ghost use Rattle.std.specs.Prelude.{◌<◌, slice_index};

    ghost holds = { λ words. 0 < slice_index words 0 };
}

type Rows = Map<Row, 0>;

/// How many keys there are.
const KEYS: u64 = 12;

/// The most words of an entry.
const MOST: usize = 9;

/// Writes an entry of this key, with other words for each key and version.
fn write_row(row: &mut [u64], key: u64, version: u64)
    requires some { 0 < length row.old }
    requires key { 0 < key }
    ensures { 0 < slice_index row.new 0 }
{
    let mut word = key.wrapping_mul(100).wrapping_add(version);
    for place in row.iter_mut() {
        *place = word;
        word = word.wrapping_mul(7);
    }
    row[0] = key;
}

/// Returns whether the buffer has the entry of this key and version.
fn has(room: &[u64], row: &mut [u64], key: u64, version: u64) -> bool
    requires some { 0 < length row.old }
    requires key { 0 < key }
{
    write_row(row, key, version);
    *room == *row
}

/// A writer, an entry, and room for one.
#[derive(Drop)]
struct Desk {
    writer: MapWriter<Row, 0>,
    row: Vec<u64>,
    room: Vec<u64>,
    ghost row_of: { length row.items ≡ writer.view.client.plan.words },
    ghost room_of: { length room.items ≡ writer.view.client.plan.words },
}

impl Desk {
    /// Puts the entry of a key in. The room has the one that had its key.
    fn put(&mut self, how: Put, key: u64, version: u64) -> Result<bool, Full>
        requires { 0 < key }
    {
        self.writer.plan();
        write_row(&mut self.row, key, version);
        self.writer.put_words(how, &self.row, &mut self.room)
    }

    /// Returns whether the buffer has the entry of this key and version.
    fn has(&mut self, key: u64, version: u64) -> bool
        requires { 0 < key }
    {
        self.writer.plan();
        has(&self.room, &mut self.row, key, version)
    }

    /// Puts an entry of each key in, replaces it, and looks it up as its writer does.
    fn fill<R: Abort>(&mut self, rt: &R) {
        for key in 1..=KEYS {
            compare(rt, key, self.put(Put::Replace, key, 0), Ok(false));
            compare(rt, key, self.put(Put::Insert, key, 1), Ok(false));
            compare(rt, key, self.put(Put::Insert, key, 2), Ok(true));
            compare(rt, "the one that is there", self.has(key, 1), true);
            compare(rt, key, self.put(Put::Upsert, key, 3), Ok(true));
            compare(rt, "the one that was there", self.has(key, 1), true);
            compare(rt, key, self.writer.get_words(key, &mut self.room), true);
            compare(rt, "the new one", self.has(key, 3), true);
        }
        compare(
            rt,
            "get_words",
            self.writer.get_words(0, &mut self.room),
            false,
        );
        compare(rt, "len", self.writer.len() as u64, KEYS);
    }

    /// Takes the entry of each key out.
    fn clear<R: Abort>(&mut self, rt: &R) {
        for key in 1..=KEYS {
            compare(rt, key, self.writer.remove_words(key, &mut self.room), true);
            compare(rt, "the one that was there", self.has(key, 3), true);
            compare(
                rt,
                key,
                self.writer.remove_words(key, &mut self.room),
                false,
            );
        }
        compare(rt, "len", self.writer.len(), 0);
    }
}

/// How many keys a section finds, each with its entry. The key 0 is no key, and leaves the buffer
/// as it is.
fn found(map: &Rows, seat: &mut MapSeat<Row, 0>, row: &mut [u64], room: &mut [u64]) -> u64
    requires walking { IsWalking map.now seat.old }
    requires row { length row.old ≡ map.now.plan.words }
    requires room { length room.old ≡ map.now.plan.words }
    ensures state { seat.new ≡ after_word_step seat.old seat.new.view.client }
    ensures walking { IsWalking map.now seat.new }
{
    map.kept();
    for key in 1..=KEYS {
        if !map.get_words(seat, key, room) || !has(room, row, key, 3) {
            return key - 1;
        }
    }
    if map.get_words(seat, 0, room) || !has(room, row, KEYS, 3) {
        return 0;
    }
    KEYS
}

/// To how many keys a section comes one behind the other, each with its entry.
fn listed(map: &Rows, seat: &mut MapSeat<Row, 0>, row: &mut [u64], room: &mut [u64]) -> u64
    requires walking { IsWalking map.now seat.old }
    requires row { length row.old ≡ map.now.plan.words }
    requires room { length room.old ≡ map.now.plan.words }
    ensures state { seat.new ≡ after_word_step seat.old seat.new.view.client }
    ensures walking { IsWalking map.now seat.new }
{
    map.kept();
    let mut key = 0;
    for count in 0..=KEYS {
        if !map.next_words_after(seat, key, room) {
            return count;
        }
        key = room[0];
        if !has(room, row, key, 3) {
            return 0;
        }
    }
    KEYS + 1
}

/// Two buffers of this many words.
fn rooms(alloc: Global, words: usize) -> Result<(Vec<u64>, Vec<u64>), AllocError>
    ensures first { IfOk result (λ rooms. length rooms.0.items ≡ words) }
    ensures second { IfOk result (λ rooms. length rooms.1.items ≡ words) }
{
    Ok((vec![in alloc; 0u64; words]?, vec![in alloc; 0u64; words]?))
}

/// Opens a map of entries of this many words, and puts entries in, reads them and takes them out.
fn uses<R: Abort>(rt: &R, alloc: Global, words: usize) -> Result<(), NotOpened>
    requires { 2 ≤ words }
{
    let plan = make_plan(4, words, 64, 1)?;
    let mut opened = Rows::open_planned::<4, 4, u64>(alloc, 1, 4_000, plan)?;
    let mut seat = opened.seats.pop().unwrap();
    let map = opened.map;
    let (Ok(board), Ok((row, room)), Ok((mut wanted, mut read))) = (
        Arc::try_clone(map.board()),
        rooms(alloc, words),
        rooms(alloc, words),
    ) else {
        return Err(NotOpened::Fault(Fault::NoMemory));
    };
    let live = Live::new(board, opened.live);
    let mut desk = Desk {
        writer: opened.writer,
        row,
        room,
    };
    desk.fill(rt);
    enters(rt, &live, &mut seat);
    compare(
        rt,
        words,
        found(&map, &mut seat, &mut wanted, &mut read),
        KEYS,
    );
    compare(
        rt,
        words,
        listed(&map, &mut seat, &mut wanted, &mut read),
        KEYS,
    );
    exits(rt, &live, &mut seat);
    desk.clear(rt);
    Ok(())
}

#[test]
fn entries_have_as_many_words_as_the_plan_says(rt: HostRuntime) {
    compare(&rt, 1, make_plan(4, 1, 40, 1), Err(NotOpened::BadSizes));
    for words in 2..=MOST {
        let mut used = uses(&rt, rt.alloc(), words);
        if used == Err(NotOpened::Fault(Fault::NoMemory)) {
            used = uses(&rt, rt.alloc(), words);
        }
        compare(&rt, words, used, Ok(()));
    }
}
