//! A map's writer behind a lock, for updates by several threads.
ghost use Rattle.std.specs.Prelude.{◌≡◌, ◌≤◌, ◌^◌, IfOk, IfSome};
ghost use Rattle.rcu_map.specs.Puts.{IsOfKey};

use crate::entry::Entry;
use crate::put::Put;
use crate::shape::MapRule;
use crate::writer::MapWriter;
use rcu_graph::Full;
use rcu_live::{Alone, Within};
use std::hint::spin_loop;
use std::sync::{Mutex, MutexGuard, Wait};

/// How often the first thread in line looks at the lock before it sleeps: for half a millisecond.
const LOOKS: u32 = 50;

/// The most steps of a pause between two looks: some 10 microseconds, or a hundred updates of the
/// thread that has the lock.
const LONGEST: u32 = 1024;

fn pause(steps: u32) {
    for _ in 0..steps {
        spin_loop();
    }
}

/// The writer of a map behind a lock: threads that share it update the map, one call at a time.
/// [`MapWriter`] says what each call does to the map. None holds the lock while it waits for a
/// reader.
#[derive(Drop)]
pub struct Updater<E: Entry<W>, const W: usize, P: Within<MapRule<E, W>> = Alone> {
    writer: Mutex<MapWriter<E, W, P>>,
    /// The first thread in line for the writer has this lock, and the others sleep. If all of them
    /// slept for the writer, each update would wake one, and they would change at each update.
    line: Mutex<()>,
}

impl<E: Entry<W>, const W: usize, P: Within<MapRule<E, W>>> Updater<E, W, P> {
    /// Puts the writer of a map under a lock.
    pub fn new(writer: MapWriter<E, W, P>) -> Self {
        Updater {
            writer: Mutex::new(writer),
            line: Mutex::new(()),
        }
    }

    /// Looks at the lock a few times, with longer and longer pauses, until it is free.
    fn look(&self) -> Option<MutexGuard<'_, MapWriter<E, W, P>>> {
        let mut steps = 1u32;
        for _ in 0..LOOKS {
            if let Some(writer) = self.writer.try_lock() {
                return Some(writer);
            }
            pause(steps);
            steps = steps.saturating_mul(2).min(LONGEST);
        }
        None
    }

    /// Lends the writer, for several steps without another thread's between them.
    pub fn lock(&self, rt: &impl Wait) -> MutexGuard<'_, MapWriter<E, W, P>> {
        if let Some(writer) = self.writer.try_lock() {
            return writer;
        }
        let _first = self.line.lock(rt);
        match self.look() {
            Some(writer) => writer,
            None => self.writer.lock(rt),
        }
    }

    /// Inserts, replaces or upserts an entry, as `how` says, and returns the one that had its key.
    fn put(&self, rt: &impl Wait, how: Put, entry: E) -> Result<Option<E>, Full>
        requires { E.valid entry }
        ensures { IfOk result (λ old. IsOfKey E.valid E.key_of (E.key_of entry) old) }
    {
        self.lock(rt).put(how, entry)
    }

    /// Inserts an entry if none has its key, as [`MapWriter::insert`] does.
    pub fn insert(&self, rt: &impl Wait, entry: E) -> Result<Option<E>, Full>
        requires { E.valid entry }
        ensures { IfOk result (λ old. IsOfKey E.valid E.key_of (E.key_of entry) old) }
    {
        self.put(rt, Put::Insert, entry)
    }

    /// Replaces the entry that has the key, as [`MapWriter::replace`] does.
    pub fn replace(&self, rt: &impl Wait, entry: E) -> Result<Option<E>, Full>
        requires { E.valid entry }
        ensures { IfOk result (λ old. IsOfKey E.valid E.key_of (E.key_of entry) old) }
    {
        self.put(rt, Put::Replace, entry)
    }

    /// Inserts an entry, or replaces the one that has its key, as [`MapWriter::upsert`] does.
    pub fn upsert(&self, rt: &impl Wait, entry: E) -> Result<Option<E>, Full>
        requires { E.valid entry }
        ensures { IfOk result (λ old. IsOfKey E.valid E.key_of (E.key_of entry) old) }
    {
        self.put(rt, Put::Upsert, entry)
    }

    /// Replaces the entry that has the key, if that is as it was read, as
    /// [`MapWriter::compare_replace`] does.
    pub fn compare_replace(&self, rt: &impl Wait, read: E, entry: E) -> Result<Option<E>, Full>
        requires sound { E.valid entry }
        requires sound_read { E.valid read }
        ensures { IfOk result (λ old. IsOfKey E.valid E.key_of (E.key_of entry) old) }
    {
        self.lock(rt).compare_replace(read, entry)
    }

    /// Removes the entry of a key, if it is as it was read, as [`MapWriter::compare_remove`] does.
    pub fn compare_remove(&self, rt: &impl Wait, read: E) -> Option<E>
        requires { E.valid read }
        ensures { IsOfKey E.valid E.key_of (E.key_of read) result }
    {
        self.lock(rt).compare_remove(read)
    }

    /// Removes the entry of a key, as [`MapWriter::remove`] does.
    pub fn remove(&self, rt: &impl Wait, key: u64) -> Option<E>
        ensures { IsOfKey E.valid E.key_of key result }
    {
        self.lock(rt).remove(key)
    }

    /// Loads the number, and returns it, as [`MapWriter::reclaim`] does.
    pub fn reclaim(&self, rt: &impl Wait) -> u64
        ensures { result ≤ 2 ^ 62 }
    {
        self.lock(rt).reclaim()
    }

    /// Returns the entry of a key, as [`MapWriter::get`] does. It misses no earlier change, as a
    /// section may.
    pub fn get(&self, rt: &impl Wait, key: u64) -> Option<E>
        ensures keyed { IfSome result (λ entry. E.key_of entry ≡ key) }
        ensures sound { IfSome result (λ entry. E.valid entry) }
    {
        self.lock(rt).get(key)
    }

    /// Returns the number of entries.
    pub fn len(&self, rt: &impl Wait) -> usize {
        self.lock(rt).len()
    }
}
