//! The words of requests, and each kind of step on them.
ghost use Rattle.std.specs.Prelude.{◌≡◌, ◌<◌, IfOk, false, true};
ghost use Rattle.rcu_request.specs.Requests.{Found, Raised, after_look_at_driver, after_saying};
ghost use Rattle.rcu_request.specs.Requests.{driver_at_first, first_words, knowing_cpu};
ghost use Rattle.rcu_request.specs.Requests.{thread_at_first};
ghost use Rattle.rcu_request.specs.Seats.{Stepped};

use crate::knowledge::Knowledge;
use crate::rule::{Arrive, Find, LookAtCpu, LookAtDriver, NameCpu, Raise, RequestRule, Say};
use atomic_table::{Seat, Table};
use std::alloc::{AllocError, Global};
use std::marker::Model;

/// The place of the greatest request.
const GREATEST: usize = 0;

/// The place of the word by which the driver says whether it sleeps: 128 bytes on, so that the two
/// share no cache line.
const ASLEEP: usize = 16;

/// The place of the word by which the driver says for which processor it sleeps, 128 bytes on.
const CPU: usize = 32;

/// The number of words: no word of another object shares a cache line with the last one in use.
const COUNT: usize = 48;

/// The request at first: a cookie that is done at any number.
const NO_REQUEST: u64 = 1;

/// Returns the words at first.
fn first_words(alloc: Global) -> Result<Vec<u64>, AllocError>
    ensures { IfOk result (λ words. words.items ≡ first_words) }
{
    let mut words = vec![in alloc; 0u64; COUNT]?;
    words[GREATEST] = NO_REQUEST;
    Ok(words)
}

/// The words of requests.
#[derive(Drop)]
pub struct RequestWords {
    table: Table<(), Knowledge, (), RequestRule, Global>,
}

impl Model for RequestWords {
    ghost use Rattle.std.specs.Prelude.{◌<◌};
    ghost use Rattle.atomic_table.specs.Seated.{TableId};
    ghost use Rattle.rcu_request.specs.Requests.{cpu_index};

    ghost Value = { TableId };

    ghost view = { λ w. w.table.shared.table_id };

    ghost invariant = { λ w. cpu_index < w.table.shared.table_id.words };
}

/// A seat at the words.
pub(crate) type RequestSeat = Seat<(), Knowledge>;

impl RequestWords {
    /// Returns the words with their first seat, which is the driver's.
    pub(crate) fn open(alloc: Global) -> Result<(RequestWords, RequestSeat), AllocError>
        ensures table { IfOk result (λ r. r.1.table_id ≡ r.0) }
        ensures driver { IfOk result (λ r. r.1.me.0 ≡ driver_at_first) }
    {
        let words = first_words(alloc)?;
        let Ok((table, seat)) = Table::new(alloc, words.as_slice(), Vec::new(alloc), &()) else {
            return Err(AllocError);
        };
        Ok((RequestWords { table }, seat))
    }

    /// Returns a thread's seat, by a load that makes one.
    pub(crate) fn deal(&self) -> RequestSeat
        ensures table { result.table_id ≡ self.now }
        ensures thread { result.me.0 ≡ thread_at_first }
    {
        let (_, seat) = self.table.shared.load_new_seat::<Arrive>(GREATEST);
        seat
    }

    /// Raises the greatest request to this cookie, if that is greater. Returns the previous one.
    pub(crate) fn raise(&self, thread: &mut RequestSeat, cookie: u64) -> u64
        requires table { thread.old.table_id ≡ self.now }
        requires thread { thread.old.me.0.drives ≡ false }
        ensures { Stepped (λ old new. Raised cookie old result new) thread.old thread.new }
    {
        self.table
            .shared
            .fetch_max::<Raise>(thread, GREATEST, cookie)
    }

    /// Loads whether the driver sleeps, by a thread's seat.
    pub(crate) fn look_at_driver(&self, thread: &mut RequestSeat) -> u64
        requires table { thread.old.table_id ≡ self.now }
        requires thread { thread.old.me.0.drives ≡ false }
        ensures { Stepped (λ old new. new ≡ after_look_at_driver old result)
            thread.old thread.new }
    {
        self.table.shared.load::<LookAtDriver>(thread, ASLEEP)
    }

    /// Stores whether the driver sleeps.
    pub(crate) fn say(&self, driver: &mut RequestSeat, word: u64)
        requires table { driver.old.table_id ≡ self.now }
        requires driver { driver.old.me.0.drives ≡ true }
        requires word { word < 2 }
        ensures { Stepped (λ old new. new ≡ after_saying old word) driver.old driver.new }
    {
        self.table.shared.store::<Say>(driver, ASLEEP, word)
    }

    /// Loads the greatest request, by the driver's seat.
    pub(crate) fn find(&self, driver: &mut RequestSeat) -> u64
        requires table { driver.old.table_id ≡ self.now }
        requires driver { driver.old.me.0.drives ≡ true }
        ensures { Stepped (λ old new. Found old result new) driver.old driver.new }
    {
        self.table.shared.load::<Find>(driver, GREATEST)
    }

    /// Stores for which processor the driver sleeps: this number less 1, or none for 0.
    pub(crate) fn name_cpu(&self, driver: &mut RequestSeat, word: u64)
        requires table { driver.old.table_id ≡ self.now }
        requires driver { driver.old.me.0.drives ≡ true }
        ensures { Stepped (λ old new. new ≡ knowing_cpu old word) driver.old driver.new }
    {
        self.table.shared.store::<NameCpu>(driver, CPU, word)
    }

    /// Loads for which processor the driver sleeps, by a thread's seat.
    pub(crate) fn look_at_cpu(&self, thread: &mut RequestSeat) -> u64
        requires table { thread.old.table_id ≡ self.now }
        requires thread { thread.old.me.0.drives ≡ false }
        ensures { Stepped (λ old new. new ≡ knowing_cpu old result) thread.old thread.new }
    {
        self.table.shared.load::<LookAtCpu>(thread, CPU)
    }
}
