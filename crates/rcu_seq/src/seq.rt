//! The counter of grace periods.
ghost use Rattle.std.specs.Prelude.{◌≡◌, ◌≤◌, ◌^◌, true, IfOk, OnOk, OnErr};
ghost use Rattle.std.specs.Result.{result_err};
ghost use Rattle.rcu_seq.specs.Numbers.{is_last};
ghost use Rattle.rcu_seq.specs.Seq.{Begin, End, Renumber, after_turn, at_first, cookie_of};
ghost use Rattle.rcu_seq.specs.Seq.{is_done, last_refusal, number_of, refusal, tag_of};
ghost use Rattle.rcu_seq.specs.Tags.{last_epoch};

use crate::cookie::Cookie;
use crate::fault::Fault;
use crate::tag::Tag;
use std::marker::Model;

/// From `4k + 1`, at which a grace period runs, to `4k + 4`, at which it has ended.
const TO_END: u64 = 3;

/// The greatest last number, 2^62.
const GREATEST_LAST: u64 = 1 << 62;

/// The last epoch.
const LAST_EPOCH: u64 = 4_294_967_295;

/// The counter of grace periods, which begins idle at 0 (Linux's `gp_seq`, RCU's Data-Structures
/// document).
///
/// Its number is `4k` if `k` grace periods ended and none runs, and `4k + 1` while one runs. A
/// renumbering at the last number sets it back to 0, in the next epoch. Contracts see the epoch,
/// the count of grace periods that ended in it, whether one runs, and the last number.
#[derive(Debug, Drop)]
pub struct Seq {
    epoch: u64,
    value: u64,
    last: u64,
}

impl Model for Seq {
    ghost use Rattle.std.specs.Prelude.{◌≡◌, ◌≤◌, ◌/◌, ◌%◌, true};
    ghost use Rattle.rcu_seq.specs.Seq.{Periods};
    ghost use Rattle.rcu_seq.specs.Numbers.{is_last, is_running};
    ghost use Rattle.rcu_seq.specs.Tags.{last_epoch};

    ghost Value = { Periods };

    ghost view = { λ s. record {
      epoch = s.epoch;
      ends = s.value / 4;
      running = is_running s.value;
      last = s.last;
    } };

    ghost invariant = { λ s. record {
      state : s.value % 4 ≤ 1;
      within : s.value ≤ s.last;
      last : is_last s.last ≡ true;
      epochs : s.epoch ≤ last_epoch;
    } };
}

impl Seq {
    /// A counter that is idle at 0 of epoch 0.
    ///
    /// Fault `BadLast` (19): `last` is not a multiple of 4 in 4..=2^62.
    pub fn new(last: u64) -> Result<Seq, Fault>
        ensures fault { result_err result ≡ last_refusal last }
        ensures state { IfOk result (λ seq. seq ≡ at_first last 0) }
    {
        Seq::at_epoch(last, 0)
    }

    /// A counter that is idle at 0 of this epoch. The epoch is at most 4,294,967,295.
    ///
    /// Fault `BadLast` (19): `last` is not a multiple of 4 in 4..=2^62.
    pub fn at_epoch(last: u64, epoch: u64) -> Result<Seq, Fault>
        requires { epoch ≤ last_epoch }
        ensures fault { result_err result ≡ last_refusal last }
        ensures state { IfOk result (λ seq. seq ≡ at_first last epoch) }
    {
        if last % 4 == 0 && 4 <= last && last <= GREATEST_LAST {
            Ok(Seq {
                epoch,
                value: 0,
                last,
            })
        } else {
            Err(Fault::BadLast)
        }
    }

    /// The epoch, which counts renumberings from 0, at most 4,294,967,295.
    pub fn epoch(&self) -> u64
        ensures value { result ≡ self.now.epoch }
        ensures bounded { result ≤ last_epoch }
    {
        self.epoch
    }

    /// The number in its epoch.
    pub fn tag(&self) -> Tag
        ensures value { result ≡ tag_of self.now }
        ensures bounded { result.number ≤ 2 ^ 62 }
    {
        Tag {
            epoch: self.epoch,
            number: self.value,
        }
    }

    /// The number: 4 times the grace periods that ended, and 1 more while one runs. It is at most
    /// 2^62.
    pub fn value(&self) -> u64
        ensures value { result ≡ number_of self.now }
        ensures within { result ≤ self.now.last }
        ensures bounded { result ≤ 2 ^ 62 }
    {
        self.value
    }

    /// The number at which no further grace period begins, a multiple of 4 in 4..=2^62.
    pub fn last(&self) -> u64
        ensures value { result ≡ self.now.last }
        ensures range { is_last result ≡ true }
    {
        self.last
    }

    /// Returns whether a grace period runs.
    pub fn is_running(&self) -> bool
        ensures { result ≡ self.now.running }
    {
        self.value % 4 == 1
    }

    /// Takes a snapshot: the cookie of now, as [`Cookie::of`] defines it.
    pub fn snap(&self) -> Cookie
        ensures { result ≡ cookie_of self.now }
    {
        Cookie::of(self.tag())
    }

    /// Returns whether a cookie is done now, as [`Cookie::is_done_at`] defines it.
    pub fn done(&self, cookie: Cookie) -> bool
        ensures { result ≡ is_done cookie self.now }
    {
        cookie.is_done_at(self.tag(), self.last)
    }

    /// Begins a grace period, and returns its number (Linux's `rcu_seq_start`).
    ///
    /// Faults: `Running` (8) if one runs; `Exhausted` (11) if the number is `last`.
    pub fn start(&mut self) -> Result<u64, Fault>
        ensures number { IfOk result (λ number. number ≡ number_of self.new) }
        ensures fault { result_err result ≡ refusal self.old Begin }
        ensures state { OnOk result (self.new ≡ after_turn self.old Begin) }
        ensures unchanged { OnErr result (self.new ≡ self.old) }
    {
        if self.is_running() {
            return Err(Fault::Running);
        }
        if self.value == self.last {
            return Err(Fault::Exhausted);
        }
        self.value += 1;
        Ok(self.value)
    }

    /// Ends the running grace period, and returns the new number (Linux's `rcu_seq_end`).
    ///
    /// Fault `Idle` (9): none runs.
    pub fn end(&mut self) -> Result<u64, Fault>
        ensures number { IfOk result (λ number. number ≡ number_of self.new) }
        ensures fault { result_err result ≡ refusal self.old End }
        ensures state { OnOk result (self.new ≡ after_turn self.old End) }
        ensures unchanged { OnErr result (self.new ≡ self.old) }
    {
        if !self.is_running() {
            return Err(Fault::Idle);
        }
        self.value += TO_END;
        Ok(self.value)
    }

    /// Renumbers: the number becomes 0 in the next epoch. Returns that epoch.
    ///
    /// Faults: `Running` (8) if a grace period runs; `NotLast` (22) if the number is not `last`;
    /// `Exhausted` (11) if the epoch is the last one.
    pub fn renumber(&mut self) -> Result<u64, Fault>
        ensures epoch { IfOk result (λ epoch. epoch ≡ self.new.epoch) }
        ensures bounded { self.new.epoch ≤ last_epoch }
        ensures fault { result_err result ≡ refusal self.old Renumber }
        ensures state { OnOk result (self.new ≡ after_turn self.old Renumber) }
        ensures unchanged { OnErr result (self.new ≡ self.old) }
    {
        if self.is_running() {
            return Err(Fault::Running);
        }
        if self.value != self.last {
            return Err(Fault::NotLast);
        }
        if self.epoch == LAST_EPOCH {
            return Err(Fault::Exhausted);
        }
        self.epoch += 1;
        self.value = 0;
        Ok(self.epoch)
    }
}
