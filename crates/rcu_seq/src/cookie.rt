//! Cookies of polled grace periods.
ghost use Rattle.std.specs.Prelude.{◌≡◌, ◌≤◌, ◌<◌, ◌^◌};
ghost use Rattle.rcu_seq.specs.Numbers.{snapshot};
ghost use Rattle.rcu_seq.specs.Tags.{cookie_at, has_come, is_done_at, is_done_first};

use crate::tag::Tag;

/// The low bits of a number, which are not 0 while a grace period runs.
const STATE_BITS: u64 = 3;

/// From `4k` beyond `4k + 4`, and from `4k + 1` to `4k + 8`.
const TO_NEXT_END: u64 = 7;

/// The number of a cookie that is done at any time.
const ALWAYS_DONE: u64 = 1;

/// The number that ends an epoch's first grace period.
pub const FIRST_END: u64 = 4;

/// A cookie to poll: the number that ends the first grace period to begin after the snapshot, and
/// the epoch of the snapshot (Linux's `get_state_synchronize_rcu`). If that grace period is in the
/// next epoch, the number counts on past the last number. A cookie of number 1 is done at any time.
#[derive(Clone, Copy, Debug, PartialEq, Eq)]
pub struct Cookie {
    /// The epoch in which it was taken.
    pub epoch: u64,
    /// The number that it waits for.
    pub number: u64,
}

/// The number that ends the first grace period to begin after this number, which is at most 2^62
/// (Linux's `rcu_seq_snap`). A running grace period is not enough, since a reader may have begun
/// after its start.
pub fn snapshot(number: u64) -> u64
    requires { number ≤ 2 ^ 62 }
    ensures { result ≡ snapshot number }
{
    (number + TO_NEXT_END) & !STATE_BITS
}

impl Cookie {
    /// The cookie of a snapshot at this tag, whose number is at most 2^62.
    pub fn of(now: Tag) -> Cookie
        requires { now.number ≤ 2 ^ 62 }
        ensures { result ≡ cookie_at now }
    {
        Cookie {
            epoch: now.epoch,
            number: snapshot(now.number),
        }
    }

    /// Returns whether the cookie is done at this tag. `last` is the number that ends an epoch
    /// (Linux's `poll_state_synchronize_rcu`, without wrap-around). A cookie of number 1 is done. A
    /// cookie of the same epoch is done if the number is at least the cookie's. A cookie of the
    /// epoch before is done if its number is at most `last`, or if the number is at least 4. A
    /// cookie of an older epoch is done, and one of a later epoch is not.
    pub fn is_done_at(self, now: Tag, last: u64) -> bool
        ensures { result ≡ is_done_at last self now }
    {
        self.number == ALWAYS_DONE || self.has_come(now, last)
    }

    /// The same for a counter that is never renumbered.
    pub fn is_done_first(self, number: u64) -> bool
        ensures { result ≡ is_done_first self number }
    {
        self.number == ALWAYS_DONE || (self.epoch == 0 && number >= self.number)
    }

    /// Returns whether the number that it waits for was reached.
    fn has_come(self, now: Tag, last: u64) -> bool
        ensures { result ≡ has_come last self now }
    {
        if self.epoch >= now.epoch {
            return self.epoch == now.epoch && self.number <= now.number;
        }
        now.epoch - self.epoch > 1 || self.number <= last || FIRST_END <= now.number
    }
}
