//! Meetings of a watcher with a processor's seat.
ghost use Rattle.std.specs.Prelude.{◌≡◌, ℕ, IfSome, None, Some};
ghost use Rattle.rcu_live.specs.CpuSeat.{AcceptedAt, after_look};
ghost use Rattle.rcu_live.specs.Met.{MeetsSection, meet_answer};
ghost use Rattle.rcu_live.specs.Numbers.{idle_word};
ghost use Rattle.rcu_live.specs.Watcher.{WatchedAt};

use crate::board::Board;
use crate::client::Client;
use crate::cpu_seat::CpuSeat;
use crate::watcher::Watcher;

/// The result of a meeting.
#[derive(Clone, Copy, Debug, PartialEq, Eq)]
pub struct Met {
    /// The number at which the open section began; none if no section is open.
    pub opened: Option<u64>,
    /// The number that the watcher saw.
    pub seen: u64,
}

impl<P: Client> Board<P> {
    /// Does the work of [`Live::meet`](crate::live::Live): it has only the words, and no access to
    /// the lock.
    pub(crate) fn meet(&self, seat: &mut CpuSeat<P>, watcher: &mut Watcher<P>) -> Option<Met>
        requires seat { seat.old.table ≡ self.now.table }
        requires watcher { watcher.old.table ≡ self.now.table }
        ensures watcher { WatchedAt watcher.old watcher.new.view.seen watcher.new }
        ensures seat { AcceptedAt after_look seat.old seat.new.view.seen seat.new }
        ensures answer { result ≡
            meet_answer seat.old.view.section watcher.new.view.seen seat.new.view.seen }
        ensures open { IfSome result (λ met. (at : ℕ) → met.opened ≡ Some at →
            MeetsSection met at) }
        ensures idle { seat.old.view.own_word ≡ idle_word → IfSome result (λ met.
            met.opened ≡ None) }
    {
        let seen = watcher.look(self);
        let now = seat.look(self);
        let opened = seat.opened();
        if seen > now || opened.is_some_and(|at| at > seen) {
            return None;
        }
        Some(Met { opened, seen })
    }
}
