//! The readers of a hard run: one sleeps between its sections, and one departs.
ghost use Rattle.std.specs.Prelude.{◌≡◌};

use crate::live::stress::parts::Place;
use crate::live::stress::scene::Section;
use crate::live::stress::stop::{Stop, compare, hold_to};
use rcu_live::Watcher;
use rcu_seq::Fault;
use std::sync::Wait;

/// How long a section is held at least, in rounds of the driver, and the most that is added.
const ROUNDS: u64 = 4;

const MORE_ROUNDS: u64 = 16;

/// A reader, with its processor's seat and a watcher of its own.
#[derive(Drop)]
pub(crate) struct Reader<'a> {
    pub(crate) place: Place<'a>,
    pub(crate) section: &'a Section,
    pub(crate) watcher: Watcher,
    pub(crate) ghost seat_of: { place.seat.table ≡ place.live.now.table },
    pub(crate) ghost watcher_of: { watcher.table ≡ place.live.now.table },
}

impl<'a> Reader<'a> {
    /// Ends if a meeting does not show the section that is open: one that began no grace period
    /// ago.
    fn meet(&mut self) -> Result<u64, Stop> {
        let live = self.place.live;
        let met = live.meet(&mut self.place.seat, &mut self.watcher);
        let Some(met) = met else {
            return Err(Stop::WrongMeeting);
        };
        let Some(opened) = met.opened else {
            return Err(Stop::WrongMeeting);
        };
        let ended = (met.seen / 4).saturating_sub(opened.div_ceil(4));
        hold_to(opened <= met.seen && ended == 0, Stop::WrongMeeting)?;
        Ok(opened)
    }

    /// Tries what no open section lets through.
    fn try_inside(&mut self) -> Result<(), Stop> {
        let live = self.place.live;
        compare(self.place.seat.idle(live), Err(Fault::InSection))?;
        compare(self.place.seat.quiesce(live), Err(Fault::InSection))
    }

    /// Reads for this many rounds of the driver. A cookie that was taken at the section's begin is
    /// not done at its end.
    fn read(&mut self, rounds: u64) -> Result<(), Stop> {
        let live = self.place.live;
        compare(self.place.seat.enter(live), Ok(1))?;
        let cookie = self.watcher.take(live);
        self.place.scene.note_open(self.section);
        self.place.scene.wake.give();
        let since = self.place.scene.round.count();
        let opened = self.meet()?;
        self.try_inside()?;
        self.place
            .scene
            .wait(&self.place.scene.round, since, rounds);
        hold_to(self.meet()? == opened, Stop::WrongMeeting)?;
        let live = self.place.live;
        hold_to(!self.watcher.poll(live, cookie), Stop::EarlyCookie)?;
        self.place.scene.note_close(self.section);
        compare(self.place.seat.exit(live), Ok(0))
    }

    /// Sleeps, reads when it wakes, and reads again after a quiescent state. It wakes if no grace
    /// period runs, or this many looks after the driver is about to begin one.
    fn sleep_and_read(&mut self, looks: u64) -> Result<(), Stop> {
        let live = self.place.live;
        let sign = if looks % 2 == 0 {
            &self.place.scene.pause
        } else {
            &self.place.scene.begin
        };
        let since = sign.count();
        self.place.seat.idle(live)?;
        self.place.scene.sleep.give();
        self.place.scene.wait(sign, since, 1);
        for _ in 0..looks {
            self.place.scene.is_ended();
        }
        self.place.seat.wake(live)?;
        self.read(ROUNDS + looks % MORE_ROUNDS)?;
        let live = self.place.live;
        self.place.seat.quiesce(live)?;
        self.read(ROUNDS)
    }

    /// Arrives, and then sleeps and reads until the run ends.
    fn sleep<R: Wait>(&mut self, rt: &R) -> Result<(), Stop> {
        let live = self.place.live;
        live.online(rt, &mut self.place.seat)?;
        self.place.scene.gather()?;
        for round in 0..u64::MAX {
            if self.place.scene.is_ended() {
                break;
            }
            self.sleep_and_read(round % 128)?;
        }
        self.place.depart(rt)
    }

    /// Arrives, reads, and departs with callbacks while a barrier runs that has not visited the
    /// processor. It is idle meanwhile, but now and then, when its callbacks have to wait for it.
    fn come_and_go<R: Wait>(&mut self, rt: &R, round: u64) -> Result<(), Stop> {
        let live = self.place.live;
        live.online(rt, &mut self.place.seat)?;
        self.read(ROUNDS)?;
        let since = self.place.scene.barrier.count();
        for _ in 0..2 {
            self.place.queue(rt)?;
        }
        if round % 4 != 0 {
            let live = self.place.live;
            self.place.seat.idle(live)?;
        }
        self.place.scene.queued.give();
        self.place.scene.wait(&self.place.scene.barrier, since, 1);
        self.place.depart(rt)?;
        self.place.scene.departure.give();
        Ok(())
    }

    /// Comes and goes, until the run ends.
    fn come<R: Wait>(&mut self, rt: &R) -> Result<(), Stop> {
        self.place.scene.gather()?;
        for round in 0..u64::MAX {
            if self.place.scene.is_ended() {
                break;
            }
            self.come_and_go(rt, round)?;
        }
        Ok(())
    }

    /// The thread of the reader that sleeps.
    pub(crate) fn run_asleep<R: Wait>(mut self, rt: &R) {
        let result = self.sleep(rt);
        self.place.scene.end(rt, result);
    }

    /// The thread of the reader that departs.
    pub(crate) fn run_away<R: Wait>(mut self, rt: &R) {
        let result = self.come(rt);
        self.place.scene.end(rt, result);
    }
}
