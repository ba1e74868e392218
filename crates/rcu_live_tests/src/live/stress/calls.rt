//! The callbacks of a hard run. They are queued and handed out, and a barrier begins and is tested,
//! under one lock: so what was handed out when a barrier is done is exact.
ghost use Rattle.std.specs.Prelude.{◌≡◌};

use crate::live::steps::Four;
use crate::live::stress::scene::Scene;
use crate::live::stress::stop::{Stop, hold_to};
use rcu_barrier::BarrierState;
use rcu_live::CpuSeat;
use rcu_seq::Fault;
use std::alloc::Global;
use std::sync::{Mutex, Wait};

/// A callback that was queued.
#[derive(Drop)]
struct Call {
    /// Drawn before it was queued.
    stamp: u64,
    is_handed_out: bool,
}

/// The callbacks of a run, by their values.
#[derive(Drop)]
pub(crate) struct Calls {
    all: Mutex<Vec<Call>>,
    most: usize,
}

impl Calls {
    /// No callbacks, with room for this many.
    pub(crate) fn new(alloc: Global, most: usize) -> Result<Calls, Stop> {
        let Ok(all) = Vec::with_capacity(alloc, most) else {
            return Err(Stop::NoVerdict);
        };
        Ok(Calls {
            all: Mutex::new(all),
            most,
        })
    }

    /// Queues a callback, as long as there is room.
    pub(crate) fn queue<R: Wait>(
        &self,
        rt: &R,
        scene: &Scene,
        live: &Four,
        seat: &mut CpuSeat,
    ) -> Result<(), Stop>
        requires { seat.old.table ≡ live.now.table }
        ensures { seat.new ≡ seat.old }
    {
        let mut all = self.all.lock(rt);
        if all.len() >= self.most {
            return Ok(());
        }
        let call = Call {
            stamp: scene.stamp(),
            is_handed_out: false,
        };
        let value = all.len() as u64;
        if let Err(refused) = live.queue(rt, seat, value) {
            return Err(Stop::from(refused.fault));
        }
        hold_to(all.push(call).is_ok(), Stop::NoVerdict)
    }

    /// Hands out callbacks of a processor, at most this many. None was handed out before, and no
    /// section is open that was open when it was queued.
    pub(crate) fn hand_out<R: Wait>(
        &self,
        rt: &R,
        scene: &Scene,
        live: &Four,
        cpu: u32,
        most: u64,
    ) -> Result<(), Stop> {
        let mut all = self.all.lock(rt);
        let ran = live.run(rt, cpu, most)?;
        for queued in ran.calls.iter() {
            let Some(call) = all.get_mut(queued.value as usize) else {
                return Err(Stop::WrongAnswer);
            };
            hold_to(!call.is_handed_out, Stop::CallbackTwice)?;
            call.is_handed_out = true;
            hold_to(!scene.is_open_since(call.stamp), Stop::EarlyCallback)?;
        }
        Ok(())
    }

    /// Begins a barrier, and answers how many callbacks were queued before.
    pub(crate) fn begin_barrier<R: Wait>(&self, rt: &R, live: &Four) -> Result<usize, Fault> {
        let all = self.all.lock(rt);
        live.barrier_begin(rt)?;
        Ok(all.len())
    }

    /// Returns whether the barrier is done. If it is, the callbacks that were queued before it,
    /// which are this many, were handed out.
    pub(crate) fn test_barrier<R: Wait>(
        &self,
        rt: &R,
        live: &Four,
        before: usize,
    ) -> Result<bool, Stop> {
        let all = self.all.lock(rt);
        if live.barrier_test(rt)? != BarrierState::Done {
            return Ok(false);
        }
        let whole = all.iter().take(before).all(|call| call.is_handed_out);
        hold_to(whole, Stop::EarlyBarrier)?;
        Ok(true)
    }

    /// Ends if a callback was not handed out.
    pub(crate) fn are_handed_out(&self, rt: &impl Wait) -> Result<(), Stop> {
        let all = self.all.lock(rt);
        hold_to(
            all.iter().all(|call| call.is_handed_out),
            Stop::CallbackLost,
        )
    }
}
