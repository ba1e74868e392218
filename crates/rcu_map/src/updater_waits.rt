//! Updates by several threads that wait until a node is free. None holds the lock while it waits.
ghost use Rattle.std.specs.Prelude.{◌≡◌, ◌≤◌, ◌<◌, ◌^◌, Err, IfErr, IfOk};
ghost use Rattle.rcu_seq.specs.declared.fault.Fault.{Fault};
ghost use Rattle.rcu_live.specs.Waits.{HasRested, wait_fault};
ghost use Rattle.rcu_live.specs.CpuSeat.{IsSeatOf};
ghost use Rattle.rcu_map.specs.Puts.{IsOfKey};
ghost use Rattle.rcu_map.specs.declared.put.NotPut.{NotPut};

use crate::entry::Entry;
use crate::put::{NotPut, Put};
use crate::shape::{MapRule, MapSeat};
use crate::updater::Updater;
use crate::writer_waits::check_outside;
use rcu_graph::Full;
use rcu_live::{Live, Within};
use rcu_seq::{Cookie, Tag};
use std::sync::Wait;

impl<E: Entry<W>, const W: usize, P: Within<MapRule<E, W>>> Updater<E, W, P> {
    /// Loads the number, and puts an entry in, if that needs no node or there is room. If a later
    /// number may free a node for it, `Err` is the number.
    fn look_and_put(
        &self,
        rt: &impl Wait,
        how: Put,
        entry: E,
    ) -> Result<Result<Option<E>, NotPut>, u64>
        requires { E.valid entry }
        ensures answer { IfOk result (λ answer. IfErr answer (λ why. why ≡ NotPut.Full)) }
        ensures number { IfErr result (λ number. number ≤ 2 ^ 62) }
        ensures old { IfOk result (λ answer. IfOk answer (λ old.
            IsOfKey E.valid E.key_of (E.key_of entry) old)) }
    {
        let mut writer = self.lock(rt);
        let number = writer.reclaim();
        match writer.put(how, entry) {
            Ok(old) => Ok(Ok(old)),
            Err(Full) if writer.is_one_too_many(entry.key()) => Ok(Err(NotPut::Full)),
            Err(Full) => Err(number),
        }
    }

    /// Inserts, replaces or upserts an entry, and returns the one that had its key, as
    /// [`MapWriter::put_or_wait`](crate::MapWriter::put_or_wait) does. It takes the lock for each
    /// load of the number, and does not hold it meanwhile, so other threads go on.
    ///
    /// No proof says that it returns: others may take each node that becomes free.
    ///
    /// Faults: `InSection` (4) if a section is open on the seat; `Exhausted` (11) if the last
    /// number is reached, so no further node becomes free.
    pub fn put_or_wait<const LEAF: u32, const FAN: u32, T: Drop>(
        &self,
        rt: &impl Wait,
        live: &Live<LEAF, FAN, T, P::Whole>,
        seat: &mut MapSeat<E, W, P>,
        how: Put,
        entry: E,
    ) -> Result<Option<E>, NotPut>
        requires seat { IsSeatOf live.now seat.old }
        requires sound { E.valid entry }
        ensures seat { IsSeatOf live.now seat.new }
        ensures rested { HasRested seat.old seat.new }
        ensures unchanged { 0 < seat.old.depth → seat.new ≡ seat.old }
        ensures in_section { 0 < seat.old.depth →
            result ≡ Err (NotPut.Fault Fault.InSection) }
        ensures fault { (fault : Fault) → result ≡ Err (NotPut.Fault fault) →
            fault ≡ wait_fault seat.old.depth }
        ensures old { IfOk result (λ old. IsOfKey E.valid E.key_of (E.key_of entry) old) }
    {
        check_outside(seat)?;
        let mut waited = Ok(());
        let mut rounds = 0;
        for _ in rt.forever() {
            match self.look_and_put(rt, how, entry) {
                Ok(answer) => return answer,
                Err(number) => {
                    waited?;
                    let cookie = Cookie::of(Tag::of_first_epoch(number));
                    waited = live.wait_once(rt, seat, cookie);
                    rounds = live.sleep_between(rt, seat, cookie, rounds);
                }
            }
        }
        unreachable!()
    }
}
