//! Reads of a cell in an open section, and reads with a section of their own.
ghost use Rattle.std.specs.Prelude.{◌≡◌, IfOk, OnErr, OnOk};
ghost use Rattle.std.specs.Result.{result_err};
ghost use Rattle.rcu_live.specs.CpuSeat.{AcceptedAt, enter_refusal};
ghost use Rattle.rcu_live.specs.InPart.{seat_part};
ghost use Rattle.rcu_graph.specs.Graph.{IsOutside, IsWalking};
ghost use Rattle.rcu_graph.specs.Sections.{after_section};
ghost use Rattle.rcu_cell.specs.Cell.{IsLoaded, ReadsOn, version_in};
ghost use Rattle.rcu_cell.specs.Lent.{IsLentBy, lent};

use crate::cell::Cell;
use crate::shape::{CellRule, CellSeat, Version};
use crate::version_guard::VersionGuard;
use rcu_graph::Value;
use rcu_live::{Shared, Within};
use rcu_seq::Fault;

impl<F: Version<W>, const W: usize, P: Within<CellRule<F, W>>> Cell<F, W, P> {
    /// Loads the current version, as [`load`](Self::load) does, and lends it the seat: the section
    /// stays open, and reads this version, until it is dropped.
    pub fn loaded<'a>(&'a self, seat: &'a mut CellSeat<F, W, P>) -> VersionGuard<'a, F, W, P>
        requires { IsWalking self.now (seat_part P.lens seat.old) }
        ensures lent { IsLentBy P.lens self.now seat.old seat.entry.ghost_name (lent result) }
        ensures loaded { IsLoaded F.holds F.first W (P.lens.get seat.old.view.client).known
            (lent result).slot (P.lens.get (lent result).seat.view.client).known }
    {
        let slot = self.load(seat);
        VersionGuard {
            cell: self,
            seat,
            slot,
        }
    }

    /// Returns all words of the current version, by one load, and one for each word. They are of
    /// one version, which the section reads from now on.
    pub fn snapshot(&self, seat: &mut CellSeat<F, W, P>) -> [u64; W]
        requires { IsWalking self.now (seat_part P.lens seat.old) }
        ensures state { ReadsOn P.lens self.now seat.old seat.new }
        ensures words { result ≡ version_in F.first (P.lens.get seat.new.view.client).known }
        ensures whole { F.holds result }
    {
        self.loaded(seat).snapshot()
    }
}

impl<F: Value<W> + Version<W>, const W: usize, P: Within<CellRule<F, W>>> Cell<F, W, P> {
    /// Returns the current value, by one load, and one for each word, in an open section.
    pub fn value(&self, seat: &mut CellSeat<F, W, P>) -> F
        requires { IsWalking self.now (seat_part P.lens seat.old) }
        ensures state { ReadsOn P.lens self.now seat.old seat.new }
        ensures told { result
            ≡ F.decode (version_in F.first (P.lens.get seat.new.view.client).known) }
        ensures sound { F.valid result }
    {
        self.loaded(seat).value()
    }
}

impl<F: Version<W>, const W: usize> Cell<F, W> {
    /// Reads the current version in a section of its own, by three loads and one for each word. It
    /// takes no lock and never waits.
    ///
    /// Faults: `Offline` (2) if the processor is offline; `CpuIdle` (23) if it is idle.
    pub fn read_section<L: Shared<CellRule<F, W>>>(
        &self,
        live: &L,
        seat: &mut CellSeat<F, W>,
    ) -> Result<[u64; W], Fault>
        requires engine { L.object live.now ≡ self.now }
        requires seat { IsOutside self.now seat.old }
        ensures outside { IsOutside self.now seat.new }
        ensures fault { result_err result ≡ enter_refusal seat.old }
        ensures state { OnOk result
            (AcceptedAt after_section seat.old seat.new.view.seen seat.new) }
        ensures whole { IfOk result (λ words. F.holds words) }
        ensures unchanged { OnErr result (seat.new ≡ seat.old) }
    {
        seat.enter(live)?;
        let words = self.snapshot(seat);
        let Ok(_) = seat.exit(live) else {
            unreachable!()
        };
        Ok(words)
    }
}

impl<F: Value<W> + Version<W>, const W: usize> Cell<F, W> {
    /// Reads the current value in a section of its own, as [`read_section`](Self::read_section)
    /// does its words.
    ///
    /// Faults: `Offline` (2) if the processor is offline; `CpuIdle` (23) if it is idle.
    pub fn value_section<L: Shared<CellRule<F, W>>>(
        &self,
        live: &L,
        seat: &mut CellSeat<F, W>,
    ) -> Result<F, Fault>
        requires engine { L.object live.now ≡ self.now }
        requires seat { IsOutside self.now seat.old }
        ensures outside { IsOutside self.now seat.new }
        ensures fault { result_err result ≡ enter_refusal seat.old }
        ensures state { OnOk result
            (AcceptedAt after_section seat.old seat.new.view.seen seat.new) }
        ensures sound { IfOk result (λ value. F.valid value) }
        ensures unchanged { OnErr result (seat.new ≡ seat.old) }
    {
        Ok(F::of_words(&self.read_section(live, seat)?))
    }
}
