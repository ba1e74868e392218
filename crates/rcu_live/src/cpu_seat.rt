//! A processor's seat: its read sections, its quiescent states and its idleness.
ghost use Rattle.std.specs.Prelude.{◌≡◌, ◌≢◌, ◌<◌, ◌≤◌, ◌+◌, ◌==◌, ◌&&◌, ℕ, IfOk, None, OnErr};
ghost use Rattle.std.specs.Prelude.{OnOk, Some, false, not};
ghost use Rattle.std.specs.Result.{result_err};
ghost use Rattle.rcu_live.specs.Board.{HasWord};
ghost use Rattle.rcu_live.specs.Client.{AllowsAt, AllowsWord};
ghost use Rattle.rcu_live.specs.CpuSeat.{AcceptedAt, IsSeatOf, KnowsBy, NotedAt, RenewedAt};
ghost use Rattle.rcu_live.specs.CpuSeat.{after_depart, after_pin, after_unpin, pin_refusal};
ghost use Rattle.rcu_live.specs.CpuSeat.{renew_refusal, repin_refusal, unpin_refusal};
ghost use Rattle.rcu_live.specs.CpuSeat.{after_enter, after_exit, after_idle, after_look};
ghost use Rattle.rcu_live.specs.CpuSeat.{after_quiesce, after_quiesce_since, arrive_refusal};
ghost use Rattle.rcu_live.specs.CpuSeat.{at_first, depart_refusal, enter_refusal, exit_refusal};
ghost use Rattle.rcu_live.specs.CpuSeat.{quiesce_refusal, reported, wake_refusal};
ghost use Rattle.rcu_live.specs.Numbers.{idle_word, is_past};
ghost use Rattle.rcu_live.specs.View.{cpu_seat};
ghost use Rattle.rcu_live.specs.Words.{own_word_index};

use crate::board::{Board, TableSeat};
use crate::client::{Client, NoClient, WordStep};
use crate::shared::Shared;
use rcu_cpu::CpuData;
use rcu_seq::{Fault, Tag};
use std::marker::Model;

/// The own word of an idle processor: it is above each number, so it clears its processor.
const IDLE_WORD: u64 = 1 << 63;

/// A processor's seat, for one thread.
///
/// After each store of its own word, except in a wake, a pin or an arrival, a call looks once
/// whether it has to wake the waiters that sleep until then. The contract of each call counts its
/// loads of the number, its stores and its looks; [`Shared::stored`] says what a look costs.
#[derive(Drop)]
pub struct CpuSeat<P: Client = NoClient> {
    /// The state of the processor: whether it is online and whether it is idle, the depth of its
    /// sections, and the number of its latest quiescent state, wake or arrival: its own word less
    /// one.
    data: CpuData,
    /// The number at which the open section began.
    opened: Option<u64>,
    seat: TableSeat<P>,
}

impl<P: Client> Model for CpuSeat<P> {
    ghost use Rattle.std.specs.Prelude.{◌≡◌, ◌≤◌, ◌<◌, ◌^◌, IsSome, None, false, true};
    ghost use Rattle.rcu_live.specs.CpuSeat.{Seated, own_word_of};
    ghost use Rattle.rcu_live.specs.Words.{own_word_index};
    ghost use Rattle.rcu_live.specs.declared.view.Role.TheVariants.{Cpu};

    ghost Value = { Seated P.Known };

    ghost view = { λ s. record {
      table = s.seat.table_id;
      cpu = s.data.cpu;
      depth = s.data.depth;
      view = s.seat.me.0;
    } };

    ghost invariant = { λ s. record {
      role : s.seat.me.0.role ≡ Cpu;
      own : s.seat.me.0.cpu ≡ s.data.cpu;
      inside : own_word_index s.data.cpu < s.seat.table_id.words;
      own_word : s.seat.me.0.own_word ≡ own_word_of s.data;
      noted : s.data.noted.number ≤ s.seat.me.0.seen;
      number : s.data.noted.number ≤ 2 ^ 62;
      epoch : s.data.noted.epoch ≡ 0;
      section : s.seat.me.0.section ≡ s.opened;
      settled : s.seat.me.0.announced ≡ false;
      offline : s.data.online ≡ false → s.opened ≡ None;
      idle : s.data.idle ≡ true → s.opened ≡ None;
      shut : s.data.depth ≡ 0 → s.opened ≡ None;
      nested : 0 < s.data.depth → IsSome s.opened;
    } };
}

impl<P: Client> CpuSeat<P> {
    /// Returns the seat of a processor as it is dealt.
    pub(crate) fn new(seat: TableSeat<P>, cpu: u32) -> CpuSeat<P>
        requires view { seat.me.0 ≡ cpu_seat seat.me.0.base cpu seat.me.0.client }
        requires inside { own_word_index cpu < seat.table_id.words }
        ensures { result ≡ at_first seat.table_id seat.me.0.base seat.me.0.client cpu }
    {
        CpuSeat {
            data: CpuData::new(cpu, cpu == 0),
            opened: None,
            seat,
        }
    }

    /// Returns its seat at the shared words.
    pub(crate) fn into_table_seat(self) -> TableSeat<P>
        ensures table { result.table_id ≡ self.table }
        ensures view { result.me.0 ≡ self.view }
        ensures inside { own_word_index self.cpu < result.table_id.words }
    {
        self.seat
    }

    /// Returns the processor.
    pub fn cpu(&self) -> u32
        ensures { result ≡ self.now.cpu }
    {
        self.data.cpu()
    }

    /// Returns the depth of the read sections, 0 to 65,535: 0 if none is open.
    pub fn depth(&self) -> u32
        ensures { result ≡ self.now.depth }
    {
        self.data.depth()
    }

    /// Returns whether the processor is online, awake or idle: its own word is not 0.
    pub fn is_online(&self) -> bool
        ensures { result ≡ not (self.now.view.own_word == 0) }
    {
        self.data.online()
    }

    /// Returns whether the processor is idle: its own word is 2^63.
    pub fn is_idle(&self) -> bool
        ensures { result ≡ (self.now.view.own_word == idle_word) }
    {
        self.data.is_idle()
    }

    /// Returns the number at which the open section began.
    pub(crate) fn opened(&self) -> Option<u64>
        ensures { result ≡ self.now.view.section }
    {
        self.opened
    }

    /// Opens a read section by one load, or nests one deeper in the open one without a load, and
    /// returns the depth. It never waits.
    ///
    /// Faults: `Offline` (2) if the processor is offline; `CpuIdle` (23) if it is idle; `NestFull`
    /// (6) if the depth is 65,535.
    pub fn enter<L: Shared<P>>(&mut self, live: &L) -> Result<u32, Fault>
        requires { self.old.table ≡ (L.object live.now).table }
        ensures table { self.new.table ≡ self.old.table }
        ensures fault { result_err result ≡ enter_refusal self.old }
        ensures depth { IfOk result (λ depth. depth ≡ self.new.depth) }
        ensures state { OnOk result
            (AcceptedAt after_enter self.old self.new.view.seen self.new) }
        ensures unchanged { OnErr result (self.new ≡ self.old) }
    {
        let depth = self.data.enter()?;
        if depth == 1 {
            self.opened = Some(live.board().open_section(&mut self.seat));
        }
        Ok(depth)
    }

    /// Closes the innermost section, and returns the depth. At depth 0 one load closed the
    /// outermost section.
    ///
    /// Fault `NotOpen` (5): no section is open.
    pub fn exit<L: Shared<P>>(&mut self, live: &L) -> Result<u32, Fault>
        requires { self.old.table ≡ (L.object live.now).table }
        ensures table { self.new.table ≡ self.old.table }
        ensures fault { result_err result ≡ exit_refusal self.old }
        ensures depth { IfOk result (λ depth. depth ≡ self.new.depth) }
        ensures state { OnOk result
            (AcceptedAt (after_exit P.closed) self.old self.new.view.seen self.new) }
        ensures unchanged { OnErr result (self.new ≡ self.old) }
    {
        let depth = self.data.exit()?;
        if depth == 0 {
            live.board().close_section(&mut self.seat);
            self.opened = None;
        }
        Ok(depth)
    }

    /// Passes a quiescent state: loads the number, which it returns, and stores it and one more in
    /// the processor's own word.
    ///
    /// Faults: `Offline` (2) if the processor is offline; `CpuIdle` (23) if it is idle; `InSection`
    /// (4) if a section is open.
    pub fn quiesce<L: Shared<P>>(&mut self, live: &L) -> Result<u64, Fault>
        requires { self.old.table ≡ (L.object live.now).table }
        ensures table { self.new.table ≡ self.old.table }
        ensures fault { result_err result ≡ quiesce_refusal self.old }
        ensures state { IfOk result (λ number.
            NotedAt (λ s n. reported L.wakes (after_quiesce s n)) self.old number self.new) }
        ensures unchanged { OnErr result (self.new ≡ self.old) }
    {
        self.data.quiesce()?;
        let board = live.board();
        let number = board.load(&mut self.seat);
        self.data.set_noted(Tag::of_first_epoch(number));
        let stored = board.store(&mut self.seat, self.data.cpu(), number + 1);
        live.stored(&mut self.seat, stored);
        Ok(number)
    }

    /// Passes a quiescent state, as [`quiesce`](Self::quiesce) does, but omits the store if the
    /// processor's own word is already the number and one more: then no grace period began or ended
    /// since it was stored, so the earlier report still counts. A thread that passes many quiescent
    /// states mostly does so by a load alone.
    ///
    /// Faults: `Offline` (2) if the processor is offline; `CpuIdle` (23) if it is idle; `InSection`
    /// (4) if a section is open.
    pub fn quiesce_since<L: Shared<P>>(&mut self, live: &L) -> Result<u64, Fault>
        requires { self.old.table ≡ (L.object live.now).table }
        ensures table { self.new.table ≡ self.old.table }
        ensures fault { result_err result ≡ quiesce_refusal self.old }
        ensures state { IfOk result (λ number.
            NotedAt (λ s n. reported (L.wakes && not (s.view.own_word == n + 1))
            (after_quiesce_since s n)) self.old number self.new) }
        ensures unchanged { OnErr result (self.new ≡ self.old) }
    {
        let noted = self.data.quiesce()?.tag;
        let board = live.board();
        let now = board.load(&mut self.seat);
        if noted.number != now {
            self.data.set_noted(Tag::of_first_epoch(now));
            let stored = board.store(&mut self.seat, self.data.cpu(), now + 1);
            live.stored(&mut self.seat, stored);
        }
        Ok(now)
    }

    /// Renews the open section: closes it, passes a quiescent state, and opens the next one. A
    /// thread that reads all the time keeps a section open, and calls this between two reads of the
    /// data; it must not use pointers that it read before (liburcu's `rcu_quiescent_state`). Costs
    /// two loads, and a store if a grace period began or ended since the last quiescent state.
    /// Returns the number of the quiescent state.
    ///
    /// Faults: `Offline` (2) if the processor is offline; `CpuIdle` (23) if it is idle; `NotOpen`
    /// (5) if no section is open; `InSection` (4) if the open one nests.
    pub fn renew<L: Shared<P>>(&mut self, live: &L) -> Result<u64, Fault>
        requires { self.old.table ≡ (L.object live.now).table }
        ensures table { self.new.table ≡ self.old.table }
        ensures fault { result_err result ≡ renew_refusal self.old }
        ensures state { IfOk result (λ number.
            RenewedAt L.wakes P.closed self.old number self.new) }
        ensures unchanged { OnErr result (self.new ≡ self.old) }
    {
        if self.depth() == 1 {
            Ok(self.renew_outermost(live))
        } else if self.is_idle() {
            Err(Fault::CpuIdle)
        } else {
            Err(self.no_outermost())
        }
    }

    /// Closes the open section, which does not nest, passes a quiescent state, which stores only if
    /// the own word changes, and opens the next section. Returns the number of the quiescent state.
    #[inline]
    fn renew_outermost<L: Shared<P>>(&mut self, live: &L) -> u64
        requires table { self.old.table ≡ (L.object live.now).table }
        requires outermost { self.old.depth ≡ 1 }
        ensures open { renew_refusal self.old ≡ None }
        ensures pinned { repin_refusal self.old ≡ None }
        ensures state { RenewedAt L.wakes P.closed self.old result self.new }
    {
        let CpuSeat { data, opened, seat } = self;
        let last = data.noted();
        let board = live.board();
        let number = board.close_section(seat);
        if last.number != number {
            data.set_noted(Tag::of_first_epoch(number));
            let stored = board.store(seat, data.cpu(), number + 1);
            live.stored(seat, stored);
        }
        let began = board.open_section(seat);
        *opened = Some(began);
        number
    }

    /// Returns why no section is renewed, if the depth is not 1.
    #[cold]
    fn no_outermost(&self) -> Fault
        requires { self.now.depth ≢ 1 }
        ensures { repin_refusal self.now ≡ Some result }
    {
        if !self.data.online() {
            Fault::Offline
        } else if self.depth() == 0 {
            Fault::NotOpen
        } else {
            Fault::InSection
        }
    }

    /// Opens a read section, or nests one deeper in the open one, and returns the depth, as
    /// [`enter`](Self::enter) does, also if the processor is idle: then it wakes first, by one
    /// store of 1 to its own word, without a load before it. It never waits. A thread that pins and
    /// unpins blocks no grace period between two sections, and need not report quiescent states.
    ///
    /// Faults: `Offline` (2) if the processor is offline; `NestFull` (6) if the depth is 65,535.
    pub fn pin<L: Shared<P>>(&mut self, live: &L) -> Result<u32, Fault>
        requires { self.old.table ≡ (L.object live.now).table }
        ensures table { self.new.table ≡ self.old.table }
        ensures fault { result_err result ≡ pin_refusal self.old }
        ensures depth { IfOk result (λ depth. depth ≡ self.new.depth) }
        ensures state { OnOk result
            (AcceptedAt after_pin self.old self.new.view.seen self.new) }
        ensures unchanged { OnErr result (self.new ≡ self.old) }
    {
        let CpuSeat { data, opened, seat } = self;
        let wakes = data.is_idle();
        if wakes {
            data.wake()?;
            data.set_noted(Tag::of_first_epoch(0));
        }
        let depth = data.enter()?;
        let board = live.board();
        if wakes {
            board.store_awake(seat, data.cpu(), 1);
        }
        let is_outermost = depth == 1;
        if is_outermost {
            *opened = Some(board.open_section(seat));
        }
        Ok(depth)
    }

    /// Closes the innermost section, and returns the depth. At depth 0 one load closed the
    /// outermost section, and one store of 2^63 to the processor's own word made it idle.
    ///
    /// Faults: `Offline` (2) if the processor is offline; `NotOpen` (5) if no section is open.
    pub fn unpin<L: Shared<P>>(&mut self, live: &L) -> Result<u32, Fault>
        requires { self.old.table ≡ (L.object live.now).table }
        ensures table { self.new.table ≡ self.old.table }
        ensures fault { result_err result ≡ unpin_refusal self.old }
        ensures depth { IfOk result (λ depth. depth ≡ self.new.depth) }
        ensures state { OnOk result
            (AcceptedAt (λ s n. reported (L.wakes && (s.depth == 1)) (after_unpin P.closed s n))
            self.old self.new.view.seen self.new) }
        ensures unchanged { OnErr result (self.new ≡ self.old) }
    {
        let CpuSeat { data, opened, seat } = self;
        if !data.online() {
            return Err(Fault::Offline);
        }
        let depth = data.exit()?;
        let was_outermost = depth == 0;
        if was_outermost {
            data.idle()?;
            let board = live.board();
            board.close_section(seat);
            *opened = None;
            let stored = board.store(seat, data.cpu(), IDLE_WORD);
            live.stored(seat, stored);
        }
        Ok(depth)
    }

    /// Renews the section that a pin opened, as [`renew`](Self::renew) does: so a thread that stays
    /// pinned for long blocks no grace period that began before this call. Returns the number of
    /// the quiescent state.
    ///
    /// Faults: `Offline` (2) if the processor is offline; `NotOpen` (5) if no section is open;
    /// `InSection` (4) if the open one nests.
    pub fn repin<L: Shared<P>>(&mut self, live: &L) -> Result<u64, Fault>
        requires { self.old.table ≡ (L.object live.now).table }
        ensures table { self.new.table ≡ self.old.table }
        ensures fault { result_err result ≡ repin_refusal self.old }
        ensures state { IfOk result (λ number.
            RenewedAt L.wakes P.closed self.old number self.new) }
        ensures unchanged { OnErr result (self.new ≡ self.old) }
    {
        if self.depth() != 1 {
            return Err(self.no_outermost());
        }
        Ok(self.renew_outermost(live))
    }

    /// Makes the processor idle, until it wakes or departs: stores 2^63 to its own word. An idle
    /// processor opens no section, and no grace period waits for it.
    ///
    /// Faults: `Offline` (2) if the processor is offline; `CpuIdle` (23) if it is idle; `InSection`
    /// (4) if a section is open.
    pub fn idle<L: Shared<P>>(&mut self, live: &L) -> Result<(), Fault>
        requires { self.old.table ≡ (L.object live.now).table }
        ensures table { self.new.table ≡ self.old.table }
        ensures fault { result_err result ≡ quiesce_refusal self.old }
        ensures state { OnOk result (self.new ≡ reported L.wakes (after_idle self.old)) }
        ensures unchanged { OnErr result (self.new ≡ self.old) }
    {
        self.data.idle()?;
        let board = live.board();
        let stored = board.store(&mut self.seat, self.data.cpu(), IDLE_WORD);
        live.stored(&mut self.seat, stored);
        Ok(())
    }

    /// Wakes the processor: loads the number, which it returns, and stores it and one more to the
    /// processor's own word.
    ///
    /// Faults: `Offline` (2) if the processor is offline; `NotIdle` (24) if it is awake.
    pub fn wake<L: Shared<P>>(&mut self, live: &L) -> Result<u64, Fault>
        requires { self.old.table ≡ (L.object live.now).table }
        ensures table { self.new.table ≡ self.old.table }
        ensures fault { result_err result ≡ wake_refusal self.old }
        ensures state { IfOk result (λ number.
            NotedAt after_quiesce self.old number self.new) }
        ensures unchanged { OnErr result (self.new ≡ self.old) }
    {
        self.data.wake()?;
        let board = live.board();
        let seen = board.load(&mut self.seat);
        self.data.set_noted(Tag::of_first_epoch(seen));
        board.store_awake(&mut self.seat, self.data.cpu(), seen + 1);
        Ok(seen)
    }

    /// Does the seat's half of [`Live::online`](crate::live::Live): brings the processor online by
    /// storing the number seen, and one more, to its own word.
    ///
    /// Fault `AlreadyOnline` (3): the processor is online.
    pub fn arrive<L: Shared<P>>(&mut self, live: &L) -> Result<(), Fault>
        requires { self.old.table ≡ (L.object live.now).table }
        ensures table { self.new.table ≡ self.old.table }
        ensures fault { result_err result ≡ arrive_refusal self.old }
        ensures state { OnOk result (NotedAt after_quiesce self.old self.new.view.seen self.new) }
        ensures unchanged { OnErr result (self.new ≡ self.old) }
    {
        if self.data.online() {
            return Err(Fault::AlreadyOnline);
        }
        let board = live.board();
        board.set_online_bit(&mut self.seat, self.data.cpu());
        let number = board.load(&mut self.seat);
        self.data.arrive(Tag::of_first_epoch(number))?;
        board.arrive(&mut self.seat, self.data.cpu(), number + 1);
        Ok(())
    }

    /// Does the seat's half of [`Live::offline`](crate::live::Live): takes the processor offline by
    /// storing 0 to its own word. Returns whether it was offline before.
    ///
    /// Faults: `BootStays` (12) for processor 0; `InSection` (4) if a section is open.
    pub fn depart<L: Shared<P>>(&mut self, live: &L) -> Result<bool, Fault>
        requires { self.old.table ≡ (L.object live.now).table }
        ensures table { self.new.table ≡ self.old.table }
        ensures fault { result_err result ≡ depart_refusal self.old }
        ensures again { IfOk result (λ again. again ≡ (self.old.view.own_word == 0)) }
        ensures state { OnOk result (self.new ≡ reported L.wakes (after_depart self.old)) }
        ensures unchanged { OnErr result (self.new ≡ self.old) }
    {
        if self.data.cpu() == 0 {
            return Err(Fault::BootStays);
        }
        let again = !self.data.online();
        if !again {
            self.data.depart()?;
        }
        let board = live.board();
        let stored = board.store(&mut self.seat, self.data.cpu(), 0);
        board.clear_online_bit(&mut self.seat, self.data.cpu());
        live.stored(&mut self.seat, stored);
        Ok(again)
    }

    /// Loads the number once.
    pub(crate) fn look(&mut self, board: &Board<P>) -> u64
        requires { self.old.table ≡ board.now.table }
        ensures look { AcceptedAt after_look self.old result self.new }
        ensures began { (at : ℕ) → self.old.view.section ≡ Some at → at ≤ self.old.view.seen }
        ensures current { (at : ℕ) → self.old.view.section ≡ Some at → is_past at result ≡ false }
        ensures idle { self.old.view.own_word ≡ idle_word → self.old.view.section ≡ None }
    {
        board.load(&mut self.seat)
    }

    /// Loads the client's word at this place. A client's rule may depend on the open section.
    pub fn load_word<L: Shared<P>, M: WordStep<P::Known>>(&mut self, live: &L, word: usize) -> u64
        requires seat { IsSeatOf (L.object live.now) self.old }
        requires inside { HasWord (L.object live.now) word }
        requires allowed { AllowsWord (P.holds (L.object live.now).plan) (Some self.old.cpu)
            self.old.view.section
            self.old.view.client word (λ n. n) (M.then word self.old.view.client) }
        ensures { KnowsBy (λ was now. M.then word was result now) self.old self.new }
    {
        let board = live.board();
        board.fits();
        self.load_at::<M>(board, board.base() + word)
    }

    /// Does the same by the word's index in the table, wherever the seat knows the client's words
    /// to be.
    pub(crate) fn load_at<M: WordStep<P::Known>>(&mut self, board: &Board<P>, index: usize) -> u64
        requires table { self.old.table ≡ board.now.table }
        requires inside { index < board.now.table.words }
        requires allowed { AllowsAt (P.holds board.now.plan) (Some self.old.cpu)
            self.old.view.section self.old.view.client board.now.base index (λ n. n)
            (λ word. M.then word self.old.view.client) }
        ensures { KnowsBy (λ was now. (word : ℕ) →
            index ≡ self.old.view.base + word → M.then word was result now) self.old self.new }
    {
        board.load_word::<M>(&mut self.seat, index)
    }
}
