//! The shared words, and each kind of step on them.
ghost use Rattle.std.specs.Prelude.{◌≡◌, ◌%◌, ◌<◌, ◌^◌, [], IfOk, false, length, true};
ghost use Rattle.rcu_live.specs.declared.view.Role.TheVariants.{Cpu};
ghost use Rattle.rcu_live.specs.Board.{IsCpuCount, IsSized};
ghost use Rattle.rcu_live.specs.Numbers.{may_open};
ghost use Rattle.rcu_live.specs.TableSeat.{IsSeatAt, IsSplit, MayArrive, MayBegin, MayEnd};
ghost use Rattle.rcu_live.specs.TableSeat.{MayOpen, MayStore, Stepped};
ghost use Rattle.rcu_live.specs.View.{Closed, IsOfEngine, Loaded, Opened, OwnWordLoaded};
ghost use Rattle.rcu_live.specs.View.{after_announcement, after_arrive_store, after_begin_store};
ghost use Rattle.rcu_live.specs.View.{after_deal, after_end_store, after_online_mask_load};
ghost use Rattle.rcu_live.specs.View.{after_store, after_waking, engine_seat, next_cpu_seat};
ghost use Rattle.rcu_live.specs.View.{watcher_seat};
ghost use Rattle.rcu_live.specs.Words.{own_word_index};

use crate::client::{Client, NoClient};
use crate::rule::{
    Arrive, Begin, ClearOnlineBit, Close, DealCpu, DealWatcher, End, Load, LoadOnlineMask, LoadOwn,
    Open, SetOnlineBit, Store, Words,
};
use crate::shared::Shared;
use crate::sleepers::Sleepers;
use crate::view::View;
use crate::words::{NUMBER, first_words, mask_index, own_word_index};
use atomic_table::{Seat, Table};
use std::alloc::{AllocError, Global};
use std::marker::Model;

/// The shared words: the number, a word for each processor, and a client's words behind them.
#[derive(Drop)]
pub struct Board<P: Client = NoClient> {
    pub(crate) table: Table<(), View<P::Known>, (u32, P::Plan), Words<P>, Global>,
    pub(crate) cpus: u32,
    last: u64,
    most: u64,
}

impl<P: Client> Model for Board<P> {
    ghost use Rattle.std.specs.Prelude.{◌≡◌, ◌<◌, ◌≤◌, ◌^◌};
    ghost use Rattle.rcu_live.specs.Board.{Object};
    ghost use Rattle.rcu_live.specs.Words.{base_of};

    ghost Value = { Object P.Plan };

    ghost view = { λ b. record {
      table = b.table.shared.table_id;
      plan = b.table.shared.key.1;
      cpus = b.cpus;
      base = base_of b.cpus;
      last = b.last;
      most = b.most;
    } };

    ghost invariant = { λ b. record {
      key : b.table.shared.key.0 ≡ b.cpus;
      room : base_of b.cpus ≤ b.table.shared.table_id.words;
      long : b.table.shared.table_id.words < 2 ^ 64;
      some : 0 < b.cpus;
      few : b.cpus ≤ 4096;
    } };
}

/// A store of an own word that may report a quiescent state. Only [`Board::store`] makes one, and
/// it cannot be dropped: behind the store, [`Shared::stored`](crate::Shared::stored) takes it and
/// wakes the waiters that sleep until then.
pub struct Stored {
    cpu: u32,
}

impl Model for Stored {
    ghost use Rattle.std.specs.Prelude.{ℕ};

    ghost Value = { ℕ };

    ghost view = { λ stored. stored.cpu };
}

impl Stored {
    /// Wakes the waiters that sleep until this processor reports.
    #[inline]
    pub(crate) fn wakes<P: Client>(
        self,
        board: &Board<P>,
        seat: &mut TableSeat<P>,
        sleepers: &Sleepers,
    )
        requires table { seat.old.table_id ≡ board.now.table }
        requires role { seat.old.me.0.role ≡ Cpu }
        requires own { seat.old.me.0.cpu ≡ self }
        ensures { Stepped (λ old new. new ≡ after_waking true old) seat.old seat.new }
    {
        let Stored { cpu } = self;
        sleepers.wake_for(board, seat, cpu);
    }
}

/// A seat at the shared words.
pub type TableSeat<P> = Seat<(), View<<P as Client>::Known>>;

impl<P: Client> Board<P> {
    /// Returns the words with their first seat, which is the engine's and has all parts.
    pub fn open(
        alloc: Global,
        cpus: u32,
        last: u64,
        most: u64,
        plan: P::Plan,
    ) -> Result<(Board<P>, TableSeat<P>), AllocError>
        requires cpus { IsCpuCount cpus }
        requires client { P.suits plan }
        ensures size { IfOk result (λ r. IsSized cpus last most (P.size plan) r.0) }
        ensures plan { IfOk result (λ r. r.0.plan ≡ plan) }
        ensures seat { IfOk result (λ r.
            IsSeatAt r.0.table (engine_seat cpus 0 (P.first plan)) r.1) }
        ensures no_slots { IfOk result (λ r. r.1.me.1 ≡ []) }
    {
        let mut words = first_words(alloc, cpus)?;
        P::add_words(alloc, plan, &mut words)?;
        let none = Vec::new(alloc);
        let Ok((table, seat)) = Table::new(alloc, words.as_slice(), none, &(cpus, plan)) else {
            return Err(AllocError);
        };
        Ok((
            Board {
                table,
                cpus,
                last,
                most,
            },
            seat,
        ))
    }

    /// Gives a proof the invariant of the words: they fit in memory. Does nothing.
    pub fn fits(&self)
        ensures { self.now.table.words < 2 ^ 64 }
    {
        // A borrow of a field gives the prover the invariant of the type.
        let _ = &self.table;
    }

    /// Returns where the client's words begin in the table, behind the engine's.
    pub fn base(&self) -> usize
        ensures { result ≡ self.now.base }
    {
        own_word_index(self.cpus)
    }

    /// Returns the number of processors.
    pub fn cpus(&self) -> u32
        ensures { result ≡ self.now.cpus }
    {
        self.cpus
    }

    /// Returns the last number: no grace period begins at it.
    pub fn last(&self) -> u64
        ensures { result ≡ self.now.last }
    {
        self.last
    }

    /// Returns how many callbacks may be queued.
    pub fn most(&self) -> u64
        ensures { result ≡ self.now.most }
    {
        self.most
    }

    /// Seat split: the next processor's seat.
    pub fn deal_cpu(&self, seat: &mut TableSeat<P>) -> TableSeat<P>
        requires table { seat.old.table_id ≡ self.now.table }
        requires engine { IsOfEngine seat.old.me.0 }
        requires undealt { seat.old.me.0.cpu < self.now.cpus }
        ensures dealt { IsSplit (after_deal seat.old.me.0)
            (next_cpu_seat (P.idle seat.old.me.0.client) seat.old.me.0) seat.old seat.new result }
        ensures inside { own_word_index seat.old.me.0.cpu < seat.old.table_id.words }
    {
        self.table.shared.split_seat::<DealCpu<P>>(seat)
    }

    /// Seat split: a watcher's seat.
    pub fn deal_watcher(&self, seat: &mut TableSeat<P>) -> TableSeat<P>
        requires { seat.old.table_id ≡ self.now.table }
        ensures { IsSplit seat.old.me.0
            (watcher_seat seat.old.me.0.base (P.idle seat.old.me.0.client))
            seat.old seat.new result }
    {
        self.table.shared.split_seat::<DealWatcher<P>>(seat)
    }

    /// Number load: returns the number.
    pub fn load(&self, seat: &mut TableSeat<P>) -> u64
        requires { seat.old.table_id ≡ self.now.table }
        ensures { Stepped (λ old new. Loaded old result new) seat.old seat.new }
    {
        self.table.shared.load::<Load>(seat, NUMBER)
    }

    /// Section-opening load: returns the number at which the section began.
    pub fn open_section(&self, seat: &mut TableSeat<P>) -> u64
        requires table { seat.old.table_id ≡ self.now.table }
        requires allowed { MayOpen seat.old.me.0 }
        ensures { Stepped (λ old new. Opened old result new) seat.old seat.new }
    {
        self.table.shared.load::<Open>(seat, NUMBER)
    }

    /// Section-closing load: returns the number.
    pub fn close_section(&self, seat: &mut TableSeat<P>) -> u64
        requires { seat.old.table_id ≡ self.now.table }
        ensures { Stepped (λ old new. Closed P.closed old result new) seat.old seat.new }
    {
        self.table.shared.load::<Close<P>>(seat, NUMBER)
    }

    /// Own-word store that may report a quiescent state. Returns the value that wakes the waiters
    /// that sleep until then.
    pub fn store(&self, seat: &mut TableSeat<P>, cpu: u32, word: u64) -> Stored
        requires table { seat.old.table_id ≡ self.now.table }
        requires inside { own_word_index cpu < seat.old.table_id.words }
        requires allowed { MayStore cpu word seat.old.me.0 }
        ensures store { Stepped (λ old new. new ≡ after_store old word) seat.old seat.new }
        ensures cpu { result ≡ cpu }
    {
        self.put_own(seat, cpu, word);
        Stored { cpu }
    }

    /// Own-word store of an arrival or a wake. The own word was 0 or the idle word, so no grace
    /// period awaits the processor, and no waiter has to be woken.
    pub fn store_awake(&self, seat: &mut TableSeat<P>, cpu: u32, word: u64)
        requires table { seat.old.table_id ≡ self.now.table }
        requires inside { own_word_index cpu < seat.old.table_id.words }
        requires allowed { MayStore cpu word seat.old.me.0 }
        requires unawaited { may_open seat.old.me.0.own_word ≡ false }
        ensures { Stepped (λ old new. new ≡ after_store old word) seat.old seat.new }
    {
        self.put_own(seat, cpu, word);
    }

    /// Own-word store.
    fn put_own(&self, seat: &mut TableSeat<P>, cpu: u32, word: u64)
        requires table { seat.old.table_id ≡ self.now.table }
        requires inside { own_word_index cpu < seat.old.table_id.words }
        requires allowed { MayStore cpu word seat.old.me.0 }
        ensures { Stepped (λ old new. new ≡ after_store old word) seat.old seat.new }
    {
        self.table
            .shared
            .store::<Store>(seat, own_word_index(cpu), word)
    }

    /// Online-mask step: sets the processor's bit.
    pub fn set_online_bit(&self, seat: &mut TableSeat<P>, cpu: u32)
        requires table { seat.old.table_id ≡ self.now.table }
        requires inside { own_word_index cpu < seat.old.table_id.words }
        requires role { seat.old.me.0.role ≡ Cpu }
        requires own { seat.old.me.0.cpu ≡ cpu }
        ensures { Stepped (λ old new. new ≡ after_announcement old) seat.old seat.new }
    {
        self.table
            .shared
            .fetch_or::<SetOnlineBit>(seat, mask_index(cpu), 1 << (cpu % 64));
    }

    /// Online-mask step: clears the bit of the processor, whose own word is 0.
    pub fn clear_online_bit(&self, seat: &mut TableSeat<P>, cpu: u32)
        requires table { seat.old.table_id ≡ self.now.table }
        requires inside { own_word_index cpu < seat.old.table_id.words }
        requires role { seat.old.me.0.role ≡ Cpu }
        requires own { seat.old.me.0.cpu ≡ cpu }
        requires offline { seat.old.me.0.own_word ≡ 0 }
        requires settled { seat.old.me.0.announced ≡ false }
        ensures { Stepped (λ old new. new ≡ old) seat.old seat.new }
    {
        self.table
            .shared
            .fetch_and::<ClearOnlineBit>(seat, mask_index(cpu), !(1 << (cpu % 64)));
    }

    /// Own-word store of an arrival.
    pub fn arrive(&self, seat: &mut TableSeat<P>, cpu: u32, word: u64)
        requires table { seat.old.table_id ≡ self.now.table }
        requires inside { own_word_index cpu < seat.old.table_id.words }
        requires allowed { MayArrive cpu word seat.old.me.0 }
        ensures { Stepped (λ old new. new ≡ after_arrive_store old word) seat.old seat.new }
    {
        self.table
            .shared
            .store::<Arrive>(seat, own_word_index(cpu), word)
    }

    /// Online-mask load, for the first processor whose own word was not loaded since the begin:
    /// returns the mask. The own words of the next processors in a row without a bit in it are 0.
    pub fn load_online_mask(&self, seat: &mut TableSeat<P>, cpu: u32) -> u64
        requires table { seat.old.table_id ≡ self.now.table }
        requires engine { IsOfEngine seat.old.me.0 }
        requires dealt { seat.old.me.0.cpu ≡ self.now.cpus }
        requires inside { cpu < self.now.cpus }
        requires next { length seat.old.me.0.own_word_loads ≡ cpu }
        ensures { Stepped (λ old new. new ≡ after_online_mask_load old result) seat.old seat.new }
    {
        self.table
            .shared
            .load::<LoadOnlineMask>(seat, mask_index(cpu))
    }

    /// Processor-word load: returns the processor's own word.
    pub fn load_own(&self, seat: &mut TableSeat<P>, cpu: u32) -> u64
        requires table { seat.old.table_id ≡ self.now.table }
        requires engine { IsOfEngine seat.old.me.0 }
        requires inside { cpu < self.now.cpus }
        ensures { Stepped (λ old new. OwnWordLoaded (own_word_index cpu) old result new)
            seat.old seat.new }
    {
        self.table.shared.load::<LoadOwn>(seat, own_word_index(cpu))
    }

    /// Begin store: stores the next number, at which a grace period runs.
    pub fn begin(&self, seat: &mut TableSeat<P>, number: u64)
        requires table { seat.old.table_id ≡ self.now.table }
        requires allowed { MayBegin number seat.old.me.0 }
        ensures { Stepped (λ old new. new ≡ after_begin_store old number) seat.old seat.new }
    {
        self.table.shared.store::<Begin>(seat, NUMBER, number)
    }

    /// End store: stores the next number, at which no grace period runs.
    pub fn end(&self, seat: &mut TableSeat<P>, number: u64)
        requires table { seat.old.table_id ≡ self.now.table }
        requires allowed { MayEnd self.now.cpus number seat.old.me.0 }
        ensures { Stepped (λ old new. new ≡ after_end_store old number) seat.old seat.new }
    {
        self.table.shared.store::<End>(seat, NUMBER, number)
    }
}

impl<P: Client> Shared<P> for Board<P> {
    ghost object = { λ board. board };

    ghost wakes = { false };

    fn board(&self) -> &Board<P> {
        self
    }

    /// With the words alone, no waiter sleeps.
    fn stored(&self, _seat: &mut TableSeat<P>, stored: Stored) {
        let Stored { cpu: _ } = stored;
    }
}
