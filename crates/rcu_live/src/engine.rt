//! The engine, which is under its lock.
ghost use Rattle.std.specs.Prelude.{◌≡◌, ◌<◌, ◌≤◌, ℕ, IfSome, None, false, length};
ghost use Rattle.std.specs.Arc.{arc_value};
ghost use Rattle.rcu_node.specs.CpuSet.{is_in};
ghost use Rattle.rcu_hotplug.specs.Hotplug.{cpus_of};
ghost use Rattle.rcu_live.specs.Engine.{ArePieces};
ghost use Rattle.rcu_live.specs.NextCpu.{IsNextFrom};

use crate::board::{Board, TableSeat};
use crate::client::{Client, NoClient};
use crate::next_cpu::next_from;
use crate::word_sets::WordSets;
use rcu_node::Awaited;
use rcu_state::GpState;
use std::alloc::Global;
use std::marker::Model;
use std::sync::Arc;

/// The engine: the only seat that can change the number, and the state of the grace periods and the
/// callbacks.
///
/// Between its calls a running grace period awaits each processor that is not cleared: a processor
/// is cleared if a load since the begin found it offline or past a quiescent state.
#[derive(Drop)]
pub struct Engine<A: Awaited, T: Drop, P: Client = NoClient> {
    pub(crate) board: Arc<Board<P>, Global>,
    pub(crate) seat: TableSeat<P>,
    pub(crate) gp: GpState<A, T>,
    /// The processors as the last begin found them, and the awaited ones again, for walks that skip
    /// 64 at a time.
    pub(crate) by_word: WordSets,
}

impl<A: Awaited, T: Drop, P: Client> Model for Engine<A, T, P> {
    ghost use Rattle.std.specs.Prelude.{◌≡◌, length};
    ghost use Rattle.std.specs.Arc.{arc_value};
    ghost use Rattle.rcu_seq.specs.Seq.{number_of};
    ghost use Rattle.rcu_hotplug.specs.Hotplug.{cpus_of};
    ghost use Rattle.rcu_live.specs.Engine.{AwaitsTheOthers, Locked};
    ghost use Rattle.rcu_live.specs.View.{IsOfEngine};

    ghost Value = { Locked P.Known T };

    ghost view = { λ e. record {
      table = (arc_value e.board).table;
      cpus = (arc_value e.board).cpus;
      view = e.seat.me.0;
      grace = e.gp.grace;
    } };

    ghost invariant = { λ e. record {
      fits : e.seat.table_id ≡ (arc_value e.board).table;
      role : IsOfEngine e.seat.me.0;
      number : e.seat.me.0.seen ≡ number_of e.gp.grace.seq;
      epoch : e.gp.grace.seq.epoch ≡ 0;
      cpus : cpus_of e.gp.grace.processors ≡ (arc_value e.board).cpus;
      already_quiescent : length e.by_word.already_quiescent ≡ (arc_value e.board).cpus;
      awaited : AwaitsTheOthers (arc_value e.board).cpus e.seat.me.0.own_word_loads e.gp.grace;
      same : e.by_word.awaited ≡ e.gp.grace.processors.awaited;
      dealt : e.seat.me.0.cpu ≡ (arc_value e.board).cpus;
      online : e.by_word.online ≡ e.gp.grace.processors.online;
    } };
}

impl<A: Awaited, T: Drop, P: Client> Engine<A, T, P> {
    /// Returns the engine of this seat and state.
    pub(crate) fn new(
        board: Arc<Board<P>, Global>,
        seat: TableSeat<P>,
        gp: GpState<A, T>,
        by_word: WordSets,
    ) -> Self
        requires table { seat.table_id ≡ (arc_value board).table }
        requires pieces { ArePieces (arc_value board).cpus seat.me.0 gp.grace
            (length by_word.already_quiescent) }
        requires awaited { by_word.awaited ≡ gp.grace.processors.awaited }
        requires online { by_word.online ≡ gp.grace.processors.online }
        ensures { result ≡ record {
          table = (arc_value board).table;
          cpus = (arc_value board).cpus;
          view = seat.me.0;
          grace = gp.grace;
        } }
    {
        Engine {
            board,
            seat,
            gp,
            by_word,
        }
    }

    /// Returns the number of processors.
    pub fn cpus(&self) -> u32
        ensures { result ≡ self.now.cpus }
    {
        self.board.cpus()
    }

    /// Returns the state of the grace periods and the callbacks, to be read.
    pub fn grace(&self) -> &GpState<A, T>
        ensures value { result.now.grace ≡ self.now.grace }
        ensures cpus { cpus_of result.now.grace.processors ≡ self.now.cpus }
        ensures epoch { result.now.grace.seq.epoch ≡ 0 }
    {
        &self.gp
    }

    /// Returns the first awaited processor from this one on. Costs a step, and one more for every
    /// 64 processors that it skips.
    pub fn next_awaited(&self, from: u32) -> Option<u32>
        ensures first { IfSome result (λ cpu.
            IsNextFrom self.now.grace.processors.awaited from cpu) }
        ensures few { IfSome result (λ cpu. cpu < 4096) }
        ensures none { result ≡ None → (cpu : ℕ) → from ≤ cpu →
            is_in self.now.grace.processors.awaited cpu ≡ false }
        ensures cpus { cpus_of self.now.grace.processors ≡ self.now.cpus }
    {
        next_from(&self.by_word.awaited, from)
    }
}
