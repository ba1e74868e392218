//! The loads of a begin, and the sets that it makes of them.
ghost use Rattle.std.specs.Prelude.{◌≡◌, ◌<◌, ◌≤◌, ◌+◌, ◌-◌, ◌%◌, ◌==◌, ℕ, [], false, not, true};
ghost use Rattle.std.specs.Prelude.{length, min, nat_lt};
ghost use Rattle.std.specs.Prelude.{replicate, slice_set};
ghost use Rattle.std.specs.Int.{trailing_zeros, w64};
ghost use Rattle.rcu_node.specs.CpuSet.{is_in, listed, unheard};
ghost use Rattle.rcu_hotplug.specs.Hotplug.{cpus_of};
ghost use Rattle.rcu_state.specs.GpState.{with_awaited};
ghost use Rattle.rcu_live.specs.Engine.{OnlineBecomes, after_own_word_loads, loaded_word};
ghost use Rattle.rcu_live.specs.Numbers.{reports_quiescence};
ghost use Rattle.rcu_live.specs.View.{IsOfEngine};

use crate::board::{Board, TableSeat};
use crate::client::Client;
use crate::next_cpu::next_from;
use crate::word_sets::WordSets;
use rcu_node::{Awaited, CpuSet};
use rcu_state::GpState;

/// Makes the processor online exactly if `is_here`. Processor 0 is.
fn set_online<A: Awaited, T: Drop>(
    gp: &mut GpState<A, T>,
    online: &mut CpuSet,
    cpu: u32,
    is_here: bool,
)
    requires cpu { cpu < cpus_of gp.old.grace.processors }
    requires boot { cpu ≡ 0 → is_here ≡ true }
    requires same { online.old ≡ gp.old.grace.processors.online }
    requires long { length online.old ≡ cpus_of gp.old.grace.processors }
    ensures state { OnlineBecomes (slice_set gp.old.grace.processors.online cpu is_here)
        gp.old.grace gp.new.grace }
    ensures same { online.new ≡ gp.new.grace.processors.online }
{
    if gp.online(cpu) == is_here {
        return;
    }
    // Neither call is refused, since the processor is not in that state yet.
    let _ = if is_here {
        online.insert(cpu);
        gp.arrive(cpu)
    } else {
        online.remove(cpu);
        gp.depart(cpu)
    };
}

/// Takes the processors of `from..end` offline. Processor 0 is never among them.
fn set_offline<A: Awaited, T: Drop>(
    gp: &mut GpState<A, T>,
    online: &mut CpuSet,
    from: u32,
    end: u32,
)
    requires inside { end ≤ cpus_of gp.old.grace.processors }
    requires boot { 0 < from }
    requires some { from < end }
    requires few { end ≤ from + 64 }
    requires same { online.old ≡ gp.old.grace.processors.online }
    requires long { length online.old ≡ cpus_of gp.old.grace.processors }
    ensures becomes { OnlineBecomes gp.new.grace.processors.online gp.old.grace gp.new.grace }
    ensures offline { (cpu : ℕ) → from ≤ cpu → cpu < end →
        is_in gp.new.grace.processors.online cpu ≡ false }
    ensures before { (cpu : ℕ) → cpu < from →
        is_in gp.new.grace.processors.online cpu ≡ is_in gp.old.grace.processors.online cpu }
    ensures same { online.new ≡ gp.new.grace.processors.online }
    ensures long { length online.new ≡ length online.old }
{
    if online.bits_from(from, end - from) == 0 {
        return;
    }
    for cpu in from..end {
        set_online(gp, online, cpu, false);
    }
}

/// Returns how many processors from this one on, in a row, have no bit in their online mask, which
/// is given from this one's bit on.
fn absent_from(mask: u64, cpu: u32, cpus: u32) -> u32
    requires { cpu < cpus }
    ensures { result ≡ min (trailing_zeros w64 mask) (min (64 - cpu % 64) (cpus - cpu)) }
{
    mask.trailing_zeros().min((64 - cpu % 64).min(cpus - cpu))
}

/// Finds each own word, in turn, by a load of it, or by a load of an online mask, which shows that
/// the own words of the next processors in a row without a bit in it are 0. A processor is online
/// if its word is not 0: it is already quiescent if the word is above the number, and awaited
/// otherwise.
pub(crate) fn load_own_words<A: Awaited, T: Drop, P: Client>(
    board: &Board<P>,
    seat: &mut TableSeat<P>,
    gp: &mut GpState<A, T>,
    by_word: &mut WordSets,
)
    requires table { seat.old.table_id ≡ board.now.table }
    requires engine { IsOfEngine seat.old.me.0 }
    requires begun { seat.old.me.0.own_word_loads ≡ [] }
    requires dealt { seat.old.me.0.cpu ≡ board.now.cpus }
    requires cpus { cpus_of gp.old.grace.processors ≡ board.now.cpus }
    requires already_quiescent { by_word.old.already_quiescent ≡ replicate board.now.cpus false }
    requires awaited { by_word.old.awaited ≡ replicate board.now.cpus false }
    requires online { by_word.old.online ≡ gp.old.grace.processors.online }
    ensures table { seat.new.table_id ≡ seat.old.table_id }
    ensures view { seat.new.me.0
        ≡ after_own_word_loads seat.old.me.0 (loaded_word seat.new.me.0.own_word_loads)
        board.now.cpus }
    ensures state { OnlineBecomes
        (listed board.now.cpus (λ cpu. not (loaded_word seat.new.me.0.own_word_loads cpu == 0)))
        gp.old.grace gp.new.grace }
    ensures already_quiescent { by_word.new.already_quiescent
        ≡ listed board.now.cpus (λ cpu.
        nat_lt by_word.old.number (loaded_word seat.new.me.0.own_word_loads cpu)) }
    ensures awaited { by_word.new.awaited ≡ listed board.now.cpus (λ cpu. not
        (reports_quiescence by_word.old.number (loaded_word seat.new.me.0.own_word_loads cpu))) }
    ensures online { by_word.new.online ≡ gp.new.grace.processors.online }
{
    let cpus = gp.cpus();
    let mut cpu = 0;
    // The online mask as it was loaded, from this processor's bit on. Processor 0 is online.
    let mut mask = 1;
    while cpu < cpus {
        if mask % 2 == 0 {
            mask = board.load_online_mask(seat, cpu) >> (cpu % 64);
            let next = cpu + absent_from(mask, cpu, cpus);
            if cpu < next {
                set_offline(gp, &mut by_word.online, cpu, next);
                mask = mask >> (next - cpu - 1) >> 1;
                cpu = next;
                continue;
            }
        }
        let word = board.load_own(seat, cpu);
        set_online(gp, &mut by_word.online, cpu, word != 0);
        by_word.add(cpu, word);
        cpu += 1;
        mask >>= 1;
    }
}

/// Reports each processor of the set with the number of the running grace period.
pub(crate) fn report_all<A: Awaited, T: Drop>(gp: &mut GpState<A, T>, already_quiescent: &CpuSet)
    requires running { gp.old.grace.seq.running ≡ true }
    requires already_quiescent { length already_quiescent.now ≡ cpus_of gp.old.grace.processors }
    ensures { gp.new.grace ≡ with_awaited gp.old.grace
        (unheard gp.old.grace.processors.awaited (is_in already_quiescent.now)) }
{
    let mut from = 0;
    while let Some(cpu) = next_from(already_quiescent, from) {
        gp.report_current(cpu);
        from = cpu + 1;
    }
}
