//! The processors of an engine that come and go.
ghost use Rattle.std.specs.Prelude.{◌≡◌, ◌≢◌, ◌<◌, IfErr, IfOk, OnOk, false, length};
ghost use Rattle.rcu_cblist.specs.SegList.{callbacks, is_empty};
ghost use Rattle.rcu_barrier.specs.Lists.{list_of};
ghost use Rattle.rcu_live.specs.Engine.{latest_word};
ghost use Rattle.rcu_seq.specs.Memory.{tested_fault};
ghost use Rattle.rcu_hotplug.specs.Hotplug.{cpus_of};
ghost use Rattle.rcu_live.specs.EngineLists.{leave_refusal, with_departure};
ghost use Rattle.rcu_live.specs.Runs.{Call, Makes};

use crate::client::Client;
use crate::engine::Engine;
use crate::word_sets::WordSets;
use rcu_node::Awaited;
use rcu_seq::Fault;
use rcu_state::GpState;

/// Takes the processor offline, unless a begin has found it gone; it is no longer awaited.
#[tactic(auto, using(crate::proofs::Departures::departed))]
fn depart<A: Awaited, T: Drop>(gp: &mut GpState<A, T>, by_word: &mut WordSets, cpu: u32)
    requires cpu { cpu < cpus_of gp.old.grace.processors }
    requires other { cpu ≢ 0 }
    requires awaited { by_word.old.awaited ≡ gp.old.grace.processors.awaited }
    requires online { by_word.old.online ≡ gp.old.grace.processors.online }
    ensures state { gp.new.grace ≡ with_departure gp.old.grace cpu }
    ensures awaited { by_word.new.awaited ≡ gp.new.grace.processors.awaited }
    ensures online { by_word.new.online ≡ gp.new.grace.processors.online }
    ensures already_quiescent { by_word.new.already_quiescent ≡ by_word.old.already_quiescent }
{
    if gp.online(cpu) {
        let _ = gp.depart(cpu);
        by_word.awaited.remove(cpu);
        by_word.online.remove(cpu);
    }
}

impl<A: Awaited, T: Drop, P: Client> Engine<A, T, P> {
    /// Brings the processor online in the engine too, if no begin has found it. It is awaited from
    /// the next begin on.
    pub fn join(&mut self, cpu: u32)
        requires { cpu < self.old.cpus }
        ensures { Makes (Call.Join cpu) self.old self.new }
    {
        if cpu < self.gp.cpus() && self.gp.arrive(cpu).is_ok() {
            self.by_word.online.insert(cpu);
        }
    }

    /// Takes the processor offline in the engine too: loads its own word, and if that is 0, the
    /// processor departs, unless a begin has found it gone, and its list moves to processor 0's.
    /// Returns how many callbacks moved. `again` says that it was offline before.
    ///
    /// Faults: `AlreadyOnline` (3) if its word is not 0; `Offline` (2) if it was offline before and
    /// its list is empty; `NoMemory` (16), only if its list is not empty: then it has departed, and
    /// its list stays.
    #[tactic(auto, using(rcu_barrier::proofs::Refusals::migrate_met))]
    pub fn leave(&mut self, cpu: u32, again: bool) -> Result<u64, Fault>
        requires { cpu < self.old.cpus }
        ensures other { OnOk result (0 < cpu) }
        ensures moved { IfOk result (λ moved.
            moved ≡ length (callbacks (list_of self.old.grace.lists cpu))) }
        ensures fault { tested_fault result
            ≡ leave_refusal self.old cpu again (latest_word self.new) }
        ensures made { OnOk result
            (Makes (Call.Leave cpu (latest_word self.new)) self.old self.new) }
        ensures looked { IfErr result (λ fault. fault ≢ Fault.NoMemory →
            Makes (Call.Look cpu (latest_word self.new)) self.old self.new) }
        ensures memory { IfErr result (λ fault. fault ≡ Fault.NoMemory →
            is_empty (list_of self.old.grace.lists cpu) ≡ false) }
        ensures departed { IfErr result (λ fault. fault ≡ Fault.NoMemory →
            Makes (Call.Depart cpu (latest_word self.new)) self.old self.new) }
    {
        if self.board.load_own(&mut self.seat, cpu) != 0 {
            return Err(Fault::AlreadyOnline);
        }
        if again && self.gp.is_list_empty(cpu) {
            return Err(Fault::Offline);
        }
        depart(&mut self.gp, &mut self.by_word, cpu);
        self.gp.migrate(cpu)
    }
}
