//! Steps of driving: an engine collects from all awaited processors, ends a grace period, and
//! begins one.
ghost use Rattle.std.specs.Prelude.{◌≡◌, ◌<◌, IfOk, OnErr, OnOk, true};
ghost use Rattle.std.specs.Result.{result_err};
ghost use Rattle.rcu_seq.specs.Seq.{cookie_of};
ghost use Rattle.rcu_state.specs.GpState as grace;
ghost use Rattle.rcu_live.specs.Drive.{after_collections, after_drive, drive_answer};
ghost use Rattle.rcu_live.specs.Drive.{drive_refusal, wants_begin, wants_for};
ghost use Rattle.rcu_live.specs.Engine.{after_collect, latest_word, latest_words};
ghost use Rattle.rcu_live.specs.EngineLists.{on_grace};
ghost use Rattle.rcu_live.specs.Runs.{Call, Makes};

use crate::client::Client;
use crate::engine::Engine;
use rcu_node::Awaited;
use rcu_seq::{Cookie, Fault};
use rcu_state::Turned;

impl<A: Awaited, T: Drop, P: Client> Engine<A, T, P> {
    /// Collects from a processor while a grace period runs.
    fn collect_from(&mut self, cpu: u32)
        requires cpu { cpu < self.old.cpus }
        ensures { self.new ≡ after_collect self.old cpu (latest_word self.new) }
    {
        let _ = self.collect(cpu);
    }

    /// Collects from each processor that the running grace period awaits. Costs a load for each of
    /// them, and a step for every 64 others.
    pub fn collect_awaited(&mut self)
        requires { self.old.grace.seq.running ≡ true }
        ensures { Makes (Call.CollectAwaited (latest_words self.new)) self.old self.new }
    {
        let mut from = 0;
        while let Some(cpu) = self.next_awaited(from) {
            self.collect_from(cpu);
            from = cpu + 1;
        }
    }

    /// Takes a snapshot, requests its number, and returns its cookie (Linux's
    /// `start_poll_synchronize_rcu`). If no grace period runs, the next step of driving or turn
    /// begins one.
    pub fn start_poll(&mut self) -> Cookie
        ensures cookie { result ≡ cookie_of self.old.grace.seq }
        ensures made { Makes Call.StartPoll self.old self.new }
    {
        self.gp.start_poll()
    }

    /// Makes one step of driving; `is_wanted` says whether a grace period is requested.
    fn step(&mut self, is_wanted: bool) -> Result<Turned, Fault>
        ensures answer { IfOk result (λ turned.
            turned ≡ drive_answer self.old is_wanted (latest_words self.new)) }
        ensures fault { result_err result ≡ drive_refusal self.old.grace is_wanted }
        ensures state { OnOk result
            (self.new ≡ after_drive self.old is_wanted (latest_words self.new)) }
        ensures unchanged { OnErr result (self.new ≡ self.old) }
    {
        let is_begun = !self.gp.is_running();
        if is_begun && !is_wanted {
            return Ok(Turned::Nothing);
        }
        if is_begun {
            self.begin()?;
        } else {
            self.collect_awaited();
        }
        let awaited = self.gp.awaited().count();
        if awaited == 0 {
            return Ok(Turned::Ended(self.end()?));
        }
        if is_begun {
            return Ok(Turned::Begun(self.gp.value(), awaited));
        }
        Ok(Turned::Waiting(awaited))
    }

    /// Makes one step of driving: while a grace period runs, it collects from each awaited
    /// processor. If none runs, it begins one if callbacks need it. If the grace period then awaits
    /// no processor, it ends. Costs at most a load for each processor, and a step.
    ///
    /// Fault `Exhausted` (11): a grace period would begin, and the number is the last one.
    pub fn drive(&mut self) -> Result<Turned, Fault>
        ensures answer { IfOk result (λ turned. turned ≡ drive_answer self.old
            (wants_begin self.old.grace) (latest_words self.new)) }
        ensures fault { result_err result
            ≡ drive_refusal self.old.grace (wants_begin self.old.grace) }
        ensures made { OnOk result (Makes (Call.Drive (wants_begin self.old.grace)
            (latest_words self.new)) self.old self.new) }
        ensures unchanged { OnErr result (self.new ≡ self.old) }
    {
        let is_wanted = self.gp.wants_begin();
        self.step(is_wanted)
    }

    /// The same for a waiter for this cookie: if none runs, it begins one if the cookie is not done
    /// yet.
    ///
    /// Fault `Exhausted` (11): a grace period would begin, and the number is the last one.
    pub fn drive_for(&mut self, cookie: Cookie) -> Result<Turned, Fault>
        ensures answer { IfOk result (λ turned. turned ≡ drive_answer self.old
            (wants_for cookie self.old.grace) (latest_words self.new)) }
        ensures fault { result_err result
            ≡ drive_refusal self.old.grace (wants_for cookie self.old.grace) }
        ensures made { OnOk result (Makes (Call.Drive (wants_for cookie self.old.grace)
            (latest_words self.new)) self.old self.new) }
        ensures unchanged { OnErr result (self.new ≡ self.old) }
    {
        let is_wanted = !cookie.is_done_first(self.gp.value());
        self.step(is_wanted)
    }
}
