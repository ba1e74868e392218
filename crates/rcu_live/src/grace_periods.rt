//! The grace periods of an engine: their begins, their ends, and the collection of quiescent
//! states.
ghost use Rattle.std.specs.Prelude.{◌≡◌, IfOk, OnErr, OnOk};
ghost use Rattle.std.specs.Result.{result_err};
ghost use Rattle.rcu_seq.specs.Seq.{number_of};
ghost use Rattle.rcu_state.specs.GpState as grace;
ghost use Rattle.rcu_live.specs.Engine.{collect_answer, latest_words, latest_word, turn_answer};
ghost use Rattle.rcu_live.specs.Engine.{collected_by, cpu_refusal};
ghost use Rattle.rcu_live.specs.Runs.{Call, Makes};

use crate::begin::{load_own_words, report_all};
use crate::client::Client;
use crate::engine::Engine;
use rcu_node::Awaited;
use rcu_seq::Fault;
use rcu_state::{CurrentAnswer, Turned};

/// The result of a collection.
#[derive(Clone, Copy, Debug, PartialEq, Eq)]
pub enum Collected {
    /// No grace period runs.
    Idle,
    /// The processor did not pass a quiescent state in the running grace period yet.
    NotYet,
    /// The processor was awaited, and others still are.
    Taken,
    /// The processor was the only one awaited.
    Last,
    /// The processor is not awaited.
    Repeat,
}

impl Collected {
    /// Returns the result of a collection, by the answer to its report.
    fn by_report(answer: CurrentAnswer) -> Collected
        ensures { result ≡ collected_by answer }
    {
        match answer {
            CurrentAnswer::Taken => Collected::Taken,
            CurrentAnswer::Last => Collected::Last,
            CurrentAnswer::Repeat => Collected::Repeat,
        }
    }
}

impl<A: Awaited, T: Drop, P: Client> Engine<A, T, P> {
    /// Begins a grace period: stores its number, and then finds each processor's own word once: by
    /// a load of it, or of an online mask, which covers the next processors in a row whose word is
    /// 0. A processor is online if its word is not 0, and an online one is awaited if its word is
    /// at most the number. Returns the number, and how many processors the grace period awaits.
    ///
    /// Faults: `Running` (8) if one runs; `Exhausted` (11) if the number is the last one.
    pub fn begin(&mut self) -> Result<(u64, u32), Fault>
        ensures number { IfOk result (λ began. began.0 ≡ number_of self.new.grace.seq) }
        ensures awaited { IfOk result (λ began. began.1 ≡ grace.awaited_in self.new.grace) }
        ensures fault { result_err result ≡ grace.begin_refusal self.old.grace }
        ensures made { OnOk result
            (Makes (Call.Begin (latest_words self.new)) self.old self.new) }
        ensures unchanged { OnErr result (self.new ≡ self.old) }
    {
        let number = self.gp.next_number()?;
        self.board.begin(&mut self.seat, number);
        self.by_word.start(number);
        load_own_words(&self.board, &mut self.seat, &mut self.gp, &mut self.by_word);
        let Ok((number, _)) = self.gp.begin() else {
            unreachable!()
        };
        report_all(&mut self.gp, &self.by_word.already_quiescent);
        Ok((number, self.gp.awaited().count()))
    }

    /// Ends the grace period: stores the next number, and returns it.
    ///
    /// Faults: `Idle` (9) if none runs; `Waiting` (10) if a processor is awaited.
    pub fn end(&mut self) -> Result<u64, Fault>
        ensures number { IfOk result (λ number. number ≡ number_of self.new.grace.seq) }
        ensures fault { result_err result ≡ grace.end_refusal self.old.grace }
        ensures made { OnOk result (Makes Call.End self.old self.new) }
        ensures unchanged { OnErr result (self.new ≡ self.old) }
    {
        let number = self.gp.end()?;
        self.board.end(&mut self.seat, number);
        Ok(number)
    }

    /// Ends the running grace period if no processor is awaited. If none runs, begins one if the
    /// needed number is above the number.
    ///
    /// Fault `Exhausted` (11): a grace period would begin, and the number is the last one.
    pub fn turn(&mut self) -> Result<Turned, Fault>
        ensures answer { IfOk result (λ turned.
            turned ≡ turn_answer self.old (latest_words self.new)) }
        ensures fault { result_err result ≡ grace.turn_refusal self.old.grace }
        ensures made { OnOk result
            (Makes (Call.Turn (latest_words self.new)) self.old self.new) }
        ensures unchanged { OnErr result (self.new ≡ self.old) }
    {
        if self.gp.is_running() {
            let awaited = self.gp.awaited().count();
            if awaited > 0 {
                return Ok(Turned::Waiting(awaited));
            }
            return Ok(Turned::Ended(self.end()?));
        }
        if !self.gp.wants_begin() {
            return Ok(Turned::Nothing);
        }
        let (number, awaited) = self.begin()?;
        Ok(Turned::Begun(number, awaited))
    }

    /// While a grace period runs, loads the processor's own word, and reports the processor if its
    /// word is 0 or above the number.
    ///
    /// Fault `BadCpu` (1): the processor does not exist.
    pub fn collect(&mut self, cpu: u32) -> Result<Collected, Fault>
        ensures answer { IfOk result (λ collected.
            collected ≡ collect_answer self.old cpu (latest_word self.new)) }
        ensures made { OnOk result
            (Makes (Call.Collect cpu (latest_word self.new)) self.old self.new) }
        ensures fault { result_err result ≡ cpu_refusal self.old cpu }
        ensures unchanged { OnErr result (self.new ≡ self.old) }
    {
        if cpu >= self.cpus() {
            return Err(Fault::BadCpu);
        }
        if !self.gp.is_running() {
            return Ok(Collected::Idle);
        }
        let word = self.board.load_own(&mut self.seat, cpu);
        if word != 0 && word <= self.gp.value() {
            return Ok(Collected::NotYet);
        }
        self.by_word.awaited.remove(cpu);
        Ok(Collected::by_report(self.gp.report_current(cpu)))
    }
}
