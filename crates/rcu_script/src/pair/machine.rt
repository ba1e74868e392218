//! Two replicas that reply to lines.
ghost use Rattle.std.specs.Prelude.{◌≡◌, length};
ghost use Rattle.rcu_node.specs.Merging.{same_set};
ghost use Rattle.rcu_report.specs.Replica.{cpus_of};
ghost use Rattle.rcu_text.specs.Outputs.{Puts};
ghost use Rattle.rcu_script.specs.PairState.{after_event, event_refusal, event_reply};
ghost use Rattle.rcu_script.specs.PairTexts.{outcome_text, pair_after, pair_replies};
ghost use Rattle.rcu_script.specs.PairTexts.{replica_after};

use crate::pair::event::{PairAsk, PairEvent, Side};
use crate::pair::parse::parse_line;
use crate::pair::print::{put_compared, put_pair_reply};
use crate::pair::step::step;
use crate::script::print::put_reply;
use rcu_core::Reply;
use rcu_node::{Awaited, CpuSet};
use rcu_report::Replica;
use rcu_seq::Fault;
use rcu_text::{Failed, Line, Output, Responder};
use std::marker::Model;

/// Two replicas, of any awaited sets, that reply to lines. Contracts see both. No line needs
/// memory.
#[derive(Drop)]
pub struct PairMachine<A: Awaited, B: Awaited> {
    a: Replica<A>,
    b: Replica<B>,
    /// The processors of a beginning grace period. Each begin fills the set again.
    set: CpuSet,
}

impl<A: Awaited, B: Awaited> Model for PairMachine<A, B> {
    ghost use Rattle.std.specs.Prelude.{◌≡◌, length};
    ghost use Rattle.rcu_report.specs.Replica.{cpus_of};
    ghost use Rattle.rcu_script.specs.PairState.{Pair};

    ghost Value = { Pair };

    ghost view = { λ m. record { a = m.a; b = m.b } };

    ghost invariant = { λ m. record {
      first : length m.set ≡ cpus_of m.a;
      second : length m.set ≡ cpus_of m.b;
    } };
}

impl<A: Awaited, B: Awaited> PairMachine<A, B> {
    /// Returns a pair of two replicas and a set, all of as many processors.
    pub fn new(a: Replica<A>, b: Replica<B>, set: CpuSet) -> Self
        requires first { length set ≡ cpus_of a }
        requires second { length set ≡ cpus_of b }
        ensures { result ≡ record { a = a; b = b } }
    {
        PairMachine { a, b, set }
    }
}

impl<A: Awaited, B: Awaited> Responder for PairMachine<A, B> {
    ghost past = { λ opened now lines text.
        (now ≡ pair_after opened lines) × (text ≡ pair_replies opened lines) };

    fn reply_to<O: Output>(&mut self, line: &[u8], out: &mut O) -> Result<(), Failed> {
        match parse_line(line) {
            Line::Blank => Ok(()),
            Line::Malformed => put_reply(out, &Reply::Fault(Fault::BadLine)),
            Line::Ask(PairAsk::Same) => {
                let are_same = await_the_same(self.a.awaited(), self.b.awaited());
                put_compared(out, are_same)
            }
            Line::Ask(PairAsk::Of(Side::A, event)) => {
                answer(&mut self.a, &self.b, &mut self.set, &event, out)
            }
            Line::Ask(PairAsk::Of(Side::B, event)) => {
                answer(&mut self.b, &self.a, &mut self.set, &event, out)
            }
        }
    }
}

/// Performs the event of a line on a replica of a pair, and prints the result.
fn answer<A: Awaited, B: Awaited, O: Output>(
    mine: &mut Replica<A>,
    other: &Replica<B>,
    set: &mut CpuSet,
    event: &PairEvent,
    out: &mut O,
) -> Result<(), Failed>
    requires { length set.old ≡ cpus_of mine.old }
    ensures state { mine.new ≡ replica_after (event_refusal mine.old other.now event.now)
        mine.old (after_event mine.old other.now event.now) }
    ensures text { Puts result (O.out out.old) (O.out out.new)
        (outcome_text (event_refusal mine.old other.now event.now)
        (after_event mine.old other.now event.now).awaited
        (event_reply mine.old other.now event.now)) }
    ensures set { length set.new ≡ length set.old }
    ensures cpus { cpus_of mine.new ≡ cpus_of mine.old }
{
    match step(mine, other, set, event) {
        Ok(reply) => put_pair_reply(out, reply, mine.awaited()),
        Err(fault) => put_reply(out, &Reply::Fault(fault)),
    }
}

fn await_the_same<A: Awaited, B: Awaited>(first: &A, second: &B) -> bool
    requires { length (A.awaited first.now) ≡ length (B.awaited second.now) }
    ensures { result ≡ same_set (A.awaited first.now) (B.awaited second.now) }
{
    for cpu in 0..first.cpus() {
        if first.awaits(cpu) != second.awaits(cpu) {
            return false;
        }
    }
    true
}
