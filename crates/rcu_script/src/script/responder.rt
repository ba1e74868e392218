//! The responder of a script's lines.
ghost use Rattle.std.specs.Prelude.{◌≡◌, []};
ghost use Rattle.rcu_core.specs.History.{History};
ghost use Rattle.rcu_core.specs.Core.{Represents, size_at};
ghost use Rattle.rcu_script.specs.ScriptAnswers.{Answers};

use crate::script::parse::parse_line;
use crate::script::print::put_reply;
use rcu_core::{Core, Reply};
use rcu_node::Awaited;
use rcu_seq::Fault;
use rcu_text::{Failed, Line, Output, Responder};

/// Replies to the lines of a script: a line asks the core for an event, and its reply is printed.
#[derive(Drop)]
pub struct ScriptResponder<A: Awaited> {
    /// The core, which takes the events.
    pub core: Core<A, u64>,
}

impl<A: Awaited> Responder for ScriptResponder<A> {
    ghost past = { λ opened now lines text. (end : History)
        × Answers (size_at opened.core) [] lines text end
        × (size_at now.core ≡ size_at opened.core) × Represents now.core end };

    fn reply_to<O: Output>(&mut self, line: &[u8], out: &mut O) -> Result<(), Failed> {
        match parse_line(line) {
            Line::Blank => Ok(()),
            Line::Malformed => put_reply(out, &Reply::Fault(Fault::BadLine)),
            Line::Ask(event) => {
                let reply = self.core.step(event);
                put_reply(out, &reply)
            }
        }
    }
}
