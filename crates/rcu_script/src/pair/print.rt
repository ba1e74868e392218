//! Replies of a pair as text.
ghost use Rattle.std.specs.Prelude.{◌≡◌, flat_map};
ghost use Rattle.rcu_text.specs.Outputs.{Puts};
ghost use Rattle.rcu_text.specs.Texts.{space_and_number};
ghost use Rattle.rcu_script.specs.PairTexts.{compared_text, members_of, pair_text};

use crate::listed::{Listed, put_listed};
use crate::pair::event::PairReply;
use crate::script::print::put_reply;
use rcu_core::Reply;
use rcu_node::Awaited;
use rcu_text::{Failed, Output, put_line, put_numbered, put_spaced};

/// Prints a reply of a replica as a line. It reads the awaited processors off the awaited set, a
/// step for each processor.
///
/// If the writer fails, it took a prefix of the buffered bytes and the line.
pub fn put_pair_reply<A: Awaited, O: Output>(
    out: &mut O,
    reply: PairReply,
    awaited: &A,
) -> Result<(), Failed>
    ensures { Puts result (O.out out.old) (O.out out.new)
        (pair_text (A.awaited awaited.now) reply) }
{
    match reply {
        PairReply::Begun(n, cpus) => put_reply(out, &Reply::Begun(n, cpus)),
        PairReply::Answer(answer) => put_reply(out, &Reply::Answer(answer)),
        PairReply::Departed => put_line(out, b"departed\n"),
        PairReply::Ended(n) => put_reply(out, &Reply::Ended(n)),
        PairReply::Awaits => put_listed(out, b"awaits", &Members { awaited }),
        PairReply::Merged(cpus) => put_numbered(out, b"merged ", u64::from(cpus)),
    }
}

/// Prints whether both replicas await the same processors.
pub fn put_compared<O: Output>(out: &mut O, are_same: bool) -> Result<(), Failed>
    ensures { Puts result (O.out out.old) (O.out out.new) (compared_text are_same) }
{
    if are_same {
        put_line(out, b"same\n")
    } else {
        put_line(out, b"differ\n")
    }
}

/// The awaited processors, as a reply lists them, without a list of their own.
#[derive(Drop)]
struct Members<'a, A: Awaited> {
    awaited: &'a A,
}

impl<'a, A: Awaited> Listed for Members<'a, A> {
    ghost items = { λ m. members_of (A.awaited m.awaited.now) };

    #[tactic(auto, using(crate::proofs::PairSets::members_are_size))]
    fn is_empty(&self) -> bool {
        self.awaited.is_empty()
    }

    fn put_items<O: Output>(&self, out: &mut O) -> Result<(), Failed> {
        put_members(out, self.awaited)
    }
}

/// Prints the awaited processors, ascending, each behind a space.
fn put_members<A: Awaited, O: Output>(out: &mut O, awaited: &A) -> Result<(), Failed>
    ensures { Puts result (O.out out.old) (O.out out.new)
        (flat_map space_and_number (members_of (A.awaited awaited.now))) }
{
    for cpu in 0..awaited.cpus() {
        if awaited.awaits(cpu) {
            put_spaced(out, u64::from(cpu))?;
        }
    }
    Ok(())
}
