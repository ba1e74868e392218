//! Replies as text.
ghost use Rattle.std.specs.Prelude.{◌≡◌, ◌≤◌, true, length};
ghost use Rattle.rcu_text.specs.Outputs.{Puts, after_put_text};
ghost use Rattle.rcu_script.specs.ScriptTexts.{answer_text, cookie_text, epoch_text};
ghost use Rattle.rcu_script.specs.ScriptTexts.{made_text, noted_text, polled_text, text_of};
ghost use Rattle.rcu_script.specs.ScriptTexts.{visited_text};

use crate::listed::put_listed;
use rcu_barrier::Visit;
use rcu_core::Reply;
use rcu_node::Answer;
use rcu_report::Report;
use rcu_seq::Cookie;
use rcu_text::printing::{LONGEST_REPLY, push_numbered};
use rcu_text::{Failed, Output, put_counts, put_line, put_numbered};

/// Prints a reply as a line. Costs a step for each byte.
///
/// If the writer fails, it took a prefix of the buffered bytes and the line.
pub fn put_reply<O: Output>(out: &mut O, reply: &Reply) -> Result<(), Failed>
    ensures { Puts result (O.out out.old) (O.out out.new) (text_of reply.now) }
{
    match reply {
        Reply::Depth(depth) => put_numbered(out, b"depth ", u64::from(*depth)),
        Reply::Noted(n, needed) => put_noted(out, *n, *needed),
        Reply::Made(place, report) => put_made(out, *place, *report),
        Reply::Answer(answer) => put_line(out, answer_line(*answer)),
        Reply::Online => put_line(out, b"online\n"),
        Reply::Moved(calls) => put_numbered(out, b"offline moved ", *calls),
        Reply::Idle => put_line(out, b"idle\n"),
        Reply::Awake => put_line(out, b"awake\n"),
        Reply::Begun(n, cpus) => put_counts(out, b"begun ", *n, b" awaits ", u64::from(*cpus)),
        Reply::Ended(n) => put_numbered(out, b"ended ", *n),
        Reply::Waiting(cpus) => put_numbered(out, b"waiting ", u64::from(*cpus)),
        Reply::Nothing => put_line(out, b"nothing\n"),
        Reply::Awaits(cpus) => put_listed(out, b"awaits", cpus),
        Reply::Cookie(cookie) => put_cookie(out, *cookie),
        Reply::Polled(done) => put_line(out, polled_line(*done)),
        Reply::Renumbered(epoch) => put_numbered(out, b"epoch ", *epoch),
        Reply::Queued(n) => put_numbered(out, b"queued ", *n),
        Reply::Tended(done, waiting) => put_counts(out, b"tended ", *done, b" ", *waiting),
        Reply::Ran(values) => put_listed(out, b"ran", values),
        Reply::BarBegun => put_line(out, b"barrier begun\n"),
        Reply::Visited(visit) => put_line(out, visited_line(*visit)),
        Reply::BarDone => put_line(out, b"barrier done\n"),
        Reply::BarWaits(n) => put_numbered(out, b"barrier waits ", *n),
        Reply::Fault(fault) => put_numbered(out, b"fault ", u64::from(fault.number())),
    }
}

fn put_noted<O: Output>(out: &mut O, n: u64, needed: bool) -> Result<(), Failed>
    ensures { Puts result (O.out out.old) (O.out out.new) (noted_text n needed) }
{
    out.make_room(LONGEST_REPLY)?;
    push_numbered(out, b"noted ", n);
    if needed {
        out.put_text(b" needed\n");
    } else {
        out.put_text(b" clear\n");
    }
    Ok(())
}

fn put_made<O: Output>(out: &mut O, place: u64, report: Report) -> Result<(), Failed>
    ensures { Puts result (O.out out.old) (O.out out.new) (made_text place report) }
{
    out.make_room(LONGEST_REPLY)?;
    push_numbered(out, b"report ", place);
    push_numbered(out, b" cpu ", u64::from(report.cpu));
    push_numbered(out, b" tag ", report.tag.number);
    push_epoch(out, report.tag.epoch);
    Ok(())
}

fn put_cookie<O: Output>(out: &mut O, cookie: Cookie) -> Result<(), Failed>
    ensures { Puts result (O.out out.old) (O.out out.new) (cookie_text cookie) }
{
    out.make_room(LONGEST_REPLY)?;
    push_numbered(out, b"cookie ", cookie.number);
    push_epoch(out, cookie.epoch);
    Ok(())
}

/// Ends a line that prints a number of this epoch: with the epoch, if it is not the first one.
#[inline(always)]
fn push_epoch<O: Output>(out: &mut O, epoch: u64)
    requires { 28 ≤ (O.out out.old).room }
    ensures { O.out out.new ≡ after_put_text (O.out out.old) (epoch_text epoch) }
{
    if epoch > 0 {
        push_numbered(out, b" epoch ", epoch);
    }
    out.put_byte(b'\n');
}

fn answer_line(answer: Answer) -> &'static [u8]
    ensures text { result.now ≡ answer_text answer }
    ensures short { length result.now ≤ 128 }
{
    match answer {
        Answer::Taken => b"taken\n",
        Answer::Last => b"last\n",
        Answer::Repeat => b"repeat\n",
        Answer::Stale => b"stale\n",
    }
}

fn polled_line(done: bool) -> &'static [u8]
    ensures text { result.now ≡ polled_text done }
    ensures short { length result.now ≤ 128 }
{
    if done { b"done\n" } else { b"not yet\n" }
}

fn visited_line(visit: Visit) -> &'static [u8]
    ensures text { result.now ≡ visited_text visit }
    ensures short { length result.now ≤ 128 }
{
    match visit {
        Visit::Marked => b"marked\n",
        Visit::Empty => b"empty\n",
        Visit::Already => b"already\n",
    }
}
