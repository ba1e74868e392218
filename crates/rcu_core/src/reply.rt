//! The replies of the engine.

use crate::cpu_list::CpuList;
use crate::value_list::ValueList;
use rcu_barrier::Visit;
use rcu_node::Answer;
use rcu_report::Report;
use rcu_seq::{Cookie, Fault};

/// The reply to an event.
#[derive(Debug, Drop)]
pub enum Reply {
    /// The depth of the processor's read sections now.
    Depth(u32),
    /// The number that was noted, and whether the processor is awaited.
    Noted(u64, bool),
    /// The place of the report among all reports, counted from 1, and the report.
    Made(u64, Report),
    /// The answer to the delivered report, or to the scan.
    Answer(Answer),
    /// The processor arrived.
    Online,
    /// The processor departed, and this many callbacks moved.
    Moved(u64),
    /// The number of the grace period, and how many processors it awaits.
    Begun(u64, u32),
    /// The number after the grace period.
    Ended(u64),
    /// The grace period goes on, and awaits this many processors.
    Waiting(u32),
    /// No grace period runs, and none is needed.
    Nothing,
    /// The awaited processors, ascending.
    Awaits(CpuList),
    /// The cookie that was taken.
    Cookie(Cookie),
    /// True if the cookie is done.
    Polled(bool),
    /// How many callbacks were queued so far, which is the place of this one among them.
    Queued(u64),
    /// How many callbacks of the list are done now, and how many wait.
    Tended(u64, u64),
    /// The values of the callbacks that are handed out, in order.
    Ran(ValueList),
    /// A barrier began.
    BarBegun,
    /// The result of the visit.
    Visited(Visit),
    /// The barrier is done.
    BarDone,
    /// The barrier goes on, and waits for this many markers and unvisited processors.
    BarWaits(u64),
    /// The counter was renumbered, into this epoch.
    Renumbered(u64),
    /// The processor went idle.
    Idle,
    /// The processor woke.
    Awake,
    /// The event was refused, and changed nothing.
    Fault(Fault),
}
