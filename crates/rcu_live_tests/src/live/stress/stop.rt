//! Why a thread of a hard run ends before its time.

use rcu_seq::Fault;

/// An error of the engine, or why a run has no verdict.
#[derive(Clone, Copy, Debug, PartialEq, Eq)]
pub(crate) enum Stop {
    /// A growth was refused, or a thread was not there in time.
    NoVerdict,
    /// A cookie was done, and a section was open that was open when it was taken.
    EarlyCookie,
    /// A callback was handed out, and a section was open that was open when it was queued.
    EarlyCallback,
    /// A callback was handed out twice.
    CallbackTwice,
    /// A callback was not handed out.
    CallbackLost,
    /// A barrier was done, and a callback that was queued before it was not handed out.
    EarlyBarrier,
    /// A meeting showed another section than the one that is open.
    WrongMeeting,
    /// A call had another answer than it has to have.
    WrongAnswer,
}

impl From<Fault> for Stop {
    fn from(fault: Fault) -> Stop {
        if fault == Fault::NoMemory {
            Stop::NoVerdict
        } else {
            Stop::WrongAnswer
        }
    }
}

/// Ends if this does not hold.
pub(crate) fn hold_to(holds: bool, stop: Stop) -> Result<(), Stop> {
    if holds { Ok(()) } else { Err(stop) }
}

/// Ends if a call had another answer than this one.
pub(crate) fn compare<T: PartialEq + Drop>(
    answer: Result<T, Fault>,
    wanted: Result<T, Fault>,
) -> Result<(), Stop> {
    if answer == wanted {
        return Ok(());
    }
    answer?;
    Err(Stop::WrongAnswer)
}
