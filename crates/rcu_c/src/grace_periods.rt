//! Grace periods: `rcu` is under the caller's lock.
ghost use Rattle.std.specs.Prelude.{◌≡◌, ◌≢◌};
ghost use Rattle.rcu_seq.specs.Seq.{number_of};
ghost use Rattle.rcu_state.specs.GpState as grace;
ghost use Rattle.rcu_live.specs.Engine as live;
ghost use Rattle.rcu_live.specs.Engine.{cpu_refusal, latest_words, latest_word};
ghost use Rattle.rcu_c.specs.Answers.{collected_number, number_for, turn_of};
ghost use Rattle.rcu_c.specs.Holding.{HoldsEngine, engine_of, grace_of, on_engine};
ghost use Rattle.rcu_c.specs.Refusals.{engine_number};
ghost use Rattle.rcu_c.specs.Staying.{AllStay, BothStay};

use crate::codes::{accepted, code, write_out};
use crate::handle::Rcu;
use rcu_live::Collected;
use rcu_state::Turned;

/// The result of a turn (`rcu_turn_t`).
#[repr(C)]
#[derive(Clone, Copy)]
pub struct Turn {
    /// An `rcu_turned`.
    pub what: u32,
    /// How many processors are awaited, if it began one or waits; else 0.
    pub awaited: u32,
    /// The number, if a grace period began or ended; else 0.
    pub number: u64,
}

/// The result of a turn, as C sees it: an `rcu_turned`, as `RCU_TURN_NOTHING`.
pub(crate) fn turn_in_c(turned: Turned) -> Turn
    ensures { result ≡ turn_of turned }
{
    let (what, awaited, number) = match turned {
        Turned::Nothing => (0, 0, 0),
        Turned::Begun(number, awaited) => (1, awaited, number),
        Turned::Ended(number) => (2, 0, number),
        Turned::Waiting(awaited) => (3, awaited, 0),
    };
    Turn {
        what,
        awaited,
        number,
    }
}

/// The result of a collection, as C sees it: an `rcu_collected`, as `RCU_COLLECTED_IDLE`.
fn collected_in_c(collected: Collected) -> u32
    ensures { result ≡ collected_number collected }
{
    match collected {
        Collected::Idle => 0,
        Collected::NotYet => 1,
        Collected::Taken => 2,
        Collected::Last => 3,
        Collected::Repeat => 4,
    }
}

/// Begins a grace period: stores its number, and then looks at each processor. It awaits those that
/// are online, are not idle, and did not pass a quiescent state in between. Writes the number, and
/// how many it awaits.
///
/// Of each section one of two holds: all of it comes before what follows the end of this grace
/// period, or it sees what came before this call.
///
/// Faults: 8 if one runs; 11 if the number is the last one.
#[unsafe(no_mangle)]
pub extern "C" fn rcu_begin(rcu: &mut Rcu, number: &mut u64, awaited: &mut u32) -> u32
    ensures open { HoldsEngine rcu.old.contents → HoldsEngine rcu.new.contents }
    ensures fault { result ≡ engine_number rcu.old.contents
        (number_for (grace.begin_refusal (grace_of rcu.old.contents))) }
    ensures state { result ≡ 0 → rcu.new.contents ≡ on_engine
        (λ e. live.after_begin e (latest_words (engine_of rcu.new.contents))) rcu.old.contents }
    ensures number { result ≡ 0 → number.new ≡ number_of (grace_of rcu.new.contents).seq }
    ensures awaited { result ≡ 0 → awaited.new ≡ grace.awaited_in (grace_of rcu.new.contents) }
    ensures unchanged { result ≢ 0 →
        AllStay rcu.old.contents rcu.new.contents number.old number.new awaited.old awaited.new }
{
    let opened = accepted!(rcu.engine());
    let (begun, waits) = accepted!(opened.inner.begin(), code);
    *number = begun;
    *awaited = waits;
    0
}

/// Ends the grace period. Writes the new number.
///
/// All that a thread stored before an `rcu_seat_poll` that found the number below the new one is
/// seen by what follows this call: so a waiter that stores a request to be woken, and then polls,
/// is found. The same holds of `rcu_seat_take` and `rcu_seat_quiesce`. Unfenced, it is sure to be
/// seen by sequentially consistent loads alone.
///
/// Faults: 9 if none runs; 10 if a processor is awaited.
///
/// Fence: behind.
#[unsafe(no_mangle)]
pub extern "C" fn rcu_end_unfenced(rcu: &mut Rcu, number: &mut u64) -> u32
    ensures open { HoldsEngine rcu.old.contents → HoldsEngine rcu.new.contents }
    ensures fault { result ≡ engine_number rcu.old.contents
        (number_for (grace.end_refusal (grace_of rcu.old.contents))) }
    ensures state { result ≡ 0 →
        rcu.new.contents ≡ on_engine (λ e. live.after_end e) rcu.old.contents }
    ensures number { result ≡ 0 → number.new ≡ number_of (grace_of rcu.new.contents).seq }
    ensures unchanged { result ≢ 0 →
        BothStay rcu.old.contents rcu.new.contents number.old number.new }
{
    let opened = accepted!(rcu.engine());
    write_out(opened.inner.end(), number)
}

/// Ends the grace period if no processor is awaited; begins one if none runs and a tended callback
/// waits for it. Writes what it did.
///
/// It orders what `rcu_begin` or `rcu_end` orders.
///
/// Fault 11: one would begin, and the number is the last one.
///
/// Fence: behind.
#[unsafe(no_mangle)]
pub extern "C" fn rcu_turn_unfenced(rcu: &mut Rcu, turn: &mut Turn) -> u32
    ensures open { HoldsEngine rcu.old.contents → HoldsEngine rcu.new.contents }
    ensures fault { result ≡ engine_number rcu.old.contents
        (number_for (grace.turn_refusal (grace_of rcu.old.contents))) }
    ensures state { result ≡ 0 → rcu.new.contents ≡ on_engine
        (λ e. live.after_turn e (latest_words (engine_of rcu.new.contents))) rcu.old.contents }
    ensures turn { result ≡ 0 → turn.new ≡ turn_of
        (live.turn_answer (engine_of rcu.old.contents)
        (latest_words (engine_of rcu.new.contents))) }
    ensures unchanged { result ≢ 0 → BothStay rcu.old.contents rcu.new.contents turn.old turn.new }
{
    let opened = accepted!(rcu.engine());
    write_out(opened.inner.turn().map(turn_in_c), turn)
}

/// Collects from the processor: if it passed a quiescent state in the grace period, or is offline
/// or idle, it is no longer awaited. Writes an `rcu_collected`.
///
/// If it finds the quiescent state, the departure or the idleness, all that the thread did before
/// that comes before what follows this call. The same holds if a begin finds it.
///
/// A processor that was idle at the begin and woke since is found "not yet", and is not awaited:
/// `rcu_awaits` says whether one is awaited.
///
/// Fault 1: there is no such processor.
#[unsafe(no_mangle)]
pub extern "C" fn rcu_collect(rcu: &mut Rcu, cpu: u32, found: &mut u32) -> u32
    ensures open { HoldsEngine rcu.old.contents → HoldsEngine rcu.new.contents }
    ensures fault { result ≡ engine_number rcu.old.contents
        (number_for (cpu_refusal (engine_of rcu.old.contents) cpu)) }
    ensures state { result ≡ 0 → rcu.new.contents ≡ on_engine
        (λ e. live.after_collect e cpu (latest_word (engine_of rcu.new.contents)))
        rcu.old.contents }
    ensures found { result ≡ 0 → found.new ≡ collected_number
        (live.collect_answer (engine_of rcu.old.contents) cpu
        (latest_word (engine_of rcu.new.contents))) }
    ensures unchanged { result ≢ 0 →
        BothStay rcu.old.contents rcu.new.contents found.old found.new }
{
    let opened = accepted!(rcu.engine());
    write_out(opened.inner.collect(cpu).map(collected_in_c), found)
}
