//! The steps of a client that may be one of several: on its own words, by the engine's seats.
ghost use Rattle.std.specs.Prelude.{◌≡◌, ◌+◌, ◌<◌, None, Some};
ghost use Rattle.rcu_live.specs.Board.{HasWord};
ghost use Rattle.rcu_live.specs.Client.{AllowsNumber, AllowsWord};
ghost use Rattle.rcu_live.specs.CpuSeat as cpu_seat;
ghost use Rattle.rcu_live.specs.InPart.{engine_part, seat_part, watcher_part};
ghost use Rattle.rcu_live.specs.Several.{IsWordOf};
ghost use Rattle.rcu_live.specs.Watcher.{IsWatcherOf, KnowsAt, KnowsBy, after_number_step};
ghost use Rattle.rcu_live.specs.Watcher.{after_word_step, watcher_at_first};

use crate::board::Board;
use crate::client::{Client, NumberStep, WordStep};
use crate::cpu_seat::CpuSeat;
use crate::rule::HandPartOver;
use crate::watcher::Watcher;
use crate::within::Within;
use std::marker::PhantomData;

/// A client's step on one of its words, as a step of the whole.
pub struct InPart<C, P, M> {
    step: PhantomData<(C, P, M)>,
}

impl<C: Client, P: Within<C>, M: WordStep<C::Known>> WordStep<<P::Whole as Client>::Known>
    for InPart<C, P, M> {
    ghost use Rattle.rcu_live.specs.Several.{word_of_part};

    ghost then = { word_of_part P.lens M.then };
}

/// A client's load of the number, as a load of the whole.
pub struct LookInPart<C, P, M> {
    step: PhantomData<(C, P, M)>,
}

impl<C: Client, P: Within<C>, M: NumberStep<C::Known>> NumberStep<<P::Whole as Client>::Known>
    for LookInPart<C, P, M> {
    ghost use Rattle.rcu_live.specs.Several.{number_of_part};

    ghost then = { number_of_part P.lens M.then };
}

/// A client's word: the start of the client's words in the table, and its index among them.
#[derive(Clone, Copy)]
pub struct Spot {
    /// The start of the client's words: a client that stores it saves a load in each step.
    pub base: usize,
    /// Its index among them.
    pub word: usize,
}

/// Returns the index of the word in the table.
fn index_of<C: Client, P: Within<C>>(board: &Board<P::Whole>, spot: Spot) -> usize
    requires base { spot.base ≡ P.begins board.now.base board.now.plan }
    requires inside { HasWord (engine_part P.own_plan P.begins board.now) spot.word }
    ensures index { result ≡ P.begins board.now.base board.now.plan + spot.word }
    ensures inside { result < board.now.table.words }
{
    board.fits();
    spot.base + spot.word
}

/// Loads a client's word by a processor's seat. The client's rule may depend on the open section.
pub fn load_word<C: Client, P: Within<C>, M: WordStep<C::Known>>(
    seat: &mut CpuSeat<P::Whole>,
    board: &Board<P::Whole>,
    spot: Spot,
) -> u64
    requires seat { cpu_seat.IsSeatOf (engine_part P.own_plan P.begins board.now)
        (seat_part P.lens seat.old) }
    requires base { spot.base ≡ P.begins board.now.base board.now.plan }
    requires inside { HasWord (engine_part P.own_plan P.begins board.now) spot.word }
    requires own { IsWordOf (C.holds (P.own_plan board.now.plan)) spot.word }
    requires allowed { AllowsWord (C.holds (P.own_plan board.now.plan)) (Some seat.old.cpu)
        seat.old.view.section (P.lens.get seat.old.view.client) spot.word (λ n. n)
        (M.then spot.word (P.lens.get seat.old.view.client)) }
    ensures part { cpu_seat.KnowsBy (λ was now. M.then spot.word was result now)
        (seat_part P.lens seat.old) (seat_part P.lens seat.new) }
    ensures others { seat.new ≡ cpu_seat.after_word_step seat.old
        (P.lens.set seat.old.view.client (P.lens.get seat.new.view.client)) }
{
    let index = index_of::<C, P>(board, spot);
    seat.load_at::<InPart<C, P, M>>(board, index)
}

/// Loads a client's word by a watcher.
pub fn watch_word<C: Client, P: Within<C>, M: WordStep<C::Known>>(
    seat: &mut Watcher<P::Whole>,
    board: &Board<P::Whole>,
    spot: Spot,
) -> u64
    requires seat { IsWatcherOf (engine_part P.own_plan P.begins board.now)
        (watcher_part P.lens seat.old) }
    requires base { spot.base ≡ P.begins board.now.base board.now.plan }
    requires inside { HasWord (engine_part P.own_plan P.begins board.now) spot.word }
    requires own { IsWordOf (C.holds (P.own_plan board.now.plan)) spot.word }
    requires allowed { AllowsWord (C.holds (P.own_plan board.now.plan)) None None
        (P.lens.get seat.old.view.client) spot.word (λ n. n)
        (M.then spot.word (P.lens.get seat.old.view.client)) }
    ensures part { KnowsBy (λ was now. M.then spot.word was result now)
        (watcher_part P.lens seat.old) (watcher_part P.lens seat.new) }
    ensures others { seat.new ≡ after_word_step seat.old
        (P.lens.set seat.old.view.client (P.lens.get seat.new.view.client)) }
{
    let index = index_of::<C, P>(board, spot);
    seat.load_at::<InPart<C, P, M>>(board, index)
}

/// Stores to a client's word by a watcher.
pub fn store_word<C: Client, P: Within<C>, M: WordStep<C::Known>>(
    seat: &mut Watcher<P::Whole>,
    board: &Board<P::Whole>,
    spot: Spot,
    value: u64,
)
    requires seat { IsWatcherOf (engine_part P.own_plan P.begins board.now)
        (watcher_part P.lens seat.old) }
    requires base { spot.base ≡ P.begins board.now.base board.now.plan }
    requires inside { HasWord (engine_part P.own_plan P.begins board.now) spot.word }
    requires own { IsWordOf (C.holds (P.own_plan board.now.plan)) spot.word }
    requires allowed { AllowsWord (C.holds (P.own_plan board.now.plan)) None None
        (P.lens.get seat.old.view.client) spot.word (λ _. value)
        (λ _. M.then spot.word (P.lens.get seat.old.view.client) value) }
    ensures part { KnowsBy (λ was now. M.then spot.word was value now)
        (watcher_part P.lens seat.old) (watcher_part P.lens seat.new) }
    ensures others { seat.new ≡ after_word_step seat.old
        (P.lens.set seat.old.view.client (P.lens.get seat.new.view.client)) }
{
    let index = index_of::<C, P>(board, spot);
    seat.store_at::<InPart<C, P, M>>(board, index, value);
}

/// Loads the number by a watcher, as a step of the client.
pub fn load_number<C: Client, P: Within<C>, M: NumberStep<C::Known>>(
    seat: &mut Watcher<P::Whole>,
    board: &Board<P::Whole>,
) -> u64
    requires table { seat.old.table ≡ board.now.table }
    requires allowed { AllowsNumber (C.holds (P.own_plan board.now.plan)) None None
        (P.lens.get seat.old.view.client) (M.then (P.lens.get seat.old.view.client)) }
    ensures part { KnowsAt M.then (watcher_part P.lens seat.old) result
        (watcher_part P.lens seat.new) }
    ensures others { seat.new ≡ after_number_step seat.old result
        (P.lens.set seat.old.view.client (P.lens.get seat.new.view.client)) }
{
    seat.load_number::<_, LookInPart<C, P, M>>(board)
}

/// Seat split: a watcher that gets this one's knowledge about the client. This one keeps the rest
/// of its knowledge.
pub fn hand_over<C: Client, P: Within<C>>(
    seat: &mut Watcher<P::Whole>,
    board: &Board<P::Whole>,
) -> Watcher<P::Whole>
    requires { seat.old.table ≡ board.now.table }
    ensures left { seat.new ≡ after_word_step seat.old
        (P.lens.set seat.old.view.client (C.idle (P.lens.get seat.old.view.client))) }
    ensures new { result ≡ watcher_at_first seat.old.table seat.old.view.base
        (P.lens.set (P.Whole.idle seat.old.view.client) (P.lens.get seat.old.view.client)) }
{
    Watcher::new(
        board
            .table
            .shared
            .split_seat::<HandPartOver<C, P>>(&mut seat.seat),
    )
}
