//! The seats of an engine as it is opened: one for each processor, and a watcher's for each.
ghost use Rattle.std.specs.Prelude.{◌≡◌, ◌+◌, ◌<◌, [], ◌∷◌, IfOk, None, OnOk};
ghost use Rattle.std.specs.Prelude.{length, map};
ghost use Rattle.std.specs.Arc.{arc_value};
ghost use Rattle.std.specs.List.{range_with_len};
ghost use Rattle.rcu_live.specs.Board.{IsCpuCount};
ghost use Rattle.rcu_live.specs.CpuSeat.{at_first};
ghost use Rattle.rcu_live.specs.Opening.{AreDealt};
ghost use Rattle.rcu_live.specs.TableSeat.{IsSeatAt};
ghost use Rattle.rcu_live.specs.View.{engine_seat};
ghost use Rattle.rcu_live.specs.Watcher.{watcher_at_first};
ghost use Rattle.rcu_live.specs.Words.{base_of};

use crate::board::{Board, TableSeat};
use crate::client::Client;
use crate::cpu_seat::CpuSeat;
use crate::watcher::Watcher;
use std::alloc::{AllocError, Global};
use std::sync::Arc;

/// The shared words of an engine, and the seats dealt from them.
#[derive(Drop)]
pub(crate) struct BoardParts<P: Client> {
    /// The words.
    pub board: Arc<Board<P>, Global>,
    /// The engine's seat.
    pub engine_seat: TableSeat<P>,
    /// A seat for each processor, in order.
    pub seats: Vec<CpuSeat<P>>,
    /// A watcher for each processor.
    pub watchers: Vec<Watcher<P>>,
    /// The client's own watcher, which has the client's first knowledge.
    pub own: Watcher<P>,
}

/// Returns the shared words of an engine whose size was tested, with those of a client of this
/// plan, and all seats.
pub(crate) fn open_board<P: Client>(
    alloc: Global,
    cpus: u32,
    last: u64,
    most: u64,
    plan: P::Plan,
) -> Result<BoardParts<P>, AllocError>
    requires cpus { IsCpuCount cpus }
    requires client { P.suits plan }
    ensures dealt { IfOk result (λ dealt. AreDealt cpus last most (P.size plan)
        (P.idle (P.first plan)) (arc_value dealt.board) dealt.seats.items dealt.watchers.items) }
    ensures plan { IfOk result (λ dealt. (arc_value dealt.board).plan ≡ plan) }
    ensures own { IfOk result (λ dealt.
        dealt.own ≡ watcher_at_first (arc_value dealt.board).table (base_of cpus) (P.first plan)) }
    ensures engine { IfOk result (λ dealt. IsSeatAt (arc_value dealt.board).table
        (engine_seat cpus cpus (P.idle (P.first plan))) dealt.engine_seat) }
{
    let (board, mut engine_seat) = Board::open(alloc, cpus, last, most, plan)?;
    let board = Arc::new(alloc, board)?;
    let (seats, watchers) = deal(alloc, &board, &mut engine_seat, cpus)?;
    let own = Watcher::new(board.hand_over(&mut engine_seat));
    Ok(BoardParts {
        board,
        engine_seat,
        seats,
        watchers,
        own,
    })
}

/// Returns the next processor's seat, and a watcher.
fn deal_next<P: Client>(
    board: &Board<P>,
    engine: &mut TableSeat<P>,
    cpu: u32,
) -> (CpuSeat<P>, Watcher<P>)
    requires inside { cpu < board.now.cpus }
    requires engine { IsSeatAt board.now.table
        (engine_seat board.now.cpus cpu (P.first board.now.plan)) engine.old }
    ensures seat { result.0 ≡ at_first board.now.table (base_of board.now.cpus)
        (P.idle (P.first board.now.plan)) cpu }
    ensures watcher { result.1 ≡ watcher_at_first board.now.table (base_of board.now.cpus)
        (P.idle (P.first board.now.plan)) }
    ensures engine { IsSeatAt board.now.table
        (engine_seat board.now.cpus (cpu + 1) (P.first board.now.plan)) engine.new }
{
    let seat = board.deal_cpu(engine);
    let seat = CpuSeat::new(seat, cpu);
    (seat, Watcher::new(board.deal_watcher(engine)))
}

/// Deals a seat and a watcher for each processor, in order, from the first seat of all, and returns
/// them. The engine's seat is left.
fn deal<P: Client>(
    alloc: Global,
    board: &Board<P>,
    engine: &mut TableSeat<P>,
    cpus: u32,
) -> Result<(Vec<CpuSeat<P>>, Vec<Watcher<P>>), AllocError>
    requires cpus { cpus ≡ board.now.cpus }
    requires first { IsSeatAt board.now.table (engine_seat cpus 0 (P.first board.now.plan))
        engine.old }
    ensures seats { IfOk result (λ dealt. dealt.0.items ≡
        map (at_first board.now.table (base_of cpus) (P.idle (P.first board.now.plan)))
        (range_with_len 0 cpus)) }
    ensures watchers { IfOk result (λ dealt. dealt.1.items ≡
        map (λ _. watcher_at_first board.now.table (base_of cpus) (P.idle (P.first board.now.plan)))
        (range_with_len 0 cpus)) }
    ensures engine { OnOk result
        (IsSeatAt board.now.table (engine_seat cpus cpus (P.first board.now.plan)) engine.new) }
{
    let mut seats = Vec::with_capacity(alloc, cpus as usize)?;
    let mut watchers = Vec::with_capacity(alloc, cpus as usize)?;
    for cpu in 0..cpus {
        let (seat, watcher) = deal_next(board, engine, cpu);
        seats.push(seat)?;
        watchers.push(watcher)?;
    }
    Ok((seats, watchers))
}
