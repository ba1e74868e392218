//! The opening of an engine.
ghost use Rattle.std.specs.Prelude.{◌≡◌, ◌≤◌, ◌^◌, IfOk, length};
ghost use Rattle.std.specs.Arc.{arc_value};
ghost use Rattle.rcu_barrier.specs.Lists.{most_queued};
ghost use Rattle.rcu_state.specs.GpState as grace;
ghost use Rattle.rcu_geometry.specs.Opening.{opening_refusal};
ghost use Rattle.rcu_live.specs.Board.{IsCpuCount};
ghost use Rattle.rcu_live.specs.Opening.{AreDealt, AreFanouts, IsOpened};
ghost use Rattle.rcu_seq.specs.Memory.{tested_fault};
ghost use Rattle.rcu_live.specs.Watcher.{watcher_at_first};
ghost use Rattle.rcu_live.specs.Words.{base_of};

use crate::client::{Client, NoClient};
use crate::cpu_seat::CpuSeat;
use crate::engine::Engine;
use crate::live::Live;
use crate::parts::Parts;
use crate::seats::{BoardParts, open_board};
use crate::watcher::Watcher;
use crate::word_sets::WordSets;
use rcu_barrier::lists::MOST_QUEUED;
use rcu_geometry::check_size;
use rcu_node::Tree;
use rcu_seq::Fault;
use rcu_state::GpState;
use std::alloc::{AllocError, Global};
use std::sync::Arc;

impl<const LEAF: u32, const FAN: u32, T: Drop, P: Client> Parts<LEAF, FAN, T, P> {
    /// Returns the parts of an engine of `cpus` processors, idle at number 0, with processor 0
    /// alone online, which allows `most` callbacks to be queued, from 1 to 2^62, and has a client
    /// with this plan. The client's own watcher has the client's first knowledge.
    ///
    /// Faults: `TooManyCpus` (17) for no processor, more than 4,096, or more than four levels hold;
    /// `BadLast` (19) if `last` is not a legal last number; `NoMemory` (16).
    pub fn open_for(
        alloc: Global,
        cpus: u32,
        last: u64,
        most: u64,
        plan: P::Plan,
    ) -> Result<Parts<LEAF, FAN, T, P>, Fault>
        requires fanouts { AreFanouts LEAF FAN }
        requires most { (1 ≤ most) × (most ≤ 2 ^ 62) }
        requires client { P.suits plan }
        ensures fault { tested_fault result ≡ opening_refusal LEAF FAN cpus last }
        ensures opened { IfOk result (λ parts. IsOpened cpus last most (P.size plan)
            (P.first plan) (P.idle (P.first plan)) (arc_value parts.board) parts.engine
            parts.seats.items parts.watchers.items parts.own) }
        ensures plan { IfOk result (λ parts. (arc_value parts.board).plan ≡ plan) }
    {
        check_size::<LEAF, FAN>(cpus, last)?;
        let Ok(parts) = Self::open_tested(alloc, cpus, last, most, plan) else {
            return Err(Fault::NoMemory);
        };
        Ok(parts)
    }

    /// Returns the parts of an engine whose size was tested.
    fn open_tested(
        alloc: Global,
        cpus: u32,
        last: u64,
        most: u64,
        plan: P::Plan,
    ) -> Result<Parts<LEAF, FAN, T, P>, AllocError>
        requires cpus { IsCpuCount cpus }
        requires most { (1 ≤ most) × (most ≤ 2 ^ 62) }
        requires client { P.suits plan }
        ensures opened { IfOk result (λ parts. IsOpened cpus last most (P.size plan)
            (P.first plan) (P.idle (P.first plan)) (arc_value parts.board) parts.engine
            parts.seats.items parts.watchers.items parts.own) }
        ensures plan { IfOk result (λ parts. (arc_value parts.board).plan ≡ plan) }
    {
        let BoardParts {
            board,
            engine_seat,
            seats,
            watchers,
            own,
        } = open_board(alloc, cpus, last, most, plan)?;
        let (gp, by_word) = make_state(alloc, cpus, last, most)?;
        let engine = Engine::new(Arc::try_clone(&board)?, engine_seat, gp, by_word);
        Ok(Parts {
            board,
            engine,
            seats,
            watchers,
            own,
        })
    }
}

impl<const LEAF: u32, const FAN: u32, T: Drop> Parts<LEAF, FAN, T> {
    /// Returns the parts of an engine of `cpus` processors, as [`Live::open`] opens it, but allows
    /// `most` callbacks to be queued, from 1 to 2^62.
    ///
    /// Faults: `TooManyCpus` (17) for no processor, more than 4,096, or more than four levels hold;
    /// `BadLast` (19) if `last` is not a legal last number; `NoMemory` (16).
    pub fn open(
        alloc: Global,
        cpus: u32,
        last: u64,
        most: u64,
    ) -> Result<Parts<LEAF, FAN, T>, Fault>
        requires fanouts { AreFanouts LEAF FAN }
        requires most { (1 ≤ most) × (most ≤ 2 ^ 62) }
        ensures fault { tested_fault result ≡ opening_refusal LEAF FAN cpus last }
        ensures opened { IfOk result (λ parts. IsOpened cpus last most 0 tt tt
            (arc_value parts.board) parts.engine parts.seats.items parts.watchers.items
            parts.own) }
    {
        Self::open_for(alloc, cpus, last, most, ())
    }
}

/// An engine that threads share, and a seat and a watcher for each processor.
pub type Dealt<const LEAF: u32, const FAN: u32, T> = (
    Live<LEAF, FAN, T>,
    Vec<CpuSeat>,
    Vec<Watcher>,
);

impl<const LEAF: u32, const FAN: u32, T: Drop> Live<LEAF, FAN, T> {
    /// Opens an engine of `cpus` processors, idle at number 0, with processor 0 alone online, and
    /// deals a seat and a watcher for each processor, in order. Over its life it allows 1,000,000
    /// callbacks to be queued: [`Live::open_with_most`] takes another number.
    ///
    /// Faults: `TooManyCpus` (17) for no processor, more than 4,096, or more than four levels hold;
    /// `BadLast` (19) if `last` is not a legal last number; `NoMemory` (16).
    pub fn open(alloc: Global, cpus: u32, last: u64) -> Result<Dealt<LEAF, FAN, T>, Fault>
        requires { AreFanouts LEAF FAN }
        ensures fault { tested_fault result ≡ opening_refusal LEAF FAN cpus last }
        ensures dealt { IfOk result (λ opened.
            AreDealt cpus last most_queued 0 tt opened.0 opened.1.items opened.2.items) }
    {
        Live::open_with_most(alloc, cpus, last, MOST_QUEUED)
    }

    /// Opens an engine as [`Live::open`] does, but allows `most` callbacks to be queued, from 1 to
    /// 2^62.
    ///
    /// Faults: `TooManyCpus` (17) for no processor, more than 4,096, or more than four levels hold;
    /// `BadLast` (19) if `last` is not a legal last number; `NoMemory` (16).
    pub fn open_with_most(
        alloc: Global,
        cpus: u32,
        last: u64,
        most: u64,
    ) -> Result<Dealt<LEAF, FAN, T>, Fault>
        requires fanouts { AreFanouts LEAF FAN }
        requires most { (1 ≤ most) × (most ≤ 2 ^ 62) }
        ensures fault { tested_fault result ≡ opening_refusal LEAF FAN cpus last }
        ensures dealt { IfOk result (λ opened.
            AreDealt cpus last most 0 tt opened.0 opened.1.items opened.2.items) }
    {
        let (live, seats, watchers, _) = Live::open_for(alloc, cpus, last, most, ())?;
        Ok((live, seats, watchers))
    }
}

/// An engine that threads share, a seat and a watcher for each processor, and the client's own
/// watcher.
pub type Opened<const LEAF: u32, const FAN: u32, T, P> = (
    Live<LEAF, FAN, T, P>,
    Vec<CpuSeat<P>>,
    Vec<Watcher<P>>,
    Watcher<P>,
);

impl<const LEAF: u32, const FAN: u32, T: Drop, P: Client> Live<LEAF, FAN, T, P> {
    /// Opens an engine as [`Live::open`] does, with a client of this plan. The client's own watcher
    /// has the client's first knowledge.
    ///
    /// Faults: `TooManyCpus` (17) for no processor, more than 4,096, or more than four levels hold;
    /// `BadLast` (19) if `last` is not a legal last number; `NoMemory` (16).
    pub fn open_for(
        alloc: Global,
        cpus: u32,
        last: u64,
        most: u64,
        plan: P::Plan,
    ) -> Result<Opened<LEAF, FAN, T, P>, Fault>
        requires fanouts { AreFanouts LEAF FAN }
        requires most { (1 ≤ most) × (most ≤ 2 ^ 62) }
        requires client { P.suits plan }
        ensures fault { tested_fault result ≡ opening_refusal LEAF FAN cpus last }
        ensures dealt { IfOk result (λ opened. AreDealt cpus last most (P.size plan)
            (P.idle (P.first plan)) opened.0 opened.1.items opened.2.items) }
        ensures plan { IfOk result (λ opened. opened.0.plan ≡ plan) }
        ensures own { IfOk result (λ opened.
            opened.3 ≡ watcher_at_first opened.0.table (base_of cpus) (P.first plan)) }
    {
        let Parts {
            board,
            engine,
            seats,
            watchers,
            own,
        } = Parts::open_for(alloc, cpus, last, most, plan)?;
        Ok((Live::new(board, engine), seats, watchers, own))
    }
}

/// Returns the first state of the grace periods, and the sets of processors by their words, which
/// are empty.
fn make_state<const LEAF: u32, const FAN: u32, T: Drop>(
    alloc: Global,
    cpus: u32,
    last: u64,
    most: u64,
) -> Result<(GpState<Tree<LEAF, FAN>, T>, WordSets), AllocError>
    requires { (1 ≤ most) × (most ≤ 2 ^ 62) }
    ensures state { IfOk result (λ made. made.0.grace ≡ grace.at_first cpus last most) }
    ensures already_quiescent { IfOk result (λ made. length made.1.already_quiescent ≡ cpus) }
    ensures awaited { IfOk result (λ made. made.1.awaited ≡ made.0.grace.processors.awaited) }
    ensures online { IfOk result (λ made. made.1.online ≡ made.0.grace.processors.online) }
{
    let (Ok(tree), Ok(by_word)) = (Tree::new(alloc, cpus), WordSets::new(alloc, cpus)) else {
        return Err(AllocError);
    };
    let Ok(gp) = GpState::with_most(alloc, tree, last, most) else {
        return Err(AllocError);
    };
    Ok((gp, by_word))
}
