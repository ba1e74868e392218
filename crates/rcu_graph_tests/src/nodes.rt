//! Two readers search a chain beside its writer, each on a thread of its own: a node that they find
//! is whole, whatever is linked meanwhile.
ghost use Rattle.std.specs.Prelude.{◌≡◌, replicate};
ghost use Rattle.std.specs.Thread.{IsSync};
ghost use Rattle.rcu_live.specs.CpuSeat.{IsSeatOf, after_word_step};
ghost use Rattle.rcu_graph.specs.Graph.{IsWalking};
ghost use Rattle.rcu_graph.specs.Writer.{IsWriterOf};
ghost use Rattle.rcu_graph.specs.Nodes.{first_nodes, nodes_in};
ghost use Rattle.rcu_graph.specs.Planned.{of_plan, plan_of};
ghost use Rattle.rcu_graph.specs.declared.known.Known.TheVariants.{Idle};

mod chain;
mod turnover;
mod writer;

use crate::compare::compare;
use crate::seats::next_online;
use rcu_graph::{Graph, GraphEngine, GraphSeat, GraphWatcher, Plan, Shape};
use std::sync::Wait;
use std::thread;
use std::thread::Threads;

/// Keys go up along a chain.
pub(crate) struct Sorted;

impl Shape for Sorted {
    ghost use Rattle.std.specs.Prelude.{◌<◌, replicate, slice_index};

    ghost fits = { λ _ _. Unit {0} };

    ghost joins = { λ _ _ from to. slice_index from 0 < slice_index to 0 };

    ghost first = { λ plan _. replicate plan.words 0 };

    fn first_word(_plan: Plan, _root: usize, _word: usize) -> u64 {
        0
    }
}

pub(crate) type Chain = Graph<Sorted>;

pub(crate) type Engine = GraphEngine<4, 4, u64, Sorted>;

pub(crate) type Seat = GraphSeat<Sorted>;

/// A root, and a node with a key and a value.
const PLAN: Plan = Plan {
    roots: 1,
    links: 1,
    words: 2,
    nodes: 2,
    seed: 0,
};

/// How often each reader searches.
const SEARCHES: u32 = 200_000;

/// Searches the chain for the key 5. Returns whether a node that was found has both its words.
fn finds_it_whole(chain: &Chain, seat: &mut Seat) -> bool
    requires sized { chain.now.plan ≡ plan_of 1 1 2 2 0 }
    requires walking { IsWalking chain.now seat.old }
    ensures state { seat.new ≡ after_word_step seat.old seat.new.view.client }
    ensures walking { IsWalking chain.now seat.new }
{
    let mut walk = chain.walk(seat);
    match walk.find(0, 5) {
        Some(node) => walk.read(node, 0) == 5 && walk.read(node, 1) == 7,
        None => true,
    }
}

/// Searches the chain for the key 5 in a section of its own. Returns whether a node that was found
/// has both its words.
fn search(live: &Engine, chain: &Chain, seat: &mut Seat) -> bool
    requires engine { live.now ≡ chain.now }
    requires sized { chain.now.plan ≡ plan_of 1 1 2 2 0 }
    requires seat { IsSeatOf chain.now seat.old }
    requires outside { seat.old.depth ≡ 0 }
    requires idle { seat.old.view.client ≡ of_plan chain.now.plan Idle }
    ensures seat { IsSeatOf chain.now seat.new }
    ensures outside { seat.new.depth ≡ 0 }
    ensures idle { seat.new.view.client ≡ of_plan chain.now.plan Idle }
{
    if seat.enter(live).is_err() {
        return false;
    }
    let right = finds_it_whole(chain, seat);
    let Ok(_) = seat.exit(live) else {
        unreachable!()
    };
    right
}

/// A reader, with its processor's seat.
#[derive(Drop)]
struct Reader<'a> {
    live: &'a Engine,
    chain: &'a Chain,
    seat: Seat,
    ghost engine: { live.now ≡ chain.now },
    ghost sized: { chain.now.plan ≡ plan_of 1 1 2 2 0 },
    ghost seat_of: { IsSeatOf chain.now seat },
    ghost outside: { seat.depth ≡ 0 },
    ghost idle: { seat.view.client ≡ of_plan chain.now.plan Idle },
}

impl<'a> Reader<'a> {
    /// Searches, and passes a quiescent state.
    fn search(&mut self) -> bool {
        let right = search(self.live, self.chain, &mut self.seat);
        let quiet = self.seat.quiesce(self.live);
        right && quiet.is_ok()
    }

    /// Searches many times, and takes the processor offline.
    fn search_all<R: Wait>(mut self, rt: &R) -> bool {
        let mut right = true;
        for _ in 0..SEARCHES {
            right = self.search() && right;
        }
        let Reader { live, mut seat, .. } = self;
        let _ = live.offline(rt, &mut seat);
        right
    }
}

/// Publishes a node with the key 5, unlinks it, marks it, and looks at the number.
fn publish_and_unlink(chain: &Chain, writer: &mut GraphWatcher<Sorted>)
    requires sized { chain.now.plan ≡ plan_of 1 1 2 2 0 }
    requires writer { IsWriterOf chain.now writer.old }
    requires first { nodes_in writer.old.view.client.known
        ≡ first_nodes 1 2 (λ _. replicate 2 0) 1 2 }
{
    chain.write(writer, 1, 0, 5);
    chain.write(writer, 1, 1, 7);
    chain.publish(writer, 0, 0, 1);
    chain.link(writer, 0, 0, 0);
    chain.mark_unlinked(writer, 1);
    chain.look(writer);
}

/// Runs two readers beside the writer. Returns whether what each reader saw was right.
fn run_beside<R: Threads + Wait + Sync>(
    rt: &R,
    chain: &Chain,
    mut writer: GraphWatcher<Sorted>,
    a: Reader<'_>,
    b: Reader<'_>,
) -> (bool, bool)
    requires sized { chain.now.plan ≡ plan_of 1 1 2 2 0 }
    requires writer { IsWriterOf chain.now writer }
    requires first { nodes_in writer.view.client.known
        ≡ first_nodes 1 2 (λ _. replicate 2 0) 1 2 }
{
    let readers = move || -> (bool, bool)
        requires { IsSync R.row }
    { thread::join(rt, move || a.search_all(rt), move || b.search_all(rt)) };
    let ((), right) = thread::join(rt, move || publish_and_unlink(chain, &mut writer), readers);
    right
}

#[test]
fn readers_beside_a_published_node(rt: HostRuntime) {
    let Ok(opened) = Chain::open(rt.alloc(), 3, 4_000_000, PLAN) else {
        return;
    };
    let (mut seats, writer) = (opened.seats, opened.own);
    let (live, chain) = (&opened.live, &opened.graph);
    let a = Reader {
        live,
        chain,
        seat: next_online(&rt, live, &mut seats),
    };
    let b = Reader {
        live,
        chain,
        seat: next_online(&rt, live, &mut seats),
    };
    let right = run_beside(&rt, chain, writer, a, b);
    compare(&rt, "readers", right, (true, true));
}
