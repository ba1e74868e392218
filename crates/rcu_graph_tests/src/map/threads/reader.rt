//! A thread that looks routes up and goes over all of them, beside the threads that change them.
ghost use Rattle.std.specs.Prelude.{◌≡◌};
ghost use Rattle.rcu_live.specs.CpuSeat.{IsSeatOf, after_word_step};
ghost use Rattle.rcu_live.specs.Several.{whole};
ghost use Rattle.rcu_map.specs.Listed.{after_hops, known_in, listing};
ghost use Rattle.rcu_graph.specs.Graph.{IsWalking};
ghost use Rattle.rcu_graph.specs.Planned.{of_plan};
ghost use Rattle.rcu_graph.specs.declared.known.Known.TheVariants.{Idle};

use crate::compare::compare;
use crate::map::route::Route;
use crate::map::threads::BUCKETS;
use crate::map::threads::history::{History, NETWORKS, Seen};
use crate::map::{Engine, Listing, Routes, Seat, bucket_of};
use crate::seats::{enters, exits};
use std::process::Abort;
use std::sync::Wait;

/// The routes that a section found that went over all of them.
#[derive(Drop)]
struct Listed {
    routes: [Option<Route>; NETWORKS as usize],
    /// The bucket and the network of the last one.
    last: (u64, u64),
    is_sorted: bool,
    is_whole: bool,
}

impl Listed {
    /// None yet.
    fn new() -> Listed {
        Listed {
            routes: [None; NETWORKS as usize],
            last: (0, 0),
            is_sorted: true,
            is_whole: false,
        }
    }

    /// Notes the next route: one of a later bucket, or of a greater network. None means that no
    /// further one comes.
    fn note(&mut self, next: Option<Route>) {
        let Some(route) = next else {
            self.is_whole = true;
            return;
        };
        let place = (bucket_of(route.network, BUCKETS as u64), route.network);
        self.is_sorted = self.is_sorted && self.last < place;
        self.last = place;
        match self.routes.get_mut(route.network as usize) {
            Some(found) => *found = next,
            None => self.is_sorted = false,
        }
    }
}

/// Goes on to the next route.
fn note_next(entries: &mut Listing<'_>, listed: &mut Listed)
    ensures { listing entries.new ≡ after_hops whole (listing entries.old)
        (known_in whole (listing entries.new)) (listing entries.new).at }
{
    listed.note(entries.next());
}

/// Goes over all routes, in an open section.
fn list(map: &Routes, seat: &mut Seat) -> Listed
    requires { IsWalking map.now seat.old }
    ensures state { seat.new ≡ after_word_step seat.old seat.new.view.client }
    ensures walking { IsWalking map.now seat.new }
{
    let mut listed = Listed::new();
    let mut entries = map.entries(seat);
    for _ in 0..NETWORKS {
        if !listed.is_whole {
            note_next(&mut entries, &mut listed);
        }
    }
    listed
}

/// A reader, with its processor's seat.
#[derive(Drop)]
pub(crate) struct Reader<'a> {
    pub(crate) live: &'a Engine,
    pub(crate) map: &'a Routes,
    pub(crate) history: &'a History,
    pub(crate) seat: Seat,
    pub(crate) seen: Seen,
    pub(crate) ghost engine: { live.now ≡ map.now },
    pub(crate) ghost seat_of: { IsSeatOf map.now seat },
    pub(crate) ghost outside: { seat.depth ≡ 0 },
    pub(crate) ghost idle: { seat.view.client ≡ of_plan map.now.plan Idle },
}

impl<'a> Reader<'a> {
    /// Looks a route up, and passes a quiescent state.
    fn look_up<R: Abort>(&mut self, rt: &R, network: u32) {
        self.seen.begin(self.history, network);
        let key = u64::from(network);
        let found = self.map.get_section(self.live, &mut self.seat, key);
        let found = found.expect(rt, "the processor is online and awake");
        self.seen.end(rt, self.history, network, found);
        let _ = self.seat.quiesce(self.live);
    }

    /// All routes, by a section of its own.
    fn list<R: Abort>(&mut self, rt: &R) -> Listed {
        enters(rt, self.live, &mut self.seat);
        let listed = list(self.map, &mut self.seat);
        exits(rt, self.live, &mut self.seat);
        listed
    }

    /// Goes over all routes, and compares them with what each network may have had meanwhile.
    fn go_over<R: Abort>(&mut self, rt: &R) {
        for network in 0..NETWORKS {
            self.seen.begin(self.history, network);
        }
        let listed = self.list(rt);
        let found = (listed.is_sorted, listed.is_whole);
        compare(rt, "entries", found, (true, true));
        for (network, found) in listed.routes.iter().enumerate() {
            self.seen.end(rt, self.history, network as u32, *found);
        }
    }

    /// Goes over all routes, and looks each one up.
    pub(crate) fn read<R: Abort>(&mut self, rt: &R) {
        self.go_over(rt);
        for network in 0..NETWORKS {
            self.look_up(rt, network);
        }
    }

    /// Its processor is online from now on.
    fn arrive<R: Abort + Wait>(&mut self, rt: &R) {
        let found = self.live.online(rt, &mut self.seat);
        compare(rt, "online", found, Ok(()));
        self.history.arrive();
    }

    /// The reader's thread: it reads until all administrators have ended.
    pub(crate) fn read_on<R: Abort + Wait>(mut self, rt: &R) {
        self.arrive(rt);
        for _ in rt.forever() {
            self.read(rt);
            if self.history.is_over() {
                break;
            }
        }
        let Reader { live, mut seat, .. } = self;
        let _ = live.offline(rt, &mut seat);
    }

    /// Makes its processor idle, so no grace period waits for it.
    pub(crate) fn rest(&mut self) {
        let _ = self.seat.idle(self.live);
    }

    /// Reads once more.
    pub(crate) fn read_at_last<R: Abort>(&mut self, rt: &R) {
        let _ = self.seat.wake(self.live);
        self.read(rt);
    }
}
