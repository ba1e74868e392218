//! The routes after each change, and the number of changes: all threads compare the routes that
//! they find with this model.
ghost use Rattle.std.specs.Prelude.{◌<◌, IfSome};

use crate::map::route::Route;
use rand_core::{Rng, SeedableRng};
use rand_pcg::Pcg32;
use std::process::Abort;
use std::sync::atomic::{AtomicU32, Ordering};
use std::{array, thread};

/// The networks are the numbers below this one. Network 0 never has a route.
pub(crate) const NETWORKS: u32 = 26;

/// More than there are changes of one network.
const MOST_CHANGES: u32 = 10_000;

/// How often an administrator looks whether the readers have arrived. It goes on also if no thread
/// can be made for them.
const LOOKS: u32 = 2_000;

/// Returns whether a network has one route from the beginning to the end.
pub(crate) fn is_kept(network: u32) -> bool {
    network % 5 == 1
}

/// Returns the route to a network after this many changes of it: none, or one whose port encodes
/// both. The choice of the two is drawn.
pub(crate) fn route_after(network: u32, changes: u32) -> Option<Route>
    ensures { IfSome result (λ route. 0 < route.network) }
{
    let port = network.saturating_mul(MOST_CHANGES).saturating_add(changes);
    let mut draws = Pcg32::seed_from_u64(u64::from(port));
    let is_drawn = changes > 0 && draws.next_u32() % 3 > 0;
    if !is_drawn && !is_kept(network) {
        return None;
    }
    Route::to(network, port)
}

/// How many changes of a network were begun, and how many have ended.
#[derive(Drop)]
struct Changes {
    begun: AtomicU32,
    ended: AtomicU32,
}

impl Changes {
    fn none() -> Changes {
        Changes {
            begun: AtomicU32::new(0),
            ended: AtomicU32::new(0),
        }
    }
}

/// The changes of all networks, how many readers have not arrived, and how many administrators have
/// not ended.
#[derive(Drop)]
pub(crate) struct History {
    networks: [Changes; NETWORKS as usize],
    readers: AtomicU32,
    administrators: AtomicU32,
}

impl History {
    /// Returns a history with no change yet, by this many administrators, beside this many readers.
    pub(crate) fn new(readers: u32, administrators: u32) -> History {
        History {
            networks: array::from_fn(|_| Changes::none()),
            readers: AtomicU32::new(readers),
            administrators: AtomicU32::new(administrators),
        }
    }

    /// How many changes of a network were begun.
    fn begun(&self, network: u32) -> u32 {
        match self.networks.get(network as usize) {
            Some(changes) => changes.begun.load(Ordering::SeqCst),
            None => 0,
        }
    }

    /// How many changes of a network have ended.
    pub(crate) fn ended(&self, network: u32) -> u32 {
        match self.networks.get(network as usize) {
            Some(changes) => changes.ended.load(Ordering::SeqCst),
            None => 0,
        }
    }

    /// Begins one more change of a network, by its administrator. Returns the number of the change.
    pub(crate) fn begin(&self, network: u32) -> u32 {
        let number = self.ended(network).saturating_add(1);
        if let Some(changes) = self.networks.get(network as usize) {
            changes.begun.store(number, Ordering::SeqCst);
        }
        number
    }

    /// The change that was begun has ended.
    pub(crate) fn end(&self, network: u32, number: u32) {
        if let Some(changes) = self.networks.get(network as usize) {
            changes.ended.store(number, Ordering::SeqCst);
        }
    }

    /// A reader has arrived: its processor is online.
    pub(crate) fn arrive(&self) {
        self.readers.fetch_sub(1, Ordering::SeqCst);
    }

    /// Waits until all readers have arrived, or for this many looks.
    pub(crate) fn wait_for_readers(&self) {
        for _ in 0..LOOKS {
            if self.readers.load(Ordering::SeqCst) == 0 {
                return;
            }
            thread::yield_now();
        }
    }

    /// An administrator has ended.
    pub(crate) fn leave(&self) {
        self.administrators.fetch_sub(1, Ordering::SeqCst);
    }

    /// Returns whether all administrators have ended.
    pub(crate) fn is_over(&self) -> bool {
        self.administrators.load(Ordering::SeqCst) == 0
    }
}

/// How many changes of each network a reader has seen at least.
#[derive(Drop)]
pub(crate) struct Seen {
    least: [u32; NETWORKS as usize],
}

impl Seen {
    pub(crate) fn new() -> Seen {
        Seen {
            least: [0; NETWORKS as usize],
        }
    }

    /// A look at a network begins: it sees all changes that have ended.
    pub(crate) fn begin(&mut self, history: &History, network: u32) {
        let ended = history.ended(network);
        if let Some(least) = self.least.get_mut(network as usize) {
            *least = ended.max(*least);
        }
    }

    /// Ends the lookup. It found the route after some number of changes: not before one that this
    /// reader saw, and not after the last one that was begun.
    pub(crate) fn end<R: Abort>(
        &mut self,
        rt: &R,
        history: &History,
        network: u32,
        found: Option<Route>,
    ) {
        let begun = history.begun(network);
        let Some(least) = self.least.get_mut(network as usize) else {
            return;
        };
        let before = *least;
        let seen = (before..=begun).find(|changes| route_after(network, *changes) == found);
        assert!(rt;
            seen.is_some(),
            "network {network}: {found:?} after {before} changes to {begun}"
        );
        *least = seen.unwrap_or(before);
    }
}
