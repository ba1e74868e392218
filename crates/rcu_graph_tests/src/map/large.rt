//! A map of more than 65,536 cells: each entry is found, and none that was taken out.
use crate::compare::compare;
use crate::map::Routes;
use crate::map::scene::Scene;

const BUCKETS: usize = 4096;

/// How many routes are put in: as many as the map has room for. It has 40,001 nodes of a link and
/// two words: 120,003 cells.
const ROUTES: u32 = 35_904;

impl<'a> Scene<'a> {
    /// Takes the route to a network out. Returns whether there was one.
    fn remove(&mut self, network: u32) -> bool {
        self.writer.remove(u64::from(network)).is_some()
    }

    /// Returns whether a section finds the route to a network as it was put in.
    fn finds(&mut self, network: u32) -> bool {
        let key = u64::from(network);
        let found = self.map.get_section(self.live, &mut self.seat, key);
        matches!(found, Ok(Some(route)) if route.port == !network)
    }
}

#[test]
fn each_of_35_904_routes_is_found(rt: HostRuntime) {
    let Ok(mut opened) = Routes::open(rt.alloc(), 1, 4_000_000, BUCKETS, ROUTES as usize, 0) else {
        return;
    };
    let mut scene = Scene {
        writer: opened.writer,
        seat: opened.seats.pop().unwrap(),
        live: &opened.live,
        map: &opened.map,
    };
    let mut right = 0u32;
    for network in 1..=ROUTES {
        let is_put = scene.insert(network, !network);
        right = right.saturating_add(u32::from(is_put));
    }
    compare(&rt, "insert", right, ROUTES);
    compare(&rt, ROUTES + 1, scene.insert(ROUTES + 1, 0), false);
    for network in 1..=ROUTES {
        if scene.finds(network) && (network % 2 == 0 || scene.remove(network)) {
            right = right.saturating_add(1);
        }
    }
    compare(&rt, "get_section", right, 2 * ROUTES);
    for network in 1..=ROUTES {
        right = right.saturating_sub(u32::from(scene.finds(network)));
    }
    compare(&rt, "remove", right, ROUTES + ROUTES / 2);
}
