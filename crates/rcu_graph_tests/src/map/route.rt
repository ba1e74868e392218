//! A route, as an entry of a map.
ghost use Rattle.std.specs.Prelude.{◌<◌, IfSome};

use rcu_graph::{Invariant, Value};
use rcu_map::Entry;

/// The port by which packets to a network go on. A network's number is 1 or more.
#[derive(Clone, Copy, Debug, PartialEq, Eq)]
pub(crate) struct Route {
    pub(crate) network: u64,
    pub(crate) port: u32,
}

impl Route {
    /// Returns a route to a network, if the number is one.
    pub(crate) fn to(network: u32, port: u32) -> Option<Route>
        ensures { IfSome result (λ route. 0 < route.network) }
    {
        if network == 0 {
            return None;
        }
        Some(Route {
            network: u64::from(network),
            port,
        })
    }
}

impl Invariant for Route {
    ghost use Rattle.std.specs.Prelude.{◌<◌, ◌^◌, slice_index};

    ghost holds = { λ words. (0 < slice_index words 0) × (slice_index words 1 < 2 ^ 32) };
}

impl Value<2> for Route {
    ghost use Rattle.std.specs.Prelude.{◌≤◌, ◌<◌, [], ◌∷◌, slice_index};
    ghost use Rattle.std.proofs.Common.{rules};

    ghost valid = { λ route. 0 < route.network };

    ghost in_words = { λ route. route.network ∷ route.port ∷ [] };

    ghost decode = { λ words. record {
      network = slice_index words 0;
      port = slice_index words 1;
    } };

    fn to_words(self) -> [u64; 2] {
        [self.network, u64::from(self.port)]
    }

    fn of_words(words: &[u64; 2]) -> Route {
        Route {
            network: words[0],
            port: words[1] as u32,
        }
    }

    ghost small = { Prim.search rules };
}

impl Entry<2> for Route {
    ghost use Rattle.std.specs.Prelude.{refl};
    ghost use Rattle.std.proofs.Common.{rules};

    ghost key_of = { λ route. route.network };

    fn key(&self) -> u64 {
        self.network
    }

    ghost keyed = { λ words holds. holds.0 };

    ghost tells = { λ words holds. refl };

    ghost roomy = { Prim.search rules };
}
