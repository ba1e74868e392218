//! Why a graph is not opened.

use rcu_seq::Fault;
use thiserror::Error;

/// Why a graph, a cell or a map is not opened.
#[derive(Clone, Copy, Debug, PartialEq, Eq, Error)]
pub enum NotOpened {
    /// The sizes are refused: a root is no node, a node has no word, or there are more than 2^32
    /// links and words in all. A map also has a bucket, and a cell two slots.
    #[error("there are no buckets, too few nodes, or more than 2^32 words")]
    BadSizes,
    /// The engine is not opened.
    #[error(transparent)]
    Fault(Fault),
}

impl From<Fault> for NotOpened {
    ghost use Rattle.std.specs.Prelude.{◌≡◌};
    ghost use Rattle.rcu_graph.specs.declared.not_opened.NotOpened.TheVariants as not_opened;

    ghost from_gives = { λ fault why. why ≡ not_opened.Fault fault };

    fn from(fault: Fault) -> NotOpened {
        NotOpened::Fault(fault)
    }
}
