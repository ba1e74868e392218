//! The ways to put an entry in, and why it was not put in.
ghost use Rattle.std.specs.Prelude.{◌≡◌};
ghost use Rattle.rcu_map.specs.Puts.{is_put};

use rcu_seq::Fault;

/// Which entries a put may add or replace.
#[derive(Clone, Copy, Debug, PartialEq, Eq)]
pub enum Put {
    /// Adds the entry, if none has its key.
    Insert,
    /// Replaces the entry that has its key.
    Replace,
    /// Does either.
    Upsert,
}

impl Put {
    /// Returns whether an entry is put in, if one has its key already or none has.
    pub(crate) fn puts(self, there: bool) -> bool
        ensures { result ≡ is_put self there }
    {
        match self {
            Put::Insert => !there,
            Put::Replace => there,
            Put::Upsert => true,
        }
    }
}

/// Why a call that waits for a free node put no entry in.
#[derive(Clone, Copy, Debug, PartialEq, Eq)]
pub enum NotPut {
    /// The map has as many entries as it may, and none has the key: one has to be removed first.
    Full,
    /// The wait was refused, or given up.
    Fault(Fault),
}

impl From<Fault> for NotPut {
    ghost use Rattle.std.specs.Prelude.{◌≡◌};
    ghost use Rattle.rcu_map.specs.declared.put.NotPut.TheVariants as not_put;

    ghost from_gives = { λ fault why. why ≡ not_put.Fault fault };

    fn from(fault: Fault) -> NotPut {
        NotPut::Fault(fault)
    }
}
