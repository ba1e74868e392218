//! Why a call is refused in C.
ghost use Rattle.std.specs.Prelude.{◌≡◌};
ghost use Rattle.rcu_c.specs.Answers.{refusal_number};

use rcu_graph::NotOpened;
use rcu_seq::Fault;
use std::alloc::AllocFailed;

/// Why a call is refused in C.
#[derive(Clone, Copy)]
pub enum Refusal {
    /// The engine or the seat refuses it.
    Engine(Fault),
    /// The seat of the processor is dealt.
    SeatDealt,
    /// The seat is of another engine.
    OtherEngine,
    /// The handle is closed, or was never opened.
    Closed,
    /// The handle is of another kind.
    OtherKind,
    /// A map can't have these sizes (buckets, words an entry, entries).
    BadSizes,
    /// An entry has the key 0.
    BadKey,
    /// The map has no room for an entry, or none yet.
    MapFull,
    /// An entry of the map has another number of words.
    BadWords,
    /// The entry of the map is not as it was read.
    EntryChanged,
}

impl Refusal {
    /// Returns the number of the fault in C: no fault of the engine has one of the last nine.
    pub(crate) fn number(self) -> u32
        ensures { result ≡ refusal_number self }
    {
        match self {
            Refusal::Engine(fault) => fault.number(),
            Refusal::SeatDealt => 25,
            Refusal::OtherEngine => 26,
            Refusal::Closed => 27,
            Refusal::OtherKind => 28,
            Refusal::BadSizes => 29,
            Refusal::BadKey => 30,
            Refusal::MapFull => 31,
            Refusal::BadWords => 32,
            Refusal::EntryChanged => 33,
        }
    }
}

impl From<Fault> for Refusal {
    ghost use Rattle.std.specs.Prelude.{◌≡◌};
    ghost use Rattle.rcu_c.specs.declared.refusal.Refusal.TheVariants as refusal;

    ghost from_gives = { λ fault r. r ≡ refusal.Engine fault };

    fn from(fault: Fault) -> Refusal {
        Refusal::Engine(fault)
    }
}

impl From<NotOpened> for Refusal {
    ghost use Rattle.std.specs.Prelude.{◌≡◌};
    ghost use Rattle.rcu_c.specs.Answers.{refusal_of};

    ghost from_gives = { λ why r. r ≡ refusal_of why };

    fn from(why: NotOpened) -> Refusal {
        match why {
            NotOpened::BadSizes => Refusal::BadSizes,
            NotOpened::Fault(fault) => Refusal::Engine(fault),
        }
    }
}

impl<T: Drop> From<AllocFailed<T>> for Refusal {
    ghost use Rattle.std.specs.Prelude.{◌≡◌};
    ghost use Rattle.rcu_c.specs.declared.refusal.Refusal.TheVariants as refusal;
    ghost use Rattle.rcu_seq.specs.declared.fault.Fault.TheVariants as fault;

    ghost from_gives = { λ _ r. r ≡ refusal.Engine fault.NoMemory };

    fn from(_error: AllocFailed<T>) -> Refusal {
        Refusal::Engine(Fault::NoMemory)
    }
}
