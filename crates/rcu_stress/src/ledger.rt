//! The ledger of a torture run.
ghost use Rattle.std.specs.Prelude.{◌≡◌, ◌+◌, ◌-◌, ◌*◌, ◌≤◌, ◌==◌, ◌++◌, [], IfOk, OnOk, length};
ghost use Rattle.std.specs.Set.{distinct_count};
ghost use Rattle.rcu_stress.specs.Ledger.{early_in, queued_in, ran_in, twice_in};
ghost use Rattle.rcu_stress.specs.Ledger.{most_rounds, most_workers};

use crate::share::LedgerShare;
use std::alloc::{AllocError, Global};
use std::collections::HashSet;
use std::marker::Model;

/// Sums over shares, and all their ids.
#[derive(Drop)]
struct Sums {
    queued: u64,
    early: u64,
    ids: Vec<u64>,
}

impl Sums {
    /// Returns the sums over no share.
    fn new(alloc: Global) -> Sums
        ensures queued { result.queued ≡ 0 }
        ensures early { result.early ≡ 0 }
        ensures ids { result.ids.items ≡ [] }
    {
        Sums {
            queued: 0,
            early: 0,
            ids: Vec::new(alloc),
        }
    }

    /// Adds a share.
    fn add(&mut self, share: &LedgerShare) -> Result<(), AllocError>
        requires queued { self.old.queued ≤ most_workers * most_rounds }
        requires early { self.old.early ≤ most_workers * most_rounds + length self.old.ids.items }
        ensures queued { OnOk result (self.new.queued ≡ self.old.queued + share.now.queued) }
        ensures early { OnOk result (self.new.early ≡ self.old.early + share.now.early) }
        ensures ids { OnOk result (self.new.ids.items ≡ self.old.ids.items ++ share.now.ids) }
        ensures few { OnOk result (self.new.queued ≤ self.old.queued + most_rounds) }
        ensures rare { OnOk result
            (self.new.early ≤ self.old.early + most_rounds + length share.now.ids) }
    {
        self.ids.extend_from_slice(share.ids())?;
        self.queued += share.queued();
        self.early += share.early();
        Ok(())
    }
}

/// Returns the number of ids that occur again.
fn count_twice(alloc: Global, ids: &[u64]) -> Result<u64, AllocError>
    ensures { IfOk result (λ twice.
        twice ≡ length ids.now - distinct_count (λ x y. x == y) ids.now) }
{
    let different: HashSet<u64> = ids.iter().copied().collect(alloc)?;
    Ok((ids.len() - different.len()) as u64)
}

/// The actions of a run's workers, and of the program at its end: the share of each, and the
/// totals.
#[derive(Drop)]
pub struct Ledger {
    /// The shares of the workers, in order.
    shares: Vec<LedgerShare>,
    /// The share of the program.
    own: LedgerShare,
    queued: u64,
    ran: u64,
    early: u64,
    twice: u64,
}

impl Model for Ledger {
    ghost use Rattle.std.specs.Prelude.{◌≡◌};
    ghost use Rattle.rcu_stress.specs.Ledger.{Account, early_in, queued_in, ran_in, twice_in};

    ghost Value = { Account };

    ghost view = { λ ledger. record { shares = ledger.shares.items; own = ledger.own } };

    ghost invariant = { λ ledger. record {
      queued : ledger.queued ≡
          queued_in (record { shares = ledger.shares.items; own = ledger.own });
      ran : ledger.ran ≡
          ran_in (record { shares = ledger.shares.items; own = ledger.own });
      early : ledger.early ≡
          early_in (record { shares = ledger.shares.items; own = ledger.own });
      twice : ledger.twice ≡
          twice_in (record { shares = ledger.shares.items; own = ledger.own });
    } };
}

impl Ledger {
    /// Returns the ledger over these shares of workers, at most 64, and the program's own.
    pub(crate) fn of(
        alloc: Global,
        shares: Vec<LedgerShare>,
        own: LedgerShare,
    ) -> Result<Ledger, AllocError>
        requires { length shares.items ≤ most_workers }
        ensures { IfOk result (λ ledger.
            ledger ≡ record { shares = shares.items; own = own }) }
    {
        let mut sums = Sums::new(alloc);
        for share in &shares {
            sums.add(share)?;
        }
        sums.add(&own)?;
        let twice = count_twice(alloc, &sums.ids)?;
        Ok(Ledger {
            shares,
            own,
            queued: sums.queued,
            ran: sums.ids.len() as u64,
            early: sums.early,
            twice,
        })
    }

    /// Returns the number of callbacks that were queued: the sum over all shares.
    pub fn queued(&self) -> u64
        ensures { result ≡ queued_in self.now }
    {
        self.queued
    }

    /// Returns the number of callbacks that were handed out: the sum over all shares.
    pub fn ran(&self) -> u64
        ensures { result ≡ ran_in self.now }
    {
        self.ran
    }

    /// Returns how often a cookie or a callback came early: the sum over all shares.
    pub fn early(&self) -> u64
        ensures { result ≡ early_in self.now }
    {
        self.early
    }

    /// Returns how often an id was handed out again.
    pub fn twice(&self) -> u64
        ensures { result ≡ twice_in self.now }
    {
        self.twice
    }

    /// Returns the share of each worker, in order.
    pub fn shares(&self) -> &[LedgerShare]
        ensures { result.now ≡ self.now.shares }
    {
        self.shares.as_slice()
    }

    /// Returns the program's own share.
    pub fn own(&self) -> &LedgerShare
        ensures { result.now ≡ self.now.own }
    {
        &self.own
    }
}
