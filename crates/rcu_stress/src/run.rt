//! A torture run: its workers' jobs, and the ledger over them.
ghost use Rattle.std.specs.Prelude.{◌≡◌, ◌+◌, ◌≤◌, Err, IfErr, IfNone, IfOk, IfSome, Ok};
ghost use Rattle.std.specs.Prelude.{length, vec_capacity, vec_len};
ghost use Rattle.std.specs.Option.{option_or};
ghost use Rattle.std.specs.Result.{result_err};
ghost use Rattle.rcu_stress.specs.Ledger.{most_rounds, most_workers};

use crate::engine::Engine;
use crate::gate::Gate;
use crate::job::{Job, RunSettings};
use crate::ledger::Ledger;
use crate::share::LedgerShare;
use crate::workers::{WorkerResults, deal_jobs, run_all};
use rcu_seq::Fault;
use std::alloc::Global;
use std::sync::Wait;
use std::thread::Threads;

/// The last number of a run's engine, the greatest possible one.
const LAST: u64 = 1 << 62;

/// Stresses the running engine with `workers` workers, each on a thread of its own with a processor
/// of its own, for `rounds` rounds, and then alone until no callback is left. The seed determines
/// the words that a worker draws. A worker passes the gate twice a round.
///
/// Returns the ledger. Faults: the first fault of the lowest worker that has one, else that of the
/// program, of which only 16 is expected.
pub fn torture<R: Threads + Wait + Sync, G: Gate>(
    alloc: Global,
    rt: &R,
    workers: u32,
    rounds: u32,
    seed: u64,
    gate: &G,
) -> Result<Ledger, Fault>
    requires workers { (1 ≤ workers) × (workers ≤ most_workers) }
    requires rounds { (1 ≤ rounds) × (rounds ≤ most_rounds) }
    ensures workers { IfOk result (λ ledger. length ledger.shares ≡ workers) }
    ensures own { IfOk result (λ ledger. (ledger.own.queued ≡ 0) × (ledger.own.early ≡ 0)) }
{
    let Ok(results) = WorkerResults::new(alloc, workers) else {
        return Err(Fault::NoMemory);
    };
    let (live, seats, watchers) = Engine::open(alloc, workers, LAST)?;
    let settings = RunSettings {
        workers,
        rounds,
        seed,
    };
    let (first, others) = deal_jobs(rt, alloc, &live, seats, watchers, settings)?;
    run_jobs(rt, alloc, gate, first, others, results)
}

/// Does the jobs, and then works alone, as the first worker, until no callback is left. Adds the
/// results of the workers to these results, which are none and have room for them.
///
/// Its faults are those of `torture`.
fn run_jobs<R: Threads + Wait + Sync, G: Gate>(
    rt: &R,
    alloc: Global,
    gate: &G,
    mut first: Job<'_, Engine>,
    others: Vec<Job<'_, Engine>>,
    results: WorkerResults,
) -> Result<Ledger, Fault>
    requires few { vec_len others + 1 ≤ most_workers }
    requires none { vec_len results.shares ≡ 0 }
    requires room { vec_len others + 1 ≤ vec_capacity results.shares }
    ensures workers { IfOk result (λ ledger. length ledger.shares ≡ vec_len others.entry + 1) }
    ensures own { IfOk result (λ ledger. (ledger.own.queued ≡ 0) × (ledger.own.early ≡ 0)) }
{
    let results = run_all(rt, gate, &mut first, others, results);
    let own = first.hand_out_rest(rt);
    make_ledger(alloc, results, own)
}

/// Returns the ledger of the workers' results and of the program's own share.
///
/// Faults: the workers', else the program's, else 16.
fn make_ledger(
    alloc: Global,
    results: WorkerResults,
    own: Result<LedgerShare, Fault>,
) -> Result<Ledger, Fault>
    requires { vec_len results.shares ≤ most_workers }
    ensures shares { IfOk result (λ ledger. ledger.shares ≡ results.shares.items) }
    ensures own { IfOk result (λ ledger. own ≡ Ok ledger.own) }
    ensures met { IfSome (option_or results.fault (result_err own))
        (λ fault. result ≡ Err fault) }
    ensures memory { IfNone (option_or results.fault (result_err own))
        (IfErr result (λ fault. fault ≡ Fault.NoMemory)) }
{
    let WorkerResults { shares, fault } = results;
    if let Some(fault) = fault {
        return Err(fault);
    }
    let own = own?;
    Ledger::of(alloc, shares, own).map_err(|_| Fault::NoMemory)
}
