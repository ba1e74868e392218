//! The workers of a run, each on a thread of its own.
ghost use Rattle.std.specs.Prelude.{◌≡◌, ◌+◌, ◌<◌, ◌≤◌, ◌∷◌, IfOk, vec_capacity, vec_len};
ghost use Rattle.std.specs.Thread.{IsSync};
ghost use Rattle.rcu_stress.specs.Ledger.{most_rounds};
ghost use Rattle.rcu_stress.specs.Worker.{AreJobs, AreOfWorkers};
ghost use Rattle.rcu_stress.specs.WorkerResults.{HasAdded};

use crate::engine::Engine;
use crate::gate::Gate;
use crate::job::{Job, RunSettings, WorkerResult};
use crate::share::LedgerShare;
use rcu_live::{CpuSeat, Watcher};
use rcu_seq::Fault;
use std::alloc::{AllocError, Global};
use std::sync::Wait;
use std::thread;
use std::thread::Threads;

/// The results of workers.
#[derive(Drop)]
pub(crate) struct WorkerResults {
    /// The shares in the order of the workers.
    pub(crate) shares: Vec<LedgerShare>,
    /// The first fault of the lowest worker that has one.
    pub(crate) fault: Option<Fault>,
}

impl WorkerResults {
    /// Returns the results of no worker, with room for `workers`.
    pub(crate) fn new(alloc: Global, workers: u32) -> Result<WorkerResults, AllocError>
        ensures len { IfOk result (λ results. vec_len results.shares ≡ 0) }
        ensures room { IfOk result (λ results. vec_capacity results.shares ≡ workers) }
    {
        Ok(WorkerResults {
            shares: Vec::with_capacity(alloc, workers as usize)?,
            fault: None,
        })
    }

    /// Adds the result of the next worker, for which there is room.
    fn add(&mut self, next: WorkerResult)
        requires { vec_len self.old.shares < vec_capacity self.old.shares }
        ensures { HasAdded self.old next self.new }
    {
        let WorkerResult { share, fault } = next;
        self.shares.push_reserved(share);
        self.fault = self.fault.or(fault);
    }
}

/// Returns the jobs of a run: that of worker 0, and those of the others in order. It brings the
/// processors of the others online.
///
/// Faults: `NoMemory` (16). It would pass on `AlreadyOnline` (3), but that never occurs.
pub(crate) fn deal_jobs<'a, R: Wait>(
    rt: &R,
    alloc: Global,
    live: &'a Engine,
    seats: Vec<CpuSeat>,
    watchers: Vec<Watcher>,
    settings: RunSettings,
) -> Result<(Job<'a, Engine>, Vec<Job<'a, Engine>>), Fault>
    requires some { 0 < settings.workers }
    requires rounds { settings.rounds ≤ most_rounds }
    requires seats { AreOfWorkers live.now settings.workers seats.items watchers.items }
    ensures jobs { IfOk result (λ jobs. AreJobs settings (jobs.0 ∷ jobs.1.items)) }
    ensures len { IfOk result (λ jobs. vec_len jobs.1 + 1 ≡ settings.workers) }
{
    let Ok(mut others) = Vec::with_capacity(alloc, settings.workers as usize) else {
        return Err(Fault::NoMemory);
    };
    let mut pairs = seats.into_iter().zip(watchers);
    let Some((seat, watcher)) = pairs.next() else {
        unreachable!()
    };
    let first = Job::new(alloc, live, seat, watcher, settings);
    for (seat, watcher) in pairs {
        let mut job = Job::new(alloc, live, seat, watcher, settings);
        job.arrive(rt)?;
        others.push_reserved(job);
    }
    Ok((first, others))
}

/// Runs the first job here, and each other one on a thread of its own, or here if no thread can be
/// made. Adds their results, for which there is room: that of the first job, and then those of the
/// others in order.
pub(crate) fn run_all<R: Threads + Wait + Sync, G: Gate>(
    rt: &R,
    gate: &G,
    first: &mut Job<'_, Engine>,
    mut others: Vec<Job<'_, Engine>>,
    mut results: WorkerResults,
) -> WorkerResults
    requires { vec_len results.shares + vec_len others + 1 ≤ vec_capacity results.shares }
    ensures len { vec_len result.shares ≡ vec_len results.shares + vec_len others.entry + 1 }
    ensures room { vec_capacity result.shares ≡ vec_capacity results.shares }
{
    let Some(job) = others.pop() else {
        results.add(first.run_rounds(rt, gate));
        return results;
    };
    let rest = move || -> WorkerResults
        requires { IsSync R.row × IsSync G.row
            × (vec_len results.shares + vec_len others + 1 ≤ vec_capacity results.shares) }
        ensures { (vec_len result.shares ≡ vec_len results.shares + vec_len others.entry + 1)
            × (vec_capacity result.shares ≡ vec_capacity results.shares) }
    { run_all(rt, gate, first, others, results) };
    let (next, mut results) = thread::join(rt, move || job.run(rt, gate), rest);
    results.add(next);
    results
}
