//! Laws of batches and of replicas.
ghost use Rattle.std.specs.Prelude.{◌≡◌, ◌&&◌, [], ◌∷◌, ℕ, All, Bool, List, None, true};
ghost use Rattle.rcu_seq.specs.Numbers.{Number, same_number};
ghost use Rattle.rcu_seq.specs.declared.tag.Tag.{Tag};
ghost use Rattle.rcu_node.specs.CpuSet.{is_in};
ghost use Rattle.rcu_node.specs.Reports.{awaited_after_reports, was_reported};
ghost use Rattle.rcu_report.specs.Batch.{Gathered, awaited_after_batch};
ghost use Rattle.rcu_report.specs.History.{AreAccepted, History, Represents, after_calls};
ghost use Rattle.rcu_report.specs.History.{hears, is_heard, starts, tag};
ghost use Rattle.rcu_report.specs.Replica.{Call, CanBeMade, IsSound, Merge, MergesBack};
ghost use Rattle.rcu_report.specs.Replica.{Replicated, after_call, refusal};

/// A batch has the same effect as its reports one after another, in any order and any number of
/// times, if they have its tag and their processors are its set.
pub fn batch_leaves_what_its_reports_leave()
    ensures { (batch : Gathered) (number : Tag) (awaited : List Bool)
        → (reports : List (ℕ × Tag)) → All (λ report. report.1 ≡ batch.tag) reports
        → ((cpu : ℕ) → is_in batch.set cpu ≡ was_reported batch.tag cpu reports)
        → awaited_after_batch number awaited batch ≡ awaited_after_reports number awaited reports }
{}

/// The laws below hold for no call, and for one call more if that could be made and is not refused.
pub fn calls_are_accepted_one_by_one()
    ensures none { (cpus : ℕ) (last : Number) → AreAccepted cpus last [] }
    ensures more { (cpus : ℕ) (last : Number) (h : History) (call : Call)
        → AreAccepted cpus last h → CanBeMade (after_calls cpus last h) call
        → refusal (after_calls cpus last h) call ≡ None → AreAccepted cpus last (call ∷ h) }
{}

/// After any accepted calls a replica is as the history of the calls defines it: it awaits the
/// start set less the processors heard since. It also has the invariant of replicas.
pub fn replica_is_as_its_history_says()
    ensures says { (cpus : ℕ) (last : Number) (h : History) → AreAccepted cpus last h
        → Represents (after_calls cpus last h) h }
    ensures kept { (cpus : ℕ) (last : Number) (h : History) → AreAccepted cpus last h
        → IsSound (after_calls cpus last h) }
{}

/// A replica that merges another one hears the processors that the other heard in the same grace
/// period, ended or not.
pub fn merging_takes_in_what_the_other_heard()
    ensures { (cpus : ℕ) (last : Number) (h : History) (cpu : ℕ) (number : Number)
        → AreAccepted cpus last h
        → hears cpu number (Merge (after_calls cpus last h))
        ≡ (same_number (tag h) number && (starts cpu h && is_heard cpu (tag h) h)) }
{}

/// If the latest grace periods of two replicas had one number and one start set, and the replicas
/// heard the same processors since, they await the same processors. The order of the reports and
/// departures, their repetition, and stale ones among them make no difference.
pub fn equally_heard_replicas_await_the_same()
    ensures { (cpus : ℕ) (last other : Number) (x y : History)
        → AreAccepted cpus last x → AreAccepted cpus other y → tag x ≡ tag y
        → ((cpu : ℕ) → starts cpu x ≡ starts cpu y)
        → ((cpu : ℕ) → starts cpu x ≡ true → is_heard cpu (tag x) x ≡ is_heard cpu (tag y) y)
        → (after_calls cpus last x).awaited ≡ (after_calls cpus other y).awaited }
{}

/// If a replica may merge another one, the other may merge it too, as it was or as it became, and
/// afterwards both await the same processors.
pub fn merged_replicas_await_the_same()
    ensures { (x y : Replicated) → refusal x (Merge y) ≡ None → MergesBack x y }
{}
