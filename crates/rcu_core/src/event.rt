//! The events of the engine.

/// An event: one atomic step of one actor.
#[derive(Clone, Copy, Debug, PartialEq, Eq)]
pub enum Event {
    /// The processor opens a read section, or nests one deeper. Faults: `BadCpu` (1), `Offline`
    /// (2), `CpuIdle` (23), `NestFull` (6).
    Enter(u32),
    /// The processor closes its innermost read section. Faults: `BadCpu` (1), `NotOpen` (5).
    Exit(u32),
    /// The processor notes the tag of now. Faults: `BadCpu` (1), `Offline` (2).
    Note(u32),
    /// The processor makes a report of its noted tag. Faults: `BadCpu` (1), `Offline` (2),
    /// `CpuIdle` (23), `InSection` (4), `NoMemory` (16).
    Quiesce(u32),
    /// The report of this number, counted from 1, is delivered. Fault: `NoReport` (7).
    Deliver(u64),
    /// The processor arrives, and notes the tag of now. Faults: `BadCpu` (1), `AlreadyOnline` (3).
    Online(u32),
    /// The processor departs, and is no longer awaited. Its list moves to processor 0; a barrier
    /// visits it first. Faults: `BadCpu` (1), `BootStays` (12), `Offline` (2), `InSection` (4),
    /// `NoMemory` (16).
    Offline(u32),
    /// A grace period begins, and awaits the processors that are online. Faults: `Running` (8),
    /// `Exhausted` (11).
    Begin,
    /// The grace period ends. Faults: `Idle` (9), `Waiting` (10).
    End,
    /// The grace period ends if no processor is awaited. If none runs, one begins if a later number
    /// is needed. Fault: `Exhausted` (11), if it would begin one.
    Turn,
    /// The awaited processors are listed. Fault: `NoMemory` (16), if there are any.
    Awaits,
    /// A snapshot is taken: the reply has its cookie.
    Take,
    /// A snapshot is taken, and its number is requested.
    StartPoll,
    /// The cookie of this number and this epoch is tested.
    Poll(u64, u64),
    /// A callback of this value is queued on the processor. Faults: `BadCpu` (1), `Offline` (2),
    /// `CallbacksFull` (15), `NoMemory` (16).
    Queue(u32, u64),
    /// The processor's callbacks are advanced and accelerated to the current number. Fault:
    /// `BadCpu` (1).
    Tend(u32),
    /// The first callbacks of the processor's done part are handed out, at most as many as the
    /// second number says. Faults: `BadCpu` (1), `NoMemory` (16).
    Run(u32, u64),
    /// A barrier begins. Fault: `BarrierBusy` (13).
    BarBegin,
    /// The barrier visits the processor. Faults: `BadCpu` (1), `NoBarrier` (14), `NoMemory` (16).
    Visit(u32),
    /// The barrier is tested. Fault: `NoBarrier` (14).
    BarTest,
    /// The counter is renumbered: it starts at 0 in the next epoch. Faults: `Running` (8);
    /// `NotLast` (22) if the number is not the last one; `Exhausted` (11) in the last epoch.
    Renumber,
    /// The processor goes idle: it opens no section until it wakes. Faults: `BadCpu` (1), `Offline`
    /// (2), `CpuIdle` (23), `InSection` (4).
    Idle(u32),
    /// The processor wakes. Faults: `BadCpu` (1), `Offline` (2), `NotIdle` (24).
    Wake(u32),
    /// The processor is scanned, and found idle. This counts as a report of it with the tag of now.
    /// Faults: `BadCpu` (1), `Offline` (2), `NotIdle` (24).
    Scan(u32),
}
