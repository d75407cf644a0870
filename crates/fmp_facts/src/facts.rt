//! Things that have facts, and what may be so of them.
use fmp_codes::{Object, ObjectKind, Proc, Runner, Task};

/// The kinds of things that have facts.
#[derive(Clone, Copy)]
pub enum Kind {
    Processor,
    Task,
    Semaphore,
    Eventflag,
    DataQueue,
    Pool,
    Cyclic,
    Alarm,
    SpinLock,
}

/// A thing that has facts.
#[derive(Clone, Copy)]
pub enum Thing {
    Processor(Proc),
    Task(Task),
    Semaphore(Object),
    Eventflag(Object),
    DataQueue(Object),
    Pool(Object),
    Cyclic(Object),
    Alarm(Object),
    SpinLock(Object),
}

/// Of which thing something is asked: of this one, or of any of a kind.
#[derive(Clone, Copy)]
pub enum Subject {
    One(Thing),
    Any(Kind),
}

/// What a task waits for.
#[derive(Clone, Copy)]
pub enum WaitKind {
    Sleep,
    Delay,
    Semaphore,
    Eventflag,
    Send,
    Receive,
    Pool,
}

/// What may stand before a `=`.
#[derive(Clone, Copy)]
pub enum Key {
    Run,
    Ready,
    Due,
    Left,
    Priority,
    Activations,
    Wakeups,
    Count,
    Pattern,
    Values,
    FreeBlocks,
    Held,
}

/// What may be so of a thing: each is a word of a pattern.
#[derive(Clone, Copy)]
pub enum Fact {
    /// `run=T`: a processor runs the task.
    Runs(Task),
    /// `run=-`: it runs none.
    RunsNone,
    /// `ready=T`: the task is ready there, and does not run.
    HasReady(Task),
    Locked,
    Disabled,
    /// `latch`: a request to the processor is pending.
    Latched,
    /// `due=H`: the handler is due there.
    HasDue(Runner),
    Dormant,
    /// `running`: its processor runs the task.
    Running,
    /// `ready`: the task could run, and does not.
    Ready,
    /// `P1` after one of the two: the processor of the task.
    On(Proc),
    Suspended,
    Waits,
    /// `sem` and the like after `waits`.
    WaitsFor(WaitKind),
    /// And the object.
    WaitsAt(ObjectKind, Object),
    /// `left=N`: the ticks left of a task's wait, or of a handler.
    Left(u64),
    Priority(u64),
    Activations(u64),
    Wakeups(u64),
    /// `count=N` of a semaphore.
    Count(u64),
    /// `pattern=N` of an eventflag.
    Pattern(u64),
    /// `empty`: a data queue has no value.
    Empty,
    /// `values=N`: it has this value among others.
    HasValue(i64),
    /// `free=N`: so many blocks of a pool are free.
    FreeBlocks(u64),
    /// `stopped`: a handler counts no ticks.
    Stopped,
    /// `due`: it runs, or is to run before any task.
    Due,
    /// `free`: nobody holds the spin lock.
    Free,
    /// `held=P1`: this processor holds it.
    HeldBy(Proc),
    /// `left=*` and the like: there is something that could stand after the `=`.
    Has(Key),
}
