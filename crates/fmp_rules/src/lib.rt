//! The records of the machine, and what every machine has to do.
//!
//! The definitions of the machine are in `specs/`, to be read in the order of `specs/Lib.antt`; docs/PROFILE.md tells the same
//! rules in words. A call's rule is its row, in the file of its family: `TaskCalls`, `SyncCalls`, `BufferCalls`, `TimeCalls`,
//! `SystemCalls`, `SpinCalls`. `Step` puts them together: what an event does, what is told of it, and what a list of events
//! answers.
//!
//! What a configuration is stands below, in `fmp_setup`. A doubt about a rule is settled in `proofs/`, where scenarios compute.
#![tactic(auto)]

mod effect;
mod machine;
mod states;

pub use effect::Effect;
pub use fmp_setup::{
    AlarmSetup, Class, Config, CyclicFields, CyclicSetup, DataQueueSetup, EventflagSetup, Fields,
    Limits, NamedClass, Order, Parts, PoolSetup, SemaphoreSetup, TaskFields, TaskSetup, Timer,
    is_class_of,
};
pub use machine::{
    Alarm, Context, Cyclic, Eventflag, Pool, Processor, QueueKind, Rule, Semaphore, TaskRecord,
    Wait,
};
pub use states::TaskState;
