//! The values that every crate of fmpsim speaks of: codes, checked numbers, service calls, events and records.
//!
//! A number of a processor, task, object, priority or block is a type of its own, which is within its range by its invariant:
//! such numbers count from 1, and blocks from 0. A [`Call`] is a service call with its arguments as they were written, in or
//! out of range. An [`Event`] is what happens on a processor: a call, a tick or an interrupt. A [`Record`] is what the machine
//! tells of an event, and a trace is a list of records.
//!
//! Contracts see all of these as they are declared. Begin at [`Event`] and [`Record`].
#![tactic(auto)]

mod calls;
mod codes;
mod kinds;
mod numbers;
mod records;
mod release_list;
mod request_list;

pub use calls::{BufferCall, Call, Mode, SpinCall, SyncCall, SystemCall, TaskCall, TimeCall};
pub use codes::{Code, codes_are_listed};
pub use kinds::{ArgumentKind, NameKind, ObjectKind, Value};
pub use numbers::{Block, Object, Pri, Proc, Task};
pub use records::{Answer, Event, Record, Release, Runner, worded_answers_are_listed};
pub use release_list::Releases;
pub use request_list::Requests;
