//! What is assigned to processors, and its time: the tasks with the ticks that their waits have left, the cyclic handlers and the
//! alarms.
//!
//! Contracts see lists in the order of the numbers: the records, and for each the ticks left where it counts. They also see the
//! tasks whose waits count, in the order in which these waits began. Where there is none of a number, a look-up gives a blank
//! record and a change does nothing.
//!
//! The timers hold the ticks left, each on the processor to which its record is assigned. So a tick with nothing due changes one
//! number for each processor for which it counts. No call allocates.
#![tactic(auto)]

mod assigned;
mod counting;
mod expired;
mod handlers;

pub use assigned::Assigned;
