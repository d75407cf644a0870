//! The calls on semaphores, eventflags, data queues, memory pools, cyclic handlers, alarms and spin locks, and the return of a
//! handler, over any machine that has the objects of the definitions.
//!
//! What a machine has to do is the trait [`fmp_step_words::Objects`]. A call stands in the file of its object: it looks for its
//! errors in their order, and then does what its row says. Where tasks and handlers may make a call, one function serves both
//! (`specs/Forms`).
//!
//! The families are the public functions: their contract `row` says that each call does what its row in `fmp_rules/specs`
//! says, refused or not.
#![tactic(auto)]

mod alarms;
mod cyclics;
mod data_queues;
mod eventflags;
mod families;
mod forms;
mod pools;
mod semaphores;
mod spin_locks;
mod waits;

pub use families::{buffer_call, spin_call, sync_call, time_call};
pub use spin_locks::ret_hdr;
