//! Which cells of a state an event may change: all others stay as they are.
//!
//! By its record alone it is coarser to tell what an event leaves as it is: all but processors where nothing was done; the tasks where it releases nobody, lets nobody wait
//! and is no call on tasks; the objects, the spin locks and the time event handlers where it is no call on them; the due handlers where none
//! becomes due or returns.
//!
//! The functions say of a record what its event may have changed ([`moves_tasks`] and others), and [`frames_are_reported`] that the event left the
//! rest, in every state of the definitions. So whoever shows the state after each event looks only at what may be shown in another way.
#![tactic(auto)]

mod by_record;
mod frames;
mod laws;

pub use by_record::{
    moves_buffers, moves_due, moves_locks, moves_order, moves_sync, moves_tasks, moves_time,
    moves_waits,
};
pub use frames::frames_are_reported;
pub use laws::{calls_change_what_covers_them, events_change_what_covers_them, other_kinds_stay};
