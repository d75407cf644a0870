//! The machine with lists does what the machine with numbers does, at boot and at every event.
//!
//! There is no code here: a law is the contract of a function without a body. The way of lists to keep what came before what
//! is in `fmp_kernel_order/specs/Queues.antt`, and `specs/Stands.antt` says when a state with lists stands for one with numbers.
//!
//! On it stands the one sentence that all of this is about, proved of every prefix of every run: `Headline` (`specs/Headline`) says of one
//! state, part by part, that no task runs or is ready on two processors, that each task stands in exactly the queue that its state names,
//! that nothing was lost or doubled so far, and that each processor runs its highest-precedence ready task unless a request to it
//! is pending or its dispatching is held. `the_headline_holds` says it of every list of events on the processors of a valid
//! configuration, whichever interrupts come late, never or often. What a run of the program answers says it of its own events.
//!
//! And which cells of a state an event may change and reads, where the order of tasks is kept by lists: two states that have the same in
//! what an event reads have the same after it, and the event has the same record in both ([`events_do_what_they_read`]). What an event is
//! about, and the cells of that, can be computed from the state before it.
#![tactic(auto)]

mod footprints;
mod headline;
mod laws;

pub use footprints::{
    calls_do_what_they_read, cells_of_events_are_enough, events_change_what_covers_them,
    events_commute, events_do_what_they_read, standing_lists_are_good,
};
pub use headline::the_headline_holds;
pub use laws::lists_refine_numbers;
