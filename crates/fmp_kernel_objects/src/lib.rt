//! All objects for which tasks wait, each with its wait queues: semaphores, eventflags, data queues and memory pools.
//!
//! Contracts see `Resources` as the lists of these objects that a state of the machine has, and with them the queues of waiters
//! as the kernel's lists have them: one for each object, of which a data queue has two. Each list is in the order of the
//! numbers. Where there is no object of a number, a look-up gives a blank one and a change does nothing.
//!
//! `Resources::new` takes the memory for all of them. No other call allocates.
#![tactic(auto)]

mod kinds;
mod objects;
mod resources;

pub use resources::Resources;
