//! Runs of a configuration by scripts: with a thread for each processor, or on one thread in an order that a seed gives.
//!
//! Either way a run takes the turns and ticks of one [`fmp_world::World`], and its judge says at the end whether what came back is
//! a run of the machine. So what is known of a run does not depend on the order, nor on which thread got the lock when. A run by
//! a seed is always one; a run with threads may fail.
#![tactic(auto)]

mod clocked;
mod fault;
mod gate;
mod rounds;
mod seeded;
mod shared;
mod threaded;

pub use fault::SmpFault;
pub use gate::{Gate, Open};
pub use seeded::run_seeded;
pub use threaded::run_smp;
