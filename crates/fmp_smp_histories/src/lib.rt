//! Histories: the records of a run of the machine from the beginning, and where the scripts of tasks and handlers have come to in
//! them.
//!
//! Where a script has come to is counted over the records. Who makes a history keeps an array of these positions, and moves it by the
//! last record alone ([`advance_task`], [`advance_handler`]), so that nothing walks a list.
#![tactic(auto)]

mod choice;
mod laws;
mod positions;

pub use choice::{asked_at, function_of};
pub use laws::straight_scripts_are_counted;
pub use positions::{advance_handler, advance_task, is_taken};
