//! The kernel: ready queues, wait queues and timers that are updated in place.
//!
//! Contracts see its state with lists, which stands for a safe state of the model: it answers every event as the model does,
//! and each task stands in exactly the lists that its fields name. Whatever comes first is the first of a list. It takes all
//! of its memory at boot, and a step takes none.
#![tactic(auto)]

mod answers;
mod kernel;
mod views;

pub use answers::simulate;
pub use kernel::Kernel;
