//! One who goes through the orders of a configuration by its scripts.
#![tactic(auto)]

mod begun;
mod calls;
mod keys;
mod sights;
mod space;
mod ticks;
mod walker;
mod watcher;
mod weights;

pub use begun::choice_of;
pub use calls::{NUMBERS, POSITIONS, number_of_call};
pub use keys::PlaceTables;
pub use sights::{Seen, has_to_look, is_over, is_so_at_boot, put_line};
pub use ticks::advance_taken;
pub use walker::Walker;
pub use watcher::Watcher;
