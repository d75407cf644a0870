//! What of the state changed since it was told last: the lines of the state that are new or differ, and the names of those that are gone.
//!
//! A [`Changes`] keeps the lines of the state that was told last. [`Changes::put_state`] tells a whole state, as
//! [`put_state`](fmp_show_state::put_state) does, and [`Changes::put_changes`] what of it changed since. Both contracts speak of every state of the model
//! for which the kernel stands. What changed is `changes_text` in `specs/Changes`, a definition over the lines of two states;
//! docs/FORMATS.md has its form. [`life`] tells some tasks, handlers and objects in the same way, a line each.
#![tactic(auto)]

mod changes;
pub mod life;
mod lines;

pub use changes::Changes;
pub use life::{Life, NameFault, Thing, chosen};
