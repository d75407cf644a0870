//! The text of a machine's state, by which one sees why a task does not run.
//!
//! [`put_state`] writes a line for each processor, one for each task that waits, is suspended or is otherwise not as at boot, one for each
//! object that is not as at boot, and one that ends the state. It reads any machine with [`Views`](fmp_step_words::Views), in whatever way
//! that keeps its order, and the text is `ended_lines` in `specs/States`; what is told where it is not as at boot stands in
//! `specs/Changes`, and docs/FORMATS.md has its form. [`put_waiting`] writes the lines of the tasks that wait alone, which are
//! `waiting_lines` in `specs/Waits`. A state with lists has the same text as each state of the model for which it stands
//! (`proofs/Alike`).
#![tactic(auto)]

mod changes;
mod handlers;
mod processors;
mod states;
mod tasks;
mod texts;
mod waits;

pub use changes::{put_object, put_values};
pub use handlers::put_ticks;
pub use processors::put_flag;
pub use states::{put_lines, put_state};
pub use tasks::{put_any_wait, put_left, put_numbers};
pub use texts::{give_back, put_named, put_task, text_of};
pub use waits::put_waiting;
