//! What is told of some tasks, time event handlers and objects, a line each, and which of it changed.
//!
//! [`chosen`] finds the [`Thing`]s that a list of names names. A [`Life`] keeps what was told of each of them last, and [`Life::put_changes`]
//! writes the lines of those of which something else is told now: at first all of them. It reads any machine with
//! [`Views`](fmp_step_words::Views). A line is `thing_line` in `specs/Lines`, and what changed is `changes_of` in `specs/Lives`;
//! docs/FORMATS.md has their form. Of a state with lists the same is told as of each state of the model for which it stands
//! (`proofs/Alike`).

mod choosing;
mod life;
mod lines;
mod things;

pub use choosing::{NameFault, chosen};
pub use life::Life;
pub use things::Thing;
