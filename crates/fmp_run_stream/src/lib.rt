//! Answering events as their bytes come: what is told of the events of a piece is passed on before the next piece is read.
//!
//! [`Answering`] keeps the unread rest of one line, the kernel, and what is told and not passed on yet. What is told of an event is its
//! [`Detail`]. What a run over a configuration and events owes is defined here (`specs/Runs`); the runs are in `fmp_run_events`.
#![tactic(auto)]

mod stream;

pub use fmp_show_changes::Changes;
pub use stream::{Answering, Detail};
