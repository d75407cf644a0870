//! The runs of processors that follow scripts: texts in, a trace out, through devices that can fail.
//!
//! [`run_scripts`] has each processor in a thread of its own, or all in an order that a seed determines, writes the trace of what happened,
//! and tells who waits at its end; [`run_threads`] tells how a run in threads ended, and no more.
//!
//! Each contract says what is written where all went well, which fault is told and that it is the first one, what is out after
//! a fault, and which calls of the devices failed. What was written of which run is `Played` in `specs/Scripted`: begin there.
#![tactic(auto)]

mod ending;
mod threads;

pub use ending::{SmpEnd, status_of_end};
pub use threads::{run_scripts, run_threads};
