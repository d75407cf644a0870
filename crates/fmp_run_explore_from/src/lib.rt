//! The run through the orders that go on from a trace: a configuration, scripts, the trace and a question in, an answer out.
//!
//! [`run_explore_from`] is `run_explore` of `fmp_run_explore`, begun where a trace ends. What it writes says of the orders that go on from that
//! trace is `FindsFrom` in `specs/Explored`, and when a text is no trace of an order, and from which line on, `FirstStray` in
//! `specs/Strays`: begin there.
#![tactic(auto)]

mod begun;
mod fault;
mod run;
mod searching;

pub use fault::FromFault;
pub use run::run_explore_from;
