//! What the program does at a desk of what its command line asks for: [`perform`] takes the words, and says how the program ends.
//!
//! Which run a request makes is said by `fmp_cli_runs`, and how a run ends the program by `fmp_cli_desk`. Here texts are opened for it, its faults are reported,
//! and what stands beside its answer.
#![tactic(auto)]

mod beside;
mod calls;
mod colours;
mod lists;
mod orders;
mod questions;
mod refusals;
mod request;
mod scripts;
mod shrinking;
mod traces;

pub use request::perform;
