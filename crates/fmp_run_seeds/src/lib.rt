//! The runs of seeds, one after the other, up to the first that is looked for: that shows what a question asks, or else at whose end nothing is left
//! to do and a task waits.
//!
//! [`run_seeds`] reads a configuration, scripts and the question, and writes the trace of the run that it found. What is known of it and of
//! the seeds before it is `Sought` in `specs/Found`: begin there. What the run of a seed is stands in `specs/Orders`, and when a run shows a question in
//! `fmp_search_orders`.
#![tactic(auto)]

mod asking;
mod orders;
mod progress;
mod run;
mod seeking;

pub use fmp_run_explore::{ExploreFault, QuestionLine};
pub use fmp_search_random::Drawing;
pub use orders::{SeedOrder, SeedRuns};
pub use progress::SeedProgress;
pub use run::{SeedRequest, run_seeds};
pub use seeking::{SeedFound, SeedSearch};
