//! What ties runs of processors to orders and seeds.
//!
//! There is no code here: a law is the contract of a function without a body. `smp_runs_are_orders` says that a run of processors which follow scripts, in
//! threads or by a seed, is one of the orders through which a search goes, and `a_seed_makes_one_run` that two runs by one seed are the same: so what
//! is known of the run of a seed holds of each run by it.
#![tactic(auto)]

mod laws;

pub use laws::{a_seed_makes_one_run, smp_runs_are_orders};
