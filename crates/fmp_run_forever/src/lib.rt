//! The run through all orders for what stays for ever: a configuration, scripts and a question in, an answer out.
//!
//! [`run_forever`] reads both texts and the question, goes through every order of calls, interrupts and ticks that the rules allow, and writes
//! `never`, `not within` and a number, or the trace of an order from whose last line on something that the question asks stays. What each of them says of all
//! orders is `Finds` in `specs/Stayed`: begin there. What stays is in `fmp_search_orders` (`specs/Lasting`).
#![tactic(auto)]

mod asking;
mod run;
mod searching;
mod staying;
mod writing;

pub use run::run_forever;
pub use searching::calls_made;
pub use staying::{Stayed, Staying};
