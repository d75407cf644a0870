//! Each release ends the wait that its task began last, proved on the definitions of the machine over every list of events.
//!
//! There is no code here: a law is the contract of a function without a body. What a task waits for follows from the records of
//! a run alone (`specs/Waits`): from the call that made it wait (`specs/Asked`), until it is released or terminated.
//! `waits_are_reported` says that every state has the waits of which its records tell, and `releases_end_waits` that each release
//! ends such a wait, and that its event, code and value fit what was asked (`specs/Releases`).

mod laws;

pub use laws::{releases_are_few, releases_end_waits, waits_are_reported};
