//! What else a record tells of its event, told by the records before it: which task its processor runs from then on, to whom it sends
//! requests, which value is lost, which value is received, and which tasks are released. Proved on the definitions of the machine over
//! every list of events.
//!
//! There is no code here: a law is the contract of a function without a body. With `callers_are_reported` and `answers_are_reported` of
//! `refusals` these laws say what a reader of the records can tell of the next record: all of it, as `records_are_reported` says, and so of a whole run, as
//! `reported_runs_are_answers` says.

mod laws;

pub use laws::{
    losses_are_reported, received_values_are_reported, records_are_reported, releases_are_reported,
    reported_runs_are_answers, run_changes_are_reported,
};
