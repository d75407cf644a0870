//! The run that leaves events out: a configuration, events and a question in, fewer events out that still show what it asks.
//!
//! [`run_shrink`] reads both texts and the question and writes what is left of the events. What that is stands in `specs/Shrunk`: begin
//! there; the text of events is [`written`]. When the answers to events show a question, and what may go, is in `fmp_search_shrink`.
#![tactic(auto)]

mod events;
mod finding;
mod run;
mod written;

pub use finding::Shrinking;
pub use fmp_run_explore::{ExploreFault, QuestionLine};
pub use run::run_shrink;
pub use written::events_text;
