//! The run through all orders of what scripts ask: a configuration, scripts and a question in, an answer out.
//!
//! [`run_explore`] reads both texts and the question, goes through every order of calls, interrupts and ticks that the rules allow, and writes
//! `never`, `not within` and a number, or the trace of a shortest order that shows the question. What each of them says of all orders is
//! `Finds` in `specs/Explored`: begin there. How many steps come of a question that no order shows is `HasCome` in `specs/Came`, how far the search went
//! is `IsGone` in `specs/Gone`, and which calls of the scripts are made `TellsCalls` in `specs/Made`. Orders, and when one shows a question, are in
//! `fmp_search_orders`.
//!
//! A search for something else in the orders of scripts asks by an [`Asker`] of its own: [`asked_from`] reads both texts and what is asked, and what
//! it gives of them is `ReadsAsked` in `specs/Asked`.
#![tactic(auto)]

mod asker;
mod asking;
mod came;
mod fault;
mod finding;
mod left;
mod made;
mod orders;
mod request;
mod run;
mod searched;
mod searching;
mod telling;
mod writing;

pub use asker::{Asker, StepsAsker, question_from};
pub use asking::{Asked, asked_from};
pub use fault::{ExploreFault, QuestionLine};
pub use finding::Finding;
pub use fmp_search::{Extent, Met, Progress};
pub use fmp_search_orders::Rules;
pub use fmp_search_question::QuestionFault;
pub use left::{Left, left_without};
pub use made::is_made;
pub use orders::Orders;
pub use request::SearchRequest;
pub use run::run_explore;
pub use searched::{Outcome, Searched};
pub use telling::{never, not_within, trace_along};
