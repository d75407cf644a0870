//! The machine of a configuration text, for a program that gives it event after event.
//!
//! A [`Session`] is made of a text, answers events, tells the line of the last one and the state, and becomes as another one is.
//! Events come as values, as lines of text ([`Session::event_in`]), or as numbers ([`event_of`]), in the order of `fmpsim list`.
//! What it has to be after each call is `IsAt` in `specs/Sessions`: the machine of a configuration after a list of events.
#![tactic(auto)]

mod numbers;
mod refused;
mod session;

pub use numbers::{call_numbered, event_of, value_of};
pub use refused::Refused;
pub use session::Session;
