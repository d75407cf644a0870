//! A trace in colours, for a terminal.
//!
//! [`put_painted`] writes a line of a trace with its refused answer, its releases and its dispatch in colours. [`ColourSink`] is a
//! sink that does so with each line that passes. A line that begins with a blank tells a state, and is written as it is.
//! `specs/Painting` says which word has which colour.
#![tactic(auto)]

mod painting;
mod sink;

pub use painting::{Mark, put_painted};
pub use sink::ColourSink;
