//! What was read of a configuration, as a text: a line for its processors, its timer and its limits, for each class, for each object with its
//! number and name, and for each function.
//!
//! [`listing_text`] makes it. `specs/Listing` says it as a function of what the configuration says, `Fields` what stands after an object's
//! name, and `Classes` how classes are told. docs/FORMATS.md has its form.
//!
//! What is told of kinds of objects, their order, words and numbers, a page of a trace tells in the same way ([`KINDS`], [`word`],
//! [`count`]), and the number of processors too ([`put_processors_line`]).
//!
//! A field has the name that the static API gives it, and fields stand in the order of the statement that creates the object.

mod classes;
mod fields;
mod functions;
mod listing;

pub use listing::{KINDS, count, listing_text, put_processors_line, word};
