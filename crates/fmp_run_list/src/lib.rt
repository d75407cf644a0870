//! The run that tells what was read of a configuration, from bytes to bytes.
//!
//! [`run_list`] reads a configuration and writes its listing, which [`listing`] makes and `specs/Listing/Listing` says, and then a line for each field that has
//! no effect on the kernel, as it stands in the text: extended information, stack sizes, and the sizes of blocks (`specs/Fields`). What the run reads and
//! writes is stated in `specs/Runs`.
//!
//! The configuration that was read does not have these fields. Which bytes are comments, strings and directives is said by the tokens of the reader, so a
//! text is taken apart here as it was read (`specs/Standing`).
#![tactic(auto)]

mod fields;
mod listing;
mod run;
mod standing;

pub use listing::{KINDS, count, listing_text, put_processors_line, word};
pub use run::run_list;
