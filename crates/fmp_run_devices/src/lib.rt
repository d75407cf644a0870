//! Devices that bytes are read from and written to, and that can fail.
//!
//! A [`Source`] is read, a [`Sink`] is written to, and each counts its calls that failed. Contracts speak of the bytes that a source handed over (`given`), of those
//! that it has left where these are known, and of those that were written to a sink (`IsKnown`, `bytes_of` in `specs/Devices`). What is left is known of devices over
//! memory ([`MemSource`], [`TextSource`]), of which the first, as [`MemSink`], can be made to fail at a chosen call. A device over a reader or a writer of std
//! ([`ReadSource`], [`WriteSink`]) keeps in mind what passed, in a [`History`] that only proofs read: so it is known of a file and of standard output too.
//!
//! What is written after a failed call is a beginning of what was to be: `BeginsWith` in `specs/Devices`. What a contract of several calls
//! sees of a device, before and after them, is in `specs/Ends`.
#![tactic(auto)]

mod growing;
mod history;
mod memory;
mod sink;
mod source;
mod std_io;
mod taking;
mod text;
mod whole;

pub use growing::GrowingSink;
pub use history::{History, Passing};
pub use memory::{MemSink, MemSource};
pub use sink::{Sink, write_all, write_out};
pub use source::{Failed, Source};
pub use std_io::{ReadSource, WriteSink};
pub use text::TextSource;
pub use whole::{ReadFault, new_piece, read_up_to};
