//! The text of events, a line each, which is read back as these events.
//!
//! [`events_text`] writes it. `specs/Telling` says what it is, and what a reader of it gives: begin there.

mod events;

pub use events::events_text;
