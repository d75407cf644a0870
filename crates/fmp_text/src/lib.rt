//! Texts of events: service calls and lists of events.
//!
//! [`read_call`] reads a call, [`line_event`] a line, and [`read_events`] a text, each with the first fault that is met from
//! left to right (`specs/Reading`, `Lines`, `Events`). [`first_said`] reads the next line that says something, for readers that
//! keep no text.
//!
//! A line is gone over once: [`event_or_misfit`] also says where it stops, and what is wanted there (`specs/Places`), and
//! [`call_after`] does so for a call.
//!
//! What a text spells is said a second time without a reader: `specs/Grammar` for calls and `specs/TextGrammar` for texts. The
//! laws say that what is spelled is read, what is read is spelled, and a text spells at most one list of events; and that the first
//! fault stands in its line, before which the text spells events (`specs/FirstFaults`). What is wrong with a line a table says,
//! which knows no reader either (`specs/EventFaults`).
//! docs/FORMATS.md has the forms and the faults.
#![tactic(auto)]

mod argument;
mod call;
mod echo;
mod events;
mod fault;
mod form;
mod laws;
mod line;
mod misfit;
mod quick;
mod scan;

pub use argument::{is_argument, value_at};
pub use call::{call_after, read_call};
pub use echo::Echo;
pub use events::{MOST_BYTES, MOST_EVENTS, read_events};
pub use fault::{TextFault, TextKind};
pub use fmp_names::{
    MOST_NAME_BYTES, Names, is_constant, is_name, is_reserved, names_and_numbers_agree,
};
pub use laws::{
    constants_have_a_kind, faults_are_those_of_the_table, faults_stand_in_their_line,
    read_calls_are_spelled, read_texts_are_spelled, read_values_are_spelled,
    spelled_calls_are_read, spelled_texts_are_read, spelled_values_are_read,
    texts_are_read_line_by_line, texts_spell_one_list,
};
pub use line::{
    event_or_misfit, is_skipped, line_event, processor_in, processor_numbered, without_return,
};
pub use misfit::{Misfit, Wanted};
pub use quick::{quick_call, quick_event};
pub use scan::{Scan, first_said, quick_line};
