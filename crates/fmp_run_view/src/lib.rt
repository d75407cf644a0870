//! The page of a trace: one HTML file that shows it in a browser, as lanes of processors, tasks and objects over its lines.
//!
//! [`run_view`] reads a configuration and a trace, and writes the page of the trace where it is the machine's own, or the page of what
//! the machine answers to the events of any trace, beside the lines in which that one differs: which is a [`PageKind`]. A page has four
//! texts between a fixed head and a fixed tail (`fmp_run_page`): what it has to know of the configuration (`specs/Setups`), the machine's
//! trace, the lines that were given in place of others (`specs/Given`), and what each event changed (`specs/Changes`) of the values that
//! are told of a state (`specs/Values`). `specs/Pages` says the whole page as a function of the trace's events. The events are played on
//! the plain machine, whose state is the model's.
//!
//! That a browser shows it is only tested. docs/FORMATS.md has the form.
#![tactic(auto)]

mod changes;
mod contrast;
mod laws;
mod player;
mod run;
mod setup;
mod showing;
mod signal;
mod states;
mod value;
mod values;

pub use laws::states_are_reported;
pub use run::{PageKind, run_view};
