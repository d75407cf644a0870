//! What stands beside a fault line of a configuration: the line of the text, a caret where a token is at fault or where one is missing,
//! the form of the statement, and what to do about the fault.
//!
//! Begin at [`config_context`].
//!
//! [`config_spot`] is the place of that caret as numbers. [`text_hint`] tells of a fault of events, scripts or a trace what the configuration says
//! of the word, and [`thing_hint`] of a name that nothing in the configuration has.
//!
//! The texts that are told are only tested, and so is that the caret is where the reader refuses: the fault says where its token stands.
#![tactic(auto)]

mod classes;
mod config;
mod foreign;
mod functions;
mod hints;
mod numbers;
mod opened;
mod place;
mod projects;
mod taken;

pub use config::{config_context, config_spot};
pub use functions::{text_hint, thing_hint};
pub use numbers::Stage;
pub use projects::Origin;
