//! Scripts: what the tasks and handlers of a function ask, one call after the other.
//!
//! Contracts see `Scripts` as a list of functions, each by its number, with their steps, in the order of the text. The
//! script of a function is the first of the list with its number; a function without one asks nothing.
//!
//! `read_scripts` gives the scripts of a text, or its first fault. What a text spells is said twice: by how it is read
//! (`scripts_in`), and by a grammar that does not know the reader (`SpellsScripts`); the laws say that the two agree,
//! that the first fault stands in its line, before which there is none (`specs/FirstFaults`), and that it is of the kind that
//! a table of faults has for that line (`specs/ScriptFaults`). `line_misfit` says where in a line that is refused the first byte at fault is, and what is
//! wanted there (`specs/Places`, `specs/Refusals`).
//! No function has two scripts, and no script more than 256 steps. Only reading allocates.
#![tactic(auto)]

mod equality;
mod laws;
mod line;
mod linking;
mod misfit;
mod reader;
mod script;
mod ways;

pub use equality::is_same_call;
pub use laws::{
    faults_are_those_of_the_table, faults_stand_in_their_line, places_are_in_their_lines,
    places_have_their_fault, read_scripts_are_spelled, spelled_scripts_are_read,
    texts_spell_one_list_of_scripts,
};
pub use line::{Said, line_misfit, said_in};
pub use linking::Name;
pub use misfit::{Misfit, Wanted};
pub use reader::{MOST_STEPS, read_scripts};
pub use script::{Script, Scripts};
pub use ways::{Pattern, Way};
