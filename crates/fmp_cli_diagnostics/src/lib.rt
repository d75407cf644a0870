//! Fault lines in the form that compilers give theirs, so that editors and continuous integration jump to the place:
//! `machine.cfg:4:3: error: F3 unsupported API CRE_MTX`.
//!
//! [`Diagnostic`] is such a line, with as much of the place as is known ([`Spot`]). [`line_form`] says by the words of a command line
//! which form fault lines have, and [`without_option`] leaves out the words that say so.
#![tactic(auto)]

mod diagnostic;
mod option;

pub use diagnostic::{Diagnostic, Spot};
pub use option::{LineForm, line_form, without_option};
