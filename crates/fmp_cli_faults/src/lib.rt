//! What is reported of a fault on standard error: its line in this program's own form or in that of compilers, its place in the text where that was
//! kept, what stands beside it, and what is wrong with a command line.
//!
//! Nothing here reads or prints: each function gives a [`Text`](fmp_out::Text) of whole lines, or a [`Diagnostic`](fmp_cli_diagnostics::Diagnostic), which
//! the program reports. The words of the lines are tested (`tests/cases`, `tests/program`). A text for which memory is wanting says so, and is not reported.
#![tactic(auto)]

mod context;
mod lines;
mod misfits;
mod place;
mod refused;
mod waiting;

pub use context::settle_context;
pub use lines::{
    LASTING, asked_line, differs_lines, fault_diagnostic, partly_lines, question_diagnostic,
    row_line, stray_line,
};
pub use misfits::{SeedMisfit, bounds_lines};
pub use place::{Lines, Place, advice, name_hint, question_beside};
pub use refused::{WrongNumber, near_option_lines, refused_number};
pub use waiting::{Waiting, waiting_lines};
