//! Printing records into a buffer that has room for them.
//!
//! What is printed is what `fmp_trace` defines (`specs/Lines` there). A [`LineBuffer`] has its memory from the start, and one
//! that is not full has room for every line, as the law `lines_are_short` of that crate says. So nothing is checked while a line
//! is printed, and nothing fails. [`Count`] is the number of a line with its digits.
#![tactic(auto)]

mod count;
mod line_buffer;
mod printing;

pub use count::Count;
pub use line_buffer::LineBuffer;
pub use printing::line_is_short;
