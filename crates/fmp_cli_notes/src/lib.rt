//! What stands beside the answer of a search, line by line: how far it went, what holds it up, which calls of the scripts no order makes, how much of a
//! question comes, why nothing has what it asks for, and from which line on something stays.
//!
//! Who is told is a [`Notes`], and how far these searches have come a [`Progress`](fmp_run_explore::Progress). A line for which memory is wanting is not told.
//!
//! Which lines are told, and with which texts, is in `specs`: a definition of the text, where what is known determines it, and else a record with what further
//! searches say (`TellsLeft`, `TellsUnmade`, `TellsUnshown`).
#![tactic(auto)]

mod extent;
mod left;
mod limits;
mod misplaced;
mod never_so;
mod notes;
mod parts;
mod patterns;
mod staying;
mod unmade;
mod unshown;
mod words;

pub use extent::note_extent;
pub use left::{note_left, note_left_for_ever};
pub use notes::{About, Notes};
pub use staying::note_stayed;
pub use unmade::note_unmade;
pub use unshown::note_unshown;
