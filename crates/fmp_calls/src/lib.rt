//! What the service calls are called, and which arguments they have.
//!
//! The table has a line for each call, in the file of its family: its name, the kinds of its arguments, and what makes the call
//! of them. Reading, printing and listing calls go by this table, so no other crate names a call's text.
//!
//! [`find_call`] finds a call by its name; [`form`] and [`values`], or [`parts`] at once, take one apart, and [`with_values`]
//! puts it together again. [`likely_call`] guesses one by its first bytes.
//! The law `tables_agree` says that these give each other back, and that each call stands in the table once. The definitions
//! are the same lines in `specs/Tables`.
#![tactic(auto)]

mod laws;
mod likely;
mod table;

pub use laws::{arguments_have_their_kinds, tables_agree};
pub use likely::likely_call;
pub use table::buffer::BUFFER_CALLS;
pub use table::spin::SPIN_CALLS;
pub use table::sync::SYNC_CALLS;
pub use table::system::SYSTEM_CALLS;
pub use table::task::TASK_CALLS;
pub use table::time::TIME_CALLS;
pub use table::{
    CallForm, KnownCall, MOST_ARGUMENTS, Values, find_call, form, parts, values, with_known_values,
    with_values,
};
