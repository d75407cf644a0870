//! The machine in process: what `libfmp_c.a` exports, for C and for whoever calls as C does. `include/fmp.h` declares it.
//!
//! A [`Machine`] is C's handle of a session (`fmp_session`): a pointer that owns it, and whether there is one. Each export takes the
//! session out, does what the library's function of that name does, and puts it back. What a pointer owns stands in `specs/Owned`,
//! and is proved by hand in three small functions of [`Handle`] (`proofs/handle`); all else is proved as ever.
//!
//! Nothing checks C. What it owes is written at the head of the header.
#![tactic(auto)]

mod exports;
mod handle;
mod machine;
mod report;

pub use exports::{
    fmp_copy_at, fmp_free_at, fmp_line_at, fmp_make_at, fmp_release_at, fmp_request_at,
    fmp_state_at, fmp_step_at, fmp_step_text_at,
};
pub use handle::{Handle, Held};
pub use machine::Machine;
pub use report::{Asked, Fault, Freed, Report};
