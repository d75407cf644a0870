//! Leaving events out of a list for as long as what the machine answers still shows what a question asks.
//!
//! [`shrink`] is what there is to call; `specs/Shrinking` says what it gives: begin there. Whether answers show a question is decided by
//! [`shows`] and [`shown_at`], which says after which event: both are exact for `Shows` of `fmp_search_orders`, and how many steps may have been
//! seen after an event is in `specs/Seen`. Whether each runner, a task or a handler, still makes its calls in its own order is decided by
//! [`are_kept`] of the calls that [`made_calls`] tells with who makes them: `specs/Runners` says what a runner's calls are.
#![tactic(auto)]

mod given;
mod keeping;
mod made;
mod runners;
mod showing;
mod shrinking;

pub use made::{Made, made_calls};
pub use runners::are_kept;
pub use showing::{shown_at, shows};
pub use shrinking::shrink;
