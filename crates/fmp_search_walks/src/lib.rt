//! Searches through all orders of what scripts ask, by two who walk through them on a kernel. Those who walk are made here, and let go.
//!
//! What each search says is said of the places of [`Walker`](fmp_search_kernel::Walker): what that means for orders stands in `fmp_search_orders`.
#![tactic(auto)]

mod left;
mod noting;
mod searching;
mod staying;
mod telling;
mod walking;

pub use left::places_left;
pub use noting::{Meter, search_numbers};
pub use searching::{search_along, search_for};
pub use staying::{search_calls, search_lasting};
pub use telling::trace_of_steps;
pub use walking::{Follow, Walk, walk_from};
