//! One of all orders of a configuration by its scripts, drawn by the numbers of a seed.
//!
//! [`draw_order`] is what there is to call. Which order it is stands in `specs/Drawn`: begin there. What may happen in an order is in
//! `fmp_search_orders`.
#![tactic(auto)]

mod drawing;

pub use drawing::{Drawing, DrawnOrder, draw_order};
