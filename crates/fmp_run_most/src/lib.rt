//! The run through all orders for what sizes a system: a configuration and scripts in, a table out.
//!
//! [`run_most`] reads both texts, goes through every order of calls, interrupts and ticks that the rules allow, and writes how far each figure goes: how many
//! values a data queue has at most, how few blocks of a pool are free, and so on. What the figures are is in `specs/Figures`, what is known of each is
//! `IsMost` in `specs/Most`, and the table is in `specs/Table`: begin there. Orders are in `fmp_search_orders`.
//!
//! All orders are gone through as often as needed. Each time a bound is given for each figure, and of each event it is told which is the first figure that is
//! beyond its bound after it, and where. Then the bounds are moved there, until no event leads beyond one.
#![tactic(auto)]

mod figure;
mod gauge;
mod raising;
mod run;
mod settling;
mod sizing;
mod table;
mod things;

pub use figure::{Figure, Measure};
pub use fmp_search::Progress;
pub use fmp_search_orders::Rules;
pub use run::run_most;
pub use settling::Reach;
