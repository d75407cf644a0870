//! Orders of lines within bounds, and the search for a right one.
//!
//! Lines stand in one order and may have come in others: each names the last line that may come before it. Whoever takes the lines one after
//! the other stands at a place, where all lines before a top are taken but for a few that are pending. `specs/Orders` says which orders are
//! within the bounds, `specs/Places` what a place is. A machine that plays the lines is a [`Player`].
#![tactic(auto)]

mod bracket;
mod crowding;
mod goals;
mod laws;
mod packing;
mod player;
mod searching;
mod taken;
mod taker;

pub use laws::{orders_stand, places_say, steps_are, takers_say, told_by_pending, verdicts_say};
pub use player::Player;
pub use searching::{Orders, search_orders};
pub use taken::{MOST_PENDING, Taken, last_of, may_pass, must_of};
pub use taker::{Taker, TakerTables};
