//! Timers: what counts ticks on which processor, and how many it has left.
//!
//! Contracts see a map from items (the waits of tasks, alarms, cyclics) to a processor and ticks left, and the order in
//! which the waits that count began. The map is the list `left`, in which each item has a place; `waits` is the order.
//! An item that does not count is in neither. One that has 0 ticks left counts still: what is due can be ended one by one,
//! after all ticks left were lowered.
//!
//! Each processor has a difference list, so a tick with nothing due changes one number, and an item goes without a walk. An
//! item that begins to count is put in its place by a walk. Items with 0 ticks left are in front and add nothing. No call
//! allocates.
#![tactic(auto)]

mod differences;
mod item;
mod serving;
mod timers;
mod words;

pub use item::Item;
pub use timers::Timers;
