//! The kernel plays the lines of a partial trace, in any order.
//!
//! Calls of two processors overlap, and a log of where they began does not tell which took effect first. A line tells the last line that may come
//! before it, and [`read_lines`] reads that. [`judge_orders`] then searches for an order within these bounds in which each line is what the machine answers
//! there, and tells the first line without which there is one and with which there is none.
//!
//! What it is to play a line is `plays` of `specs/Playing`: begin there. [`LinePlayer`] is the kernel that does so. By the law [`orders_match`]
//! it does not matter whether a machine keeps the order of its tasks by lists, as the kernel does, or by numbers, as the rules do.
#![tactic(auto)]

mod judging;
mod laws;
mod lines;
mod player;
mod plays;

pub use judging::judge_orders;
pub use laws::orders_match;
pub use lines::{Lines, read_lines};
pub use player::{LinePlayer, line_from};
