//! Kernels of one configuration, each by two numbers: what it is made of is kept once each, and its parts are told by their numbers.
//!
//! Most kernels that a search comes to differ from others in few parts, so many of them take little memory. The tasks, handlers and objects are kept one by
//! one, and what counts as a list of numbers.
#![tactic(auto)]

mod handled;
mod kernels;
mod objects;
mod packed;
mod rest;
mod told;

pub use kernels::{pack, room_for, unpack};
pub use packed::{Packed, Parts};
pub use told::thing_count;
