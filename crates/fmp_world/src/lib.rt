//! Processors that take turns at one kernel: a world, and the seats of its processors and of its clock. No threads.
//!
//! A world has a history: the records of all turns and ticks so far. Each is the kernel's answer to the event before it, and this
//! is a tick, or what its processor does next: it takes a pending request, or makes the call that stands next in the script of
//! its due handler or else of its running task. Where a script has come to is counted over the history, which keeps an array of
//! these positions, so that a turn walks no list.
//!
//! A history keeps who moved and no records, since a record is large and a move is small: whoever wants the records has a second
//! kernel make them again, one after the other ([`History::replay`]).
//!
//! Who takes turns needs to know nothing of the kernel. At the end [`World::finish`] judges what came back: whether the
//! history is whole, and the receipts of the seats are its events.
#![tactic(auto)]

mod equality;
mod findings;
mod finishing;
mod history;
mod replay;
mod seats;
mod world;

pub use finishing::{Ended, SmpRun};
pub use history::History;
pub use replay::Replay;
pub use seats::{Clock, Cpu, Receipt, Seats, Turn};
pub use world::World;
