//! Facts: what may be so of a processor, a task, an object or a handler after an event, whether or not it is as at boot.
//!
//! A question that asks for facts is read once into tests of a state, [`Asked`]: each word of a pattern is one test, [`Fact`], and nothing of a
//! text is left. What a test means is `is_so` of fmp_show_facts. docs/formats/question.md has the words.
#![tactic(auto)]

mod asked;
mod facts;

pub use asked::{Asked, Choice};
pub use facts::{Fact, Key, Kind, Subject, Thing, WaitKind};
