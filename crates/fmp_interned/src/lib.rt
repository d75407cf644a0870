//! Values that are kept once each, and have numbers.
//!
//! A value is found by its hash. Its number is that of the values which came before it, so many values that share parts take little memory
//! where each is kept as the numbers of its parts.
#![tactic(auto)]

mod hash;
mod interned;
mod lists;
mod number;
mod part;
mod table;
mod value;
mod words;

pub use hash::part_hash;
pub use interned::Interned;
pub use lists::Lists;
pub use part::number_each;
pub use value::Value;
pub use words::Words;
