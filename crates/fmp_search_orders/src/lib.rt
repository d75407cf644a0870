//! All orders of the turns of processors, of ticks and of interrupts: what may happen next after a history, when such an order shows what
//! a question asks, and that runs over places are these orders. There is no code here but laws.
#![tactic(auto)]

mod laws;
mod rules;

pub use laws::{
    begun_answer, lasting_answer, made_answer, places_answer, runs_are_orders, watched_answer,
};
pub use rules::Rules;
