//! Why a call was refused, and every other answer, told by records alone: who made the call, the first error of its row that applied,
//! and what it answered if none did. Proved on the definitions of the machine over every list of events.
//!
//! There is no code here: a law is the contract of a function without a body. What a call may find is told by the records before it,
//! by definitions that know none of the rules of the calls: `Misplaced`, `Known`, `Arguments` and `Errors` have the errors of each row
//! in their order, and `Outcomes` what follows if there is none. `answers_are_reported` says it of whole answers; that calls are refused
//! with the right code follows from it.

mod laws;

pub use laws::{
    answers_are_reported, arguments_are_judged, callers_are_reported, calls_are_made_in_place,
    refusals_are_reported,
};
