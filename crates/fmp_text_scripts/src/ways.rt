//! Where a script goes on after a call.
ghost use Rattle.std.specs.Prelude.{◌≡◌, ◌↔◌, IsTrue, find};
ghost use Rattle.std.specs.Option.{option_copied};
ghost use Rattle.fmp_text_scripts.specs.Ways as spec;

use crate::reader::MOST_STEPS;
use fmp_codes::Code;

/// The answers that a way is for.
#[derive(Clone, Copy)]
pub enum Pattern {
    /// Each answer.
    Any,
    /// Each error.
    Refused,
    /// This code, with a value or without.
    Coded(Code),
    /// This code with this value.
    Valued(Code, i64),
}

/// Where a script goes on that has come after so many of its calls, where the last of them answered so.
#[derive(Clone, Copy)]
pub struct Way {
    pub after: usize,
    pub answer: Pattern,
    /// How many calls stand before the one with which the script goes on, or before its end.
    pub to: usize,
}

/// Whether two codes are the same.
fn is_code(one: Code, other: Code) -> bool
    ensures { result ≡ spec.is_code one other }
{
    one.number() == other.number()
}

/// Whether there is this value.
fn is_value(wanted: i64, value: Option<i64>) -> bool
    ensures { result ≡ spec.is_value wanted value }
{
    match value {
        None => false,
        Some(found) => found == wanted,
    }
}

/// Whether an answer of this code and value is one that a pattern is for.
fn fits(pattern: Pattern, code: Code, value: Option<i64>) -> bool
    ensures { result ≡ spec.fits pattern code value }
{
    match pattern {
        Pattern::Any => true,
        Pattern::Refused => !is_code(code, Code::Accepted),
        Pattern::Coded(wanted) => is_code(code, wanted),
        Pattern::Valued(wanted, number) => is_code(code, wanted) && is_value(number, value),
    }
}

/// Whether a way leads on from after so many calls, the last of which answered so.
fn leads(way: &Way, position: u32, code: Code, value: Option<i64>) -> bool
    ensures { result ≡ spec.leads position code value way.now }
{
    way.after == position as usize && fits(way.answer, code, value)
}

/// The first way that leads on from there.
fn first_way(ways: &[Way], position: u32, code: Code, value: Option<i64>) -> Option<&Way>
    ensures { option_copied result ≡ find (spec.leads position code value) ways.now }
{
    ways.iter().find(|way| leads(way, position, code, value))
}

/// Where a script goes on that has come after a call which answered so.
#[tactic(auto, unfolding(crate::specs::Ways::onward))]
pub fn onward(ways: &[Way], position: u32, code: Code, value: Option<i64>) -> u32
    ensures { result ≡ spec.onward ways.now position code value }
{
    match first_way(ways, position, code, value) {
        None => position,
        Some(way) => way.to.min(MOST_STEPS) as u32,
    }
}

/// Whether two codes are the same.
fn is_same_code(one: Code, other: Code) -> bool
    ensures { IsTrue result ↔ (one ≡ other) }
{
    one == other
}

/// Whether two patterns are equal.
fn is_same_pattern(one: Pattern, other: Pattern) -> bool
    ensures { IsTrue result ↔ (one ≡ other) }
{
    match (one, other) {
        (Pattern::Any, Pattern::Any) => true,
        (Pattern::Refused, Pattern::Refused) => true,
        (Pattern::Coded(c), Pattern::Coded(d)) => is_same_code(c, d),
        (Pattern::Valued(c, v), Pattern::Valued(d, w)) => is_same_code(c, d) && v == w,
        _ => false,
    }
}

/// Whether two ways are equal.
fn is_same_way(one: Way, other: Way) -> bool
    ensures { IsTrue result ↔ (one ≡ other) }
{
    one.after == other.after && is_same_pattern(one.answer, other.answer) && one.to == other.to
}

/// Whether two lists of ways are equal, way by way.
pub fn are_same_ways(one: &[Way], other: &[Way]) -> bool
    ensures { IsTrue result ↔ (one.now ≡ other.now) }
{
    if one.len() != other.len() {
        return false;
    }
    for at in 0..one.len() {
        if !is_same_way(one[at], other[at]) {
            return false;
        }
    }
    true
}
