//! Whether two calls, or two lists of them, are equal.
ghost use Rattle.std.specs.Prelude.{◌≡◌, ◌↔◌, IsTrue};
ghost use Rattle.fmp_calls.specs.Table.{text_of, values_of};

use fmp_calls::{form, values};
use fmp_codes::{Call, Value};

/// Whether two names have the same bytes.
fn are_same_names(one: &[u8], other: &[u8]) -> bool
    ensures { IsTrue result ↔ (one.now ≡ other.now) }
{
    one == other
}

/// Whether two lists of arguments are equal, value by value.
fn are_same_values(one: &[Value], other: &[Value]) -> bool
    ensures { IsTrue result ↔ (one.now ≡ other.now) }
{
    one == other
}

/// Whether two calls have the same name as it is written.
fn have_same_name(one: Call, other: Call) -> bool
    ensures { IsTrue result ↔ (text_of one ≡ text_of other) }
{
    are_same_names(form(one).text, form(other).text)
}

/// Whether two calls have equal arguments, in their order.
fn have_same_arguments(one: Call, other: Call) -> bool
    ensures { IsTrue result ↔ (values_of one ≡ values_of other) }
{
    are_same_values(values(one).as_slice(), values(other).as_slice())
}

/// Whether two calls are equal, which they are where their names and their arguments are.
pub fn is_same_call(one: Call, other: Call) -> bool
    ensures { IsTrue result ↔ (one ≡ other) }
{
    have_same_name(one, other) && have_same_arguments(one, other)
}

/// Whether two lists of calls are equal, call by call.
pub fn are_same_steps(one: &[Call], other: &[Call]) -> bool
    ensures { IsTrue result ↔ (one.now ≡ other.now) }
{
    if one.len() != other.len() {
        return false;
    }
    for at in 0..one.len() {
        if !is_same_call(one[at], other[at]) {
            return false;
        }
    }
    true
}
