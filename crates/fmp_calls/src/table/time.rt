//! The calls on cyclic handlers and alarms.
ghost use Rattle.std.specs.Prelude.{◌≡◌, ◌≤◌, length, find};
ghost use Rattle.std.specs.Str.{bytes_eq};
ghost use Rattle.fmp_calls.specs.Tables.TimeTable.{line_of};

use crate::table::{CallForm, KnownCall, MOST_ARGUMENTS, Values, listed, value_at};
use fmp_codes::{TimeCall, Value};

macro_rules! time_calls {
    ($reading:ident $(, $given:tt)*) => {
        $reading!(TimeCall $(, $given)*;
            StaCyc(cyclic) = b"sta_cyc",
            MstaCyc(cyclic, processor) = b"msta_cyc",
            StpCyc(cyclic) = b"stp_cyc",
            StaAlm(alarm, time) = b"sta_alm",
            IstaAlm(alarm, time) = b"ista_alm",
            MstaAlm(alarm, time, processor) = b"msta_alm",
            ImstaAlm(alarm, time, processor) = b"imsta_alm",
            StpAlm(alarm) = b"stp_alm",
            IstpAlm(alarm) = b"istp_alm",
        )
    };
}

/// The calls on cyclic handlers and alarms, each with blanks for its arguments.
pub const TIME_CALLS: &[TimeCall] = &time_calls!(names);

/// The same, each with how it is written.
pub const KNOWN: &[KnownCall] = &time_calls!(known, Time);

/// How the call is written.
pub fn form(call: TimeCall) -> CallForm
    ensures text { result.text.now ≡ (line_of call).text }
    ensures bare { result.bare ≡ (line_of call).bare }
    ensures kinds { result.kinds.now ≡ (line_of call).kinds }
    ensures few { length result.kinds.now ≤ MOST_ARGUMENTS }
{
    parts(call).0
}

/// The arguments of the call.
pub fn values(call: TimeCall) -> Values
    ensures { result.items ≡ (line_of call).values }
{
    parts(call).1
}

/// How the call is written, and its arguments.
#[inline(always)]
pub fn parts(call: TimeCall) -> (CallForm, Values)
    ensures text { result.0.text.now ≡ (line_of call).text }
    ensures bare { result.0.bare ≡ (line_of call).bare }
    ensures kinds { result.0.kinds.now ≡ (line_of call).kinds }
    ensures few { length result.0.kinds.now ≤ MOST_ARGUMENTS }
    ensures values { result.1.items ≡ (line_of call).values }
{
    time_calls!(parts, call)
}

/// The call of the same name with the arguments that the values are.
#[inline(always)]
pub fn with_values(call: TimeCall, values: &[Value]) -> TimeCall
    ensures { result ≡ (line_of call).make values.now }
{
    time_calls!(with_values, call, values)
}

/// A call that is written so.
pub fn find(word: &[u8]) -> Option<TimeCall>
    ensures { result ≡ find (λ call. bytes_eq (line_of call).text word.now) TIME_CALLS.now }
{
    TIME_CALLS
        .iter()
        .copied()
        .find(|call| form(*call).text == word)
}
