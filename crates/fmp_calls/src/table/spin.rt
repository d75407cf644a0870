//! The calls on spin locks.
ghost use Rattle.std.specs.Prelude.{◌≡◌, ◌≤◌, length, find};
ghost use Rattle.std.specs.Str.{bytes_eq};
ghost use Rattle.fmp_calls.specs.Tables.SpinTable.{line_of};

use crate::table::{CallForm, KnownCall, MOST_ARGUMENTS, Values, listed, value_at};
use fmp_codes::{SpinCall, Value};

macro_rules! spin_calls {
    ($reading:ident $(, $given:tt)*) => {
        $reading!(SpinCall $(, $given)*;
            LocSpn(spin_lock) = b"loc_spn",
            IlocSpn(spin_lock) = b"iloc_spn",
            TrySpn(spin_lock) = b"try_spn",
            ItrySpn(spin_lock) = b"itry_spn",
            UnlSpn(spin_lock) = b"unl_spn",
            IunlSpn(spin_lock) = b"iunl_spn",
        )
    };
}

/// The calls on spin locks, each with blanks for its arguments.
pub const SPIN_CALLS: &[SpinCall] = &spin_calls!(names);

/// The same, each with how it is written.
pub const KNOWN: &[KnownCall] = &spin_calls!(known, Spin);

/// How the call is written.
pub fn form(call: SpinCall) -> CallForm
    ensures text { result.text.now ≡ (line_of call).text }
    ensures bare { result.bare ≡ (line_of call).bare }
    ensures kinds { result.kinds.now ≡ (line_of call).kinds }
    ensures few { length result.kinds.now ≤ MOST_ARGUMENTS }
{
    parts(call).0
}

/// The arguments of the call.
pub fn values(call: SpinCall) -> Values
    ensures { result.items ≡ (line_of call).values }
{
    parts(call).1
}

/// How the call is written, and its arguments.
#[inline(always)]
pub fn parts(call: SpinCall) -> (CallForm, Values)
    ensures text { result.0.text.now ≡ (line_of call).text }
    ensures bare { result.0.bare ≡ (line_of call).bare }
    ensures kinds { result.0.kinds.now ≡ (line_of call).kinds }
    ensures few { length result.0.kinds.now ≤ MOST_ARGUMENTS }
    ensures values { result.1.items ≡ (line_of call).values }
{
    spin_calls!(parts, call)
}

/// The call of the same name with the arguments that the values are.
#[inline(always)]
pub fn with_values(call: SpinCall, values: &[Value]) -> SpinCall
    ensures { result ≡ (line_of call).make values.now }
{
    spin_calls!(with_values, call, values)
}

/// A call that is written so.
pub fn find(word: &[u8]) -> Option<SpinCall>
    ensures { result ≡ find (λ call. bytes_eq (line_of call).text word.now) SPIN_CALLS.now }
{
    SPIN_CALLS
        .iter()
        .copied()
        .find(|call| form(*call).text == word)
}
