//! The calls on the processors and on the state of dispatching.
ghost use Rattle.std.specs.Prelude.{◌≡◌, ◌≤◌, length, find};
ghost use Rattle.std.specs.Str.{bytes_eq};
ghost use Rattle.fmp_calls.specs.Tables.SystemTable.{line_of};

use crate::table::{CallForm, KnownCall, MOST_ARGUMENTS, Values, listed, value_at};
use fmp_codes::{SystemCall, Value};

macro_rules! system_calls {
    ($reading:ident $(, $given:tt)*) => {
        $reading!(SystemCall $(, $given)*;
            RotRdq(priority) = b"rot_rdq",
            IrotRdq(priority) = b"irot_rdq",
            MrotRdq(priority, processor) = b"mrot_rdq",
            ImrotRdq(priority, processor) = b"imrot_rdq",
            GetTid = b"get_tid",
            IgetTid = b"iget_tid",
            GetPid = b"get_pid",
            IgetPid = b"iget_pid",
            LocCpu = b"loc_cpu",
            IlocCpu = b"iloc_cpu",
            UnlCpu = b"unl_cpu",
            IunlCpu = b"iunl_cpu",
            DisDsp = b"dis_dsp",
            EnaDsp = b"ena_dsp",
            SnsCtx = b"sns_ctx",
            SnsLoc = b"sns_loc",
            SnsDsp = b"sns_dsp",
            SnsDpn = b"sns_dpn",
        )
    };
}

/// The calls on the processors and on the state of dispatching, each with blanks for its arguments.
pub const SYSTEM_CALLS: &[SystemCall] = &system_calls!(names);

/// The same, each with how it is written.
pub const KNOWN: &[KnownCall] = &system_calls!(known, System);

/// How the call is written.
pub fn form(call: SystemCall) -> CallForm
    ensures text { result.text.now ≡ (line_of call).text }
    ensures bare { result.bare ≡ (line_of call).bare }
    ensures kinds { result.kinds.now ≡ (line_of call).kinds }
    ensures few { length result.kinds.now ≤ MOST_ARGUMENTS }
{
    parts(call).0
}

/// The arguments of the call.
pub fn values(call: SystemCall) -> Values
    ensures { result.items ≡ (line_of call).values }
{
    parts(call).1
}

/// How the call is written, and its arguments.
#[inline(always)]
pub fn parts(call: SystemCall) -> (CallForm, Values)
    ensures text { result.0.text.now ≡ (line_of call).text }
    ensures bare { result.0.bare ≡ (line_of call).bare }
    ensures kinds { result.0.kinds.now ≡ (line_of call).kinds }
    ensures few { length result.0.kinds.now ≤ MOST_ARGUMENTS }
    ensures values { result.1.items ≡ (line_of call).values }
{
    system_calls!(parts, call)
}

/// The call of the same name with the arguments that the values are.
#[inline(always)]
pub fn with_values(call: SystemCall, values: &[Value]) -> SystemCall
    ensures { result ≡ (line_of call).make values.now }
{
    system_calls!(with_values, call, values)
}

/// A call that is written so.
pub fn find(word: &[u8]) -> Option<SystemCall>
    ensures { result ≡ find (λ call. bytes_eq (line_of call).text word.now) SYSTEM_CALLS.now }
{
    SYSTEM_CALLS
        .iter()
        .copied()
        .find(|call| form(*call).text == word)
}
