//! The calls on data queues and pools.
ghost use Rattle.std.specs.Prelude.{◌≡◌, ◌≤◌, length, find};
ghost use Rattle.std.specs.Str.{bytes_eq};
ghost use Rattle.fmp_calls.specs.Tables.BufferTable.{line_of};

use crate::table::{CallForm, KnownCall, MOST_ARGUMENTS, Values, listed, value_at};
use fmp_codes::{BufferCall, Value};

macro_rules! buffer_calls {
    ($reading:ident $(, $given:tt)*) => {
        $reading!(BufferCall $(, $given)*;
            SndDtq(data_queue, data) = b"snd_dtq",
            TsndDtq(data_queue, data, timeout) = b"tsnd_dtq",
            PsndDtq(data_queue, data) = b"psnd_dtq",
            IpsndDtq(data_queue, data) = b"ipsnd_dtq",
            FsndDtq(data_queue, data) = b"fsnd_dtq",
            IfsndDtq(data_queue, data) = b"ifsnd_dtq",
            RcvDtq(data_queue) = b"rcv_dtq",
            TrcvDtq(data_queue, timeout) = b"trcv_dtq",
            PrcvDtq(data_queue) = b"prcv_dtq",
            GetMpf(pool) = b"get_mpf",
            TgetMpf(pool, timeout) = b"tget_mpf",
            PgetMpf(pool) = b"pget_mpf",
            RelMpf(pool, block) = b"rel_mpf",
        )
    };
}

/// The calls on data queues and pools, each with blanks for its arguments.
pub const BUFFER_CALLS: &[BufferCall] = &buffer_calls!(names);

/// The same, each with how it is written.
pub const KNOWN: &[KnownCall] = &buffer_calls!(known, Buffer);

/// How the call is written.
pub fn form(call: BufferCall) -> CallForm
    ensures text { result.text.now ≡ (line_of call).text }
    ensures bare { result.bare ≡ (line_of call).bare }
    ensures kinds { result.kinds.now ≡ (line_of call).kinds }
    ensures few { length result.kinds.now ≤ MOST_ARGUMENTS }
{
    parts(call).0
}

/// The arguments of the call.
pub fn values(call: BufferCall) -> Values
    ensures { result.items ≡ (line_of call).values }
{
    parts(call).1
}

/// How the call is written, and its arguments.
#[inline(always)]
pub fn parts(call: BufferCall) -> (CallForm, Values)
    ensures text { result.0.text.now ≡ (line_of call).text }
    ensures bare { result.0.bare ≡ (line_of call).bare }
    ensures kinds { result.0.kinds.now ≡ (line_of call).kinds }
    ensures few { length result.0.kinds.now ≤ MOST_ARGUMENTS }
    ensures values { result.1.items ≡ (line_of call).values }
{
    buffer_calls!(parts, call)
}

/// The call of the same name with the arguments that the values are.
#[inline(always)]
pub fn with_values(call: BufferCall, values: &[Value]) -> BufferCall
    ensures { result ≡ (line_of call).make values.now }
{
    buffer_calls!(with_values, call, values)
}

/// A call that is written so.
pub fn find(word: &[u8]) -> Option<BufferCall>
    ensures { result ≡ find (λ call. bytes_eq (line_of call).text word.now) BUFFER_CALLS.now }
{
    BUFFER_CALLS
        .iter()
        .copied()
        .find(|call| form(*call).text == word)
}
