//! The calls on semaphores and eventflags.
ghost use Rattle.std.specs.Prelude.{◌≡◌, ◌≤◌, length, find};
ghost use Rattle.std.specs.Str.{bytes_eq};
ghost use Rattle.fmp_calls.specs.Tables.SyncTable.{line_of};

use crate::table::{CallForm, KnownCall, MOST_ARGUMENTS, Values, listed, value_at};
use fmp_codes::{SyncCall, Value};

macro_rules! sync_calls {
    ($reading:ident $(, $given:tt)*) => {
        $reading!(SyncCall $(, $given)*;
            SigSem(semaphore) = b"sig_sem",
            IsigSem(semaphore) = b"isig_sem",
            WaiSem(semaphore) = b"wai_sem",
            TwaiSem(semaphore, timeout) = b"twai_sem",
            PolSem(semaphore) = b"pol_sem",
            SetFlg(eventflag, pattern) = b"set_flg",
            IsetFlg(eventflag, pattern) = b"iset_flg",
            ClrFlg(eventflag, pattern) = b"clr_flg",
            WaiFlg(eventflag, pattern, mode) = b"wai_flg",
            TwaiFlg(eventflag, pattern, mode, timeout) = b"twai_flg",
            PolFlg(eventflag, pattern, mode) = b"pol_flg",
        )
    };
}

/// The calls on semaphores and eventflags, each with blanks for its arguments.
pub const SYNC_CALLS: &[SyncCall] = &sync_calls!(names);

/// The same, each with how it is written.
pub const KNOWN: &[KnownCall] = &sync_calls!(known, Sync);

/// How the call is written.
pub fn form(call: SyncCall) -> CallForm
    ensures text { result.text.now ≡ (line_of call).text }
    ensures bare { result.bare ≡ (line_of call).bare }
    ensures kinds { result.kinds.now ≡ (line_of call).kinds }
    ensures few { length result.kinds.now ≤ MOST_ARGUMENTS }
{
    parts(call).0
}

/// The arguments of the call.
pub fn values(call: SyncCall) -> Values
    ensures { result.items ≡ (line_of call).values }
{
    parts(call).1
}

/// How the call is written, and its arguments.
#[inline(always)]
pub fn parts(call: SyncCall) -> (CallForm, Values)
    ensures text { result.0.text.now ≡ (line_of call).text }
    ensures bare { result.0.bare ≡ (line_of call).bare }
    ensures kinds { result.0.kinds.now ≡ (line_of call).kinds }
    ensures few { length result.0.kinds.now ≤ MOST_ARGUMENTS }
    ensures values { result.1.items ≡ (line_of call).values }
{
    sync_calls!(parts, call)
}

/// The call of the same name with the arguments that the values are.
#[inline(always)]
pub fn with_values(call: SyncCall, values: &[Value]) -> SyncCall
    ensures { result ≡ (line_of call).make values.now }
{
    sync_calls!(with_values, call, values)
}

/// A call that is written so.
pub fn find(word: &[u8]) -> Option<SyncCall>
    ensures { result ≡ find (λ call. bytes_eq (line_of call).text word.now) SYNC_CALLS.now }
{
    SYNC_CALLS
        .iter()
        .copied()
        .find(|call| form(*call).text == word)
}
