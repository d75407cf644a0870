//! The calls on tasks.
ghost use Rattle.std.specs.Prelude.{◌≡◌, ◌≤◌, length, find};
ghost use Rattle.std.specs.Str.{bytes_eq};
ghost use Rattle.fmp_calls.specs.Tables.TaskTable.{line_of};

use crate::table::{CallForm, KnownCall, MOST_ARGUMENTS, Values, listed, value_at};
use fmp_codes::{TaskCall, Value};

macro_rules! task_calls {
    ($reading:ident $(, $given:tt)*) => {
        $reading!(TaskCall $(, $given)*;
            ActTsk(task) = b"act_tsk",
            IactTsk(task) = b"iact_tsk",
            MactTsk(task, processor) = b"mact_tsk",
            ImactTsk(task, processor) = b"imact_tsk",
            CanAct(task) = b"can_act",
            MigTsk(task, processor) = b"mig_tsk",
            ExtTsk = b"ext_tsk",
            TerTsk(task) = b"ter_tsk",
            ChgPri(task, priority) = b"chg_pri",
            GetPri(task) = b"get_pri",
            SlpTsk = b"slp_tsk",
            TslpTsk(timeout) = b"tslp_tsk",
            WupTsk(task) = b"wup_tsk",
            IwupTsk(task) = b"iwup_tsk",
            CanWup(task) = b"can_wup",
            RelWai(task) = b"rel_wai",
            IrelWai(task) = b"irel_wai",
            SusTsk(task) = b"sus_tsk",
            RsmTsk(task) = b"rsm_tsk",
            DlyTsk(time) = b"dly_tsk",
        )
    };
}

/// The calls on tasks, each with blanks for its arguments.
pub const TASK_CALLS: &[TaskCall] = &task_calls!(names);

/// The same, each with how it is written.
pub const KNOWN: &[KnownCall] = &task_calls!(known, Task);

/// How the call is written.
pub fn form(call: TaskCall) -> CallForm
    ensures text { result.text.now ≡ (line_of call).text }
    ensures bare { result.bare ≡ (line_of call).bare }
    ensures kinds { result.kinds.now ≡ (line_of call).kinds }
    ensures few { length result.kinds.now ≤ MOST_ARGUMENTS }
{
    parts(call).0
}

/// The arguments of the call.
pub fn values(call: TaskCall) -> Values
    ensures { result.items ≡ (line_of call).values }
{
    parts(call).1
}

/// How the call is written, and its arguments.
#[inline(always)]
pub fn parts(call: TaskCall) -> (CallForm, Values)
    ensures text { result.0.text.now ≡ (line_of call).text }
    ensures bare { result.0.bare ≡ (line_of call).bare }
    ensures kinds { result.0.kinds.now ≡ (line_of call).kinds }
    ensures few { length result.0.kinds.now ≤ MOST_ARGUMENTS }
    ensures values { result.1.items ≡ (line_of call).values }
{
    task_calls!(parts, call)
}

/// The call of the same name with the arguments that the values are.
#[inline(always)]
pub fn with_values(call: TaskCall, values: &[Value]) -> TaskCall
    ensures { result ≡ (line_of call).make values.now }
{
    task_calls!(with_values, call, values)
}

/// A call that is written so.
pub fn find(word: &[u8]) -> Option<TaskCall>
    ensures { result ≡ find (λ call. bytes_eq (line_of call).text word.now) TASK_CALLS.now }
{
    TASK_CALLS
        .iter()
        .copied()
        .find(|call| form(*call).text == word)
}
