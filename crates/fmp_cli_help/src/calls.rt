//! The service calls with their arguments.

use crate::deeds::deed;
use fmp_calls::{BUFFER_CALLS, SPIN_CALLS, SYNC_CALLS, SYSTEM_CALLS, TASK_CALLS, TIME_CALLS, form};
use fmp_codes::{
    ArgumentKind, BufferCall, Call, ObjectKind, SpinCall, SyncCall, SystemCall, TaskCall, TimeCall,
};
use fmp_out::Text;

/// What an argument of a kind is called.
fn word_of(kind: ArgumentKind) -> &'static [u8] {
    match kind {
        ArgumentKind::Object(ObjectKind::Task) => b"task",
        ArgumentKind::Object(ObjectKind::Semaphore) => b"semaphore",
        ArgumentKind::Object(ObjectKind::Eventflag) => b"eventflag",
        ArgumentKind::Object(ObjectKind::DataQueue) => b"data queue",
        ArgumentKind::Object(ObjectKind::Pool) => b"pool",
        ArgumentKind::Object(ObjectKind::Cyclic) => b"cyclic",
        ArgumentKind::Object(ObjectKind::Alarm) => b"alarm",
        ArgumentKind::Object(ObjectKind::SpinLock) => b"spin lock",
        ArgumentKind::Priority => b"priority",
        ArgumentKind::Processor => b"processor",
        ArgumentKind::Time => b"time",
        ArgumentKind::Timeout => b"timeout",
        ArgumentKind::Pattern => b"pattern",
        ArgumentKind::Data => b"data",
        ArgumentKind::Mode => b"mode",
        ArgumentKind::Block => b"block",
    }
}

/// What may be written for an argument of a kind.
fn written(kind: ArgumentKind) -> &'static [u8] {
    match kind {
        ArgumentKind::Object(ObjectKind::Task) => {
            b"its name, TSK_SELF for 0, or a number of 32 bits with a sign"
        }
        ArgumentKind::Object(_) => b"its name, or a number of 32 bits with a sign",
        ArgumentKind::Priority => {
            b"a number of 32 bits with a sign, TPRI_SELF for 0, or TPRI_INI for 0"
        }
        ArgumentKind::Processor => b"a number of 32 bits with a sign, or TPRC_INI for 0",
        ArgumentKind::Time | ArgumentKind::Block => b"a number of 32 bits with a sign",
        ArgumentKind::Timeout => {
            b"a number of 32 bits with a sign, TMO_POL for 0, or TMO_FEVR for -1"
        }
        ArgumentKind::Pattern => b"a number from 0 to 4294967295",
        ArgumentKind::Data => b"a number of 64 bits with a sign",
        ArgumentKind::Mode => b"TWF_ANDW for all bits of the pattern, or TWF_ORW for one of them",
    }
}

/// Adds the kinds of a call's arguments, with commas between them.
fn put_kinds(out: &mut Text, kinds: &[ArgumentKind]) {
    for (index, kind) in kinds.iter().enumerate() {
        if index > 0 {
            out.put(b", ");
        }
        out.put(word_of(*kind));
    }
}

/// Adds a call as it is written, with the kinds of its arguments.
pub fn put_call(out: &mut Text, call: Call) {
    let form = form(call);
    out.put(form.text);
    if !form.bare {
        out.put_byte(b'(');
        put_kinds(out, form.kinds);
        out.put_byte(b')');
    }
    out.put(b"\n");
}

/// Adds what may be written for an argument of a kind.
pub fn put_argument(out: &mut Text, kind: ArgumentKind) {
    out.put(b"  ");
    out.put(word_of(kind));
    out.put(b": ");
    out.put(written(kind));
    out.put(b"\n");
}

/// Adds for each of these kinds of arguments what may be written.
fn put_arguments(out: &mut Text, kinds: &[ArgumentKind]) {
    for kind in kinds {
        put_argument(out, *kind);
    }
}

/// Adds a call, and for each of its arguments what may be written.
pub(crate) fn put_about(out: &mut Text, call: Call) {
    put_call(out, call);
    put_arguments(out, form(call).kinds);
    out.put(deed(call));
}

/// Adds a line for each of these calls on tasks.
fn put_task_lines(out: &mut Text, calls: &[TaskCall]) {
    for call in calls {
        put_call(out, Call::Task(*call));
    }
}

/// Adds a line for each of these calls on semaphores and eventflags.
fn put_sync_lines(out: &mut Text, calls: &[SyncCall]) {
    for call in calls {
        put_call(out, Call::Sync(*call));
    }
}

/// Adds a line for each of these calls on data queues and pools.
fn put_buffer_lines(out: &mut Text, calls: &[BufferCall]) {
    for call in calls {
        put_call(out, Call::Buffer(*call));
    }
}

/// Adds a line for each of these calls on cyclic handlers and alarms.
fn put_time_lines(out: &mut Text, calls: &[TimeCall]) {
    for call in calls {
        put_call(out, Call::Time(*call));
    }
}

/// Adds a line for each of these calls on the processors and the state of dispatching.
fn put_system_lines(out: &mut Text, calls: &[SystemCall]) {
    for call in calls {
        put_call(out, Call::System(*call));
    }
}

/// Adds a line for each of these calls on spin locks.
fn put_spin_lines(out: &mut Text, calls: &[SpinCall]) {
    for call in calls {
        put_call(out, Call::Spin(*call));
    }
}

/// Adds a line for each call.
pub fn put_calls(out: &mut Text) {
    put_task_lines(out, TASK_CALLS);
    put_sync_lines(out, SYNC_CALLS);
    put_buffer_lines(out, BUFFER_CALLS);
    put_time_lines(out, TIME_CALLS);
    put_system_lines(out, SYSTEM_CALLS);
    put_spin_lines(out, SPIN_CALLS);
    put_call(out, Call::RetHdr);
}
