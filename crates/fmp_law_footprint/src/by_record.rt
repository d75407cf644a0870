//! What an event may have changed, by its record.
ghost use Rattle.std.specs.Prelude.{◌≡◌};
ghost use Rattle.fmp_law_footprint.specs.Frames as spec;

use fmp_codes::{Answer, Call, Code, Event, Record, SystemCall, TaskCall};

/// Whether nothing was done but that a processor dispatches.
#[inline(always)]
fn is_idle(answer: Answer) -> bool
    ensures { result ≡ spec.is_idle answer }
{
    match answer {
        Answer::Done(Code::Accepted, _) => false,
        Answer::Done(_, _) | Answer::Spin | Answer::Idle | Answer::Held | Answer::Nothing => true,
        Answer::Wait | Answer::Gone | Answer::Taken => false,
    }
}

/// Whether the caller waits from now on.
#[inline(always)]
fn is_wait(answer: Answer) -> bool
    ensures { result ≡ spec.is_wait answer }
{
    match answer {
        Answer::Wait => true,
        _ => false,
    }
}

/// Whether an event is a call on tasks.
#[inline(always)]
fn is_on_tasks(event: Event) -> bool
    ensures { result ≡ spec.is_on_tasks event }
{
    match event {
        Event::Call(_, Call::Task(_)) => true,
        _ => false,
    }
}

/// Whether an event is a call on semaphores or eventflags.
#[inline(always)]
fn is_on_sync(event: Event) -> bool
    ensures { result ≡ spec.is_on_sync event }
{
    match event {
        Event::Call(_, Call::Sync(_)) => true,
        _ => false,
    }
}

/// Whether an event is a call on data queues or pools.
#[inline(always)]
fn is_on_buffers(event: Event) -> bool
    ensures { result ≡ spec.is_on_buffers event }
{
    match event {
        Event::Call(_, Call::Buffer(_)) => true,
        _ => false,
    }
}

/// Whether time passes, or a handler is started or stopped.
#[inline(always)]
fn is_on_time(event: Event) -> bool
    ensures { result ≡ spec.is_on_time event }
{
    match event {
        Event::Tick(_) | Event::Call(_, Call::Time(_)) => true,
        _ => false,
    }
}

/// Whether a handler becomes due, or the one that is due returns.
#[inline(always)]
fn is_on_due(event: Event) -> bool
    ensures { result ≡ spec.is_on_due event }
{
    match event {
        Event::Tick(_) | Event::Call(_, Call::RetHdr) => true,
        _ => false,
    }
}

/// Whether a spin lock is called for, or a task ends or a handler returns, which frees what its processor holds.
#[inline(always)]
fn is_on_locks(event: Event) -> bool
    ensures { result ≡ spec.is_on_locks event }
{
    match event {
        Event::Call(_, Call::Spin(_) | Call::Task(TaskCall::ExtTsk) | Call::RetHdr) => true,
        _ => false,
    }
}

/// Whether an event is a call that puts a ready task last.
#[inline(always)]
fn is_rotation(event: Event) -> bool
    ensures { result ≡ spec.is_rotation event }
{
    match event {
        Event::Call(_, Call::System(SystemCall::RotRdq(_) | SystemCall::IrotRdq(_))) => true,
        Event::Call(_, Call::System(SystemCall::MrotRdq(_, _) | SystemCall::ImrotRdq(_, _))) =>
            true,
        _ => false,
    }
}

/// Whether the records of tasks may have changed.
pub fn moves_tasks(report: &Record) -> bool
    ensures { result ≡ spec.moves_tasks report.now }
{
    !is_idle(report.answer)
        && (is_on_tasks(report.event) || !report.releases.is_empty() || is_wait(report.answer))
}

/// Whether the order of tasks may have changed.
pub fn moves_order(report: &Record) -> bool
    ensures { result ≡ spec.moves_order report.now }
{
    moves_tasks(report) || (!is_idle(report.answer) && is_rotation(report.event))
}

/// Whether semaphores or eventflags may have changed.
pub fn moves_sync(report: &Record) -> bool
    ensures { result ≡ spec.moves_sync report.now }
{
    !is_idle(report.answer) && is_on_sync(report.event)
}

/// Whether data queues or pools may have changed.
pub fn moves_buffers(report: &Record) -> bool
    ensures { result ≡ spec.moves_buffers report.now }
{
    !is_idle(report.answer) && is_on_buffers(report.event)
}

/// Whether time event handlers may have changed, or what is left of their counts.
pub fn moves_time(report: &Record) -> bool
    ensures { result ≡ spec.moves_time report.now }
{
    !is_idle(report.answer) && is_on_time(report.event)
}

/// Whether the due handlers may have changed.
pub fn moves_due(report: &Record) -> bool
    ensures { result ≡ spec.moves_due report.now }
{
    !is_idle(report.answer) && is_on_due(report.event)
}

/// Whether spin locks may have been taken or freed.
pub fn moves_locks(report: &Record) -> bool
    ensures { result ≡ spec.moves_locks report.now }
{
    !is_idle(report.answer) && is_on_locks(report.event)
}

/// Whether what is left of the waits may have changed.
pub fn moves_waits(report: &Record) -> bool
    ensures { result ≡ spec.moves_waits report.now }
{
    moves_tasks(report) || moves_time(report)
}
