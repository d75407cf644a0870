//! Printing records, a line for each. What adds to a vector fails only where that had less room than there has to be, and it never
//! takes room away.
ghost use Rattle.std.specs.Prelude.{◌≡◌, ◌+◌, ◌<◌, ◌≤◌, ◌^◌, [], ◌++◌, length, take, OnOk, OnErr, IfOk, vec_capacity};
ghost use Rattle.fmp_codes.specs.Codes.{name_of};
ghost use Rattle.fmp_trace.specs.Following.{after_number};
ghost use Rattle.fmp_trace.specs.Lines as spec;

use crate::values::{put_call, put_named, put_number, put_piece, put_signed};
use fmp_codes::{Answer, Code, Event, ObjectKind, Proc, Record, Release, Releases, Runner, Task};
use fmp_text::Names;
use std::alloc::{AllocError, Global};

/// Adds an event without its processor.
#[inline(always)]
pub fn put_event(out: &mut Vec<u8>, names: &Names, event: Event) -> Result<(), AllocError>
    ensures ok { OnOk result (out.new.items ≡ out.old.items ++ spec.event_text names.now event) }
    ensures full { OnErr result (vec_capacity out.old < length out.old.items + length (spec.event_text names.now event)) }
    ensures room { vec_capacity out.old ≤ vec_capacity out.new }
{
    match event {
        Event::Call(_, call) => put_call(out, names, call),
        Event::Tick(_) => out.extend_from_slice(b"tick"),
        Event::Ipi(_) => out.extend_from_slice(b"ipi"),
    }
}

/// Adds the name of a task, or its number where no task has it.
#[inline(always)]
pub fn put_task(out: &mut Vec<u8>, names: &Names, task: Task) -> Result<(), AllocError>
    ensures ok { OnOk result (out.new.items ≡ out.old.items ++ spec.task_text names.now task) }
    ensures full { OnErr result (vec_capacity out.old < length out.old.items + length (spec.task_text names.now task)) }
    ensures room { vec_capacity out.old ≤ vec_capacity out.new }
{
    put_named(out, names, ObjectKind::Task, usize::from(task.number))
}

/// Adds the name of a task or a handler, or `-` where there is none.
#[inline(always)]
pub fn put_runner(
    out: &mut Vec<u8>,
    names: &Names,
    runner: Option<Runner>,
) -> Result<(), AllocError>
    ensures ok { OnOk result (out.new.items ≡ out.old.items ++ spec.runner_text names.now runner) }
    ensures full { OnErr result (vec_capacity out.old < length out.old.items + length (spec.runner_text names.now runner)) }
    ensures room { vec_capacity out.old ≤ vec_capacity out.new }
{
    match runner {
        None => out.extend_from_slice(b"-"),
        Some(Runner::Task(task)) => put_task(out, names, task),
        Some(Runner::Alarm(alarm)) => {
            put_named(out, names, ObjectKind::Alarm, usize::from(alarm.number))
        }
        Some(Runner::Cyclic(cyclic)) => {
            put_named(out, names, ObjectKind::Cyclic, usize::from(cyclic.number))
        }
    }
}

/// The name of a code with blanks after it, and how many bytes the name has.
#[inline(always)]
pub fn code_piece(code: Code) -> (&'static [u8; 16], usize)
    ensures few { result.1 ≤ 16 }
    ensures text { take result.1 result.0.now ≡ name_of code }
    ensures bytes { result.1 ≡ length (name_of code) }
{
    match code {
        Code::Accepted => (b"E_OK            ", 4),
        Code::Parameter => (b"E_PAR           ", 5),
        Code::Identifier => (b"E_ID            ", 4),
        Code::Context => (b"E_CTX           ", 5),
        Code::IllegalUse => (b"E_ILUSE         ", 7),
        Code::ObjectState => (b"E_OBJ           ", 5),
        Code::QueueOverflow => (b"E_QOVR          ", 6),
        Code::WaitReleased => (b"E_RLWAI         ", 7),
        Code::TimedOut => (b"E_TMOUT         ", 7),
    }
}

/// Adds the name of a code.
#[inline(always)]
fn put_code_name(out: &mut Vec<u8>, code: Code) -> Result<(), AllocError>
    ensures ok { OnOk result (out.new.items ≡ out.old.items ++ name_of code) }
    ensures full { OnErr result (vec_capacity out.old < length out.old.items + length (name_of code)) }
    ensures room { vec_capacity out.old ≤ vec_capacity out.new }
{
    let (piece, bytes) = code_piece(code);
    put_piece(out, piece, bytes)
}

/// Adds a code and the value that it has, if any.
#[inline(always)]
#[tactic(auto, unfolding(crate::specs::Lines::code_text))]
fn put_code(out: &mut Vec<u8>, code: Code, value: Option<i64>) -> Result<(), AllocError>
    ensures ok { OnOk result (out.new.items ≡ out.old.items ++ spec.code_text code value) }
    ensures full { OnErr result (vec_capacity out.old < length out.old.items + length (spec.code_text code value)) }
    ensures room { vec_capacity out.old ≤ vec_capacity out.new }
{
    put_code_name(out, code)?;
    if let Some(value) = value {
        out.push(b':')?;
        put_signed(out, value)?;
    }
    Ok(())
}

/// Adds what a call returned, where the answer is that.
#[inline(always)]
fn put_returned(out: &mut Vec<u8>, answer: Answer) -> Result<(), AllocError>
    ensures ok { OnOk result (out.new.items ≡ out.old.items ++ spec.returned_text answer) }
    ensures full { OnErr result (vec_capacity out.old < length out.old.items + length (spec.returned_text answer)) }
    ensures room { vec_capacity out.old ≤ vec_capacity out.new }
{
    match answer {
        Answer::Done(code, value) => put_code(out, code, value),
        _ => Ok(()),
    }
}

/// Adds the answer to an event.
#[inline(always)]
pub fn put_answer(out: &mut Vec<u8>, answer: Answer) -> Result<(), AllocError>
    ensures ok { OnOk result (out.new.items ≡ out.old.items ++ spec.answer_text answer) }
    ensures full { OnErr result (vec_capacity out.old < length out.old.items + length (spec.answer_text answer)) }
    ensures room { vec_capacity out.old ≤ vec_capacity out.new }
{
    match answer.word() {
        Some(word) => out.extend_from_slice(word.as_bytes()),
        None => put_returned(out, answer),
    }
}

/// Adds the end of a wait after a blank: the task, and the code with its value, if any.
#[inline(always)]
#[tactic(auto, unfolding(crate::specs::Lines::release_text))]
fn put_release(out: &mut Vec<u8>, names: &Names, release: Release) -> Result<(), AllocError>
    ensures ok { OnOk result (out.new.items ≡ out.old.items ++ spec.release_text names.now release) }
    ensures full { OnErr result (vec_capacity out.old < length out.old.items + length (spec.release_text names.now release)) }
    ensures room { vec_capacity out.old ≤ vec_capacity out.new }
{
    out.extend_from_slice(b" rel=")?;
    put_task(out, names, release.task)?;
    out.push(b':')?;
    put_code(out, release.code, release.value)
}

/// Adds the ends of waits, each after a blank.
#[inline(always)]
pub fn put_releases(out: &mut Vec<u8>, names: &Names, releases: &Releases) -> Result<(), AllocError>
    ensures ok { OnOk result (out.new.items ≡ out.old.items ++ spec.releases_text names.now releases.now) }
    ensures full { OnErr result (vec_capacity out.old < length out.old.items + length (spec.releases_text names.now releases.now)) }
    ensures room { vec_capacity out.old ≤ vec_capacity out.new }
{
    for index in 0..releases.len() {
        put_release(out, names, releases.get(index).unwrap())?;
    }
    Ok(())
}

/// Adds the value that was overwritten, if any, after a blank.
#[inline(always)]
pub fn put_lost(out: &mut Vec<u8>, lost: Option<i64>) -> Result<(), AllocError>
    ensures ok { OnOk result (out.new.items ≡ out.old.items ++ spec.lost_text lost) }
    ensures full { OnErr result (vec_capacity out.old < length out.old.items + length (spec.lost_text lost)) }
    ensures room { vec_capacity out.old ≤ vec_capacity out.new }
{
    if let Some(value) = lost {
        out.extend_from_slice(b" lost=")?;
        put_signed(out, value)?;
    }
    Ok(())
}

/// Adds the task that runs now, or that there is none.
#[inline(always)]
pub fn put_running(
    out: &mut Vec<u8>,
    names: &Names,
    running: Option<Task>,
) -> Result<(), AllocError>
    ensures ok { OnOk result (out.new.items ≡ out.old.items ++ spec.running_text names.now running) }
    ensures full { OnErr result (vec_capacity out.old < length out.old.items + length (spec.running_text names.now running)) }
    ensures room { vec_capacity out.old ≤ vec_capacity out.new }
{
    match running {
        None => out.extend_from_slice(b"idle"),
        Some(task) => put_task(out, names, task),
    }
}

/// Adds what runs now after a blank, where that is another than before.
#[inline(always)]
pub fn put_run_change(
    out: &mut Vec<u8>,
    names: &Names,
    change: Option<Option<Task>>,
) -> Result<(), AllocError>
    ensures ok { OnOk result (out.new.items ≡ out.old.items ++ spec.run_change_text names.now change) }
    ensures full { OnErr result (vec_capacity out.old < length out.old.items + length (spec.run_change_text names.now change)) }
    ensures room { vec_capacity out.old ≤ vec_capacity out.new }
{
    if let Some(running) = change {
        out.extend_from_slice(b" run=")?;
        put_running(out, names, running)?;
    }
    Ok(())
}

/// Adds the processors to which a request is sent, if any, after a blank.
#[inline(always)]
pub fn put_requests(out: &mut Vec<u8>, requests: &[Proc]) -> Result<(), AllocError>
    ensures ok { OnOk result (out.new.items ≡ out.old.items ++ spec.requests_from 0 requests.now) }
    ensures full { OnErr result (vec_capacity out.old < length out.old.items + length (spec.requests_from 0 requests.now)) }
    ensures room { vec_capacity out.old ≤ vec_capacity out.new }
{
    for (index, processor) in requests.iter().enumerate() {
        if index == 0 {
            out.extend_from_slice(b" ipi=")?;
        } else {
            out.extend_from_slice(b",")?;
        }
        put_number(out, u64::from(processor.number))?;
    }
    Ok(())
}

/// Adds what stands after the answer.
#[inline(always)]
#[tactic(auto, unfolding(crate::specs::Lines::tail_text))]
fn put_tail(out: &mut Vec<u8>, names: &Names, entry: &Record) -> Result<(), AllocError>
    ensures ok { OnOk result (out.new.items ≡ out.old.items ++ spec.tail_text names.now entry.now) }
    ensures full { OnErr result (vec_capacity out.old < length out.old.items + length (spec.tail_text names.now entry.now)) }
    ensures room { vec_capacity out.old ≤ vec_capacity out.new }
{
    put_releases(out, names, &entry.releases)?;
    put_lost(out, entry.lost)?;
    put_run_change(out, names, entry.run_change)?;
    put_requests(out, entry.requests.as_slice())?;
    Ok(())
}

/// Adds what stands after the number of a line, without its line feed.
#[inline(always)]
#[tactic(auto, unfolding(crate::specs::Following::after_number))]
fn put_after_number(out: &mut Vec<u8>, names: &Names, entry: &Record) -> Result<(), AllocError>
    ensures ok { OnOk result (out.new.items ≡ out.old.items ++ after_number names.now entry.now) }
    ensures full { OnErr result (vec_capacity out.old < length out.old.items + length (after_number names.now entry.now)) }
    ensures room { vec_capacity out.old ≤ vec_capacity out.new }
{
    out.extend_from_slice(b" P")?;
    put_number(out, u64::from(entry.event.processor().number))?;
    out.push(b' ')?;
    put_runner(out, names, entry.runner)?;
    out.push(b' ')?;
    put_event(out, names, entry.event)?;
    out.push(b' ')?;
    put_answer(out, entry.answer)?;
    put_tail(out, names, entry)?;
    Ok(())
}

/// Adds line n without its line feed.
#[tactic(auto, unfolding(crate::specs::Lines::core_text, crate::specs::Lines::head_text, crate::specs::Following::after_number))]
pub fn put_core(out: &mut Vec<u8>, names: &Names, n: u32, entry: &Record) -> Result<(), AllocError>
    ensures ok { OnOk result (out.new.items ≡ out.old.items ++ spec.core_text names.now n entry.now) }
    ensures full { OnErr result (vec_capacity out.old < length out.old.items + length (spec.core_text names.now n entry.now)) }
    ensures room { vec_capacity out.old ≤ vec_capacity out.new }
{
    put_number(out, u64::from(n))?;
    put_after_number(out, names, entry)
}

/// Adds line n with its line feed.
#[tactic(auto, unfolding(crate::specs::Lines::line_text))]
pub fn put_line(out: &mut Vec<u8>, names: &Names, n: u32, entry: &Record) -> Result<(), AllocError>
    ensures ok { OnOk result (out.new.items ≡ out.old.items ++ spec.line_text names.now n entry.now) }
    ensures full { OnErr result (vec_capacity out.old < length out.old.items + length (spec.line_text names.now n entry.now)) }
    ensures room { vec_capacity out.old ≤ vec_capacity out.new }
{
    put_core(out, names, n, entry)?;
    out.push(b'\n')?;
    Ok(())
}

/// Replaces what the vector holds by line n, with its line feed. After an error it is empty. It fails only where the vector had
/// less room than the line has bytes, and it never takes room away.
pub fn trace_line(
    n: u32,
    entry: &Record,
    names: &Names,
    line: &mut Vec<u8>,
) -> Result<(), AllocError>
    ensures ok { OnOk result (line.new.items ≡ spec.line_text names.now n entry.now) }
    ensures err { OnErr result (line.new.items ≡ []) }
    ensures full { OnErr result (vec_capacity line.old < length (spec.line_text names.now n entry.now)) }
    ensures room { vec_capacity line.old ≤ vec_capacity line.new }
{
    line.clear();
    let made = put_line(line, names, n, entry);
    if made.is_err() {
        line.clear();
    }
    made
}

/// The text of the records: a line for each, numbered from 1. docs/FORMATS.md has its form.
///
/// A number that is no object's is printed as a number.
pub fn trace_text(alloc: Global, records: &[Record], names: &Names) -> Result<Vec<u8>, AllocError>
    requires { length records.now < 2 ^ 32 }
    ensures { IfOk result (λ v. v.items ≡ spec.lines_from names.now 1 records.now) }
{
    let mut out = Vec::new(alloc);
    let mut n: u32 = 0;
    for entry in records {
        n += 1;
        put_line(&mut out, names, n, entry)?;
    }
    Ok(out)
}
