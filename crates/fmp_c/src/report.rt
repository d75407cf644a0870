//! What C gives and is told: plain structures of numbers.
ghost use Rattle.std.specs.Prelude.{◌≡◌};
ghost use Rattle.fmp_c.specs.Report as spec;

use fmp_codes::{Answer, Proc, Record, Release, Runner, Task};
use fmp_config::{ConfigFault, ConfigKind};

/// An event: where, what, and with which arguments.
#[repr(C)]
#[derive(Drop)]
pub struct Asked {
    pub processor: u32,
    pub event: u32,
    pub arguments: [i64; 4],
}

/// Why a text is no configuration.
#[repr(C)]
#[derive(Drop)]
pub struct Fault {
    /// From 1 to 13, as `F1` to `F13`.
    pub kind: u32,
    /// From 1, or 0 where the fault is in no line.
    pub line: u32,
    /// How many bytes of the text are left from the first of the token at fault on, or 0. No contract rests on it.
    pub left: usize,
}

/// What an event did.
#[repr(C)]
#[derive(Drop)]
pub struct Report {
    /// Which event it was, from 1.
    pub number: u32,
    pub processor: u32,
    /// Who could make a call: 0 nobody, 1 a task, 2 an alarm, 3 a cyclic handler, and its number.
    pub runner_kind: u32,
    pub runner: u32,
    /// 0 where a call returned a code, else 1 for `wait` to 7 for `none`, in the order of the answers.
    pub answer: u32,
    pub code: i32,
    pub has_value: u32,
    /// How many waits ended, and how many processors are asked.
    pub releases: u32,
    pub requests: u32,
    pub has_lost: u32,
    /// Whether another task runs now, and which, 0 for none.
    pub run_changed: u32,
    pub run: u32,
    pub value: i64,
    pub lost: i64,
}

/// The end of a wait.
#[repr(C)]
#[derive(Drop)]
pub struct Freed {
    pub task: u32,
    pub code: i32,
    pub has_value: u32,
    pub value: i64,
}

/// The number of a kind of faults.
fn kind_number(kind: ConfigKind) -> u32
    ensures { result ≡ spec.kind_number kind }
{
    match kind {
        ConfigKind::Syntax => 1,
        ConfigKind::CutShort => 2,
        ConfigKind::Unsupported => 3,
        ConfigKind::OutsideClass => 4,
        ConfigKind::UnknownClass => 5,
        ConfigKind::NameTaken => 6,
        ConfigKind::OutOfRange => 7,
        ConfigKind::BadAttribute => 8,
        ConfigKind::TooMany => 9,
        ConfigKind::NoProcessors => 10,
        ConfigKind::BadClass => 11,
        ConfigKind::Memory => 12,
        ConfigKind::ForeignHandler => 13,
    }
}

/// A fault as it is told.
pub(crate) fn fault_of(fault: &ConfigFault) -> Fault
    ensures kind { result.kind ≡ spec.kind_number fault.now.kind }
    ensures line { result.line ≡ fault.now.line }
    ensures left { result.left ≡ fault.now.left }
{
    Fault {
        kind: kind_number(fault.kind),
        line: fault.line,
        left: fault.left,
    }
}

/// 1 where there is a value.
fn flag(value: Option<i64>) -> u32
    ensures { result ≡ spec.flag value }
{
    match value {
        None => 0,
        Some(_) => 1,
    }
}

/// The value, or 0.
fn value_or_zero(value: Option<i64>) -> i64
    ensures { result ≡ spec.value_or_zero value }
{
    match value {
        None => 0,
        Some(value) => value,
    }
}

fn runner_kind(runner: Option<Runner>) -> u32
    ensures { result ≡ spec.runner_kind runner }
{
    match runner {
        None => 0,
        Some(Runner::Task(_)) => 1,
        Some(Runner::Alarm(_)) => 2,
        Some(Runner::Cyclic(_)) => 3,
    }
}

fn runner_number(runner: Option<Runner>) -> u32
    ensures { result ≡ spec.runner_number runner }
{
    match runner {
        None => 0,
        Some(Runner::Task(task)) => u32::from(task.number),
        Some(Runner::Alarm(alarm)) => u32::from(alarm.number),
        Some(Runner::Cyclic(cyclic)) => u32::from(cyclic.number),
    }
}

fn answer_number(answer: Answer) -> u32
    ensures { result ≡ spec.answer_number answer }
{
    match answer {
        Answer::Done(_, _) => 0,
        Answer::Wait => 1,
        Answer::Spin => 2,
        Answer::Gone => 3,
        Answer::Idle => 4,
        Answer::Held => 5,
        Answer::Taken => 6,
        Answer::Nothing => 7,
    }
}

fn answer_code(answer: Answer) -> i32
    ensures { result ≡ spec.answer_code answer }
{
    match answer {
        Answer::Done(code, _) => code.number(),
        _ => 0,
    }
}

fn answer_value(answer: Answer) -> Option<i64>
    ensures { result ≡ spec.answer_value answer }
{
    match answer {
        Answer::Done(_, value) => value,
        _ => None,
    }
}

fn changed(change: Option<Option<Task>>) -> u32
    ensures { result ≡ spec.changed change }
{
    match change {
        None => 0,
        Some(_) => 1,
    }
}

fn running(change: Option<Option<Task>>) -> u32
    ensures { result ≡ spec.running change }
{
    match change {
        Some(Some(task)) => u32::from(task.number),
        _ => 0,
    }
}

/// What an event did, the number of which is given.
pub(crate) fn report_of(number: u32, entry: &Record) -> Report
    ensures { result ≡ spec.report_of number entry.now }
{
    let value = answer_value(entry.answer);
    Report {
        number,
        processor: u32::from(entry.event.processor().number),
        runner_kind: runner_kind(entry.runner),
        runner: runner_number(entry.runner),
        answer: answer_number(entry.answer),
        code: answer_code(entry.answer),
        has_value: flag(value),
        releases: entry.releases.len() as u32,
        requests: entry.requests.as_slice().len() as u32,
        has_lost: flag(entry.lost),
        run_changed: changed(entry.run_change),
        run: running(entry.run_change),
        value: value_or_zero(value),
        lost: value_or_zero(entry.lost),
    }
}

/// The end of a wait.
pub(crate) fn freed_of(release: Release) -> Freed
    ensures { result ≡ spec.freed_of release }
{
    Freed {
        task: u32::from(release.task.number),
        code: release.code.number(),
        has_value: flag(release.value),
        value: value_or_zero(release.value),
    }
}

/// The number of a processor.
pub(crate) fn processor_number(processor: Proc) -> u32
    ensures { result ≡ processor.number }
{
    u32::from(processor.number)
}
