//! Printing a record where parts are left out.
ghost use Rattle.std.specs.Prelude.{[], None, if◌then◌else◌};
ghost use Rattle.fmp_codes.specs.Codes.{name_of};
ghost use Rattle.fmp_out.specs.Putting.{Adds};
ghost use Rattle.fmp_trace.specs.Lines as lines;
ghost use Rattle.fmp_trace_partial.specs.Partial as spec;

use crate::codes_kept::{AnswerKept, CodeKept, CodesKept};
use fmp_codes::{Answer, Code, Event, Record, Release, Releases, Requests, Runner, Task};
use fmp_out::Text;
use fmp_text::Names;
use fmp_trace::{
    put_answer, put_event, put_lost, put_requests, put_run_change, put_runner, put_task,
};

/// Which parts of a line are written. The processor and the event always are.
#[derive(Drop)]
pub struct Kept {
    /// The line's number.
    pub number: bool,
    /// Who could make a call.
    pub runner: bool,
    /// How much of the answer.
    pub answer: AnswerKept,
    /// The waits that the event ended: none of them where this is empty, and else all of them, with so much of each code. What is
    /// beyond the list is written whole.
    pub releases: CodesKept,
    /// The value that was overwritten.
    pub lost: bool,
    /// What runs now, where that is another than before.
    pub run_change: bool,
    /// The processors to which a request is sent.
    pub requests: bool,
}

/// Adds the line's number and a blank, where it is kept.
fn put_lead(out: &mut Text, kept: bool, n: u32)
    ensures { Adds (spec.number_text kept n) out.old out.new }
{
    if kept {
        out.put_number(u64::from(n));
        out.put_byte(b' ');
    }
}

/// Adds who could make a call and a blank, where that is kept.
fn put_kept_runner(out: &mut Text, names: &Names, kept: bool, runner: Option<Runner>)
    ensures { Adds (spec.runner_lead names.now kept runner) out.old out.new }
{
    if kept {
        let told = put_runner(out.as_mut_vec(), names, runner);
        out.note(told);
        out.put_byte(b' ');
    }
}

/// Adds the value that stands after a code, if there is one.
fn put_value(out: &mut Text, value: Option<i64>)
    ensures { Adds (lines.after_code value) out.old out.new }
{
    if let Some(value) = value {
        out.put_byte(b':');
        out.put_signed(value);
    }
}

/// Adds a code with its value, if any.
#[tactic(auto, unfolding(fmp_trace::specs::Lines::code_text))]
fn put_code(out: &mut Text, code: Code, value: Option<i64>)
    ensures { Adds (lines.code_text code value) out.old out.new }
{
    out.put(code.name().as_bytes());
    put_value(out, value);
}

/// Adds a code, and that its value is left out.
fn put_bare_code(out: &mut Text, code: Code)
    ensures { Adds (spec.bare_code_text code) out.old out.new }
{
    out.put(code.name().as_bytes());
    out.put(b":*");
}

/// Adds as much of a code with its value as is kept.
fn put_kept_code(out: &mut Text, kept: CodeKept, code: Code, value: Option<i64>)
    ensures { Adds (spec.kept_code_text kept code value) out.old out.new }
{
    match kept {
        CodeKept::Whole => put_code(out, code, value),
        CodeKept::NoValue => put_bare_code(out, code),
        CodeKept::Nothing => out.put_byte(b'*'),
    }
}

/// Adds a task.
fn put_task_text(out: &mut Text, names: &Names, task: Task)
    ensures { Adds (lines.task_text names.now task) out.old out.new }
{
    let told = put_task(out.as_mut_vec(), names, task);
    out.note(told);
}

/// Adds the end of a wait after a blank, with as much of its code as is kept.
#[tactic(auto, unfolding(crate::specs::Partial::kept_release_text))]
fn put_kept_release(out: &mut Text, names: &Names, kept: CodeKept, release: Release)
    ensures { Adds (spec.kept_release_text names.now kept release) out.old out.new }
{
    out.put(b" rel=");
    put_task_text(out, names, release.task);
    out.put_byte(b':');
    put_kept_code(out, kept, release.code, release.value);
}

/// Adds the ends of waits, with as much of each code as is kept.
fn put_each_release(out: &mut Text, names: &Names, kept: &CodesKept, releases: &Releases)
    ensures { Adds (spec.kept_each names.now kept.now releases.now) out.old out.new }
{
    for index in 0..releases.len() {
        let code = kept.get(index).unwrap_or(CodeKept::Whole);
        put_kept_release(out, names, code, releases.get(index).unwrap());
    }
}

/// Adds the ends of waits, where they are kept.
fn put_kept_releases(out: &mut Text, names: &Names, kept: &CodesKept, releases: &Releases)
    ensures { Adds (spec.kept_releases_text names.now kept.now releases.now) out.old out.new }
{
    if !kept.is_empty() {
        put_each_release(out, names, kept, releases);
    }
}

/// Adds the value that was overwritten, where it is kept.
fn put_kept_lost(out: &mut Text, kept: bool, lost: Option<i64>)
    ensures { Adds (lines.lost_text (if kept then lost else None)) out.old out.new }
{
    if kept {
        let told = put_lost(out.as_mut_vec(), lost);
        out.note(told);
    }
}

/// Adds what runs now, where it is kept.
fn put_kept_run_change(out: &mut Text, names: &Names, kept: bool, run_change: Option<Option<Task>>)
    ensures { Adds (lines.run_change_text names.now (if kept then run_change else None)) out.old out.new }
{
    if kept {
        let told = put_run_change(out.as_mut_vec(), names, run_change);
        out.note(told);
    }
}

/// Adds the processors to which a request is sent, where they are kept.
fn put_kept_requests(out: &mut Text, kept: bool, requests: &Requests)
    ensures { Adds (lines.requests_from 0 (if kept then requests.now else [])) out.old out.new }
{
    if kept {
        let told = put_requests(out.as_mut_vec(), requests.as_slice());
        out.note(told);
    }
}

/// Adds what is kept after the answer.
#[tactic(auto, unfolding(crate::specs::Partial::kept_tail))]
fn put_kept_tail(out: &mut Text, names: &Names, kept: &Kept, entry: &Record)
    ensures { Adds (spec.kept_tail names.now kept.now entry.now) out.old out.new }
{
    put_kept_releases(out, names, &kept.releases, &entry.releases);
    put_kept_lost(out, kept.lost, entry.lost);
    put_kept_run_change(out, names, kept.run_change, entry.run_change);
    put_kept_requests(out, kept.requests, &entry.requests);
}

/// Adds the number, the processor and the runner, where they are kept.
fn put_kept_head(out: &mut Text, names: &Names, n: u32, kept: &Kept, entry: &Record)
    ensures { Adds (spec.kept_head names.now n kept.now entry.now) out.old out.new }
{
    put_lead(out, kept.number, n);
    out.put_byte(b'P');
    out.put_number(u64::from(entry.event.processor().number));
    out.put_byte(b' ');
    put_kept_runner(out, names, kept.runner, entry.runner);
}

/// Adds an event.
fn put_event_text(out: &mut Text, names: &Names, event: Event)
    ensures { Adds (lines.event_text names.now event) out.old out.new }
{
    let told = put_event(out.as_mut_vec(), names, event);
    out.note(told);
}

/// Adds an answer.
fn put_answer_text(out: &mut Text, answer: Answer)
    ensures { Adds (lines.answer_text answer) out.old out.new }
{
    let told = put_answer(out.as_mut_vec(), answer);
    out.note(told);
}

/// Adds an answer, where the value of a code is left out.
fn put_bare_answer(out: &mut Text, answer: Answer)
    ensures { Adds (spec.bare_answer_text answer) out.old out.new }
{
    match answer {
        Answer::Done(code, _) => put_bare_code(out, code),
        _ => put_answer_text(out, answer),
    }
}

/// Adds as much of an answer as is kept.
fn put_kept_answer(out: &mut Text, kept: AnswerKept, answer: Answer)
    ensures { Adds (spec.kept_answer_text kept answer) out.old out.new }
{
    match kept {
        AnswerKept::Whole => put_answer_text(out, answer),
        AnswerKept::NoValue => put_bare_answer(out, answer),
        AnswerKept::Happened => out.put_byte(b'?'),
        AnswerKept::Open => out.put(b"open"),
    }
}

/// Adds the last line whose event may take effect before this line's, if that is told.
pub(crate) fn put_bound(out: &mut Text, bound: Option<u32>)
    ensures { Adds (spec.bound_text bound) out.old out.new }
{
    if let Some(last) = bound {
        out.put(b" by=");
        out.put_number(u64::from(last));
    }
}

/// Adds line n of a partial trace, without its bound and its line feed: what is kept of that of the record.
#[tactic(auto, unfolding(crate::specs::Partial::kept_text))]
pub fn put_kept(out: &mut Text, names: &Names, n: u32, kept: &Kept, entry: &Record)
    ensures { Adds (spec.kept_text names.now n kept.now entry.now) out.old out.new }
{
    put_kept_head(out, names, n, kept, entry);
    put_event_text(out, names, entry.event);
    out.put_byte(b' ');
    put_kept_answer(out, kept.answer, entry.answer);
    put_kept_tail(out, names, kept, entry);
}
