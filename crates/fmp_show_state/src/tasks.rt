//! The lines of the tasks that wait, are suspended or are otherwise not as at boot.
ghost use Rattle.std.specs.Prelude.{◌≡◌, length};
ghost use Rattle.fmp_out.specs.Putting.{Adds};
ghost use Rattle.fmp_show_state.specs.Changes as changes;
ghost use Rattle.fmp_show_state.specs.States as spec;

use crate::processors::put_flag;
use crate::texts::{put_named, put_task};
use fmp_codes::{Object, ObjectKind, Task};
use fmp_names::Names;
use fmp_out::Text;
use fmp_rules::{TaskRecord, Wait};
use fmp_step_words::Views;

/// Adds that a task waits for an object: the word for such a wait, and the object's name.
#[tactic(auto, unfolding(crate::specs::States::object_wait))]
fn put_object_wait(out: &mut Text, names: &Names, word: &[u8], kind: ObjectKind, object: Object)
    ensures { Adds (spec.object_wait names.now word.now kind object) out.old out.new }
{
    out.put(b" waits ");
    out.put(word);
    out.put_byte(b' ');
    put_named(out, names, kind, usize::from(object.number));
}

/// Adds what a task waits for: a word for the kind of wait, and the name of the object where it waits for one.
fn put_wait(out: &mut Text, names: &Names, wait: Wait)
    ensures { Adds (spec.wait_text names.now wait) out.old out.new }
{
    match wait {
        Wait::Sleep => out.put(b" waits slp"),
        Wait::Delay => out.put(b" waits dly"),
        Wait::Semaphore(s) => put_object_wait(out, names, b"sem", ObjectKind::Semaphore, s),
        Wait::Eventflag(f, _, _) => put_object_wait(out, names, b"flg", ObjectKind::Eventflag, f),
        Wait::Send(d, _) => put_object_wait(out, names, b"sdtq", ObjectKind::DataQueue, d),
        Wait::Receive(d) => put_object_wait(out, names, b"rdtq", ObjectKind::DataQueue, d),
        Wait::Pool(m) => put_object_wait(out, names, b"mpf", ObjectKind::Pool, m),
    }
}

/// Adds what a task waits for, if it waits.
pub fn put_any_wait(out: &mut Text, names: &Names, wait: Option<Wait>)
    ensures { Adds (spec.waiting_text names.now wait) out.old out.new }
{
    match wait {
        None => {}
        Some(wait) => put_wait(out, names, wait),
    }
}

/// Adds the ticks left of a wait, where it is timed.
pub fn put_left(out: &mut Text, left: Option<u64>)
    ensures { Adds (spec.left_text left) out.old out.new }
{
    if let Some(left) = left {
        out.put(b" left=");
        out.put_number(left);
    }
}

/// Whether a task has another priority than the configuration gives it.
fn has_moved(task: &TaskRecord) -> bool
    ensures { result ≡ changes.has_moved task.now }
{
    task.priority.number != task.setup.priority.number
}

/// Whether a task that is not dormant has another priority, or something is queued for it.
fn has_changed(task: &TaskRecord) -> bool
    ensures { result ≡ changes.has_changed task.now }
{
    task.active && (has_moved(task) || task.activations != 0 || task.wakeups != 0)
}

/// Whether there is something to be told of a task.
fn is_reported(task: &TaskRecord) -> bool
    ensures { result ≡ spec.is_reported task.now }
{
    task.wait.is_some() || task.suspended || has_changed(task)
}

/// Adds a number after its word, where it is told.
fn put_reported(out: &mut Text, report: bool, word: &[u8], number: u64)
    ensures { Adds (changes.number_text report word.now number) out.old out.new }
{
    if report {
        out.put(word);
        out.put_number(number);
    }
}

/// Adds the priority of a task where it is another one, and what is queued for it.
#[tactic(auto, unfolding(crate::specs::Changes::numbers_text))]
pub fn put_numbers(out: &mut Text, task: &TaskRecord)
    ensures { Adds (changes.numbers_text task.now) out.old out.new }
{
    let priority = u64::from(task.priority.number);
    let activations = u64::from(task.activations);
    let wakeups = u64::from(task.wakeups);
    put_reported(out, has_moved(task), b" pri=", priority);
    put_reported(out, activations != 0, b" act=", activations);
    put_reported(out, wakeups != 0, b" wup=", wakeups);
}

/// Adds a task, what is told of it, and a line feed.
#[tactic(auto, unfolding(crate::specs::States::task_words))]
pub(crate) fn put_task_words(
    out: &mut Text,
    names: &Names,
    t: Task,
    task: &TaskRecord,
    left: Option<u64>,
)
    ensures { Adds (spec.task_words names.now t task.now left) out.old out.new }
{
    put_task(out, names, t);
    put_flag(out, task.suspended, b" suspended");
    put_any_wait(out, names, task.wait);
    put_left(out, left);
    put_numbers(out, task);
    out.put_byte(b'\n');
}

/// Adds the line of a task of which something is told.
#[tactic(auto, unfolding(crate::specs::States::report_text))]
fn put_task_line(out: &mut Text, names: &Names, t: Task, task: &TaskRecord, left: Option<u64>)
    ensures { Adds (spec.report_text names.now t task.now left) out.old out.new }
{
    out.put(b"  ");
    put_task_words(out, names, t, task, left);
}

/// Adds the line of a task, if there is something to be told of it.
fn put_line(out: &mut Text, names: &Names, t: Task, task: &TaskRecord, left: Option<u64>)
    ensures { Adds (spec.task_line names.now t task.now left) out.old out.new }
{
    if is_reported(task) {
        put_task_line(out, names, t, task, left);
    }
}

/// Adds the lines of all tasks of which there is something to be told.
pub(crate) fn put_tasks<M: Views>(out: &mut Text, names: &Names, machine: &M)
    ensures { Adds (spec.tasks_text names.now (M.world machine.now) (length (M.world machine.now).tasks)) out.old out.new }
{
    for index in 0..machine.task_count() {
        let t = Task::from_index(index);
        put_line(out, names, t, &machine.task(t), machine.wait_left(t));
    }
}
