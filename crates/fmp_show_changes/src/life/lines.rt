//! The lines of things.
ghost use Rattle.std.specs.Prelude.{◌≡◌};
ghost use Rattle.fmp_out.specs.Putting.{Adds};
ghost use Rattle.fmp_rules.specs.Objects.{values};
ghost use Rattle.fmp_rules.specs.Ordering.{is_runnable};
ghost use Rattle.fmp_show_changes.specs.Life.Lines as spec;

use crate::life::things::Thing;
use fmp_codes::{Object, ObjectKind, Proc, Runner, Task};
use fmp_names::Names;
use fmp_out::Text;
use fmp_rules::TaskRecord;
use fmp_show_state::{
    put_any_wait, put_flag, put_left, put_named, put_numbers, put_object, put_task, put_ticks,
    put_values,
};
use fmp_step_words::Views;

/// The ticks left, or 0 in place of how many they are.
fn left_by(ticks: bool, left: Option<u64>) -> Option<u64>
    ensures { result ≡ spec.left_by ticks left }
{
    match (ticks, left) {
        (true, left) => left,
        (false, Some(_)) => Some(0),
        (false, None) => None,
    }
}

/// Whether the processor of a task runs it.
fn runs<M: Views>(machine: &M, t: Task) -> bool
    ensures { result ≡ spec.runs (M.world machine.now) t }
{
    match machine.processor(machine.task(t).assigned).running {
        None => false,
        Some(other) => t.number == other.number,
    }
}

/// Whether a task is ready, or runs.
fn is_runnable(task: &TaskRecord) -> bool
    ensures { result ≡ is_runnable task.now }
{
    task.active && !task.wait.is_some() && !task.suspended
}

/// Adds a processor after its word.
fn put_processor(out: &mut Text, word: &[u8], p: Proc)
    ensures { Adds (spec.on_text word.now p) out.old out.new }
{
    out.put(word);
    out.put_number(u64::from(p.number));
}

/// Adds that a task runs, is ready or is dormant, where it is so.
fn put_doing(out: &mut Text, runs: bool, task: &TaskRecord)
    ensures { Adds (spec.doing_text runs task.now) out.old out.new }
{
    if runs {
        return put_processor(out, b" running P", task.assigned);
    }
    if is_runnable(task) {
        return put_processor(out, b" ready P", task.assigned);
    }
    put_flag(out, !task.active, b" dormant");
}

/// Adds the priority of a task where it is another one than at boot, and what is queued for it, where it is not dormant.
fn put_counts(out: &mut Text, task: &TaskRecord)
    ensures { Adds (spec.counts_text task.now) out.old out.new }
{
    if task.active {
        put_numbers(out, task);
    }
}

/// Adds that a task is suspended, what it waits for, and its numbers, where there is something to tell.
#[tactic(auto, unfolding(crate::specs::Life::Lines::rest_text))]
fn put_rest(out: &mut Text, names: &Names, task: &TaskRecord, left: Option<u64>)
    ensures { Adds (spec.rest_text names.now task.now left) out.old out.new }
{
    put_flag(out, task.suspended, b" suspended");
    put_any_wait(out, names, task.wait);
    put_left(out, left);
    put_counts(out, task);
}

/// Adds the line of a task.
#[tactic(auto, unfolding(crate::specs::Life::Lines::task_reported))]
fn put_task_line(
    out: &mut Text,
    names: &Names,
    t: Task,
    runs: bool,
    task: &TaskRecord,
    left: Option<u64>,
)
    ensures { Adds (spec.task_reported names.now t runs task.now left) out.old out.new }
{
    out.put(b"  ");
    put_task(out, names, t);
    put_doing(out, runs, task);
    put_rest(out, names, task, left);
    out.put_byte(b'\n');
}

/// Adds the line of a task as it is now.
fn put_task_at<M: Views>(out: &mut Text, names: &Names, machine: &M, t: Task, ticks: bool)
    ensures { Adds (spec.thing_line names.now ticks (M.world machine.now) (Thing.Task t)) out.old out.new }
{
    let task = machine.task(t);
    let left = left_by(ticks, machine.wait_left(t));
    put_task_line(out, names, t, runs(machine, t), &task, left);
}

/// Adds the values of a data queue, the oldest first, or that it has none.
fn put_contents<M: Views>(out: &mut Text, machine: &M, d: Object)
    ensures { Adds (spec.contents_text (values (M.world machine.now) d)) out.old out.new }
{
    if machine.value_count(d) == 0 {
        return out.put(b" empty");
    }
    put_values(out, machine, d);
}

/// Adds the line of a data queue.
#[tactic(auto, unfolding(crate::specs::Life::Lines::queue_reported))]
fn put_queue<M: Views>(out: &mut Text, names: &Names, machine: &M, d: Object)
    ensures { Adds (spec.queue_reported names.now d (values (M.world machine.now) d)) out.old out.new }
{
    out.put(b"  ");
    put_named(out, names, ObjectKind::DataQueue, usize::from(d.number));
    put_contents(out, machine, d);
    out.put_byte(b'\n');
}

/// Adds the processor that holds a spin lock, or that it is free.
fn put_holder(out: &mut Text, holder: Option<Proc>)
    ensures { Adds (spec.holder_text holder) out.old out.new }
{
    match holder {
        None => out.put(b" free"),
        Some(p) => put_processor(out, b" held=P", p),
    }
}

/// Adds the line of a spin lock.
#[tactic(auto, unfolding(crate::specs::Life::Lines::lock_reported))]
fn put_lock(out: &mut Text, names: &Names, l: Object, holder: Option<Proc>)
    ensures { Adds (spec.lock_reported names.now l holder) out.old out.new }
{
    out.put(b"  ");
    put_named(out, names, ObjectKind::SpinLock, usize::from(l.number));
    put_holder(out, holder);
    out.put_byte(b'\n');
}

/// Adds the line of a handler: its ticks left or that it is stopped, and that it is due.
#[tactic(auto, unfolding(crate::specs::Life::Lines::handler_reported))]
fn put_handler(
    out: &mut Text,
    names: &Names,
    kind: ObjectKind,
    handler: Object,
    left: Option<u64>,
    due: bool,
)
    ensures { Adds (spec.handler_reported names.now kind handler left due) out.old out.new }
{
    out.put(b"  ");
    put_named(out, names, kind, usize::from(handler.number));
    put_ticks(out, left);
    put_flag(out, due, b" due");
    out.put_byte(b'\n');
}

/// Whether these are the same handler.
fn is_handler(one: Runner, other: Runner) -> bool
    ensures { result ≡ spec.is_handler one other }
{
    match (one, other) {
        (Runner::Alarm(one), Runner::Alarm(other)) => one.number == other.number,
        (Runner::Cyclic(one), Runner::Cyclic(other)) => one.number == other.number,
        _ => false,
    }
}

/// Whether a handler is due on this processor.
fn is_due_on<M: Views>(machine: &M, handler: Runner, p: Proc) -> bool
    ensures { result ≡ spec.is_due_on (M.world machine.now) handler p }
{
    let due = machine.due(p);
    due.iter().any(|other| is_handler(handler, *other))
}

/// Whether a handler is due.
fn is_due<M: Views>(machine: &M, handler: Runner) -> bool
    ensures { result ≡ spec.is_due (M.world machine.now) handler }
{
    let mut due = false;
    for index in 0..machine.processor_count() {
        due = due || is_due_on(machine, handler, Proc::from_index(index));
    }
    due
}

/// Adds the line of a thing, with the ticks that it has left, or with 0 in place of how many they are.
pub(crate) fn put_line<M: Views>(
    out: &mut Text,
    names: &Names,
    machine: &M,
    thing: Thing,
    ticks: bool,
)
    ensures { Adds (spec.thing_line names.now ticks (M.world machine.now) thing) out.old out.new }
{
    match thing {
        Thing::Task(t) => put_task_at(out, names, machine, t, ticks),
        Thing::Semaphore(s) => {
            let count = u64::from(machine.semaphore(s).count);
            put_object(out, names, ObjectKind::Semaphore, s, b" count=", count);
        }
        Thing::Eventflag(f) => {
            let pattern = u64::from(machine.eventflag(f).pattern);
            put_object(out, names, ObjectKind::Eventflag, f, b" pattern=", pattern);
        }
        Thing::DataQueue(d) => put_queue(out, names, machine, d),
        Thing::Pool(m) => {
            let free = machine.pool(m).free_blocks();
            put_object(out, names, ObjectKind::Pool, m, b" free=", free);
        }
        Thing::Cyclic(c) => {
            let left = left_by(ticks, machine.cyclic_left(c));
            let due = is_due(machine, Runner::Cyclic(c));
            put_handler(out, names, ObjectKind::Cyclic, c, left, due);
        }
        Thing::Alarm(a) => {
            let left = left_by(ticks, machine.alarm_left(a));
            let due = is_due(machine, Runner::Alarm(a));
            put_handler(out, names, ObjectKind::Alarm, a, left, due);
        }
        Thing::SpinLock(l) => put_lock(out, names, l, machine.holder(l)),
    }
}
