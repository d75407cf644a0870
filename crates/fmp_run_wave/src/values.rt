//! The values of all signals, a line for each.
ghost use Rattle.std.specs.Prelude.{◌≡◌, ◌+◌, ◌<◌, length};
ghost use Rattle.fmp_out.specs.Putting.{Adds};
ghost use Rattle.fmp_trace.specs.Lines.{runner_text, running_text};
ghost use Rattle.fmp_run_wave.specs.Listing.{each};
ghost use Rattle.fmp_run_wave.specs.Values as spec;

use crate::resource::{Resource, signal_of};
use crate::signal::{Signal, put_identifier, put_object};
use crate::snapshot::{ShownProcessor, Snapshot, TaskNumbers};
use fmp_codes::{Object, ObjectKind, Proc, Runner, Task};
use fmp_names::Names;
use fmp_out::Text;
use fmp_rules::{TaskState, Wait};
use fmp_trace::{put_runner, put_running};

/// Adds what stands after a value of more than a bit: the signal, and the end of the line.
#[tactic(auto, unfolding(crate::specs::Values::value_end))]
pub(crate) fn put_value_end(out: &mut Text, signal: Signal, number: u8)
    ensures { Adds (spec.value_end signal number) out.old out.new }
{
    out.put_byte(b' ');
    put_identifier(out, signal, number);
    out.put_byte(b'\n');
}

/// Adds the line of a signal whose value is a text.
#[tactic(auto, unfolding(crate::specs::Values::text_value))]
fn put_text_value(out: &mut Text, signal: Signal, number: u8, text: &[u8])
    ensures { Adds (spec.text_value signal number text.now) out.old out.new }
{
    out.put_byte(b's');
    out.put(text);
    put_value_end(out, signal, number);
}

/// Adds a bit, as a digit.
fn put_bit(out: &mut Text, bit: bool)
    ensures { Adds (spec.bit_text bit) out.old out.new }
{
    if bit {
        out.put(b"1");
    } else {
        out.put(b"0");
    }
}

/// Adds the line of a signal of one bit.
#[tactic(auto, unfolding(crate::specs::Values::bit_value))]
pub(crate) fn put_bit_value(out: &mut Text, signal: Signal, number: u8, bit: bool)
    ensures { Adds (spec.bit_value signal number bit) out.old out.new }
{
    put_bit(out, bit);
    put_identifier(out, signal, number);
    out.put_byte(b'\n');
}

/// Adds the last bits of a number, so many at most, the highest first, without zeros before them.
#[tactic(auto, unfolding(crate::specs::Values::bits_text))]
fn put_bits(out: &mut Text, most: u8, number: u64)
    ensures { Adds (spec.bits_text most number) out.old out.new }
{
    if most == 0 {
        return;
    }
    if number < 2 {
        return put_bit(out, number == 1);
    }
    put_bits(out, most - 1, number / 2);
    put_bit(out, number % 2 == 1);
}

/// Adds the line of a signal whose value is a number.
#[tactic(auto, unfolding(crate::specs::Values::number_value))]
pub(crate) fn put_number_value(out: &mut Text, signal: Signal, number: u8, value: u64)
    ensures { Adds (spec.number_value signal number value) out.old out.new }
{
    out.put_byte(b'b');
    put_bits(out, 64, value);
    put_value_end(out, signal, number);
}

/// Adds the task that runs, or that none does.
pub(crate) fn put_running_task(out: &mut Text, names: &Names, running: Option<Task>)
    ensures { Adds (running_text names.now running) out.old out.new }
{
    let told = put_running(out.as_mut_vec(), names, running);
    out.note(told);
}

/// Adds the handler that is due, or that none is.
pub(crate) fn put_handler(out: &mut Text, names: &Names, handler: Option<Runner>)
    ensures { Adds (runner_text names.now handler) out.old out.new }
{
    let told = put_runner(out.as_mut_vec(), names, handler);
    out.note(told);
}

/// Adds the line of the task that runs on a processor.
#[tactic(auto, unfolding(crate::specs::Values::text_value))]
pub(crate) fn put_running_value(out: &mut Text, names: &Names, p: Proc, running: Option<Task>)
    ensures { Adds (spec.running_value names.now p running) out.old out.new }
{
    out.put_byte(b's');
    put_running_task(out, names, running);
    put_value_end(out, Signal::Running, p.number);
}

/// Adds the line of the handler that is due on a processor.
#[tactic(auto, unfolding(crate::specs::Values::text_value))]
pub(crate) fn put_due_value(out: &mut Text, names: &Names, p: Proc, handler: Option<Runner>)
    ensures { Adds (spec.due_value names.now p handler) out.old out.new }
{
    out.put_byte(b's');
    put_handler(out, names, handler);
    put_value_end(out, Signal::Due, p.number);
}

/// Adds the lines of a processor's locks and of its latch.
#[tactic(auto, unfolding(crate::specs::Values::flag_values))]
fn put_flag_values(out: &mut Text, p: Proc, shown: ShownProcessor)
    ensures { Adds (spec.flag_values p shown) out.old out.new }
{
    put_bit_value(out, Signal::Locked, p.number, shown.locked);
    put_bit_value(out, Signal::Disabled, p.number, shown.disabled);
    put_bit_value(out, Signal::Latch, p.number, shown.latch);
}

/// Adds the lines of a processor.
#[tactic(auto, unfolding(crate::specs::Values::processor_values))]
fn put_processor_values(out: &mut Text, names: &Names, p: Proc, shown: ShownProcessor)
    ensures { Adds (spec.processor_values names.now p shown) out.old out.new }
{
    put_running_value(out, names, p, shown.running);
    put_text_value(out, Signal::Call, p.number, b"-");
    put_flag_values(out, p, shown);
    put_due_value(out, names, p, shown.due);
}

/// Adds the lines of the processor at a place.
#[tactic(auto, unfolding(crate::specs::Values::processor_lines))]
fn put_processor(out: &mut Text, names: &Names, shown: &Snapshot, index: usize)
    requires { index < 8 }
    ensures { Adds (spec.processor_lines names.now shown.now (index + 1)) out.old out.new }
{
    let p = Proc::from_index(index);
    put_processor_values(out, names, p, shown.processor(p));
}

/// Adds the lines of all processors.
fn put_processors(out: &mut Text, names: &Names, shown: &Snapshot)
    ensures { Adds (each (spec.processor_lines names.now shown.now) (length shown.now.processors)) out.old out.new }
{
    for index in 0..shown.processor_count() {
        put_processor(out, names, shown, index);
    }
}

/// The word of a task's state.
pub(crate) fn state_word(state: TaskState) -> &'static [u8]
    ensures { result.now ≡ spec.state_word state }
{
    match state {
        TaskState::Dormant => b"dormant",
        TaskState::Ready => b"ready",
        TaskState::Running => b"running",
        TaskState::Waiting => b"waiting",
        TaskState::Suspended => b"suspended",
        TaskState::WaitingSuspended => b"waiting-suspended",
    }
}

/// Adds the line of a task's state.
pub(crate) fn put_state_value(out: &mut Text, t: Task, state: TaskState)
    ensures { Adds (spec.state_value t state) out.old out.new }
{
    put_text_value(out, Signal::State, t.number, state_word(state));
}

/// Adds that a wait is for an object: the word for such a wait, and the object's name.
#[tactic(auto, unfolding(crate::specs::Values::object_wait))]
fn put_object_wait(out: &mut Text, names: &Names, word: &[u8], kind: ObjectKind, object: Object)
    ensures { Adds (spec.object_wait names.now word.now kind object) out.old out.new }
{
    out.put(word);
    out.put_byte(b':');
    put_object(out, names, kind, object.number);
}

/// Adds what a task waits for, or `-` where it does not wait.
pub(crate) fn put_wait(out: &mut Text, names: &Names, wait: Option<Wait>)
    ensures { Adds (spec.wait_text names.now wait) out.old out.new }
{
    match wait {
        None => out.put(b"-"),
        Some(Wait::Sleep) => out.put(b"slp"),
        Some(Wait::Delay) => out.put(b"dly"),
        Some(Wait::Semaphore(s)) => put_object_wait(out, names, b"sem", ObjectKind::Semaphore, s),
        Some(Wait::Eventflag(f, _, _)) => {
            put_object_wait(out, names, b"flg", ObjectKind::Eventflag, f);
        }
        Some(Wait::Send(d, _)) => put_object_wait(out, names, b"sdtq", ObjectKind::DataQueue, d),
        Some(Wait::Receive(d)) => put_object_wait(out, names, b"rdtq", ObjectKind::DataQueue, d),
        Some(Wait::Pool(m)) => put_object_wait(out, names, b"mpf", ObjectKind::Pool, m),
    }
}

/// Adds the line of what a task waits for.
#[tactic(auto, unfolding(crate::specs::Values::text_value))]
pub(crate) fn put_wait_value(out: &mut Text, names: &Names, t: Task, wait: Option<Wait>)
    ensures { Adds (spec.wait_value names.now t wait) out.old out.new }
{
    out.put_byte(b's');
    put_wait(out, names, wait);
    put_value_end(out, Signal::Wait, t.number);
}

/// Adds the lines of a task's numbers.
#[tactic(auto, unfolding(crate::specs::Values::counts_values))]
fn put_counts_values(out: &mut Text, t: Task, numbers: TaskNumbers)
    ensures { Adds (spec.counts_values t numbers) out.old out.new }
{
    put_number_value(out, Signal::Priority, t.number, u64::from(numbers.priority));
    put_number_value(
        out,
        Signal::Activations,
        t.number,
        u64::from(numbers.activations),
    );
    put_number_value(out, Signal::Wakeups, t.number, u64::from(numbers.wakeups));
}

/// Adds the lines of the task at a place.
#[tactic(auto, unfolding(crate::specs::Values::task_lines))]
fn put_task(out: &mut Text, names: &Names, shown: &Snapshot, index: usize)
    requires { index < 64 }
    ensures { Adds (spec.task_lines names.now shown.now (index + 1)) out.old out.new }
{
    let t = Task::from_index(index);
    let task = shown.task(t);
    put_state_value(out, t, task.state);
    put_wait_value(out, names, t, task.wait);
    put_counts_values(out, t, task.numbers);
}

/// Adds the lines of all tasks.
fn put_tasks(out: &mut Text, names: &Names, shown: &Snapshot)
    ensures { Adds (each (spec.task_lines names.now shown.now) (length shown.now.tasks)) out.old out.new }
{
    for index in 0..shown.task_count() {
        put_task(out, names, shown, index);
    }
}

/// Adds the line of the object of a kind at a place.
#[tactic(auto, unfolding(crate::specs::Values::number_line))]
fn put_number_line(out: &mut Text, shown: &Snapshot, resource: Resource, index: usize)
    requires { index < 32 }
    ensures { Adds (spec.number_line shown.now resource (index + 1)) out.old out.new }
{
    let o = Object::from_index(index);
    put_number_value(
        out,
        signal_of(resource),
        o.number,
        shown.number(resource, o),
    )
}

/// Adds the lines of all objects of a kind.
fn put_numbers(out: &mut Text, shown: &Snapshot, resource: Resource)
    ensures { Adds (spec.numbers_values shown.now resource) out.old out.new }
{
    for index in 0..shown.number_count(resource) {
        put_number_line(out, shown, resource, index);
    }
}

/// Adds the lines of all objects that have a number.
#[tactic(auto, unfolding(crate::specs::Values::objects_values))]
fn put_objects(out: &mut Text, shown: &Snapshot)
    ensures { Adds (spec.objects_values shown.now) out.old out.new }
{
    put_numbers(out, shown, Resource::Semaphore);
    put_numbers(out, shown, Resource::Eventflag);
    put_numbers(out, shown, Resource::DataQueue);
    put_numbers(out, shown, Resource::Pool);
    put_numbers(out, shown, Resource::SpinLock);
}

/// Adds the values of all signals.
#[tactic(auto, unfolding(crate::specs::Values::values_text))]
pub(crate) fn put_values(out: &mut Text, names: &Names, shown: &Snapshot)
    ensures { Adds (spec.values_text names.now shown.now) out.old out.new }
{
    put_processors(out, names, shown);
    put_tasks(out, names, shown);
    put_objects(out, shown);
}
