//! What is told of one event: its time, its tick, the event itself with its answer, and the values that it changed.
ghost use Rattle.std.specs.Prelude.{◌≡◌, ◌≤◌, ◌+◌, ◌<◌, ◌∷◌, ◌++◌, drop, if◌then◌else◌, length, not, slice_index_or, take, false, IfOk};
ghost use Rattle.std.specs.Str.{bytes_eq};
ghost use Rattle.fmp_out.specs.Putting.{Adds};
ghost use Rattle.fmp_codes.specs.Numbers.{as_object, as_proc, as_task};
ghost use Rattle.fmp_trace.specs.Lines.{runner_text, running_text};
ghost use Rattle.fmp_run_wave.specs.Changes as spec;
ghost use Rattle.fmp_run_wave.specs.Resources.{number_in as number_of};
ghost use Rattle.fmp_run_wave.specs.Shown.{no_task_shown, nothing_shown, shown_numbers, shown_processors, shown_tasks};
ghost use Rattle.fmp_run_wave.specs.Shown.{shown_processor as processor_of, shown_task as task_of};
ghost use Rattle.fmp_run_wave.specs.Values.{wait_text};
ghost use Rattle.fmp_run_wave.specs.Waves as waves;

use crate::resource::{Resource, count_in, number_in, signal_of};
use crate::signal::Signal;
use crate::snapshot::{
    ShownProcessor, ShownTask, Snapshot, TaskNumbers, item_at, put_item, shown_processor,
    shown_task, shows_processor, shows_task,
};
use crate::values::{
    put_bit_value, put_due_value, put_handler, put_number_value, put_running_task,
    put_running_value, put_state_value, put_value_end, put_wait, put_wait_value, state_word,
};
use arrayvec::ArrayVec;
use fmp_codes::{Event, Object, Proc, Record, Runner, Task};
use fmp_law_footprint::{moves_buffers, moves_locks, moves_sync, moves_tasks};
use fmp_names::Names;
use fmp_out::Text;
use fmp_plain_machine::PlainMachine;
use fmp_rules::{TaskState, Wait};
use fmp_step_words::Words;
use fmp_trace::{put_answer, put_event};
use std::alloc::{AllocError, Global};

/// Adds the time of event n.
#[tactic(auto, unfolding(crate::specs::Waves::time_text))]
pub(crate) fn put_time(out: &mut Text, n: u32)
    ensures { Adds (waves.time_text n) out.old out.new }
{
    out.put_byte(b'#');
    out.put_number(u64::from(n));
    out.put_byte(b'\n');
}

/// Adds that an event is a tick of its processor's timer, if it is.
pub(crate) fn put_mark(out: &mut Text, event: Event)
    ensures { Adds (waves.mark_text event) out.old out.new }
{
    match event {
        Event::Tick(p) => put_bit_value(out, Signal::Tick, p.number, true),
        Event::Call(_, _) | Event::Ipi(_) => {}
    }
}

/// Adds a text without its blanks.
fn put_joined(out: &mut Text, text: &[u8])
    ensures { Adds (waves.joined text.now) out.old out.new }
{
    for byte in text {
        if *byte != b' ' {
            out.put_byte(*byte);
        }
    }
}

/// The texts of the old and the new value of a signal, to be compared: two names may be one word. An event takes the new one for its own.
/// They keep their room, so that an event takes none.
#[derive(Drop)]
pub(crate) struct Texts {
    old: Text,
    new: Text,
}

impl Texts {
    /// No texts yet, and no room.
    pub(crate) fn new(alloc: Global) -> Texts {
        Texts {
            old: Text::new(alloc),
            new: Text::new(alloc),
        }
    }

    /// Whether the texts differ.
    fn differ(&self) -> Result<bool, AllocError>
        ensures { IfOk result (λ other. (self.now.old.wanting ≡ false) × (self.now.new.wanting ≡ false) × (other ≡ not (bytes_eq self.now.old.bytes self.now.new.bytes))) }
    {
        let old = self.old.so_far()?;
        let new = self.new.so_far()?;
        Ok(old != new)
    }

    /// Whether the tasks, or none, are told by different words.
    fn tell_running_apart(
        &mut self,
        names: &Names,
        old: Option<Task>,
        new: Option<Task>,
    ) -> Result<bool, AllocError>
        ensures { IfOk result (λ other. other ≡ not (bytes_eq (running_text names.now old) (running_text names.now new))) }
    {
        self.old.clear();
        put_running_task(&mut self.old, names, old);
        self.new.clear();
        put_running_task(&mut self.new, names, new);
        self.differ()
    }

    /// Whether waits, or none, are told by different words.
    fn tell_waits_apart(
        &mut self,
        names: &Names,
        old: Option<Wait>,
        new: Option<Wait>,
    ) -> Result<bool, AllocError>
        ensures { IfOk result (λ other. other ≡ not (bytes_eq (wait_text names.now old) (wait_text names.now new))) }
    {
        self.old.clear();
        put_wait(&mut self.old, names, old);
        self.new.clear();
        put_wait(&mut self.new, names, new);
        self.differ()
    }

    /// Whether the handlers, or none, are told by different words.
    fn tell_due_apart(
        &mut self,
        names: &Names,
        old: Option<Runner>,
        new: Option<Runner>,
    ) -> Result<bool, AllocError>
        ensures { IfOk result (λ other. other ≡ not (bytes_eq (runner_text names.now old) (runner_text names.now new))) }
    {
        self.old.clear();
        put_handler(&mut self.old, names, old);
        self.new.clear();
        put_handler(&mut self.new, names, new);
        self.differ()
    }
}

/// Adds an event without its blanks, and its answer.
#[tactic(auto, unfolding(crate::specs::Waves::call_text))]
fn put_call_text(out: &mut Text, texts: &mut Texts, names: &Names, report: &Record)
    ensures { Adds (waves.call_text names.now report.now) out.old out.new }
{
    let room = texts.new.as_mut_vec();
    room.clear();
    let told = put_event(room, names, report.event);
    put_joined(out, room.as_slice());
    out.note(told);
    out.put_byte(b'=');
    let told = put_answer(out.as_mut_vec(), report.answer);
    out.note(told);
}

/// Adds the line of an event with its answer, which is the last one of its processor.
#[tactic(auto, unfolding(crate::specs::Values::text_value))]
pub(crate) fn put_call_value(out: &mut Text, texts: &mut Texts, names: &Names, report: &Record)
    ensures { Adds (waves.call_value names.now report.now) out.old out.new }
{
    out.put_byte(b's');
    put_call_text(out, texts, names, report);
    put_value_end(out, Signal::Call, report.event.processor().number);
}

/// Adds the line of a signal of one bit, if it changed.
fn put_bit_change(out: &mut Text, signal: Signal, number: u8, old: bool, new: bool)
    ensures { Adds (spec.bit_change signal number old new) out.old out.new }
{
    match (old, new) {
        (true, true) | (false, false) => {}
        (true, false) | (false, true) => put_bit_value(out, signal, number, new),
    }
}

/// Adds the line of the task that runs on a processor, if it is told by another word than the one before.
fn put_running_change(
    out: &mut Text,
    texts: &mut Texts,
    names: &Names,
    p: Proc,
    old: Option<Task>,
    new: Option<Task>,
)
    ensures { Adds (spec.running_change names.now p old new) out.old out.new }
{
    if old == new {
        return;
    }
    match texts.tell_running_apart(names, old, new) {
        Ok(true) => put_running_value(out, names, p, new),
        Ok(false) => {}
        Err(fault) => out.note(Err(fault)),
    }
}

/// Adds the lines of those of a processor's locks and of its latch that changed.
#[tactic(auto, unfolding(crate::specs::Changes::flag_changes))]
fn put_flag_changes(out: &mut Text, p: Proc, old: ShownProcessor, new: ShownProcessor)
    ensures { Adds (spec.flag_changes p old new) out.old out.new }
{
    put_bit_change(out, Signal::Locked, p.number, old.locked, new.locked);
    put_bit_change(out, Signal::Disabled, p.number, old.disabled, new.disabled);
    put_bit_change(out, Signal::Latch, p.number, old.latch, new.latch);
}

/// Adds the line of the handler that is due on a processor, if it is told by another word than the one before.
fn put_due_change(
    out: &mut Text,
    texts: &mut Texts,
    names: &Names,
    p: Proc,
    old: Option<Runner>,
    new: Option<Runner>,
)
    ensures { Adds (spec.due_change names.now p old new) out.old out.new }
{
    if old == new {
        return;
    }
    match texts.tell_due_apart(names, old, new) {
        Ok(true) => put_due_value(out, names, p, new),
        Ok(false) => {}
        Err(fault) => out.note(Err(fault)),
    }
}

/// Adds the lines of those signals of a processor that changed.
#[tactic(auto, unfolding(crate::specs::Changes::processor_changes))]
fn put_processor_changes(
    out: &mut Text,
    texts: &mut Texts,
    names: &Names,
    p: Proc,
    old: ShownProcessor,
    new: ShownProcessor,
)
    ensures { Adds (spec.processor_changes names.now p old new) out.old out.new }
{
    put_running_change(out, texts, names, p, old.running, new.running);
    put_flag_changes(out, p, old, new);
    put_due_change(out, texts, names, p, old.due, new.due);
}

/// Adds the lines of those signals of the processor at a place that are others now, and shows it so.
#[inline(never)]
fn put_processor_anew(
    out: &mut Text,
    texts: &mut Texts,
    names: &Names,
    shown: &mut ArrayVec<ShownProcessor, 8>,
    machine: &PlainMachine,
    index: usize,
)
    requires place { index < 8 }
    requires next { index ≤ length shown.old.items }
    ensures told { Adds (spec.processor_told names.now (index + 1)
        (slice_index_or shown.old.items index nothing_shown) (processor_of machine.now (as_proc (index + 1)))) out.old out.new }
    ensures shown { shown.new.items ≡ take index shown.old.items ++ (processor_of machine.now (as_proc (index + 1)) ∷ drop (index + 1) shown.old.items) }
{
    let p = Proc::from_index(index);
    let old = item_at(shown.as_slice(), index, ShownProcessor::default());
    let new = shown_processor(machine, p);
    put_item(shown, index, new);
    put_processor_changes(out, texts, names, p, old, new);
}

/// The same. Mostly the processor is shown as it is.
#[inline(always)]
#[tactic(auto, using(crate::proofs::Unchanged::no_processor_lines, crate::proofs::Alike::item_stays))]
fn put_processor_change(
    out: &mut Text,
    texts: &mut Texts,
    names: &Names,
    shown: &mut ArrayVec<ShownProcessor, 8>,
    machine: &PlainMachine,
    index: usize,
)
    requires place { index < 8 }
    requires next { index ≤ length shown.old.items }
    ensures told { Adds (spec.processor_told names.now (index + 1)
        (slice_index_or shown.old.items index nothing_shown) (processor_of machine.now (as_proc (index + 1)))) out.old out.new }
    ensures shown { shown.new.items ≡ take index shown.old.items ++ (processor_of machine.now (as_proc (index + 1)) ∷ drop (index + 1) shown.old.items) }
{
    if shows_processor(shown.as_slice(), machine, index) {
        return;
    }
    put_processor_anew(out, texts, names, shown, machine, index);
}

/// Adds the lines of those signals of processors that are others now, and shows all as they are.
fn put_processors_changes(
    out: &mut Text,
    texts: &mut Texts,
    names: &Names,
    shown: &mut ArrayVec<ShownProcessor, 8>,
    machine: &PlainMachine,
)
    ensures told { Adds (spec.told_of (spec.processor_told names.now) nothing_shown shown.old.items (shown_processors machine.now)) out.old out.new }
    ensures shown { shown.new.items ≡ shown_processors machine.now }
{
    let count = machine.processor_count();
    for index in 0..count {
        put_processor_change(out, texts, names, shown, machine, index);
    }
    shown.truncate(count);
}

/// Adds the line of a task's state, if that changed.
fn put_state_change(out: &mut Text, t: Task, old: TaskState, new: TaskState)
    ensures { Adds (spec.state_change t old new) out.old out.new }
{
    if old != new && state_word(old) != state_word(new) {
        put_state_value(out, t, new);
    }
}

/// Adds the line of what a task waits for, if it is told by another word than before.
fn put_wait_change(
    out: &mut Text,
    texts: &mut Texts,
    names: &Names,
    t: Task,
    old: Option<Wait>,
    new: Option<Wait>,
)
    ensures { Adds (spec.wait_change names.now t old new) out.old out.new }
{
    match texts.tell_waits_apart(names, old, new) {
        Ok(true) => put_wait_value(out, names, t, new),
        Ok(false) => {}
        Err(fault) => out.note(Err(fault)),
    }
}

/// Adds the line of a number, if it changed.
#[inline(always)]
fn put_number_change(out: &mut Text, signal: Signal, number: u8, old: u64, new: u64)
    ensures { Adds (spec.number_change signal number old new) out.old out.new }
{
    if old != new {
        put_number_value(out, signal, number, new);
    }
}

/// Adds the lines of those of a task's numbers that changed.
#[tactic(auto, unfolding(crate::specs::Changes::counts_change))]
fn put_counts_change(out: &mut Text, t: Task, old: TaskNumbers, new: TaskNumbers)
    ensures { Adds (spec.counts_change t old new) out.old out.new }
{
    put_number_change(
        out,
        Signal::Priority,
        t.number,
        u64::from(old.priority),
        u64::from(new.priority),
    );
    put_number_change(
        out,
        Signal::Activations,
        t.number,
        u64::from(old.activations),
        u64::from(new.activations),
    );
    put_number_change(
        out,
        Signal::Wakeups,
        t.number,
        u64::from(old.wakeups),
        u64::from(new.wakeups),
    )
}

/// Adds the lines of those signals of a task that changed.
#[tactic(auto, unfolding(crate::specs::Changes::task_changes))]
fn put_task_changes(
    out: &mut Text,
    texts: &mut Texts,
    names: &Names,
    t: Task,
    old: &ShownTask,
    new: &ShownTask,
)
    ensures { Adds (spec.task_changes names.now t old.now new.now) out.old out.new }
{
    put_state_change(out, t, old.state, new.state);
    put_wait_change(out, texts, names, t, old.wait, new.wait);
    put_counts_change(out, t, old.numbers, new.numbers);
}

/// Adds the lines of those signals of the task at a place that are others now, and shows it so.
#[inline(never)]
fn put_task_anew(
    out: &mut Text,
    texts: &mut Texts,
    names: &Names,
    shown: &mut ArrayVec<ShownTask, 64>,
    machine: &PlainMachine,
    index: usize,
)
    requires place { index < 64 }
    requires next { index ≤ length shown.old.items }
    ensures told { Adds (spec.task_told names.now (index + 1)
        (slice_index_or shown.old.items index no_task_shown) (task_of machine.now (as_task (index + 1)))) out.old out.new }
    ensures shown { shown.new.items ≡ take index shown.old.items ++ (task_of machine.now (as_task (index + 1)) ∷ drop (index + 1) shown.old.items) }
{
    let t = Task::from_index(index);
    let old = item_at(shown.as_slice(), index, ShownTask::default());
    let new = shown_task(machine, t);
    put_item(shown, index, new);
    put_task_changes(out, texts, names, t, &old, &new);
}

/// The same. Mostly the task is shown as it is.
#[inline(always)]
#[tactic(auto, using(crate::proofs::Unchanged::no_task_lines, crate::proofs::Alike::item_stays))]
fn put_task_change(
    out: &mut Text,
    texts: &mut Texts,
    names: &Names,
    shown: &mut ArrayVec<ShownTask, 64>,
    machine: &PlainMachine,
    index: usize,
)
    requires place { index < 64 }
    requires next { index ≤ length shown.old.items }
    ensures told { Adds (spec.task_told names.now (index + 1)
        (slice_index_or shown.old.items index no_task_shown) (task_of machine.now (as_task (index + 1)))) out.old out.new }
    ensures shown { shown.new.items ≡ take index shown.old.items ++ (task_of machine.now (as_task (index + 1)) ∷ drop (index + 1) shown.old.items) }
{
    if shows_task(shown.as_slice(), machine, index) {
        return;
    }
    put_task_anew(out, texts, names, shown, machine, index);
}

/// Adds the lines of those signals of tasks that are others now, one task after the other, and shows all as they are.
fn put_tasks_changes(
    out: &mut Text,
    texts: &mut Texts,
    names: &Names,
    shown: &mut ArrayVec<ShownTask, 64>,
    machine: &PlainMachine,
)
    ensures told { Adds (spec.told_of (spec.task_told names.now) no_task_shown shown.old.items (shown_tasks machine.now)) out.old out.new }
    ensures shown { shown.new.items ≡ shown_tasks machine.now }
{
    let count = machine.task_count();
    for index in 0..count {
        put_task_change(out, texts, names, shown, machine, index);
    }
    shown.truncate(count);
}

/// The same, if tasks may be shown in another way after an event.
#[tactic(auto, using(crate::proofs::Unchanged::no_tasks_told))]
fn put_tasks_if(
    moved: bool,
    out: &mut Text,
    texts: &mut Texts,
    names: &Names,
    shown: &mut ArrayVec<ShownTask, 64>,
    machine: &PlainMachine,
)
    ensures told { Adds (spec.told_of (spec.task_told names.now) no_task_shown shown.old.items (if moved then shown_tasks machine.now else shown.old.items)) out.old out.new }
    ensures shown { shown.new.items ≡ (if moved then shown_tasks machine.now else shown.old.items) }
{
    if moved {
        put_tasks_changes(out, texts, names, shown, machine);
    }
}

/// Adds the line of the object of a kind at a place, if its number is another now, and shows it so.
#[inline(always)]
fn put_object_change(
    out: &mut Text,
    numbers: &mut ArrayVec<u64, 32>,
    machine: &PlainMachine,
    resource: Resource,
    index: usize,
)
    requires place { index < 32 }
    requires next { index ≤ length numbers.old.items }
    ensures told { Adds (spec.number_told resource (index + 1)
        (slice_index_or numbers.old.items index 0) (number_of machine.now resource (as_object (index + 1)))) out.old out.new }
    ensures shown { numbers.new.items ≡ take index numbers.old.items ++ (number_of machine.now resource (as_object (index + 1)) ∷ drop (index + 1) numbers.old.items) }
{
    let o = Object::from_index(index);
    let old = item_at(numbers.as_slice(), index, 0);
    let new = number_in(machine, resource, o);
    put_item(numbers, index, new);
    put_number_change(out, signal_of(resource), o.number, old, new);
}

/// Adds the lines of the objects of a kind whose numbers are others now, and shows all as they are.
#[inline(always)]
fn put_numbers_changes(
    out: &mut Text,
    numbers: &mut ArrayVec<u64, 32>,
    machine: &PlainMachine,
    resource: Resource,
)
    ensures told { Adds (spec.told_of (spec.number_told resource) 0 numbers.old.items (shown_numbers machine.now resource)) out.old out.new }
    ensures shown { numbers.new.items ≡ shown_numbers machine.now resource }
{
    let count = count_in(machine, resource);
    for index in 0..count {
        put_object_change(out, numbers, machine, resource, index);
    }
    numbers.truncate(count);
}

/// The same, if the numbers of the objects of this kind may be others after an event.
#[inline(always)]
#[tactic(auto, using(crate::proofs::Unchanged::no_numbers_told))]
fn put_numbers_if(
    moved: bool,
    out: &mut Text,
    numbers: &mut ArrayVec<u64, 32>,
    machine: &PlainMachine,
    resource: Resource,
)
    ensures told { Adds (spec.told_of (spec.number_told resource) 0 numbers.old.items (if moved then shown_numbers machine.now resource else numbers.old.items)) out.old out.new }
    ensures shown { numbers.new.items ≡ (if moved then shown_numbers machine.now resource else numbers.old.items) }
{
    if moved {
        put_numbers_changes(out, numbers, machine, resource);
    }
}

/// Whether tasks may be shown in another way after an event of which this is told.
#[inline(always)]
fn moves_states(report: &Record) -> bool
    ensures { result ≡ waves.moves_states report.now }
{
    moves_tasks(report) || report.run_change.is_some()
}

/// Adds the lines of the numbers of objects that changed, likewise.
#[tactic(auto, unfolding(crate::specs::Changes::objects_changes))]
fn put_objects_changes(
    out: &mut Text,
    report: &Record,
    shown: &mut Snapshot,
    machine: &PlainMachine,
)
    ensures told { Adds (spec.objects_changes shown.old (waves.objects_by shown.old report.now machine.now)) out.old out.new }
    ensures shown { shown.new ≡ waves.objects_by shown.old report.now machine.now }
{
    let sync = moves_sync(report);
    let buffers = moves_buffers(report);
    let locks = moves_locks(report);
    put_numbers_if(
        sync,
        out,
        &mut shown.semaphores,
        machine,
        Resource::Semaphore,
    );
    put_numbers_if(
        sync,
        out,
        &mut shown.eventflags,
        machine,
        Resource::Eventflag,
    );
    put_numbers_if(
        buffers,
        out,
        &mut shown.data_queues,
        machine,
        Resource::DataQueue,
    );
    put_numbers_if(buffers, out, &mut shown.pools, machine, Resource::Pool);
    put_numbers_if(locks, out, &mut shown.holders, machine, Resource::SpinLock);
}

/// Adds the lines of the signals that changed, in the order of their declarations, and shows the machine as it is now. The event of which
/// this is told led there, and what it left is not looked at.
#[tactic(auto, unfolding(crate::specs::Changes::changes_text, crate::specs::Changes::objects_changes))]
pub(crate) fn put_changes(
    out: &mut Text,
    texts: &mut Texts,
    names: &Names,
    report: &Record,
    shown: &mut Snapshot,
    machine: &PlainMachine,
)
    ensures told { Adds (spec.changes_text names.now shown.old (waves.shown_by shown.old report.now machine.now)) out.old out.new }
    ensures shown { shown.new ≡ waves.shown_by shown.old report.now machine.now }
{
    let states = moves_states(report);
    put_processors_changes(out, texts, names, &mut shown.processors, machine);
    put_tasks_if(states, out, texts, names, &mut shown.tasks, machine);
    put_objects_changes(out, report, shown, machine);
}
