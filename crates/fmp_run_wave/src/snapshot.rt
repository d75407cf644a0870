//! What a waveform shows of a state.
ghost use Rattle.std.specs.Prelude.{◌≡◌, ◌<◌, ◌≤◌, ◌+◌, ◌∷◌, ◌++◌, IsTrue, drop, length, slice_index_or, take};
ghost use Rattle.fmp_codes.specs.Numbers.{as_proc, as_task};
ghost use Rattle.fmp_run_wave.specs.Shown as spec;

use crate::resource::{Resource, count_in, number_in};
use arrayvec::ArrayVec;
use fmp_codes::{Object, Proc, Runner, Task};
use fmp_kernel_same::Same;
use fmp_plain_machine::PlainMachine;
use fmp_rules::{TaskRecord, TaskState, Wait};
use fmp_step_words::Words;
use std::marker::Model;

/// What is shown of a processor.
#[derive(Clone, Copy)]
pub struct ShownProcessor {
    pub running: Option<Task>,
    pub locked: bool,
    pub disabled: bool,
    /// A request to it is pending.
    pub latch: bool,
    /// The handler that is due, and runs there.
    pub due: Option<Runner>,
}

impl Default for ShownProcessor {
    ghost use Rattle.std.specs.Prelude.{◌≡◌};
    ghost use Rattle.fmp_run_wave.specs.Shown.{nothing_shown};

    /// What stands where there is no processor.
    fn default() -> Self
        ensures { result ≡ nothing_shown }
    {
        ShownProcessor {
            running: None,
            locked: false,
            disabled: false,
            latch: false,
            due: None,
        }
    }
}

/// The numbers of a task.
#[derive(Clone, Copy)]
pub struct TaskNumbers {
    pub priority: u8,
    /// How many activations are queued.
    pub activations: u8,
    /// How many wakeups are queued.
    pub wakeups: u16,
}

impl Default for TaskNumbers {
    ghost use Rattle.std.specs.Prelude.{◌≡◌};
    ghost use Rattle.fmp_run_wave.specs.Shown.{no_numbers};

    /// What stands where there is no task, or a dormant one.
    fn default() -> Self
        ensures { result ≡ no_numbers }
    {
        TaskNumbers {
            priority: 0,
            activations: 0,
            wakeups: 0,
        }
    }
}

/// What is shown of a task: its state, what it waits for, and its numbers.
#[derive(Clone, Copy)]
pub struct ShownTask {
    pub state: TaskState,
    pub wait: Option<Wait>,
    pub numbers: TaskNumbers,
}

impl Default for ShownTask {
    ghost use Rattle.std.specs.Prelude.{◌≡◌};
    ghost use Rattle.fmp_run_wave.specs.Shown.{no_task_shown};

    /// What stands where there is no task: it is dormant.
    fn default() -> Self
        ensures { result ≡ no_task_shown }
    {
        ShownTask {
            state: TaskState::Dormant,
            wait: None,
            numbers: TaskNumbers::default(),
        }
    }
}

/// What is shown of a state. Each event renews in place what it may have changed, and only what is another then is written.
#[derive(Drop)]
pub(crate) struct Snapshot {
    pub(crate) processors: ArrayVec<ShownProcessor, 8>,
    pub(crate) tasks: ArrayVec<ShownTask, 64>,
    /// The numbers of the objects of each kind.
    pub(crate) semaphores: ArrayVec<u64, 32>,
    pub(crate) eventflags: ArrayVec<u64, 32>,
    pub(crate) data_queues: ArrayVec<u64, 32>,
    pub(crate) pools: ArrayVec<u64, 32>,
    pub(crate) holders: ArrayVec<u64, 32>,
}

impl Model for Snapshot {
    ghost use Rattle.fmp_run_wave.specs.Shown.{Shown};

    ghost Value = { Shown };

    ghost view = { λ a. record {
      processors = a.processors.items;
      tasks = a.tasks.items;
      semaphores = a.semaphores.items;
      eventflags = a.eventflags.items;
      data_queues = a.data_queues.items;
      pools = a.pools.items;
      holders = a.holders.items;
    } };
}

/// The item at a place, or else the default one.
#[inline(always)]
pub(crate) fn item_at<T: Copy + Drop>(items: &[T], index: usize, or: T) -> T
    ensures { result ≡ slice_index_or items.now index or }
{
    items.get(index).copied().unwrap_or(or)
}

/// Makes the item at a place this one, where each place before it has one.
#[inline(always)]
#[tactic(auto, using(crate::proofs::Alike::item_put))]
pub(crate) fn put_item<T: Copy + Default + Drop, const N: usize>(
    list: &mut ArrayVec<T, N>,
    index: usize,
    item: T,
)
    requires place { index < N }
    requires next { index ≤ length list.old.items }
    ensures { list.new.items ≡ take index list.old.items ++ (item ∷ drop (index + 1) list.old.items) }
{
    if let Some(place) = list.get_mut(index) {
        *place = item;
        return;
    }
    list.push(item);
}

/// What is shown of a processor.
#[inline(always)]
pub(crate) fn shown_processor(machine: &PlainMachine, p: Proc) -> ShownProcessor
    ensures { result ≡ spec.shown_processor machine.now p }
{
    let processor = machine.processor(p);
    ShownProcessor {
        running: processor.running,
        locked: processor.locked,
        disabled: processor.disabled,
        latch: processor.latch,
        due: machine.handler(p),
    }
}

/// The numbers of a task.
#[inline(always)]
fn task_numbers(x: TaskRecord) -> TaskNumbers
    ensures { result ≡ spec.task_numbers x }
{
    if !x.active {
        return TaskNumbers::default();
    }
    TaskNumbers {
        priority: x.priority.number,
        activations: x.activations,
        wakeups: x.wakeups,
    }
}

/// What is shown of a task.
#[inline(always)]
pub(crate) fn shown_task(machine: &PlainMachine, t: Task) -> ShownTask
    ensures { result ≡ spec.shown_task machine.now t }
{
    let task = machine.task(t);
    let running = machine.processor(task.assigned).running;
    ShownTask {
        state: TaskState::of(t, &task, running),
        wait: task.wait,
        numbers: task_numbers(task),
    }
}

/// What is shown of all processors.
fn shown_processors(machine: &PlainMachine) -> ArrayVec<ShownProcessor, 8>
    ensures { result.items ≡ spec.shown_processors machine.now }
{
    let mut shown = ArrayVec::new();
    for index in 0..machine.processor_count() {
        shown.push(shown_processor(machine, Proc::from_index(index)));
    }
    shown
}

/// What is shown of all tasks.
fn shown_tasks(machine: &PlainMachine) -> ArrayVec<ShownTask, 64>
    ensures { result.items ≡ spec.shown_tasks machine.now }
{
    let mut shown = ArrayVec::new();
    for index in 0..machine.task_count() {
        shown.push(shown_task(machine, Task::from_index(index)));
    }
    shown
}

/// The numbers of the objects of a kind.
fn shown_numbers(machine: &PlainMachine, resource: Resource) -> ArrayVec<u64, 32>
    ensures { result.items ≡ spec.shown_numbers machine.now resource }
{
    let mut shown = ArrayVec::new();
    for index in 0..count_in(machine, resource) {
        shown.push(number_in(machine, resource, Object::from_index(index)));
    }
    shown
}

/// Whether the same task runs, or none.
#[inline(always)]
#[tactic(auto, using(crate::proofs::Equal::same_running))]
fn is_same_running(a: Option<Task>, b: Option<Task>) -> bool
    ensures { IsTrue result → a ≡ b }
{
    Task::number_of(a) == Task::number_of(b)
}

/// Whether two are the same task or handler.
#[inline(always)]
#[tactic(auto, using(crate::proofs::Equal::same_task, crate::proofs::Equal::same_alarm, crate::proofs::Equal::same_cyclic))]
fn is_same_runner(a: Runner, b: Runner) -> bool
    ensures { IsTrue result → a ≡ b }
{
    match (a, b) {
        (Runner::Task(t), Runner::Task(u)) => t.number == u.number,
        (Runner::Alarm(x), Runner::Alarm(y)) => x.number == y.number,
        (Runner::Cyclic(x), Runner::Cyclic(y)) => x.number == y.number,
        _ => false,
    }
}

/// Whether the same handler is due, or none.
#[inline(always)]
fn is_same_due(a: Option<Runner>, b: Option<Runner>) -> bool
    ensures { IsTrue result → a ≡ b }
{
    match (a, b) {
        (None, None) => true,
        (Some(x), Some(y)) => is_same_runner(x, y),
        (None, Some(_)) | (Some(_), None) => false,
    }
}

/// Whether the same is shown of two processors.
#[inline(always)]
#[tactic(auto, using(crate::proofs::Equal::same_shown_processor))]
fn is_same_shown(a: ShownProcessor, b: ShownProcessor) -> bool
    ensures { IsTrue result → a ≡ b }
{
    let flags = (a.locked == b.locked) & (a.disabled == b.disabled) & (a.latch == b.latch);
    flags && is_same_running(a.running, b.running) && is_same_due(a.due, b.due)
}

/// Whether two tasks have the same numbers.
#[inline(always)]
#[tactic(auto, using(crate::proofs::Equal::same_task_numbers))]
fn is_same_numbers(a: TaskNumbers, b: TaskNumbers) -> bool
    ensures { IsTrue result → a ≡ b }
{
    a.priority == b.priority && a.activations == b.activations && a.wakeups == b.wakeups
}

/// Whether the same is shown of two tasks.
#[inline(always)]
#[tactic(auto, using(crate::proofs::Equal::same_shown_task))]
fn is_same_task(a: &ShownTask, b: &ShownTask) -> bool
    ensures { IsTrue result → a.now ≡ b.now }
{
    a.state == b.state && is_same_numbers(a.numbers, b.numbers) && a.wait.is_same(&b.wait)
}

/// Whether the processor at a place is shown as it is.
#[inline(always)]
pub(crate) fn shows_processor(
    shown: &[ShownProcessor],
    machine: &PlainMachine,
    index: usize,
) -> bool
    requires { index < 8 }
    ensures inside { IsTrue result → index < length shown.now }
    ensures same { IsTrue result → slice_index_or shown.now index spec.nothing_shown ≡ spec.shown_processor machine.now (as_proc (index + 1)) }
{
    match shown.get(index) {
        None => false,
        Some(was) => is_same_shown(*was, shown_processor(machine, Proc::from_index(index))),
    }
}

/// Whether the task at a place is shown as it is.
#[inline(always)]
pub(crate) fn shows_task(shown: &[ShownTask], machine: &PlainMachine, index: usize) -> bool
    requires { index < 64 }
    ensures inside { IsTrue result → index < length shown.now }
    ensures same { IsTrue result → slice_index_or shown.now index spec.no_task_shown ≡ spec.shown_task machine.now (as_task (index + 1)) }
{
    match shown.get(index) {
        None => false,
        Some(was) => is_same_task(was, &shown_task(machine, Task::from_index(index))),
    }
}

impl Snapshot {
    /// What is shown of a machine's state.
    pub(crate) fn of(machine: &PlainMachine) -> Snapshot
        ensures { result ≡ spec.shown_of machine.now }
    {
        Snapshot {
            processors: shown_processors(machine),
            tasks: shown_tasks(machine),
            semaphores: shown_numbers(machine, Resource::Semaphore),
            eventflags: shown_numbers(machine, Resource::Eventflag),
            data_queues: shown_numbers(machine, Resource::DataQueue),
            pools: shown_numbers(machine, Resource::Pool),
            holders: shown_numbers(machine, Resource::SpinLock),
        }
    }

    /// How many processors there are.
    pub(crate) fn processor_count(&self) -> usize
        ensures value { result ≡ length self.now.processors }
        ensures few { result ≤ 8 }
    {
        self.processors.len()
    }

    /// How many tasks there are.
    pub(crate) fn task_count(&self) -> usize
        ensures value { result ≡ length self.now.tasks }
        ensures few { result ≤ 64 }
    {
        self.tasks.len()
    }

    /// What is shown of a processor: nothing where there is none.
    #[inline(always)]
    pub(crate) fn processor(&self, p: Proc) -> ShownProcessor
        ensures { result ≡ spec.on_processor self.now p }
    {
        self.processors
            .as_slice()
            .get(p.index())
            .copied()
            .unwrap_or(ShownProcessor::default())
    }

    /// What is shown of a task: where there is none it is dormant.
    pub(crate) fn task(&self, t: Task) -> ShownTask
        ensures { result ≡ spec.on_task self.now t }
    {
        item_at(self.tasks.as_slice(), t.index(), ShownTask::default())
    }

    /// The numbers of the objects of a kind.
    #[inline(always)]
    fn numbers(&self, resource: Resource) -> &[u64]
        ensures value { result.now ≡ spec.numbers_of self.now resource }
        ensures few { length result.now ≤ 32 }
    {
        match resource {
            Resource::Semaphore => self.semaphores.as_slice(),
            Resource::Eventflag => self.eventflags.as_slice(),
            Resource::DataQueue => self.data_queues.as_slice(),
            Resource::Pool => self.pools.as_slice(),
            Resource::SpinLock => self.holders.as_slice(),
        }
    }

    /// How many objects of a kind there are.
    #[inline(always)]
    pub(crate) fn number_count(&self, resource: Resource) -> usize
        ensures value { result ≡ length (spec.numbers_of self.now resource) }
        ensures few { result ≤ 32 }
    {
        self.numbers(resource).len()
    }

    /// The number of an object: 0 where there is none.
    #[inline(always)]
    pub(crate) fn number(&self, resource: Resource, o: Object) -> u64
        ensures { result ≡ spec.number_at self.now resource o }
    {
        self.numbers(resource).get(o.index()).copied().unwrap_or(0)
    }
}
