//! Whether what is asked is so of a machine.
ghost use Rattle.std.specs.Prelude.{◌≡◌, ◌<◌, ◌≤◌, ◌+◌, List, None};
ghost use Rattle.std.specs.List.{list_all};
ghost use Rattle.fmp_rules.specs.Ordering.{is_runnable};
ghost use Rattle.fmp_rules.specs.World.{item, processor, task};
ghost use Rattle.fmp_show_facts.specs.Facts as spec;
ghost use Rattle.fmp_show_facts.specs.Facts.{most_of};

use fmp_codes::{Object, ObjectKind, Proc, Runner, Task};
use fmp_facts::{Asked, Fact, Key, Kind, Subject, Thing, WaitKind};
use fmp_rules::{Processor, TaskRecord, Wait};
use fmp_step_words::Views;

/// Whether this task is the one that runs.
fn is_running(running: Option<Task>, t: Task) -> bool
    ensures { result ≡ spec.is_running running t }
{
    match running {
        None => false,
        Some(other) => t.number == other.number,
    }
}

/// Whether these are the same handler.
fn is_handler(one: Runner, other: Runner) -> bool
    ensures { result ≡ spec.is_handler one other }
{
    match (one, other) {
        (Runner::Alarm(one), Runner::Alarm(other)) => one.number == other.number,
        (Runner::Cyclic(one), Runner::Cyclic(other)) => one.number == other.number,
        _ => false,
    }
}

/// Whether a wait is of this kind.
fn is_wait(kind: WaitKind, wait: Wait) -> bool
    ensures { result ≡ spec.is_wait kind wait }
{
    match (kind, wait) {
        (WaitKind::Sleep, Wait::Sleep) => true,
        (WaitKind::Delay, Wait::Delay) => true,
        (WaitKind::Semaphore, Wait::Semaphore(_)) => true,
        (WaitKind::Eventflag, Wait::Eventflag(_, _, _)) => true,
        (WaitKind::Send, Wait::Send(_, _)) => true,
        (WaitKind::Receive, Wait::Receive(_)) => true,
        (WaitKind::Pool, Wait::Pool(_)) => true,
        _ => false,
    }
}

/// Whether a wait is for this object.
fn is_wait_at(kind: ObjectKind, o: Object, wait: Wait) -> bool
    ensures { result ≡ spec.is_wait_at kind o wait }
{
    match (kind, wait) {
        (ObjectKind::Semaphore, Wait::Semaphore(s)) => s.number == o.number,
        (ObjectKind::Eventflag, Wait::Eventflag(f, _, _)) => f.number == o.number,
        (ObjectKind::DataQueue, Wait::Send(d, _)) => d.number == o.number,
        (ObjectKind::DataQueue, Wait::Receive(d)) => d.number == o.number,
        (ObjectKind::Pool, Wait::Pool(m)) => m.number == o.number,
        _ => false,
    }
}

/// Whether a task waits, and its wait is of this kind.
fn waits_for(kind: WaitKind, wait: Option<Wait>) -> bool
    ensures { result ≡ spec.waits_so (spec.is_wait kind) wait }
{
    match wait {
        None => false,
        Some(wait) => is_wait(kind, wait),
    }
}

/// Whether a task waits, and its wait is for this object.
fn waits_at(kind: ObjectKind, o: Object, wait: Option<Wait>) -> bool
    ensures { result ≡ spec.waits_so (spec.is_wait_at kind o) wait }
{
    match wait {
        None => false,
        Some(wait) => is_wait_at(kind, o, wait),
    }
}

/// Whether there are so many ticks left.
fn is_left(left: Option<u64>, ticks: u64) -> bool
    ensures { result ≡ spec.is_left left ticks }
{
    match left {
        None => false,
        Some(left) => left == ticks,
    }
}

/// Whether this processor holds a spin lock.
fn is_holder(holder: Option<Proc>, p: Proc) -> bool
    ensures { result ≡ spec.is_holder holder p }
{
    match holder {
        None => false,
        Some(holder) => holder.number == p.number,
    }
}

/// Whether the processor of a task runs it.
fn runs<M: Views>(machine: &M, t: Task) -> bool
    ensures { result ≡ spec.runs (M.world machine.now) t }
{
    is_running(machine.processor(machine.task(t).assigned).running, t)
}

/// Whether a task is ready, or runs.
fn is_runnable(task: &TaskRecord) -> bool
    ensures { result ≡ is_runnable task.now }
{
    task.active && !task.wait.is_some() && !task.suspended
}

/// Whether a task could run, and does not.
fn is_ready<M: Views>(machine: &M, t: Task) -> bool
    ensures { result ≡ spec.is_ready (M.world machine.now) t }
{
    is_runnable(&machine.task(t)) && !runs(machine, t)
}

/// Whether a task that could run and does not is on this processor.
fn has_ready<M: Views>(machine: &M, p: Proc, t: Task) -> bool
    ensures { result ≡ spec.is_ready_on (M.world machine.now) p t }
{
    machine.task(t).assigned.number == p.number && is_ready(machine, t)
}

/// Whether some task is ready on this processor, and does not run.
fn has_some_ready<M: Views>(machine: &M, p: Proc) -> bool
    ensures { result ≡ spec.some_ready_on (M.world machine.now) p }
{
    for index in 0..machine.task_count() {
        if has_ready(machine, p, Task::from_index(index)) {
            return true;
        }
    }
    false
}

/// Whether a handler is due on this processor.
fn is_due_on<M: Views>(machine: &M, handler: Runner, p: Proc) -> bool
    ensures { result ≡ spec.is_due_on (M.world machine.now) handler p }
{
    let due = machine.due(p);
    due.iter().any(|other| is_handler(handler, *other))
}

/// Whether a handler is due.
fn is_due<M: Views>(machine: &M, handler: Runner) -> bool
    ensures { result ≡ spec.is_due (M.world machine.now) handler }
{
    let mut due = false;
    for index in 0..machine.processor_count() {
        due = due || is_due_on(machine, handler, Proc::from_index(index));
    }
    due
}

/// Whether a fact is so of a processor.
fn processor_is<M: Views>(machine: &M, p: Proc, fact: Fact) -> bool
    ensures { result ≡ spec.processor_is (M.world machine.now) p fact }
{
    match fact {
        Fact::Runs(t) => is_running(machine.processor(p).running, t),
        Fact::RunsNone => machine.processor(p).running.is_none(),
        Fact::HasReady(t) => has_ready(machine, p, t),
        Fact::Locked => machine.processor(p).locked,
        Fact::Disabled => machine.processor(p).disabled,
        Fact::Latched => machine.processor(p).latch,
        Fact::HasDue(handler) => is_due_on(machine, handler, p),
        Fact::Has(Key::Run) => true,
        Fact::Has(Key::Ready) => has_some_ready(machine, p),
        Fact::Has(Key::Due) => !machine.due(p).is_empty(),
        _ => false,
    }
}

/// Whether a fact is so of a task.
fn task_is<M: Views>(machine: &M, t: Task, fact: Fact) -> bool
    ensures { result ≡ spec.task_is (M.world machine.now) t fact }
{
    match fact {
        Fact::Dormant => !machine.task(t).active,
        Fact::Running => runs(machine, t),
        Fact::Ready => is_ready(machine, t),
        Fact::On(p) => machine.task(t).assigned.number == p.number,
        Fact::Suspended => machine.task(t).suspended,
        Fact::Waits => machine.task(t).wait.is_some(),
        Fact::WaitsFor(kind) => waits_for(kind, machine.task(t).wait),
        Fact::WaitsAt(kind, o) => waits_at(kind, o, machine.task(t).wait),
        Fact::Left(ticks) => is_left(machine.wait_left(t), ticks),
        Fact::Priority(n) => {
            let task = machine.task(t);
            task.active && u64::from(task.priority.number) == n
        }
        Fact::Activations(n) => {
            let task = machine.task(t);
            task.active && u64::from(task.activations) == n
        }
        Fact::Wakeups(n) => {
            let task = machine.task(t);
            task.active && u64::from(task.wakeups) == n
        }
        Fact::Has(Key::Left) => machine.wait_left(t).is_some(),
        Fact::Has(Key::Priority | Key::Activations | Key::Wakeups) => machine.task(t).active,
        _ => false,
    }
}

/// Whether a fact is so of a semaphore.
fn semaphore_is<M: Views>(machine: &M, s: Object, fact: Fact) -> bool
    ensures { result ≡ spec.semaphore_is (M.world machine.now) s fact }
{
    match fact {
        Fact::Count(n) => u64::from(machine.semaphore(s).count) == n,
        Fact::Has(Key::Count) => true,
        _ => false,
    }
}

/// Whether a fact is so of an eventflag.
fn eventflag_is<M: Views>(machine: &M, f: Object, fact: Fact) -> bool
    ensures { result ≡ spec.eventflag_is (M.world machine.now) f fact }
{
    match fact {
        Fact::Pattern(n) => u64::from(machine.eventflag(f).pattern) == n,
        Fact::Has(Key::Pattern) => true,
        _ => false,
    }
}

/// Whether there is a value, and it is this one.
fn is_value(value: i64, found: Option<i64>) -> bool
    ensures { result ≡ spec.is_value value found }
{
    match found {
        None => false,
        Some(found) => value == found,
    }
}

/// Whether a data queue has this value, among others.
fn has_value<M: Views>(machine: &M, d: Object, value: i64) -> bool
    ensures { let w = M.world machine.now in result ≡ spec.queue_is w d (Fact.HasValue value) }
{
    for index in 0..machine.value_count(d) {
        if is_value(value, machine.value(d, index)) {
            return true;
        }
    }
    false
}

/// Whether a fact is so of a data queue.
fn queue_is<M: Views>(machine: &M, d: Object, fact: Fact) -> bool
    ensures { result ≡ spec.queue_is (M.world machine.now) d fact }
{
    match fact {
        Fact::Empty => machine.value_count(d) == 0,
        Fact::HasValue(value) => has_value(machine, d, value),
        Fact::Has(Key::Values) => machine.value_count(d) != 0,
        _ => false,
    }
}

/// Whether a fact is so of a pool.
fn pool_is<M: Views>(machine: &M, m: Object, fact: Fact) -> bool
    ensures { result ≡ spec.pool_is (M.world machine.now) m fact }
{
    match fact {
        Fact::FreeBlocks(n) => machine.pool(m).free_blocks() == n,
        Fact::Has(Key::FreeBlocks) => true,
        _ => false,
    }
}

/// Whether a fact is so of a handler with so many ticks left.
fn handler_is<M: Views>(machine: &M, handler: Runner, left: Option<u64>, fact: Fact) -> bool
    ensures { let w = M.world machine.now in result ≡ spec.handler_is w left (spec.is_due w handler) fact }
{
    match fact {
        Fact::Stopped => left.is_none(),
        Fact::Left(ticks) => is_left(left, ticks),
        Fact::Due => is_due(machine, handler),
        Fact::Has(Key::Left) => left.is_some(),
        _ => false,
    }
}

/// Whether a fact is so of a spin lock.
fn lock_is<M: Views>(machine: &M, l: Object, fact: Fact) -> bool
    ensures { result ≡ spec.lock_is (M.world machine.now) l fact }
{
    match fact {
        Fact::Free => machine.holder(l).is_none(),
        Fact::HeldBy(p) => is_holder(machine.holder(l), p),
        Fact::Has(Key::Held) => machine.holder(l).is_some(),
        _ => false,
    }
}

/// Whether a fact is so of a thing.
fn thing_is<M: Views>(machine: &M, thing: Thing, fact: Fact) -> bool
    ensures { result ≡ spec.thing_is (M.world machine.now) thing fact }
{
    match thing {
        Thing::Processor(p) => processor_is(machine, p, fact),
        Thing::Task(t) => task_is(machine, t, fact),
        Thing::Semaphore(s) => semaphore_is(machine, s, fact),
        Thing::Eventflag(f) => eventflag_is(machine, f, fact),
        Thing::DataQueue(d) => queue_is(machine, d, fact),
        Thing::Pool(m) => pool_is(machine, m, fact),
        Thing::Cyclic(c) => handler_is(machine, Runner::Cyclic(c), machine.cyclic_left(c), fact),
        Thing::Alarm(a) => handler_is(machine, Runner::Alarm(a), machine.alarm_left(a), fact),
        Thing::SpinLock(l) => lock_is(machine, l, fact),
    }
}

/// Whether all of these facts are so of a thing.
fn has_all<M: Views>(machine: &M, facts: &[Fact], thing: Thing) -> bool
    ensures { result ≡ spec.has_all (M.world machine.now) facts.now thing }
{
    for fact in facts {
        if !thing_is(machine, thing, *fact) {
            return false;
        }
    }
    true
}

/// How many things of a kind there are.
fn count_of<M: Views>(machine: &M, kind: Kind) -> usize
    ensures value { result ≡ spec.count_of (M.world machine.now) kind }
    ensures few { result ≤ most_of kind }
{
    match kind {
        Kind::Processor => machine.processor_count(),
        Kind::Task => machine.task_count(),
        Kind::Semaphore => machine.semaphore_count(),
        Kind::Eventflag => machine.eventflag_count(),
        Kind::DataQueue => machine.data_queue_count(),
        Kind::Pool => machine.pool_count(),
        Kind::Cyclic => machine.cyclic_count(),
        Kind::Alarm => machine.alarm_count(),
        Kind::SpinLock => machine.spin_lock_count(),
    }
}

/// The thing of a kind at a place in a list of all of them.
fn thing_at(kind: Kind, index: usize) -> Thing
    requires { index < most_of kind }
    ensures { result ≡ spec.thing_of kind (index + 1) }
{
    match kind {
        Kind::Processor => Thing::Processor(Proc::from_index(index)),
        Kind::Task => Thing::Task(Task::from_index(index)),
        Kind::Semaphore => Thing::Semaphore(Object::from_index(index)),
        Kind::Eventflag => Thing::Eventflag(Object::from_index(index)),
        Kind::DataQueue => Thing::DataQueue(Object::from_index(index)),
        Kind::Pool => Thing::Pool(Object::from_index(index)),
        Kind::Cyclic => Thing::Cyclic(Object::from_index(index)),
        Kind::Alarm => Thing::Alarm(Object::from_index(index)),
        Kind::SpinLock => Thing::SpinLock(Object::from_index(index)),
    }
}

/// Whether all of these facts are so of some thing of a kind.
fn some_has_all<M: Views>(machine: &M, facts: &[Fact], kind: Kind) -> bool
    ensures { let w = M.world machine.now in result ≡ spec.some_has_all w facts.now kind (spec.count_of w kind) }
{
    for index in 0..count_of(machine, kind) {
        if has_all(machine, facts, thing_at(kind, index)) {
            return true;
        }
    }
    false
}

/// Whether what is asked is so of a machine.
#[tactic(auto, unfolding(crate::specs::Facts::is_so))]
pub fn is_so<M: Views>(machine: &M, asked: &Asked) -> bool
    ensures { result ≡ spec.is_so (M.world machine.now) asked.now }
{
    match asked.subject() {
        Subject::One(thing) => has_all(machine, asked.facts(), thing),
        Subject::Any(kind) => some_has_all(machine, asked.facts(), kind),
    }
}
