//! The value of each signal.
ghost use Rattle.std.specs.Prelude.{◌≡◌, ◌+◌, ◌<◌, length, IsTrue, MatchOption};
ghost use Rattle.fmp_out.specs.Putting.{Adds};
ghost use Rattle.fmp_codes.specs.Numbers.{task_number};
ghost use Rattle.fmp_rules.specs.Objects.{eventflag, free_blocks, holder, pool, semaphore, values};
ghost use Rattle.fmp_rules.specs.World.{processor};
ghost use Rattle.fmp_run_view.specs.Signals as signals;
ghost use Rattle.fmp_run_view.specs.Values as spec;

use crate::player::Player;
use crate::signal::Signal;
use crate::value::{Value, has_due_text_of, put_due, put_value};
use fmp_codes::{Object, Proc, Task};
use fmp_out::Text;
use fmp_plain_machine::PlainMachine;
use fmp_rules::Processor;
use fmp_step_words::{Objects, Words};

/// The number of a processor, or 0.
fn proc_number(p: Option<Proc>) -> u64
    ensures { result ≡ spec.proc_number p }
{
    match p {
        None => 0,
        Some(p) => u64::from(p.number),
    }
}

/// The value of a processor's flags.
#[inline(always)]
fn flags_value(processor: Processor) -> Value
    ensures { result ≡ spec.flags_of processor }
{
    Value::Flags(processor.locked, processor.disabled, processor.latch)
}

/// The number of the task that runs on a processor, or 0.
#[inline(always)]
fn running_number(machine: &PlainMachine, p: Proc) -> u64
    ensures { result ≡ (task_number (processor machine.now p).running) }
{
    u64::from(Task::number_of(machine.processor(p).running))
}

/// The count of a semaphore.
#[inline(always)]
fn semaphore_number(machine: &PlainMachine, s: Object) -> u64
    ensures { result ≡ (semaphore machine.now s).count }
{
    u64::from(machine.semaphore(s).count)
}

/// The pattern of an eventflag.
#[inline(always)]
fn eventflag_number(machine: &PlainMachine, f: Object) -> u64
    ensures { result ≡ (eventflag machine.now f).pattern }
{
    u64::from(machine.eventflag(f).pattern)
}

/// How many values there are in a data queue.
#[inline(always)]
fn data_queue_number(machine: &PlainMachine, d: Object) -> u64
    ensures { result ≡ (length (values machine.now d)) }
{
    machine.value_count(d) as u64
}

/// How many blocks of a pool are free.
#[inline(always)]
fn pool_number(machine: &PlainMachine, m: Object) -> u64
    ensures { result ≡ free_blocks (pool machine.now m) }
{
    machine.pool(m).free_blocks()
}

/// The number of the processor that holds a spin lock, or 0.
#[inline(always)]
fn spin_lock_number(machine: &PlainMachine, l: Object) -> u64
    ensures { result ≡ (spec.proc_number (holder machine.now l)) }
{
    proc_number(machine.holder(l))
}

impl Player {
    /// The value of a signal at a place, but for the due handlers, which are a list.
    fn value(&self, signal: Signal, index: usize) -> Option<Value>
        requires { index < signals.most signal }
        ensures { MatchOption result (signal ≡ Signal.Due) (λ v. spec.text_of v ≡ spec.value_text self.now signal index) }
    {
        let machine = self.machine();
        Some(match signal {
            Signal::Due => return None,
            Signal::Running => Value::Number(running_number(machine, Proc::from_index(index))),
            Signal::Flags => flags_value(machine.processor(Proc::from_index(index))),
            Signal::State => self.state_value(Task::from_index(index)),
            Signal::Place => Value::Number(machine.ready_number(Task::from_index(index))),
            Signal::Rest => self.rest_value(Task::from_index(index)),
            Signal::Semaphore => Value::Number(semaphore_number(
                machine,
                Object::from_index(index),
            )),
            Signal::Eventflag => Value::Number(eventflag_number(
                machine,
                Object::from_index(index),
            )),
            Signal::DataQueue => Value::Number(data_queue_number(
                machine,
                Object::from_index(index),
            )),
            Signal::Pool => Value::Number(pool_number(machine, Object::from_index(index))),
            Signal::Cyclic => self.cyclic_value(Object::from_index(index)),
            Signal::Alarm => self.alarm_value(Object::from_index(index)),
            Signal::SpinLock => Value::Number(spin_lock_number(machine, Object::from_index(index))),
        })
    }

    /// Whether the objects of a signal at a place have the same value.
    #[inline(always)]
    fn has_object_of(&self, other: &Player, signal: Signal, index: usize) -> bool
        requires { index < signals.most signal }
        ensures { IsTrue result → spec.value_text self.now signal index ≡ spec.value_text other.now signal index }
    {
        let one = self.machine();
        let two = other.machine();
        if index >= 32 {
            return false;
        }
        let o = Object::from_index(index);
        match signal {
            Signal::Semaphore => semaphore_number(one, o) == semaphore_number(two, o),
            Signal::Eventflag => eventflag_number(one, o) == eventflag_number(two, o),
            Signal::DataQueue => data_queue_number(one, o) == data_queue_number(two, o),
            Signal::Pool => pool_number(one, o) == pool_number(two, o),
            Signal::Cyclic => self.cyclic_value(o).has_text_of(other.cyclic_value(o)),
            Signal::Alarm => self.alarm_value(o).has_text_of(other.alarm_value(o)),
            Signal::SpinLock => spin_lock_number(one, o) == spin_lock_number(two, o),
            _ => false,
        }
    }

    /// Whether a signal has the same value at a place of another one, as far as that is quickly seen. Then it has the same text.
    #[inline(always)]
    pub(crate) fn shows_as(&self, other: &Player, signal: Signal, index: usize) -> bool
        requires { index < signals.most signal }
        ensures { IsTrue result → spec.value_text self.now signal index ≡ spec.value_text other.now signal index }
    {
        let one = self.machine();
        let two = other.machine();
        match signal {
            Signal::Due => {
                let p = Proc::from_index(index);
                has_due_text_of(one.due(p), two.due(p))
            }
            Signal::Running => {
                let p = Proc::from_index(index);
                running_number(one, p) == running_number(two, p)
            }
            Signal::Flags => {
                let p = Proc::from_index(index);
                flags_value(one.processor(p)).has_text_of(flags_value(two.processor(p)))
            }
            Signal::State => {
                let t = Task::from_index(index);
                self.state_value(t).has_text_of(other.state_value(t))
            }
            Signal::Place => {
                let t = Task::from_index(index);
                one.ready_number(t) == two.ready_number(t)
            }
            Signal::Rest => {
                let t = Task::from_index(index);
                self.rest_value(t).has_text_of(other.rest_value(t))
            }
            _ => self.has_object_of(other, signal, index),
        }
    }

    /// Adds the text of the value of a signal at a place.
    pub(crate) fn put_text(&self, out: &mut Text, signal: Signal, index: usize)
        requires { index < signals.most signal }
        ensures { Adds (spec.value_text self.now signal index) out.old out.new }
    {
        match self.value(signal, index) {
            Some(value) => put_value(out, value),
            None => put_due(out, self.machine().due(Proc::from_index(index))),
        }
    }
}
