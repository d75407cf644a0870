//! What the arguments of calls name.
ghost use Rattle.std.specs.Prelude.{◌≡◌, ◌≤◌, Option, Some, Ok, Err, option_map, if◌then◌else◌};
ghost use Rattle.fmp_codes.specs.Numbers.{as_object};
ghost use Rattle.fmp_codes.specs.declared.codes.Code.TheVariants as code;
ghost use Rattle.fmp_rules.specs.Arguments as spec;
ghost use Rattle.fmp_rules.specs.Outcomes.{known_or_error};

use crate::objects::Objects;
use crate::words::Words;
use fmp_codes::{Code, Object, Pri, Proc, Task};
use fmp_rules::{Class, Limits};

/// The number that an argument is, where there are so many.
fn number_within(count: usize, id: i32) -> Option<u8>
    requires { count ≤ 64 }
    ensures { result ≡ spec.number_within count id }
{
    if 1 <= id && id as i64 <= count as i64 {
        Some(id as u8)
    } else {
        None
    }
}

/// The task that an argument names.
pub fn find_task<M: Words>(machine: &M, id: i32) -> Option<Task>
    ensures { result ≡ spec.task_named (M.world machine.now) id }
{
    number_within(machine.task_count(), id).map(Task::new)
}

/// The task that an argument names, where 0 is the caller.
pub fn find_task_or_caller<M: Words>(machine: &M, p: Proc, id: i32) -> Option<Task>
    ensures { result ≡ spec.task_or_caller (M.world machine.now) p id }
{
    if id == 0 {
        machine.processor(p).running
    } else {
        find_task(machine, id)
    }
}

/// The task that an argument names, or else the error of an ID.
pub fn task_named<M: Words>(machine: &M, id: i32) -> Result<Task, Code>
    ensures { result ≡ known_or_error (spec.task_named (M.world machine.now) id) }
{
    find_task(machine, id).ok_or(Code::Identifier)
}

/// The task that an argument names, where 0 is the caller, or else the error of an ID.
pub fn task_or_caller<M: Words>(machine: &M, p: Proc, id: i32) -> Result<Task, Code>
    ensures { result ≡ known_or_error (spec.task_or_caller (M.world machine.now) p id) }
{
    find_task_or_caller(machine, p, id).ok_or(Code::Identifier)
}

/// Whether this task was named and calls from the processor.
pub fn is_caller<M: Words>(machine: &M, p: Proc, named: Option<Task>) -> bool
    ensures { result ≡ spec.is_caller (M.world machine.now) p named }
{
    match (named, machine.processor(p).running) {
        (Some(t), Some(caller)) => caller.number == t.number,
        _ => false,
    }
}

/// The processor that an argument names.
pub fn find_processor<M: Words>(machine: &M, id: i32) -> Option<Proc>
    ensures { result ≡ spec.processor_named (M.world machine.now) id }
{
    number_within(machine.processor_count(), id).map(Proc::new)
}

/// The processor that an argument names, where 0 is the initial one of a class, or else the error of an ID.
pub fn processor_or_initial<M: Words>(machine: &M, class: Class, id: i32) -> Result<Proc, Code>
    ensures { result ≡ known_or_error (spec.processor_or_initial (M.world machine.now) class id) }
{
    if id == 0 {
        Ok(class.initial)
    } else {
        find_processor(machine, id).ok_or(Code::Identifier)
    }
}

/// The priority of a number, where 0 is another one, or else the error of an argument.
pub fn priority_or(limits: Limits, other: Pri, n: i32) -> Result<Pri, Code>
    requires { limits.priorities ≤ 32 }
    ensures { result ≡ (if spec.is_priority_or_zero limits n then Ok (spec.priority_or other n) else Err code.Parameter) }
{
    if n < 0 || i32::from(limits.priorities) < n {
        Err(Code::Parameter)
    } else if n == 0 {
        Ok(other)
    } else {
        Ok(Pri::new(n as u8))
    }
}

/// The ticks left of a count with this time or timeout when it begins.
pub fn ticks_of(time: i32) -> Option<u64>
    ensures { result ≡ spec.ticks_of time }
{
    if time < 0 {
        None
    } else {
        Some(time as u64 + 1)
    }
}

/// The object of so many that an argument names, or else the error of an ID.
fn object_within(count: usize, id: i32) -> Result<Object, Code>
    requires { count ≤ 32 }
    ensures { result ≡ known_or_error (option_map as_object (spec.number_within count id)) }
{
    number_within(count, id)
        .map(Object::new)
        .ok_or(Code::Identifier)
}

/// The semaphore that an argument names, or else the error of an ID.
pub fn semaphore_named<M: Objects>(machine: &M, id: i32) -> Result<Object, Code>
    ensures { result ≡ known_or_error (spec.object_named (M.world machine.now).semaphores id) }
{
    object_within(machine.semaphore_count(), id)
}

/// The eventflag that an argument names, or else the error of an ID.
pub fn eventflag_named<M: Objects>(machine: &M, id: i32) -> Result<Object, Code>
    ensures { result ≡ known_or_error (spec.object_named (M.world machine.now).eventflags id) }
{
    object_within(machine.eventflag_count(), id)
}

/// The data queue that an argument names, or else the error of an ID.
pub fn data_queue_named<M: Objects>(machine: &M, id: i32) -> Result<Object, Code>
    ensures { result ≡ known_or_error (spec.object_named (M.world machine.now).data_queues id) }
{
    object_within(machine.data_queue_count(), id)
}

/// The pool that an argument names, or else the error of an ID.
pub fn pool_named<M: Objects>(machine: &M, id: i32) -> Result<Object, Code>
    ensures { result ≡ known_or_error (spec.object_named (M.world machine.now).pools id) }
{
    object_within(machine.pool_count(), id)
}

/// The cyclic handler that an argument names, or else the error of an ID.
pub fn cyclic_named<M: Objects>(machine: &M, id: i32) -> Result<Object, Code>
    ensures { result ≡ known_or_error (spec.object_named (M.world machine.now).cyclics id) }
{
    object_within(machine.cyclic_count(), id)
}

/// The alarm that an argument names, or else the error of an ID.
pub fn alarm_named<M: Objects>(machine: &M, id: i32) -> Result<Object, Code>
    ensures { result ≡ known_or_error (spec.object_named (M.world machine.now).alarms id) }
{
    object_within(machine.alarm_count(), id)
}

/// The spin lock that an argument names, or else the error of an ID.
pub fn spin_lock_named<M: Objects>(machine: &M, id: i32) -> Result<Object, Code>
    ensures { result ≡ known_or_error (spec.object_named (M.world machine.now).holders id) }
{
    object_within(machine.spin_lock_count(), id)
}
