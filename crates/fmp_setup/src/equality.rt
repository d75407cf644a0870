//! Whether all that two configurations say is equal.
ghost use Rattle.std.specs.Prelude.{◌≡◌, ◌↔◌, IsTrue, map};
ghost use Rattle.fmp_setup.specs.Parts.{setup_of};

use crate::parts::{NamedClass, Parts};
use crate::setup::{
    AlarmSetup, Class, CyclicSetup, DataQueueSetup, EventflagSetup, Limits, PoolSetup,
    SemaphoreSetup, TaskSetup, Timer,
};
use fmp_codes::Proc;

/// Whether the two have the same number.
#[tactic(auto, using(crate::proofs::Same::processors_decide))]
fn is_same_processor(one: Proc, other: Proc) -> bool
    ensures { IsTrue result ↔ (one ≡ other) }
{
    one == other
}

/// Whether both timers are local, or both are global with the same processor.
fn is_same_timer(one: Timer, other: Timer) -> bool
    ensures { IsTrue result ↔ (one ≡ other) }
{
    match (one, other) {
        (Timer::Local, Timer::Local) => true,
        (Timer::Global(one), Timer::Global(other)) => is_same_processor(one, other),
        _ => false,
    }
}

/// Whether the greatest numbers of queued wakeups are equal, and the greatest priorities too.
fn are_same_limits(one: Limits, other: Limits) -> bool
    ensures { IsTrue result ↔ (one ≡ other) }
{
    one == other
}

/// Whether the classes begin on the same processor and have the same members. Their names are not looked at.
fn is_same_class(one: Class, other: Class) -> bool
    ensures { IsTrue result ↔ (one ≡ other) }
{
    one == other
}

/// Whether the classes have the same name. What else they say is not looked at.
fn is_same_name(one: &NamedClass, other: &NamedClass) -> bool
    ensures { IsTrue result ↔ (one.now.name.items ≡ other.now.name.items) }
{
    one.name.as_slice() == other.name.as_slice()
}

/// Whether the classes say the same and have the same name.
fn is_same_named(one: &NamedClass, other: &NamedClass) -> bool
    ensures { IsTrue result ↔ ((one.now.class ≡ other.now.class) × (one.now.name.items ≡ other.now.name.items)) }
{
    is_same_class(one.class, other.class) && is_same_name(one, other)
}

/// Whether there are as many classes, and those in the same place say the same and have the same name.
fn are_same_classes(one: &[NamedClass], other: &[NamedClass]) -> bool
    ensures { IsTrue result ↔ ((map (λ c. c.class) one.now ≡ map (λ c. c.class) other.now) × (map (λ c. c.name.items) one.now ≡ map (λ c. c.name.items) other.now)) }
{
    if one.len() != other.len() {
        return false;
    }
    for at in 0..one.len() {
        if !is_same_named(&one[at], &other[at]) {
            return false;
        }
    }
    true
}

/// Whether there are as many tasks, each with the same class, function, priority and start at boot.
fn are_same_tasks(one: &[TaskSetup], other: &[TaskSetup]) -> bool
    ensures { IsTrue result ↔ (one.now ≡ other.now) }
{
    one == other
}

/// Whether there are as many semaphores, each with the same order, count at boot and greatest count.
fn are_same_semaphores(one: &[SemaphoreSetup], other: &[SemaphoreSetup]) -> bool
    ensures { IsTrue result ↔ (one.now ≡ other.now) }
{
    one == other
}

/// Whether there are as many eventflags, each with the same order, attributes and pattern at boot.
fn are_same_eventflags(one: &[EventflagSetup], other: &[EventflagSetup]) -> bool
    ensures { IsTrue result ↔ (one.now ≡ other.now) }
{
    one == other
}

/// Whether there are as many data queues, each with the same order and capacity.
fn are_same_data_queues(one: &[DataQueueSetup], other: &[DataQueueSetup]) -> bool
    ensures { IsTrue result ↔ (one.now ≡ other.now) }
{
    one == other
}

/// Whether there are as many pools, each with the same order and number of blocks.
fn are_same_pools(one: &[PoolSetup], other: &[PoolSetup]) -> bool
    ensures { IsTrue result ↔ (one.now ≡ other.now) }
{
    one == other
}

/// Whether there are as many cyclic handlers, each with the same class, function, times and start at boot.
fn are_same_cyclics(one: &[CyclicSetup], other: &[CyclicSetup]) -> bool
    ensures { IsTrue result ↔ (one.now ≡ other.now) }
{
    one == other
}

/// Whether there are as many alarm handlers, each with the same class and function.
fn are_same_alarms(one: &[AlarmSetup], other: &[AlarmSetup]) -> bool
    ensures { IsTrue result ↔ (one.now ≡ other.now) }
{
    one == other
}

/// Whether the timers, the limits and the numbers of spin locks are equal.
fn are_same_clocks(one: &Parts, other: &Parts) -> bool
    ensures { IsTrue result ↔ (((setup_of one.now).timer ≡ (setup_of other.now).timer) × ((setup_of one.now).limits ≡ (setup_of other.now).limits)
        × ((setup_of one.now).spin_locks ≡ (setup_of other.now).spin_locks)) }
{
    is_same_timer(one.timer, other.timer)
        && are_same_limits(one.limits, other.limits)
        && one.spin_locks == other.spin_locks
}

/// Whether the classes with their names are equal, and the tasks.
fn are_same_placed(one: &Parts, other: &Parts) -> bool
    ensures { IsTrue result ↔ (((setup_of one.now).classes ≡ (setup_of other.now).classes) × ((setup_of one.now).class_names ≡ (setup_of other.now).class_names)
        × ((setup_of one.now).tasks ≡ (setup_of other.now).tasks)) }
{
    are_same_classes(&one.classes, &other.classes) && are_same_tasks(&one.tasks, &other.tasks)
}

/// Whether the semaphores and the eventflags are equal.
fn are_same_syncs(one: &Parts, other: &Parts) -> bool
    ensures { IsTrue result ↔ (((setup_of one.now).semaphores ≡ (setup_of other.now).semaphores) × ((setup_of one.now).eventflags ≡ (setup_of other.now).eventflags)) }
{
    are_same_semaphores(&one.semaphores, &other.semaphores)
        && are_same_eventflags(&one.eventflags, &other.eventflags)
}

/// Whether the data queues and the pools are equal.
fn are_same_buffers(one: &Parts, other: &Parts) -> bool
    ensures { IsTrue result ↔ (((setup_of one.now).data_queues ≡ (setup_of other.now).data_queues) × ((setup_of one.now).pools ≡ (setup_of other.now).pools)) }
{
    are_same_data_queues(&one.data_queues, &other.data_queues)
        && are_same_pools(&one.pools, &other.pools)
}

/// Whether the cyclic handlers and the alarm handlers are equal.
fn are_same_handlers(one: &Parts, other: &Parts) -> bool
    ensures { IsTrue result ↔ (((setup_of one.now).cyclics ≡ (setup_of other.now).cyclics) × ((setup_of one.now).alarms ≡ (setup_of other.now).alarms)) }
{
    are_same_cyclics(&one.cyclics, &other.cyclics) && are_same_alarms(&one.alarms, &other.alarms)
}

/// Whether all objects other than tasks and spin locks are equal.
fn are_same_objects(one: &Parts, other: &Parts) -> bool
    ensures { IsTrue result ↔ (((setup_of one.now).semaphores ≡ (setup_of other.now).semaphores) × ((setup_of one.now).eventflags ≡ (setup_of other.now).eventflags)
        × ((setup_of one.now).data_queues ≡ (setup_of other.now).data_queues) × ((setup_of one.now).pools ≡ (setup_of other.now).pools)
        × ((setup_of one.now).cyclics ≡ (setup_of other.now).cyclics) × ((setup_of one.now).alarms ≡ (setup_of other.now).alarms)) }
{
    are_same_syncs(one, other) && are_same_buffers(one, other) && are_same_handlers(one, other)
}

/// Whether all that they say is equal, the names and their order included.
pub fn are_same_parts(one: &Parts, other: &Parts) -> bool
    ensures { IsTrue result ↔ (setup_of one.now ≡ setup_of other.now) }
{
    one.names.is_same(&other.names)
        && are_same_clocks(one, other)
        && are_same_placed(one, other)
        && are_same_objects(one, other)
}
