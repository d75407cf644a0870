//! The kinds of objects that have a number: which it is, and how many objects there are.
ghost use Rattle.std.specs.Prelude.{◌≡◌, ◌≤◌};
ghost use Rattle.fmp_run_wave.specs.Resources as spec;

use crate::signal::Signal;
use fmp_codes::{Object, Proc};
use fmp_plain_machine::PlainMachine;
use fmp_rules::Config;
use fmp_step_words::Objects;

/// A kind of objects that have a number.
#[derive(Clone, Copy)]
pub enum Resource {
    /// Whose number is its count.
    Semaphore,
    /// Whose number is its pattern.
    Eventflag,
    /// Whose number is how many values it has.
    DataQueue,
    /// Whose number is how many blocks are free.
    Pool,
    /// Whose number is that of the processor that holds it, or 0.
    SpinLock,
}

/// The signal that shows the number.
#[inline(always)]
pub(crate) fn signal_of(resource: Resource) -> Signal
    ensures { result ≡ spec.signal_of resource }
{
    match resource {
        Resource::Semaphore => Signal::Count,
        Resource::Eventflag => Signal::Pattern,
        Resource::DataQueue => Signal::Values,
        Resource::Pool => Signal::Free,
        Resource::SpinLock => Signal::Holder,
    }
}

/// How many objects of a kind there are in a configuration.
pub(crate) fn count(config: &Config, resource: Resource) -> usize
    ensures value { result ≡ spec.count config.now resource }
    ensures few { result ≤ 32 }
{
    match resource {
        Resource::Semaphore => config.semaphores().len(),
        Resource::Eventflag => config.eventflags().len(),
        Resource::DataQueue => config.data_queues().len(),
        Resource::Pool => config.pools().len(),
        Resource::SpinLock => usize::from(config.spin_locks()),
    }
}

/// How many objects of a kind there are in a machine.
#[inline(always)]
pub(crate) fn count_in(machine: &PlainMachine, resource: Resource) -> usize
    ensures value { result ≡ spec.count_in machine.now resource }
    ensures few { result ≤ 32 }
{
    match resource {
        Resource::Semaphore => machine.semaphore_count(),
        Resource::Eventflag => machine.eventflag_count(),
        Resource::DataQueue => machine.data_queue_count(),
        Resource::Pool => machine.pool_count(),
        Resource::SpinLock => machine.spin_lock_count(),
    }
}

/// The number of the processor that holds a spin lock, or 0.
#[inline(always)]
fn holder_number(holder: Option<Proc>) -> u64
    ensures { result ≡ spec.holder_number holder }
{
    match holder {
        None => 0,
        Some(p) => u64::from(p.number),
    }
}

/// The number of an object.
#[inline(always)]
pub(crate) fn number_in(machine: &PlainMachine, resource: Resource, o: Object) -> u64
    ensures { result ≡ spec.number_in machine.now resource o }
{
    match resource {
        Resource::Semaphore => u64::from(machine.semaphore(o).count),
        Resource::Eventflag => u64::from(machine.eventflag(o).pattern),
        Resource::DataQueue => machine.value_count(o) as u64,
        Resource::Pool => machine.pool(o).free_blocks(),
        Resource::SpinLock => holder_number(machine.holder(o)),
    }
}
