//! The tasks and handlers of kernels, each kept once.
ghost use Rattle.std.specs.Prelude.{◌≡◌, ◌≤◌, ◌++◌, List, [], ℕ, length, IfOk};
ghost use Rattle.fmp_interned.specs.Parts.{AreNumbersOf, HasNumbers};
ghost use Rattle.fmp_kernel_assigned.specs.Assignments.{Assignments};
ghost use Rattle.fmp_kernel_packed.specs.Kept.{AreHandledBefore, AreHandledOnce};
ghost use Rattle.fmp_kernel_packed.specs.Packed.{AreHandled};

use fmp_codes::{Object, Task};
use fmp_interned::{Interned, Words};
use fmp_kernel_assigned::Assigned;
use fmp_kernel_machine::KernelMachine;
use fmp_kernel_same::{Lone, number_records};
use fmp_rules::{Alarm, Cyclic, TaskRecord};
use std::alloc::{AllocError, Global};
use std::marker::Model;

/// Tasks, cyclic handlers and alarms.
#[derive(Drop)]
pub(crate) struct Handled {
    tasks: Interned<Lone<TaskRecord>>,
    cyclics: Interned<Lone<Cyclic>>,
    alarms: Interned<Lone<Alarm>>,
}

impl Model for Handled {
    ghost use Rattle.fmp_kernel_packed.specs.Kept.{KeptHandled};

    ghost Value = { KeptHandled };

    ghost view = { λ h. record { tasks = h.tasks; cyclics = h.cyclics; alarms = h.alarms } };
}

impl Handled {
    /// None yet.
    pub(crate) fn new(alloc: Global) -> Self
        ensures { result ≡ record { tasks = []; cyclics = []; alarms = [] } }
    {
        Handled {
            tasks: Interned::new(alloc),
            cyclics: Interned::new(alloc),
            alarms: Interned::new(alloc),
        }
    }

    /// No two that are kept are the same. It does nothing.
    pub(crate) fn validity(&self)
        ensures { AreHandledOnce self.now }
    {
        self.tasks.validity();
        self.cyclics.validity();
        self.alarms.validity();
    }

    /// Adds the numbers of a kernel's alarms, cyclic handlers and tasks. One that has the number which stands at its place in another list is found sooner.
    /// The error is want of memory.
    pub(crate) fn add(
        &mut self,
        assigned: &Assigned,
        near: &[u32],
        numbers: &mut Words,
    ) -> Result<(), AllocError>
        ensures added { IfOk result (λ done. (ns : List ℕ) × (numbers.new ≡ numbers.old ++ ns) × AreHandled self.new assigned.now ns) }
        ensures kept { AreHandledBefore self.old self.new }
    {
        number_records(&mut self.alarms, assigned.alarms(), near, numbers)?;
        number_records(&mut self.cyclics, assigned.cyclics(), near, numbers)?;
        number_records(&mut self.tasks, assigned.tasks(), near, numbers)?;
        Ok(())
    }

    /// The alarms, the cyclic handlers and the tasks of a kernel, which has as many, become those of these numbers.
    pub(crate) fn put(&self, numbers: &[u32], machine: &mut KernelMachine)
        requires { (a : Assignments) × AreHandled self.now a numbers.now × (length a.alarms ≡ length machine.old.alarms)
            × (length a.cyclics ≡ length machine.old.cyclics) × (length a.tasks ≡ length machine.old.tasks) }
        ensures { (a : Assignments) → AreHandled self.now a numbers.now → length a.alarms ≡ length machine.old.alarms → length a.cyclics ≡ length machine.old.cyclics
            → length a.tasks ≡ length machine.old.tasks → machine.new ≡ record machine.old { alarms = a.alarms; cyclics = a.cyclics; tasks = a.tasks } }
    {
        let (alarms, rest) = numbers.split_at(machine.assigned().alarm_count());
        let (cyclics, rest) = rest.split_at(machine.assigned().cyclic_count());
        let (tasks, _) = rest.split_at(machine.assigned().task_count());
        put_alarms(&self.alarms, alarms, machine);
        put_cyclics(&self.cyclics, cyclics, machine);
        put_tasks(&self.tasks, tasks, machine);
    }
}

/// The alarms of a kernel become those of as many numbers.
fn put_alarms(kept: &Interned<Lone<Alarm>>, numbers: &[u32], machine: &mut KernelMachine)
    requires kept { HasNumbers kept.now numbers.now }
    requires long { length numbers.now ≡ length machine.old.alarms }
    requires few { length numbers.now ≤ 32 }
    ensures { (xs : List _) → AreNumbersOf kept.now numbers.now xs → machine.new ≡ record machine.old { alarms = xs } }
{
    for at in 0..numbers.len() {
        machine.put_alarm(Object::from_index(at), kept.get(numbers[at]).get());
    }
}

/// The cyclic handlers of a kernel become those of as many numbers.
fn put_cyclics(kept: &Interned<Lone<Cyclic>>, numbers: &[u32], machine: &mut KernelMachine)
    requires kept { HasNumbers kept.now numbers.now }
    requires long { length numbers.now ≡ length machine.old.cyclics }
    requires few { length numbers.now ≤ 32 }
    ensures { (xs : List _) → AreNumbersOf kept.now numbers.now xs → machine.new ≡ record machine.old { cyclics = xs } }
{
    for at in 0..numbers.len() {
        machine.put_cyclic(Object::from_index(at), kept.get(numbers[at]).get());
    }
}

/// The tasks of a kernel become those of as many numbers.
fn put_tasks(kept: &Interned<Lone<TaskRecord>>, numbers: &[u32], machine: &mut KernelMachine)
    requires kept { HasNumbers kept.now numbers.now }
    requires long { length numbers.now ≡ length machine.old.tasks }
    requires few { length numbers.now ≤ 64 }
    ensures { (xs : List _) → AreNumbersOf kept.now numbers.now xs → machine.new ≡ record machine.old { tasks = xs } }
{
    for at in 0..numbers.len() {
        machine.put_task(Task::from_index(at), kept.get(numbers[at]).get());
    }
}
