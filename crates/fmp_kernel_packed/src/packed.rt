//! Kernels by the numbers of their parts.
ghost use Rattle.std.specs.Prelude.{◌≡◌, ◌↔◌, ◌+◌, ◌≤◌, [], length, IfOk, IsTrue};
ghost use Rattle.fmp_kernel_order.specs.Queues.{Queues};
ghost use Rattle.fmp_kernel_packed.specs.Kept.{no_parts, ArePartsBefore, ArePartsOnce};
ghost use Rattle.fmp_kernel_packed.specs.Packed.{IsPacked};
ghost use Rattle.fmp_kernel_packed.specs.Shaped.{AreShaped};
ghost use Rattle.fmp_rules.specs.World.{World};

use crate::handled::Handled;
use crate::objects::Objects;
use crate::rest::Rest;
use fmp_interned::{Interned, Lists, Words};
use fmp_kernel_machine::KernelMachine;
use fmp_kernel_same::Same;
use fmp_step_words::Words as _;
use std::alloc::{AllocError, Global};
use std::marker::Model;

/// How many parts a kernel has at most: 64 tasks, 32 of each of six kinds, and three more.
const MOST: usize = 259;

/// What tells a kernel among those of one configuration.
#[derive(Clone, Copy)]
pub struct Packed {
    /// The key of the numbers of its parts.
    pub machine: u32,
    /// The number of what counts.
    pub counting: u32,
}

/// What kernels of one configuration are made of, each part once and with a number.
#[derive(Drop)]
pub struct Parts {
    handled: Handled,
    objects: Objects,
    rest: Rest,
    pub(crate) counting: Interned<Words>,
    /// Of the numbers of a kernel.
    pub(crate) lists: Lists,
    /// The number of what counts of the kernel that was unpacked last.
    near: u32,
    /// Room for the numbers of a kernel, and of what counts.
    numbers: Words,
    words: Words,
}

impl Model for Parts {
    ghost use Rattle.fmp_kernel_packed.specs.Kept.{KeptParts};

    ghost Value = { KeptParts };

    ghost view = { λ p. record { handled = p.handled; objects = p.objects; rest = p.rest; counting = p.counting; pairs = p.lists } };
}

/// Whether two kernels have as many of each kind, and the same of what no event changes, as those of one configuration have.
pub fn are_shaped(machine: &KernelMachine, other: &KernelMachine) -> bool
    ensures { IsTrue result ↔ AreShaped machine.now other.now }
{
    let (one, two) = (machine.assigned(), other.assigned());
    let (limits, others) = (machine.limits(), other.limits());
    one.timer().is_same(&two.timer())
        && limits.wakeups == others.wakeups
        && limits.priorities == others.priorities
        && one.task_count() == two.task_count()
        && one.cyclic_count() == two.cyclic_count()
        && one.alarm_count() == two.alarm_count()
        && machine.is_alike(other)
}

impl Parts {
    /// Of no kernel yet.
    pub fn new(alloc: Global) -> Self
        ensures { result ≡ no_parts }
    {
        Parts {
            handled: Handled::new(alloc),
            objects: Objects::new(alloc),
            rest: Rest::new(alloc),
            counting: Interned::new(alloc),
            lists: Lists::new(alloc),
            near: 0,
            numbers: Words::new(alloc),
            words: Words::new(alloc),
        }
    }

    /// No two parts that are kept are the same. It does nothing.
    pub fn validity(&self)
        ensures { ArePartsOnce self.now }
    {
        self.handled.validity();
        self.objects.validity();
        self.rest.validity();
        self.counting.validity();
        self.lists.validity();
    }

    /// The numbers of what a kernel is made of, which are kept from then on. It comes soonest where the kernel is near to that which was unpacked last: no
    /// answer depends on that. The error is want of memory, or that 2^32 - 1 of some part are kept, and leaves other kernels' numbers as they were.
    pub fn pack(&mut self, machine: &KernelMachine) -> Result<Packed, AllocError>
        ensures packed { IfOk result (λ k. IsPacked self.new machine.now k.machine k.counting) }
        ensures kept { ArePartsBefore self.old self.new }
    {
        self.numbers.clear();
        let (near, numbers) = (self.lists.last(), &mut self.numbers);
        self.handled.add(machine.assigned(), near, numbers)?;
        self.objects.add(machine.resources(), near, numbers)?;
        self.rest.add(machine, near, numbers)?;
        let key = self.lists.key_of(numbers.as_slice())?;
        self.words.clear();
        machine.assigned().add_words(&mut self.words)?;
        let counting = self.counting.number_of_near(&self.words, self.near)?;
        Ok(Packed {
            machine: key,
            counting,
        })
    }

    /// A kernel becomes as that was of which these are the numbers, where both are of one configuration.
    pub fn unpack(&mut self, packed: Packed, machine: &mut KernelMachine)
        requires { (w : World Queues) × IsPacked self.old w packed.machine packed.counting × AreShaped machine.old w }
        ensures is { (w : World Queues) → IsPacked self.old w packed.machine packed.counting → AreShaped machine.old w → machine.new ≡ w }
        ensures same { self.new ≡ self.old }
    {
        self.unpack_over(packed, &mut [0; MOST], machine);
    }

    /// As `unpack`, with room for the numbers of the parts.
    fn unpack_over(&mut self, packed: Packed, room: &mut [u32], machine: &mut KernelMachine)
        requires room { 259 ≤ length room.old }
        requires there { (w : World Queues) × IsPacked self.old w packed.machine packed.counting × AreShaped machine.old w }
        ensures is { (w : World Queues) → IsPacked self.old w packed.machine packed.counting → AreShaped machine.old w → machine.new ≡ w }
        ensures same { self.new ≡ self.old }
    {
        let handled = handled_count(machine);
        let count = handled + object_count(machine);
        let numbers = &mut room[..count + 3];
        self.lists.put(packed.machine, numbers);
        self.handled.put(&numbers[..handled], machine);
        self.objects.put(&numbers[handled..count], machine);
        self.rest.put(&numbers[count..], machine);
        machine.put_words(self.counting.get(packed.counting).as_slice());
        self.near = packed.counting;
    }
}

/// How many alarms, cyclic handlers and tasks a kernel has.
pub(crate) fn handled_count(machine: &KernelMachine) -> usize
    ensures value { result ≡ length machine.now.alarms + length machine.now.cyclics + length machine.now.tasks }
    ensures few { result ≤ 128 }
{
    let assigned = machine.assigned();
    assigned.alarm_count() + assigned.cyclic_count() + assigned.task_count()
}

/// How many objects a kernel has for which tasks wait.
pub(crate) fn object_count(machine: &KernelMachine) -> usize
    ensures value { result ≡ length machine.now.pools + length machine.now.eventflags + length machine.now.semaphores + length machine.now.data_queues }
    ensures few { result ≤ 128 }
{
    let resources = machine.resources();
    resources.pool_count()
        + resources.eventflag_count()
        + resources.semaphore_count()
        + resources.data_queue_count()
}
