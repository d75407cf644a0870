//! The numbers that tell a kernel that was packed.
ghost use Rattle.std.specs.Prelude.{◌≡◌, ◌+◌, ◌≤◌, length};
ghost use Rattle.fmp_kernel_order.specs.Queues.{Queues};
ghost use Rattle.fmp_kernel_packed.specs.Packed.{IsPacked};
ghost use Rattle.fmp_kernel_packed.specs.Told.{things_of, times_of, ArePartsOf};
ghost use Rattle.fmp_rules.specs.World.{World};

use crate::packed::{Packed, Parts, handled_count, object_count};
use fmp_kernel_machine::KernelMachine;

/// How many alarms, cyclic handlers, tasks, pools, eventflags, semaphores and data queues a kernel has.
pub fn thing_count(machine: &KernelMachine) -> usize
    ensures value { result ≡ things_of machine.now }
    ensures few { result ≤ 256 }
{
    handled_count(machine) + object_count(machine)
}

impl Parts {
    /// Writes the numbers of the parts of a kernel over as many others: of each of its things, and of three parts more.
    pub fn put_numbers(&mut self, packed: Packed, numbers: &mut [u32])
        requires { (w : World Queues) × IsPacked self.old w packed.machine packed.counting × (length numbers.old ≡ things_of w + 3) }
        ensures parts { (w : World Queues) → IsPacked self.old w packed.machine packed.counting → length numbers.old ≡ things_of w + 3 → ArePartsOf self.old w numbers.new }
        ensures same { self.new ≡ self.old }
    {
        self.lists.put(packed.machine, numbers);
    }

    /// The numbers that tell what counts in a kernel.
    pub fn times(&self, packed: Packed) -> &[u32]
        requires { (w : World Queues) × IsPacked self.now w packed.machine packed.counting }
        ensures { (w : World Queues) → IsPacked self.now w packed.machine packed.counting → result.now ≡ times_of w }
    {
        self.counting.get(packed.counting).as_slice()
    }
}
