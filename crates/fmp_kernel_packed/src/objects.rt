//! The objects of kernels, each kept once.
ghost use Rattle.std.specs.Prelude.{◌≡◌, ◌++◌, List, [], ℕ, length, map, IfOk};
ghost use Rattle.fmp_kernel_objects.specs.Objects.{objects_of, AreAlike, AllObjects};
ghost use Rattle.fmp_kernel_packed.specs.Kept.{AreObjectsBefore, AreObjectsOnce};
ghost use Rattle.fmp_kernel_packed.specs.Packed.{AreObjects};

use fmp_dtq::Dtq;
use fmp_flag::Flag;
use fmp_interned::{Interned, Words, number_each};
use fmp_kernel_machine::KernelMachine;
use fmp_kernel_objects::Resources;
use fmp_mpf::Mpf;
use fmp_sem::Sem;
use std::alloc::{AllocError, Global};
use std::marker::Model;

/// Objects for which tasks wait, with those who do.
#[derive(Drop)]
pub(crate) struct Objects {
    semaphores: Interned<Sem>,
    eventflags: Interned<Flag>,
    data_queues: Interned<Dtq>,
    pools: Interned<Mpf>,
}

impl Model for Objects {
    ghost use Rattle.fmp_kernel_packed.specs.Kept.{KeptObjects};

    ghost Value = { KeptObjects };

    ghost view = { λ o. record { semaphores = o.semaphores; eventflags = o.eventflags; data_queues = o.data_queues; pools = o.pools } };
}

impl Objects {
    /// None yet.
    pub(crate) fn new(alloc: Global) -> Self
        ensures { result ≡ record { semaphores = []; eventflags = []; data_queues = []; pools = [] } }
    {
        Objects {
            semaphores: Interned::new(alloc),
            eventflags: Interned::new(alloc),
            data_queues: Interned::new(alloc),
            pools: Interned::new(alloc),
        }
    }

    /// No two that are kept are the same. It does nothing.
    pub(crate) fn validity(&self)
        ensures { AreObjectsOnce self.now }
    {
        self.semaphores.validity();
        self.eventflags.validity();
        self.data_queues.validity();
        self.pools.validity();
    }

    /// Adds the numbers of a kernel's pools, eventflags, semaphores and data queues. One that has the number which stands at its place in another list is found
    /// sooner. The error is want of memory.
    pub(crate) fn add(
        &mut self,
        resources: &Resources,
        near: &[u32],
        numbers: &mut Words,
    ) -> Result<(), AllocError>
        ensures added { IfOk result (λ done. (ns : List ℕ) × (numbers.new ≡ numbers.old ++ ns) × AreObjects self.new resources.now ns) }
        ensures kept { AreObjectsBefore self.old self.new }
    {
        number_each(&mut self.pools, resources.pools(), near, numbers)?;
        number_each(&mut self.eventflags, resources.eventflags(), near, numbers)?;
        number_each(&mut self.semaphores, resources.semaphores(), near, numbers)?;
        number_each(
            &mut self.data_queues,
            resources.data_queues(),
            near,
            numbers,
        )?;
        Ok(())
    }

    /// The objects of a kernel, which has as many of each kind and the same data queues, become those of these numbers.
    pub(crate) fn put(&self, numbers: &[u32], machine: &mut KernelMachine)
        requires { (a : AllObjects) × AreObjects self.now a numbers.now × AreAlike (objects_of machine.old) a }
        ensures { (a : AllObjects) → AreObjects self.now a numbers.now → AreAlike (objects_of machine.old) a → machine.new ≡ record machine.old {
          semaphores = a.semaphores;
          eventflags = a.eventflags;
          data_queues = a.data_queues;
          contents = a.contents;
          pools = a.pools;
          order = record machine.old.order { waits = a.waits };
        } }
    {
        let (pools, rest) = numbers.split_at(machine.resources().pool_count());
        let (eventflags, rest) = rest.split_at(machine.resources().eventflag_count());
        let (semaphores, data_queues) = rest.split_at(machine.resources().semaphore_count());
        machine.become_pools(&self.pools, pools);
        machine.become_eventflags(&self.eventflags, eventflags);
        machine.become_semaphores(&self.semaphores, semaphores);
        machine.become_data_queues(&self.data_queues, data_queues);
    }
}
