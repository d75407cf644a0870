//! The spin locks, the processors and the ready queues of kernels, each kept once.
ghost use Rattle.std.specs.Prelude.{◌≡◌, ◌++◌, List, [], ℕ, length, IfOk};
ghost use Rattle.fmp_kernel_order.specs.Queues.{Queues};
ghost use Rattle.fmp_kernel_packed.specs.Kept.{IsRestBefore, IsRestOnce};
ghost use Rattle.fmp_kernel_packed.specs.Packed.{IsRest};
ghost use Rattle.fmp_rules.specs.World.{World};

use fmp_dispatch::Dispatch;
use fmp_interned::{Interned, Value, Words};
use fmp_kernel_machine::KernelMachine;
use fmp_ready::ReadyQueues;
use fmp_spin::Spins;
use std::alloc::{AllocError, Global};
use std::marker::Model;

/// Spin locks, processors and ready queues, all of a kernel together.
#[derive(Drop)]
pub(crate) struct Rest {
    spins: Interned<Spins>,
    dispatch: Interned<Dispatch>,
    ready: Interned<ReadyQueues>,
}

impl Model for Rest {
    ghost use Rattle.fmp_kernel_packed.specs.Kept.{KeptRest};

    ghost Value = { KeptRest };

    ghost view = { λ r. record { spins = r.spins; dispatch = r.dispatch; ready = r.ready } };
}

impl Rest {
    /// None yet.
    pub(crate) fn new(alloc: Global) -> Self
        ensures { result ≡ record { spins = []; dispatch = []; ready = [] } }
    {
        Rest {
            spins: Interned::new(alloc),
            dispatch: Interned::new(alloc),
            ready: Interned::new(alloc),
        }
    }

    /// No two that are kept are the same. It does nothing.
    pub(crate) fn validity(&self)
        ensures { IsRestOnce self.now }
    {
        self.spins.validity();
        self.dispatch.validity();
        self.ready.validity();
    }

    /// Adds the numbers of a kernel's spin locks, processors and ready queues. What has the number which stands at its place in another list is found sooner.
    /// The error is want of memory.
    pub(crate) fn add(
        &mut self,
        machine: &KernelMachine,
        near: &[u32],
        numbers: &mut Words,
    ) -> Result<(), AllocError>
        ensures added { IfOk result (λ done. (ns : List ℕ) × (numbers.new ≡ numbers.old ++ ns) × IsRest self.new machine.now ns) }
        ensures kept { IsRestBefore self.old self.new }
    {
        let spins = self
            .spins
            .number_of_near(machine.spins(), numbers.beside(near))?;
        numbers.push(spins)?;
        let dispatch = self
            .dispatch
            .number_of_near(machine.dispatch(), numbers.beside(near))?;
        numbers.push(dispatch)?;
        let ready = self
            .ready
            .number_of_near(machine.ready_queues(), numbers.beside(near))?;
        numbers.push(ready)?;
        Ok(())
    }

    /// The spin locks, the ready queues and as many processors of a kernel become those of these three numbers.
    pub(crate) fn put(&self, numbers: &[u32], machine: &mut KernelMachine)
        requires { (w : World Queues) × IsRest self.now w numbers.now × (length machine.old.processors ≡ length w.processors) }
        ensures { (w : World Queues) → IsRest self.now w numbers.now → machine.new ≡ record machine.old {
          processors = w.processors;
          due = w.due;
          holders = w.holders;
          order = record machine.old.order { ready = w.order.ready };
        } }
    {
        machine.put_rest(
            self.ready.get(numbers[2]),
            self.dispatch.get(numbers[1]),
            self.spins.get(numbers[0]),
        );
    }
}
