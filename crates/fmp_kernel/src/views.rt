//! What the kernel shows of who runs and who waits: what it reads in its lists, which is what each state of the model tells for which
//! it stands. All else is read from its machine.
ghost use Rattle.std.specs.Prelude.{◌≡◌, ◌≤◌, ◌&&◌, is_none, length};
ghost use Rattle.std.specs.List.{list_all};
ghost use Rattle.fmp_rules.specs.Due.{IsNextDue};
ghost use Rattle.fmp_rules.specs.World.{processor, handler, is_held, runner_of};
ghost use Rattle.fmp_rules.specs.Ordering.{queue};
ghost use Rattle.fmp_rules.specs.Arrivals.{State, numbered};
ghost use Rattle.fmp_kernel_order.specs.Queues.{listed};
ghost use Rattle.fmp_law_lists.specs.Stands.{Stands};

use crate::kernel::Kernel;
use arrayvec::ArrayVec;
use fmp_codes::{Object, Pri, Proc, Runner, Task};
use fmp_rules::{Processor, QueueKind};
use fmp_step_words::{Objects, Words, is_held};

impl Kernel {
    /// How many processors there are.
    pub fn processors(&self) -> usize
        ensures lists { result ≡ length self.now.processors }
        ensures model { (m : State) → Stands self.now m → result ≡ length m.processors }
        ensures few { result ≤ 8 }
    {
        self.machine.processor_count()
    }

    /// The record of a processor: what it runs, its flags and its latch.
    pub fn processor(&self, p: Proc) -> Processor
        ensures lists { result ≡ processor self.now p }
        ensures model { (m : State) → Stands self.now m → result ≡ processor m p }
    {
        self.machine.processor(p)
    }

    /// The task that a processor runs.
    pub fn running(&self, p: Proc) -> Option<Task>
        ensures lists { result ≡ (processor self.now p).running }
        ensures model { (m : State) → Stands self.now m → result ≡ (processor m p).running }
    {
        self.machine.processor(p).running
    }

    /// Whether a request to a processor is pending.
    pub fn pending(&self, p: Proc) -> bool
        ensures lists { result ≡ (processor self.now p).latch }
        ensures model { (m : State) → Stands self.now m → result ≡ (processor m p).latch }
    {
        self.machine.processor(p).latch
    }

    /// The handler that runs on a processor.
    pub fn handler(&self, p: Proc) -> Option<Runner>
        ensures lists { result ≡ handler self.now p }
        ensures model { (m : State) → Stands self.now m → result ≡ handler m p }
    {
        self.machine.handler(p)
    }

    /// Who makes the calls from a processor: the due handler, else the running task.
    pub fn runner(&self, p: Proc) -> Option<Runner>
        ensures lists { result ≡ runner_of self.now p }
        ensures model { (m : State) → Stands self.now m → result ≡ runner_of m p }
    {
        match self.handler(p) {
            Some(handler) => Some(handler),
            None => self.running(p).map(Runner::Task),
        }
    }

    /// Whether dispatching on a processor is held.
    pub fn held(&self, p: Proc) -> bool
        ensures lists { result ≡ is_held self.now p }
        ensures model { (m : State) → Stands self.now m → result ≡ is_held m p }
    {
        is_held(&*self.machine, p)
    }

    /// The ready tasks of a priority on a processor, in their precedence.
    pub fn ready(&self, p: Proc, priority: Pri) -> ArrayVec<Task, 64>
        ensures lists { result.items ≡ listed.ready self.now.order self.now.tasks p priority }
        ensures model { (m : State) → Stands self.now m → result.items ≡ numbered.ready m.order m.tasks p priority }
    {
        self.machine.ready(p, priority)
    }

    /// The tasks that wait in a queue of an object, in their order.
    pub fn waiting(&self, kind: QueueKind, o: Object) -> ArrayVec<Task, 64>
        ensures lists { result.items ≡ queue listed self.now kind o }
        ensures model { (m : State) → Stands self.now m → result.items ≡ queue numbered m kind o }
    {
        self.machine.waiters(kind, o)
    }

    /// The least ticks left for which a tick on a processor counts: of timed waits, and of cyclic handlers and alarms that are
    /// started.
    pub fn next_due(&self, p: Proc) -> Option<u64>
        ensures lists { IsNextDue self.now p result }
        ensures model { (m : State) → Stands self.now m → IsNextDue m p result }
    {
        self.machine.next_due(p)
    }

    /// Whether no wait is timed, and no cyclic handler and no alarm is started.
    pub fn is_untimed(&self) -> bool
        ensures lists { result ≡ (list_all is_none self.now.waits_left && list_all is_none self.now.cyclics_left && list_all is_none self.now.alarms_left) }
        ensures model { (m : State) → Stands self.now m → result ≡ (list_all is_none m.waits_left && list_all is_none m.cyclics_left && list_all is_none m.alarms_left) }
    {
        self.machine.is_untimed()
    }
}
