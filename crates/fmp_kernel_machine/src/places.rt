//! How a task leaves its lists and joins others.
ghost use Rattle.std.specs.Prelude.{◌≡◌, Some, None};
ghost use Rattle.fmp_rules.specs.World.{item};
ghost use Rattle.fmp_rules.specs.Ordering.{is_runnable, depart, arrive, order_of, rejoin};
ghost use Rattle.fmp_rules.specs.declared.machine.TaskRecord.{TaskRecord as AnyTaskRecord};
ghost use Rattle.fmp_kernel_order.specs.Queues.{listed};
ghost use Rattle.fmp_kernel_machine.specs.Going.{order_before};

use crate::machine::KernelMachine;
use fmp_codes::{Pri, Task};
use fmp_rules::{Order, TaskRecord, Wait};

/// Whether a task is active, with no wait and not suspended.
fn is_runnable(task: &TaskRecord) -> bool
    ensures { result ≡ is_runnable task.now }
{
    task.active && task.wait.is_none() && !task.suspended
}

impl KernelMachine {
    /// A task of this record leaves its ready queue, if it is in one.
    #[tactic(auto, unfolding(fmp_kernel_order::specs::Queues::listed))]
    pub(crate) fn depart(&mut self, t: Task, task: &TaskRecord)
        ensures { self.new ≡ record self.old { order = depart listed self.old.order task.now t } }
    {
        if is_runnable(task) {
            self.ready.remove(t);
        }
    }

    /// A task leaves its ready queue, if it is in one. One that goes last in a ready queue next leaves by that.
    #[tactic(auto, unfolding(fmp_kernel_order::specs::Queues::listed))]
    pub(crate) fn make_room(&mut self, t: Task, changed: &TaskRecord)
        ensures { self.new ≡ record self.old { order = order_before listed self.old changed.now t } }
    {
        if !is_runnable(changed) {
            let task = self.assigned.task(t);
            self.depart(t, &task);
        }
    }

    /// A task of this record goes last in its ready queue, if it is to be in one.
    #[tactic(auto, unfolding(fmp_kernel_order::specs::Queues::listed))]
    pub(crate) fn arrive(&mut self, t: Task, task: &TaskRecord)
        ensures { self.new ≡ record self.old { order = arrive listed self.old.order task.now t } }
    {
        if is_runnable(task) {
            self.ready.put_last(task.assigned, task.priority, t);
        }
    }

    /// A task that has this wait and this priority begins it anew, if its queue is by priority.
    #[tactic(auto, unfolding(fmp_kernel_order::specs::Queues::listed))]
    pub(crate) fn rejoin(&mut self, t: Task, priority: Pri, wait: Wait)
        ensures { (r : AnyTaskRecord) → r.wait ≡ Some wait → r.priority ≡ priority
            → self.new ≡ record self.old { order = rejoin listed self.old.order (order_of self.old wait) r (item None self.old.waits_left t.number) t } }
    {
        match self.resources.order_of(wait) {
            Order::First => {}
            Order::Priority => {
                self.resources.leave(t, Some(wait));
                self.resources.join(t, priority, wait);
                self.assigned.renew_wait(t);
            }
        }
    }
}
