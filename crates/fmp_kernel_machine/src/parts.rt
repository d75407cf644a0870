//! The parts of the kernel's state, and how it becomes as others are, part by part.
ghost use Rattle.std.specs.Prelude.{◌≡◌, length, map};
ghost use Rattle.fmp_interned.specs.Parts.{AreNumbersOf, HasNumbers};
ghost use Rattle.fmp_kernel_assigned.specs.Counting.{AreInStep};
ghost use Rattle.fmp_kernel_machine.specs.Parts.{assignments_in, dispatching_in, with_times};
ghost use Rattle.fmp_kernel_objects.specs.Objects.{objects_of};
ghost use Rattle.fmp_rules.specs.World.{with_item};
ghost use Rattle.fmp_time.specs.Times.{no_times};
ghost use Rattle.fmp_time.specs.Words.{made_from};

use crate::machine::KernelMachine;
use fmp_codes::{Object, Task};
use fmp_dispatch::Dispatch;
use fmp_dtq::Dtq;
use fmp_flag::Flag;
use fmp_interned::Interned;
use fmp_kernel_assigned::Assigned;
use fmp_kernel_objects::Resources;
use fmp_kernel_parts::Part;
use fmp_mpf::Mpf;
use fmp_ready::ReadyQueues;
use fmp_rules::{Alarm, Cyclic, TaskRecord};
use fmp_sem::Sem;
use fmp_spin::Spins;

impl KernelMachine {
    /// The tasks, the cyclic handlers and the alarms, with the ticks that each has left.
    pub fn assigned(&self) -> &Assigned
        ensures { result.now ≡ assignments_in self.now }
    {
        &self.assigned
    }

    /// The objects for which tasks wait, with their wait queues.
    pub fn resources(&self) -> &Resources
        ensures { result.now ≡ objects_of self.now }
    {
        &self.resources
    }

    /// The ready queues.
    pub fn ready_queues(&self) -> &ReadyQueues
        ensures { result.now.lists ≡ self.now.order.ready }
    {
        &self.ready
    }

    /// The processors, with the handlers that are due on each.
    pub fn dispatch(&self) -> &Dispatch
        ensures { result.now ≡ dispatching_in self.now }
    {
        &self.dispatch
    }

    /// Who holds each spin lock.
    pub fn spins(&self) -> &Spins
        ensures { result.now ≡ self.now.holders }
    {
        &self.spins
    }

    /// The record of a task becomes this one, and the task stays in its ready queue.
    pub fn put_task(&mut self, t: Task, task: TaskRecord)
        ensures { self.new ≡ record self.old { tasks = with_item self.old.tasks t.number task } }
    {
        self.assigned.set_task(t, task);
    }

    /// A cyclic handler becomes this one.
    pub fn put_cyclic(&mut self, c: Object, cyclic: Cyclic)
        ensures { self.new ≡ record self.old { cyclics = with_item self.old.cyclics c.number cyclic } }
    {
        self.assigned.set_cyclic(c, cyclic);
    }

    /// An alarm becomes this one.
    pub fn put_alarm(&mut self, a: Object, alarm: Alarm)
        ensures { self.new ≡ record self.old { alarms = with_item self.old.alarms a.number alarm } }
    {
        self.assigned.set_alarm(a, alarm);
    }

    /// What counts becomes as these numbers tell, where it is on the processors to which things are assigned.
    pub fn put_words(&mut self, words: &[u32])
        requires { AreInStep self.old.tasks self.old.cyclics self.old.alarms (made_from no_times words.now).left }
        ensures { self.new ≡ with_times self.old (made_from no_times words.now) }
    {
        self.assigned.become_words(words);
    }

    /// The semaphores become as those are that have these numbers among others, as many as there are here.
    pub fn become_semaphores(&mut self, kept: &Interned<Sem>, numbers: &[u32])
        requires long { length numbers.now ≡ length self.old.semaphores }
        requires kept { HasNumbers kept.now numbers.now }
        ensures { (xs : _) → AreNumbersOf kept.now numbers.now xs → self.new ≡ record self.old {
          semaphores = map (λ x. x.semaphore) xs;
          order = record self.old.order { waits = record self.old.order.waits { semaphores = map (λ x. x.waiters) xs } };
        } }
    {
        self.resources.become_semaphores(kept, numbers);
    }

    /// The eventflags become as those are that have these numbers among others, as many as there are here.
    pub fn become_eventflags(&mut self, kept: &Interned<Flag>, numbers: &[u32])
        requires long { length numbers.now ≡ length self.old.eventflags }
        requires kept { HasNumbers kept.now numbers.now }
        ensures { (xs : _) → AreNumbersOf kept.now numbers.now xs → self.new ≡ record self.old {
          eventflags = map (λ x. x.eventflag) xs;
          order = record self.old.order { waits = record self.old.order.waits { eventflags = map (λ x. x.waiters) xs } };
        } }
    {
        self.resources.become_eventflags(kept, numbers);
    }

    /// The pools become as those are that have these numbers among others, as many as there are here.
    pub fn become_pools(&mut self, kept: &Interned<Mpf>, numbers: &[u32])
        requires long { length numbers.now ≡ length self.old.pools }
        requires kept { HasNumbers kept.now numbers.now }
        ensures { (xs : _) → AreNumbersOf kept.now numbers.now xs → self.new ≡ record self.old {
          pools = map (λ x. x.pool) xs;
          order = record self.old.order { waits = record self.old.order.waits { pools = map (λ x. x.waiters) xs } };
        } }
    {
        self.resources.become_pools(kept, numbers);
    }

    /// The data queues become as those are that have these numbers among others, of each of which the configuration says the same.
    pub fn become_data_queues(&mut self, kept: &Interned<Dtq>, numbers: &[u32])
        requires kept { (xs : _) × AreNumbersOf kept.now numbers.now xs × (map (λ q. q.setup) xs ≡ self.old.data_queues) }
        ensures { (xs : _) → AreNumbersOf kept.now numbers.now xs → self.new ≡ record self.old {
          contents = map (λ q. q.values) xs;
          order = record self.old.order {
            waits = record self.old.order.waits {
              senders = map (λ q. q.senders) xs;
              receivers = map (λ q. q.receivers) xs;
            };
          };
        } }
    {
        self.resources.become_data_queues(kept, numbers);
    }

    /// The ready queues, the spin locks and as many processors become as others are.
    pub fn put_rest(&mut self, ready: &ReadyQueues, dispatch: &Dispatch, spins: &Spins)
        requires { length self.old.processors ≡ length dispatch.now.processors }
        ensures { self.new ≡ record self.old {
          processors = dispatch.now.processors;
          due = dispatch.now.due;
          holders = spins.now;
          order = record self.old.order { ready = ready.now.lists };
        } }
    {
        self.ready.copy_from(ready);
        self.dispatch.copy_from(dispatch);
        self.spins.copy_from(spins);
    }
}
