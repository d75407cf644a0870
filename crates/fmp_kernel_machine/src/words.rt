//! The words of the definitions, on the kernel.
ghost use Rattle.fmp_kernel_order.specs.Queues.{Queues, listed};

use crate::machine::KernelMachine;
use fmp_codes::{Pri, Proc, Runner, Task};
use fmp_rules::{Limits, Processor, TaskRecord, Wait};
use fmp_step_words::{Overview, Tops, Words};

impl Words for KernelMachine {
    ghost Order = { Queues };

    ghost ordering = { listed };

    ghost world = { λ w. w };

    // A list has no numbers to run out of.
    ghost room = { λ w. 64 };

    fn task(&self, t: Task) -> TaskRecord {
        self.assigned.task(t)
    }

    fn task_count(&self) -> usize {
        self.assigned.task_count()
    }

    fn processor(&self, p: Proc) -> Processor {
        self.dispatch.processor(p)
    }

    fn processor_count(&self) -> usize {
        self.dispatch.count()
    }

    fn handler(&self, p: Proc) -> Option<Runner> {
        self.dispatch.handler(p)
    }

    #[tactic(auto, unfolding(fmp_kernel_order::specs::Queues::listed))]
    fn top(&self, p: Proc) -> Option<Task> {
        self.ready.top(p)
    }

    #[tactic(auto, unfolding(fmp_kernel_order::specs::Queues::listed))]
    fn first_ready(&self, p: Proc, priority: Pri) -> Option<Task> {
        self.ready.first(p, priority)
    }

    fn limits(&self) -> Limits {
        Limits {
            wakeups: self.most_wakeups,
            priorities: self.last_priority.number,
        }
    }

    fn holds_lock(&self, p: Proc) -> bool {
        self.spins.holds(p)
    }

    fn set_processor(&mut self, p: Proc, changed: Processor) {
        self.dispatch.set_processor(p, changed);
    }

    fn unlock(&mut self, p: Proc) {
        self.dispatch.unlock(p);
        self.spins.free(p);
    }

    fn set_task(&mut self, t: Task, changed: TaskRecord) {
        self.assigned.set_task(t, changed);
    }

    #[tactic(auto, using(crate::proofs::Going::arrive_after))]
    fn place(&mut self, t: Task, changed: TaskRecord) {
        self.make_room(t, &changed);
        self.assigned.set_task(t, changed);
        self.arrive(t, &changed);
    }

    #[tactic(auto, unfolding(fmp_kernel_order::specs::Queues::listed))]
    fn end_wait(&mut self, t: Task, changed: TaskRecord) {
        let task = self.assigned.task(t);
        self.resources.leave(t, task.wait);
        self.assigned.end_wait(t);
        self.place(t, changed);
    }

    #[tactic(auto, unfolding(fmp_kernel_order::specs::Queues::listed))]
    fn begin_wait(&mut self, t: Task, wait: Wait, left: Option<u64>) {
        let task = self.assigned.task(t);
        self.depart(t, &task);
        self.assigned.set_task(
            t,
            TaskRecord {
                wait: Some(wait),
                ..task
            },
        );
        self.resources.join(t, task.priority, wait);
        self.assigned.begin_wait(t, left);
    }

    fn requeue(&mut self, t: Task, changed: TaskRecord) {
        match changed.wait {
            None => self.place(t, changed),
            Some(wait) => {
                self.assigned.set_task(t, changed);
                self.rejoin(t, changed.priority, wait);
            }
        }
    }
}

impl Overview for KernelMachine {
    #[tactic(auto, unfolding(fmp_kernel_order::specs::Queues::listed))]
    fn tops(&self) -> Tops {
        Tops::new(self.ready.tops(), self.dispatch.count())
    }

    #[tactic(auto, unfolding(fmp_kernel_order::specs::Queues::listed))]
    fn may_have_expired(&self) -> bool {
        self.assigned.may_have_expired()
    }
}
