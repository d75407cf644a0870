//! The words of the definitions, on the plain machine.
ghost use Rattle.std.specs.Prelude.{◌≡◌, ◌-◌, ◌^◌, ◌≤◌, [], length};
ghost use Rattle.fmp_rules.specs.Arrivals.{Arrivals, numbered};
ghost use Rattle.fmp_rules.specs.World.{item};

use crate::groups::Group;
use crate::locks::{free, holds};
use crate::machine::PlainMachine;
use crate::tops::is_runnable;
use arrayvec::ArrayVec;
use fmp_codes::{Pri, Proc, Runner, Task};
use fmp_rules::{Limits, Processor, TaskRecord, Wait};
use fmp_step_words::{Overview, Tops, Words};

impl PlainMachine {
    /// The ready tasks of a priority on a processor, in their precedence.
    #[tactic(auto, unfolding(fmp_rules::specs::Arrivals::numbered))]
    pub fn ready(&self, p: Proc, priority: Pri) -> ArrayVec<Task, 64>
        ensures { result.items ≡ numbered.ready self.now.order self.now.tasks p priority }
    {
        self.members(Group::ReadyAt(p, priority))
    }

    /// The handlers that are due on a processor, the running one first.
    pub fn due(&self, p: Proc) -> &[Runner]
        ensures handlers { result.now ≡ item [] self.now.due p.number }
        ensures few { length result.now ≤ 64 }
    {
        match self.due.as_slice().get(p.index()) {
            None => &[],
            Some(due) => due.as_slice(),
        }
    }
}

impl Words for PlainMachine {
    ghost Order = { Arrivals };

    ghost ordering = { numbered };

    ghost world = { λ w. w };

    ghost room = { λ w. 2 ^ 64 - 1 - w.order.next };

    fn task(&self, t: Task) -> TaskRecord {
        self.tasks.record(t)
    }

    fn task_count(&self) -> usize {
        self.tasks.records().len()
    }

    fn processor(&self, p: Proc) -> Processor {
        self.processors
            .as_slice()
            .get(p.index())
            .copied()
            .unwrap_or(Processor::default())
    }

    fn processor_count(&self) -> usize {
        self.processors.len()
    }

    fn handler(&self, p: Proc) -> Option<Runner> {
        let due = self.due.as_slice().get(p.index())?;
        due.head()
    }

    #[tactic(auto, unfolding(fmp_rules::specs::Arrivals::numbered))]
    fn top(&self, p: Proc) -> Option<Task> {
        self.tasks.top(p)
    }

    // What comes first on the processor is the first of its priority, too.
    #[tactic(auto, unfolding(fmp_rules::specs::Arrivals::numbered))]
    fn first_ready(&self, p: Proc, priority: Pri) -> Option<Task> {
        match self.tasks.top(p) {
            Some(t) if self.tasks.priority(t) == priority.number => Some(t),
            _ => self.first_of(Group::ReadyAt(p, priority)),
        }
    }

    fn limits(&self) -> Limits {
        Limits {
            wakeups: self.most_wakeups,
            priorities: self.last_priority.number,
        }
    }

    fn holds_lock(&self, p: Proc) -> bool {
        holds(p, self.resources.holders.as_slice())
    }

    fn set_processor(&mut self, p: Proc, changed: Processor) {
        if let Some(place) = self.processors.get_mut(p.index()) {
            *place = changed;
        }
    }

    fn unlock(&mut self, p: Proc) {
        self.set_locked(p, false);
        free(p, &mut self.resources.holders);
    }

    fn set_task(&mut self, t: Task, changed: TaskRecord) {
        self.tasks.set(t, changed);
    }

    #[tactic(auto, unfolding(fmp_rules::specs::Arrivals::numbered))]
    fn place(&mut self, t: Task, changed: TaskRecord) {
        if is_runnable(&changed) {
            self.put_last(t, changed);
        } else {
            self.set_task(t, changed);
        }
    }

    #[tactic(auto, unfolding(fmp_rules::specs::Arrivals::numbered))]
    fn end_wait(&mut self, t: Task, changed: TaskRecord) {
        self.set_wait_left(t, None);
        self.place(t, changed);
    }

    #[tactic(auto, unfolding(fmp_rules::specs::Arrivals::numbered))]
    fn begin_wait(&mut self, t: Task, wait: Wait, left: Option<u64>) {
        let task = self.task(t);
        self.set_task(
            t,
            TaskRecord {
                wait: Some(wait),
                ..task
            },
        );
        self.set_wait_left(t, left);
        self.join(t);
    }

    #[tactic(auto, unfolding(fmp_rules::specs::Arrivals::numbered))]
    fn requeue(&mut self, t: Task, changed: TaskRecord) {
        match self.queue_order(t) {
            None => self.place(t, changed),
            Some(order) => {
                self.set_task(t, changed);
                self.rejoin(t, order);
            }
        }
    }
}

impl Overview for PlainMachine {
    #[tactic(auto, unfolding(fmp_rules::specs::Arrivals::numbered))]
    fn tops(&self) -> Tops {
        self.tasks.tops(self.processors.len())
    }

    #[tactic(auto, using(crate::proofs::Over::no_task_over, crate::proofs::Over::no_object_over))]
    fn may_have_expired(&self) -> bool {
        self.waits_left.may_be_over() || self.handlers.may_be_over()
    }
}
