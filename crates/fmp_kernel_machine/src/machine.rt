//! The state of the kernel. Where there is none of a number, a read gives a blank record and a write does nothing.
ghost use Rattle.std.specs.Prelude.{◌≡◌, ◌≤◌, ◌-◌, ◌&&◌, true, [], None, is_none, length, slice_get, IfOk, IsTrue, ◌↔◌};
ghost use Rattle.std.specs.List.{list_all};
ghost use Rattle.std.specs.Int.{bit_at};
ghost use Rattle.fmp_codes.specs.declared.numbers.Pri.{Pri as AnyPri};
ghost use Rattle.fmp_codes.specs.declared.numbers.Task.{Task as AnyTask};
ghost use Rattle.fmp_kernel_parts.specs.Lists.{first_of};
ghost use Rattle.fmp_kernel_parts.specs.Tasks.{has_task};
ghost use Rattle.fmp_ready.specs.Queues.{bit_of};
ghost use Rattle.fmp_rules.specs.Boot.{blank};
ghost use Rattle.fmp_rules.specs.Due.{IsNextDue};
ghost use Rattle.fmp_kernel_machine.specs.Alike.{AreAlike};
ghost use Rattle.fmp_rules.specs.Objects.{pool, values};
ghost use Rattle.fmp_rules.specs.World.{item};
ghost use Rattle.fmp_kernel_order.specs.Queues.{listed, no_queues};

use arrayvec::ArrayVec;
use fmp_codes::{Object, Pri, Proc, Runner, Task};
use fmp_dispatch::Dispatch;
use fmp_kernel_assigned::Assigned;
use fmp_kernel_objects::Resources;
use fmp_kernel_parts::Part;
use fmp_kernel_same::Same;
use fmp_ready::ReadyQueues;
use fmp_rules::{Config, Pool};
use fmp_spin::Spins;
use std::alloc::AllocError;
use std::marker::Model;

/// The state of the kernel. Contracts see it as a state of the definitions, over lists.
#[derive(Drop)]
pub struct KernelMachine {
    /// The tasks, the cyclic handlers and the alarms, with the ticks that each has left.
    pub(crate) assigned: Assigned,
    pub(crate) ready: ReadyQueues,
    /// The objects for which tasks wait, with their wait queues.
    pub(crate) resources: Resources,
    pub(crate) dispatch: Dispatch,
    pub(crate) spins: Spins,
    /// The greatest number of queued wakeups.
    pub(crate) most_wakeups: u16,
    /// The greatest priority.
    pub(crate) last_priority: Pri,
}

impl Model for KernelMachine {
    ghost use Rattle.fmp_rules.specs.World.{World};
    ghost use Rattle.fmp_kernel_order.specs.Queues.{Queues};

    ghost Value = { World Queues };

    ghost view = { λ a. record {
      timer = a.assigned.timer;
      limits = record { wakeups = a.most_wakeups; priorities = a.last_priority.number };
      tasks = a.assigned.tasks;
      waits_left = a.assigned.waits_left;
      processors = a.dispatch.processors;
      due = a.dispatch.due;
      semaphores = a.resources.semaphores;
      eventflags = a.resources.eventflags;
      data_queues = a.resources.data_queues;
      contents = a.resources.contents;
      pools = a.resources.pools;
      cyclics = a.assigned.cyclics;
      cyclics_left = a.assigned.cyclics_left;
      alarms = a.assigned.alarms;
      alarms_left = a.assigned.alarms_left;
      holders = a.spins;
      order = record { ready = a.ready.lists; waits = a.resources.waits; timed = a.assigned.timed };
    } };
}

impl KernelMachine {
    /// The kernel of a configuration, on which every task is dormant and no processor runs one. It takes all the memory that
    /// it will ever need, or fails where there is not enough.
    pub fn blank(config: &Config) -> Result<KernelMachine, AllocError>
        ensures { IfOk result (λ m. m ≡ blank (no_queues config.now) config.now) }
    {
        let limits = config.limits();
        Ok(KernelMachine {
            assigned: Assigned::new(config),
            ready: ReadyQueues::new(),
            resources: Resources::new(config)?,
            dispatch: Dispatch::new(config.processors()),
            spins: Spins::new(config.spin_locks()),
            most_wakeups: limits.wakeups,
            last_priority: Pri::new(limits.priorities),
        })
    }

    /// Whether there are as many processors and objects of each kind, and the same data queues, so that this machine becomes as
    /// the other is without taking memory.
    pub fn is_alike(&self, other: &KernelMachine) -> bool
        ensures { IsTrue result ↔ AreAlike self.now other.now }
    {
        self.dispatch.count() == other.dispatch.count() && self.resources.is_alike(&other.resources)
    }

    /// The ready tasks of a priority on a processor, in their precedence.
    #[tactic(auto, unfolding(fmp_kernel_order::specs::Queues::listed))]
    pub fn ready(&self, p: Proc, priority: Pri) -> ArrayVec<Task, 64>
        ensures { result.items ≡ listed.ready self.now.order self.now.tasks p priority }
    {
        self.ready.list(p, priority)
    }

    /// A bit for each priority of a processor, the lowest for the highest, set where a task of it is ready.
    #[tactic(auto, unfolding(fmp_kernel_order::specs::Queues::listed))]
    pub fn ready_word(&self, p: Proc) -> u32
        ensures { (priority : AnyPri) → bit_at result (priority.number - 1) ≡ bit_of (listed.ready self.now.order self.now.tasks p priority) }
    {
        self.ready.word(p)
    }

    /// The ticks left of a task's wait, where it is timed.
    pub fn wait_left(&self, t: Task) -> Option<u64>
        ensures { result ≡ item None self.now.waits_left t.number }
    {
        self.assigned.wait_left(t)
    }

    /// The ticks left of a cyclic handler, where it is started.
    pub fn cyclic_left(&self, c: Object) -> Option<u64>
        ensures { result ≡ item None self.now.cyclics_left c.number }
    {
        self.assigned.cyclic_left(c)
    }

    /// The ticks left of an alarm, where it is started.
    pub fn alarm_left(&self, a: Object) -> Option<u64>
        ensures { result ≡ item None self.now.alarms_left a.number }
    {
        self.assigned.alarm_left(a)
    }

    /// The value at a place after the oldest one of a data queue, if there are so many.
    pub fn value(&self, d: Object, index: usize) -> Option<i64>
        ensures { result ≡ slice_get (values self.now d) index }
    {
        self.resources.value(d, index)
    }

    /// The handlers that are due on a processor, the running one first.
    pub fn due(&self, p: Proc) -> ArrayVec<Runner, 64>
        ensures { result.items ≡ item [] self.now.due p.number }
    {
        self.dispatch.due(p)
    }

    /// A pool, with a mark for each block that is handed out.
    pub fn pool(&self, m: Object) -> Pool
        ensures { result ≡ pool self.now m }
    {
        self.resources.pool(m)
    }

    /// The least ticks left for which a tick on a processor counts, if there are some.
    pub fn next_due(&self, p: Proc) -> Option<u64>
        requires { (t : AnyTask) → has_task t self.now.order.timed ≡ true → t.number ≤ length self.now.tasks }
        ensures { IsNextDue self.now p result }
    {
        self.assigned.next_due(p)
    }

    /// Whether no wait is timed, and no cyclic handler and no alarm is started.
    pub fn is_untimed(&self) -> bool
        requires { (t : AnyTask) → has_task t self.now.order.timed ≡ true → t.number ≤ length self.now.tasks }
        ensures { result ≡ (list_all is_none self.now.waits_left && list_all is_none self.now.cyclics_left && list_all is_none self.now.alarms_left) }
    {
        self.assigned.is_untimed()
    }
}

impl Part for KernelMachine {
    ghost fits = { AreAlike };

    #[tactic(auto, using(fmp_codes::proofs::Same::priorities_same))]
    fn is_same(&self, other: &Self) -> bool {
        self.assigned.is_same(&other.assigned)
            && self.dispatch.is_same(&other.dispatch)
            && self.ready.is_same(&other.ready)
            && self.resources.is_same(&other.resources)
            && self.spins.is_same(&other.spins)
            && self.most_wakeups == other.most_wakeups
            && self.last_priority.is_same(&other.last_priority)
    }

    fn copy_from(&mut self, other: &Self) {
        self.assigned.copy_from(&other.assigned);
        self.ready.copy_from(&other.ready);
        self.resources.copy_from(&other.resources);
        self.dispatch.copy_from(&other.dispatch);
        self.spins.copy_from(&other.spins);
        self.most_wakeups = other.most_wakeups;
        self.last_priority = other.last_priority;
    }
}
