//! The records of the machine.
use fmp_codes::{Mode, Object, Pri, Proc, Task};
use fmp_setup::{
    AlarmSetup, Class, CyclicSetup, EventflagSetup, PoolSetup, SemaphoreSetup, TaskSetup,
};

/// What a task waits for, and what it asked.
#[derive(Clone, Copy)]
pub enum Wait {
    Sleep,
    Delay,
    Semaphore(Object),
    /// Until the bits of a pattern are set.
    Eventflag(Object, u32, Mode),
    /// Until a data queue takes a value.
    Send(Object, i64),
    /// Until a data queue gives a value.
    Receive(Object),
    Pool(Object),
}

/// The kinds of queues in which tasks wait. A data queue has two.
#[derive(Clone, Copy)]
pub enum QueueKind {
    Semaphore,
    Eventflag,
    Send,
    Receive,
    Pool,
}

/// A task.
#[derive(Clone, Copy)]
pub struct TaskRecord {
    pub setup: TaskSetup,
    pub assigned: Proc,
    pub priority: Pri,
    /// It is started and not dormant.
    pub active: bool,
    pub wait: Option<Wait>,
    pub suspended: bool,
    /// The number of queued activations.
    pub activations: u8,
    /// The processor on which a queued activation is to start the task, where the activation named one.
    pub kept: Option<Proc>,
    /// The number of queued wakeups.
    pub wakeups: u16,
}

/// A processor.
#[derive(Clone, Copy)]
pub struct Processor {
    /// The task that it runs. In TOPPERS/FMP: p_runtsk.
    pub running: Option<Task>,
    /// It is in the CPU-locked state.
    pub locked: bool,
    /// Its dispatching is disabled. In TOPPERS/FMP: not dspflg.
    pub disabled: bool,
    /// A request to it is pending. In TOPPERS/FMP: the interrupt of a dispatch request, and reqflg.
    pub latch: bool,
}

/// A semaphore, with its count now.
#[derive(Clone, Copy)]
pub struct Semaphore {
    pub setup: SemaphoreSetup,
    pub count: u16,
}

/// An eventflag, with its pattern now.
#[derive(Clone, Copy)]
pub struct Eventflag {
    pub setup: EventflagSetup,
    pub pattern: u32,
}

/// A pool, with a mark for each block that is handed out.
#[derive(Clone, Copy)]
pub struct Pool {
    pub setup: PoolSetup,
    pub handed: [bool; 64],
}

impl Pool {
    ghost use Rattle.std.specs.Prelude.{◌≡◌};
    ghost use Rattle.fmp_rules.specs.Objects.{free_blocks};

    /// How many of its blocks are free.
    pub fn free_blocks(&self) -> u64
        ensures { result ≡ free_blocks self.now }
    {
        let blocks = usize::from(self.setup.blocks);
        self.handed
            .iter()
            .take(blocks)
            .filter(|handed| !**handed)
            .count() as u64
    }
}

/// A cyclic handler, with the processor that it is assigned to now.
#[derive(Clone, Copy)]
pub struct Cyclic {
    pub setup: CyclicSetup,
    pub assigned: Proc,
}

/// An alarm handler, with the processor that it is assigned to now.
#[derive(Clone, Copy)]
pub struct Alarm {
    pub setup: AlarmSetup,
    pub assigned: Proc,
}

impl TaskRecord {
    ghost use Rattle.std.specs.Prelude.{◌≡◌};
    ghost use Rattle.fmp_rules.specs.Tasks.{started, ended};
    ghost use Rattle.fmp_rules.specs.World.{resting};

    /// A dormant task, at the initial processor of its class.
    pub fn resting(setup: &TaskSetup) -> Self
        ensures { result ≡ resting setup.now }
    {
        TaskRecord {
            setup: *setup,
            assigned: setup.class.initial,
            priority: setup.priority,
            active: false,
            wait: None,
            suspended: false,
            activations: 0,
            kept: None,
            wakeups: 0,
        }
    }

    /// The task as it starts on a processor.
    pub fn started(self, p: Proc) -> Self
        ensures { result ≡ started self p }
    {
        TaskRecord {
            assigned: p,
            priority: self.setup.priority,
            active: true,
            wait: None,
            suspended: false,
            wakeups: 0,
            ..self
        }
    }

    /// The task as it ends: dormant, or started anew by a queued activation.
    pub fn ended(self) -> Self
        ensures { result ≡ ended self }
    {
        let over = TaskRecord {
            active: false,
            wait: None,
            suspended: false,
            activations: self.activations.saturating_sub(1),
            kept: None,
            ..self
        };
        if 0 < self.activations {
            over.started(self.kept.unwrap_or(self.assigned))
        } else {
            over
        }
    }
}

impl Default for TaskRecord {
    ghost use Rattle.std.specs.Prelude.{◌≡◌};
    ghost use Rattle.fmp_rules.specs.World.{no_task};

    /// What stands where there is no task.
    fn default() -> Self
        ensures { result ≡ no_task }
    {
        TaskRecord::resting(&TaskSetup {
            class: Class::default(),
            main: 1,
            priority: Pri::new(1),
            starts: false,
        })
    }
}

impl Default for Processor {
    ghost use Rattle.std.specs.Prelude.{◌≡◌};
    ghost use Rattle.fmp_rules.specs.World.{no_processor};

    /// What stands where there is no processor.
    fn default() -> Self
        ensures { result ≡ no_processor }
    {
        Processor {
            running: None,
            locked: false,
            disabled: false,
            latch: false,
        }
    }
}

impl Default for Semaphore {
    ghost use Rattle.std.specs.Prelude.{◌≡◌};
    ghost use Rattle.fmp_rules.specs.Objects.{no_semaphore};

    /// What stands where there is no semaphore.
    fn default() -> Self
        ensures { result ≡ record { setup = no_semaphore; count = 0 } }
    {
        Semaphore {
            setup: SemaphoreSetup::default(),
            count: 0,
        }
    }
}

impl Default for Eventflag {
    ghost use Rattle.std.specs.Prelude.{◌≡◌};
    ghost use Rattle.fmp_rules.specs.Objects.{no_eventflag};

    /// What stands where there is no eventflag.
    fn default() -> Self
        ensures { result ≡ record { setup = no_eventflag; pattern = 0 } }
    {
        Eventflag {
            setup: EventflagSetup::default(),
            pattern: 0,
        }
    }
}

impl Default for Pool {
    ghost use Rattle.std.specs.Prelude.{◌≡◌, false, replicate};
    ghost use Rattle.fmp_rules.specs.Objects.{no_pool};

    /// What stands where there is no pool.
    fn default() -> Self
        ensures { result ≡ record { setup = no_pool; handed = replicate 64 false } }
    {
        Pool {
            setup: PoolSetup::default(),
            handed: [false; 64],
        }
    }
}

impl Default for Cyclic {
    ghost use Rattle.std.specs.Prelude.{◌≡◌};
    ghost use Rattle.fmp_codes.specs.Numbers.{as_proc};
    ghost use Rattle.fmp_rules.specs.Objects.{no_cyclic};

    /// What stands where there is no cyclic handler.
    fn default() -> Self
        ensures { result ≡ record { setup = no_cyclic; assigned = as_proc 1 } }
    {
        Cyclic {
            setup: CyclicSetup::default(),
            assigned: Proc::new(1),
        }
    }
}

impl Default for Alarm {
    ghost use Rattle.std.specs.Prelude.{◌≡◌};
    ghost use Rattle.fmp_codes.specs.Numbers.{as_proc};
    ghost use Rattle.fmp_rules.specs.Objects.{no_alarm};

    /// What stands where there is no alarm.
    fn default() -> Self
        ensures { result ≡ record { setup = no_alarm; assigned = as_proc 1 } }
    {
        Alarm {
            setup: AlarmSetup::default(),
            assigned: Proc::new(1),
        }
    }
}

/// Where a call may come from.
#[derive(Clone, Copy)]
pub enum Context {
    Task,
    Handler,
    Any,
}

/// When a call may be made.
#[derive(Clone, Copy)]
pub struct Rule {
    pub context: Context,
    /// Also in the CPU-locked state.
    pub when_locked: bool,
    /// Only while dispatching is not held.
    pub unheld: bool,
}

impl Rule {
    ghost use Rattle.std.specs.Prelude.{◌≡◌, true};
    ghost use Rattle.fmp_rules.specs.declared.machine.Context.TheVariants.{Handler};
    ghost use Rattle.fmp_rules.specs.Rows.{in_task, anywhere};

    /// That of most calls: from a task, and not in the CPU-locked state.
    pub const fn in_task() -> Rule
        ensures { result ≡ in_task }
    {
        Rule {
            context: Context::Task,
            when_locked: false,
            unheld: false,
        }
    }

    /// From a task and from a handler, also in the CPU-locked state.
    pub const fn anywhere() -> Rule
        ensures { result ≡ anywhere }
    {
        Rule {
            context: Context::Any,
            ..Rule::in_task().when_locked()
        }
    }

    /// The same, but also in the CPU-locked state.
    pub const fn when_locked(self) -> Rule
        ensures { result ≡ record self { when_locked = true } }
    {
        Rule {
            when_locked: true,
            ..self
        }
    }

    /// The same, but from a handler.
    pub const fn in_handler(self) -> Rule
        ensures { result ≡ record self { context = Handler } }
    {
        Rule {
            context: Context::Handler,
            ..self
        }
    }

    /// The same, and where this is so only while dispatching is not held.
    pub const fn unheld_if(self, unheld: bool) -> Rule
        ensures { result ≡ record self { unheld = unheld } }
    {
        Rule { unheld, ..self }
    }
}
