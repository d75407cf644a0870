//! What a configuration says of the tasks and objects.
ghost use Rattle.std.specs.Prelude.{◌≡◌};
ghost use Rattle.fmp_setup.specs.Setup.{has_member};

use fmp_codes::{Pri, Proc};

/// Where the tasks and objects of a class may be, and where they begin.
#[derive(Clone, Copy, PartialEq, Eq)]
pub struct Class {
    pub initial: Proc,
    /// For each processor, whether it is one of the class.
    pub members: [bool; 8],
}

impl Class {
    /// Whether a processor is one of the class.
    pub fn has(&self, p: Proc) -> bool
        ensures { result ≡ has_member self.now p }
    {
        self.members[p.index()]
    }
}

/// How tasks wait on an object: first come first (`TA_TFIFO`), or by priority (`TA_TPRI`).
#[derive(Clone, Copy, PartialEq, Eq)]
pub enum Order {
    First,
    Priority,
}

/// The processors whose ticks count: each for what is assigned to it, or one for all.
#[derive(Clone, Copy, PartialEq, Eq)]
pub enum Timer {
    Local,
    Global(Proc),
}

/// The greatest number of queued wakeups, and the greatest priority.
#[derive(Clone, Copy, PartialEq, Eq)]
pub struct Limits {
    pub wakeups: u16,
    pub priorities: u8,
}

/// A task: the number of its function, and whether it is started at boot (`TA_ACT`).
#[derive(Clone, Copy, PartialEq, Eq)]
pub struct TaskSetup {
    pub class: Class,
    pub main: u8,
    pub priority: Pri,
    pub starts: bool,
}

/// A semaphore, with its count at boot and its greatest count.
#[derive(Clone, Copy, PartialEq, Eq)]
pub struct SemaphoreSetup {
    pub order: Order,
    pub initial: u16,
    pub most: u16,
}

/// An eventflag: whether several tasks may wait (`TA_WMUL`), whether a release clears it (`TA_CLR`), and its pattern at boot.
#[derive(Clone, Copy, PartialEq, Eq)]
pub struct EventflagSetup {
    pub order: Order,
    pub many: bool,
    pub clears: bool,
    pub initial: u32,
}

/// A data queue. The order is that of its senders; receivers wait first come first.
#[derive(Clone, Copy, PartialEq, Eq)]
pub struct DataQueueSetup {
    pub order: Order,
    pub capacity: u16,
}

/// A fixed-sized memory pool, with its number of blocks.
#[derive(Clone, Copy, PartialEq, Eq)]
pub struct PoolSetup {
    pub order: Order,
    pub blocks: u8,
}

/// A cyclic handler: the number of its function, its times in ticks, and whether it is started at boot (`TA_STA`).
#[derive(Clone, Copy, PartialEq, Eq)]
pub struct CyclicSetup {
    pub class: Class,
    pub handler: u8,
    pub period: u32,
    pub phase: u32,
    pub starts: bool,
}

/// An alarm handler, with the number of its function.
#[derive(Clone, Copy, PartialEq, Eq)]
pub struct AlarmSetup {
    pub class: Class,
    pub handler: u8,
}

impl Default for Class {
    ghost use Rattle.std.specs.Prelude.{◌≡◌};
    ghost use Rattle.fmp_setup.specs.Setup.{no_class};

    /// What stands where there is no class.
    fn default() -> Self
        ensures { result ≡ no_class }
    {
        Class {
            initial: Proc::new(1),
            members: [false; 8],
        }
    }
}

impl Default for SemaphoreSetup {
    ghost use Rattle.std.specs.Prelude.{◌≡◌};
    ghost use Rattle.fmp_setup.specs.Setup.{no_semaphore};

    /// What stands where there is no semaphore.
    fn default() -> Self
        ensures { result ≡ no_semaphore }
    {
        SemaphoreSetup {
            order: Order::First,
            initial: 0,
            most: 1,
        }
    }
}

impl Default for EventflagSetup {
    ghost use Rattle.std.specs.Prelude.{◌≡◌};
    ghost use Rattle.fmp_setup.specs.Setup.{no_eventflag};

    /// What stands where there is no eventflag.
    fn default() -> Self
        ensures { result ≡ no_eventflag }
    {
        EventflagSetup {
            order: Order::First,
            many: false,
            clears: false,
            initial: 0,
        }
    }
}

impl Default for DataQueueSetup {
    ghost use Rattle.std.specs.Prelude.{◌≡◌};
    ghost use Rattle.fmp_setup.specs.Setup.{no_data_queue};

    /// What stands where there is no data queue.
    fn default() -> Self
        ensures { result ≡ no_data_queue }
    {
        DataQueueSetup {
            order: Order::First,
            capacity: 0,
        }
    }
}

impl Default for PoolSetup {
    ghost use Rattle.std.specs.Prelude.{◌≡◌};
    ghost use Rattle.fmp_setup.specs.Setup.{no_pool};

    /// What stands where there is no pool.
    fn default() -> Self
        ensures { result ≡ no_pool }
    {
        PoolSetup {
            order: Order::First,
            blocks: 1,
        }
    }
}

impl Default for CyclicSetup {
    ghost use Rattle.std.specs.Prelude.{◌≡◌};
    ghost use Rattle.fmp_setup.specs.Setup.{no_cyclic};

    /// What stands where there is no cyclic handler.
    fn default() -> Self
        ensures { result ≡ no_cyclic }
    {
        CyclicSetup {
            class: Class::default(),
            handler: 1,
            period: 1,
            phase: 0,
            starts: false,
        }
    }
}

impl Default for AlarmSetup {
    ghost use Rattle.std.specs.Prelude.{◌≡◌};
    ghost use Rattle.fmp_setup.specs.Setup.{no_alarm};

    /// What stands where there is no alarm handler.
    fn default() -> Self
        ensures { result ≡ no_alarm }
    {
        AlarmSetup {
            class: Class::default(),
            handler: 1,
        }
    }
}
