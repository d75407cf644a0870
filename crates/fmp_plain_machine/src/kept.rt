//! What the machine keeps at boot, by what the configuration says.
ghost use Rattle.std.specs.Prelude.{◌≡◌, ◌≤◌, false, None, length, map, replicate};
ghost use Rattle.fmp_rules.specs.World.{resting};
ghost use Rattle.fmp_rules.specs.Boot.{phase_left};

use arrayvec::ArrayVec;
use fmp_rules::{
    Alarm, AlarmSetup, Cyclic, CyclicSetup, Eventflag, EventflagSetup, Pool, PoolSetup, Semaphore,
    SemaphoreSetup, TaskRecord, TaskSetup,
};

/// What is kept of a setup.
pub(crate) trait KeptOf<S> {
    ghost kept: { S → Self };

    /// What is kept of this one.
    fn kept_of(setup: &S) -> Self
        ensures { result ≡ kept setup.now };
}

/// What is kept of each of these, in their order.
pub(crate) fn each<S, T: KeptOf<S> + Default + Drop, const N: usize>(setups: &[S]) -> ArrayVec<T, N>
    requires { length setups.now ≤ N }
    ensures { result.items ≡ map T.kept setups.now }
{
    let mut list = ArrayVec::new();
    for setup in setups {
        list.push(T::kept_of(setup));
    }
    list
}

/// So many copies of an item.
pub(crate) fn copies<T: Copy + Default + Drop, const N: usize>(
    count: usize,
    item: T,
) -> ArrayVec<T, N>
    requires { count ≤ N }
    ensures { result.items ≡ replicate count item }
{
    let mut list = ArrayVec::new();
    for _index in 0..count {
        list.push(item);
    }
    list
}

/// A task is dormant, at the initial processor of its class.
impl KeptOf<TaskSetup> for TaskRecord {
    ghost kept = { resting };

    fn kept_of(setup: &TaskSetup) -> TaskRecord {
        TaskRecord::resting(setup)
    }
}

/// No task waits.
impl KeptOf<TaskSetup> for Option<u64> {
    ghost kept = { λ s. None };

    fn kept_of(_setup: &TaskSetup) -> Option<u64> {
        None
    }
}

/// No task has a number yet.
impl KeptOf<TaskSetup> for u64 {
    ghost kept = { λ s. 0 };

    fn kept_of(_setup: &TaskSetup) -> u64 {
        0
    }
}

impl KeptOf<SemaphoreSetup> for Semaphore {
    ghost kept = { λ s. record { setup = s; count = s.initial } };

    fn kept_of(setup: &SemaphoreSetup) -> Semaphore {
        Semaphore {
            setup: *setup,
            count: setup.initial,
        }
    }
}

impl KeptOf<EventflagSetup> for Eventflag {
    ghost kept = { λ s. record { setup = s; pattern = s.initial } };

    fn kept_of(setup: &EventflagSetup) -> Eventflag {
        Eventflag {
            setup: *setup,
            pattern: setup.initial,
        }
    }
}

/// No block is handed out.
impl KeptOf<PoolSetup> for Pool {
    ghost kept = { λ s. record { setup = s; handed = replicate 64 false } };

    fn kept_of(setup: &PoolSetup) -> Pool {
        Pool {
            setup: *setup,
            handed: [false; 64],
        }
    }
}

impl KeptOf<CyclicSetup> for Cyclic {
    ghost kept = { λ s. record { setup = s; assigned = s.class.initial } };

    fn kept_of(setup: &CyclicSetup) -> Cyclic {
        Cyclic {
            setup: *setup,
            assigned: setup.class.initial,
        }
    }
}

/// The ticks left of a cyclic handler, if it is started at boot.
impl KeptOf<CyclicSetup> for Option<u64> {
    ghost kept = { phase_left };

    fn kept_of(setup: &CyclicSetup) -> Option<u64> {
        setup.starts.then(|| u64::from(setup.phase) + 1)
    }
}

impl KeptOf<AlarmSetup> for Alarm {
    ghost kept = { λ s. record { setup = s; assigned = s.class.initial } };

    fn kept_of(setup: &AlarmSetup) -> Alarm {
        Alarm {
            setup: *setup,
            assigned: setup.class.initial,
        }
    }
}

/// No alarm is started at boot.
impl KeptOf<AlarmSetup> for Option<u64> {
    ghost kept = { λ s. None };

    fn kept_of(_setup: &AlarmSetup) -> Option<u64> {
        None
    }
}
