//! What a configuration says, which never changes: it is compared, and told apart by nothing.
ghost use Rattle.std.specs.Prelude.{◌≡◌, IsTrue};

use crate::same::Same;
use fmp_rules::{
    AlarmSetup, CyclicSetup, DataQueueSetup, EventflagSetup, PoolSetup, SemaphoreSetup, TaskSetup,
    Timer,
};

impl Same for Timer {
    fn is_same(&self, other: &Self) -> bool {
        match (*self, *other) {
            (Timer::Local, Timer::Local) => true,
            (Timer::Global(one), Timer::Global(other)) => one.is_same(&other),
            _ => false,
        }
    }
}

impl Same for TaskSetup {
    #[tactic(auto, using(fmp_setup::proofs::Same::tasks_decide))]
    fn is_same(&self, other: &Self) -> bool {
        *self == *other
    }
}

impl Same for SemaphoreSetup {
    fn is_same(&self, other: &Self) -> bool {
        *self == *other
    }
}

impl Same for EventflagSetup {
    fn is_same(&self, other: &Self) -> bool {
        *self == *other
    }
}

impl Same for DataQueueSetup {
    fn is_same(&self, other: &Self) -> bool {
        *self == *other
    }
}

impl Same for PoolSetup {
    fn is_same(&self, other: &Self) -> bool {
        *self == *other
    }
}

impl Same for CyclicSetup {
    #[tactic(auto, using(fmp_setup::proofs::Same::cyclics_decide))]
    fn is_same(&self, other: &Self) -> bool {
        *self == *other
    }
}

impl Same for AlarmSetup {
    #[tactic(auto, using(fmp_setup::proofs::Same::alarms_decide))]
    fn is_same(&self, other: &Self) -> bool {
        *self == *other
    }
}
