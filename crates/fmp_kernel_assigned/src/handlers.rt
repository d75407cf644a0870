//! The handlers at boot, and where they are assigned.
ghost use Rattle.std.specs.Prelude.{◌≡◌, ℕ, ◌≤◌, ◌<◌, None, [], length, map, slice_index_or, slice_set};
ghost use Rattle.fmp_kernel_assigned.specs.Starting.{first_cyclic, first_alarm, started_at};

use arrayvec::ArrayVec;
use fmp_codes::Object;
use fmp_rules::{Alarm, AlarmSetup, Cyclic, CyclicSetup};
use fmp_time::{Item, Timers};

/// The cyclic handlers of these setups, at the initial processors of their classes.
pub(crate) fn first_cyclics(setups: &[CyclicSetup]) -> ArrayVec<Cyclic, 32>
    requires { length setups.now ≤ 32 }
    ensures { result.items ≡ map first_cyclic setups.now }
{
    let mut cyclics = ArrayVec::new();
    for setup in setups {
        cyclics.push(Cyclic {
            setup: *setup,
            assigned: setup.class.initial,
        });
    }
    cyclics
}

/// The alarms of these setups, at the initial processors of their classes.
pub(crate) fn first_alarms(setups: &[AlarmSetup]) -> ArrayVec<Alarm, 32>
    requires { length setups.now ≤ 32 }
    ensures { result.items ≡ map first_alarm setups.now }
{
    let mut alarms = ArrayVec::new();
    for setup in setups {
        alarms.push(Alarm {
            setup: *setup,
            assigned: setup.class.initial,
        });
    }
    alarms
}

/// The timers with those of these cyclic handlers that are started at boot.
pub(crate) fn first_timers(cyclics: &[Cyclic]) -> Timers
    requires { length cyclics.now ≤ 32 }
    ensures left { (k : ℕ) → k < 128 → slice_index_or result.left k None ≡ started_at cyclics.now (length cyclics.now) k }
    ensures all { length result.left ≡ 128 }
    ensures waits { result.waits ≡ [] }
{
    let mut timers = Timers::new();
    for (index, cyclic) in cyclics.iter().enumerate() {
        if cyclic.setup.starts {
            let item = Item::Cyclic(Object::from_index(index));
            timers.arm(cyclic.assigned, item, u64::from(cyclic.setup.phase) + 1);
        }
    }
    timers
}

/// Changes the cyclic handler at a place, if there is one.
pub(crate) fn put_cyclic(cyclics: &mut ArrayVec<Cyclic, 32>, index: usize, changed: Cyclic)
    ensures { cyclics.new.items ≡ slice_set cyclics.old.items index changed }
{
    if let Some(cyclic) = cyclics.get_mut(index) {
        *cyclic = changed;
    }
}

/// Changes the alarm at a place, if there is one.
pub(crate) fn put_alarm(alarms: &mut ArrayVec<Alarm, 32>, index: usize, changed: Alarm)
    ensures { alarms.new.items ≡ slice_set alarms.old.items index changed }
{
    if let Some(alarm) = alarms.get_mut(index) {
        *alarm = changed;
    }
}

/// Cyclic handlers become as others are.
pub(crate) fn copy_cyclics(cyclics: &mut ArrayVec<Cyclic, 32>, others: &ArrayVec<Cyclic, 32>)
    ensures { cyclics.new.items ≡ others.now.items }
{
    cyclics.clear();
    cyclics.try_extend_from_slice(others.as_slice()).unwrap();
}

/// Alarms become as others are.
pub(crate) fn copy_alarms(alarms: &mut ArrayVec<Alarm, 32>, others: &ArrayVec<Alarm, 32>)
    ensures { alarms.new.items ≡ others.now.items }
{
    alarms.clear();
    alarms.try_extend_from_slice(others.as_slice()).unwrap();
}
