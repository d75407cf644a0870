//! Tasks before any of them is started.
ghost use Rattle.std.specs.Prelude.{◌≡◌, ◌≤◌, length, map};
ghost use Rattle.fmp_rules.specs.World.{resting};

use arrayvec::ArrayVec;
use fmp_rules::{TaskRecord, TaskSetup};

/// The records of dormant tasks, in the order of their setups.
pub(crate) fn all_resting(setups: &[TaskSetup]) -> ArrayVec<TaskRecord, 64>
    requires { length setups.now ≤ 64 }
    ensures { result.items ≡ map resting setups.now }
{
    let mut records = ArrayVec::new();
    for setup in setups {
        records.push(TaskRecord::resting(setup));
    }
    records
}
