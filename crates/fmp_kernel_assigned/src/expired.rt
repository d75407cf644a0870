//! What is among the first so many of its kind.
ghost use Rattle.std.specs.Prelude.{◌≡◌, ◌-◌, ◌≤◌, filter, length, nat_lt};

use arrayvec::ArrayVec;
use fmp_codes::{Object, Task};

/// Those of some tasks that are among the first so many, in their order.
pub(crate) fn tasks_among(count: usize, tasks: &[Task]) -> ArrayVec<Task, 64>
    requires { length tasks.now ≤ 64 }
    ensures { result.items ≡ filter (λ t. nat_lt (t.number - 1) count) tasks.now }
{
    let mut among = ArrayVec::new();
    for t in tasks {
        if t.index() < count {
            among.push(*t);
        }
    }
    among
}

/// Those of some objects that are among the first so many, in their order.
pub(crate) fn objects_among(count: usize, objects: &[Object]) -> ArrayVec<Object, 32>
    requires { length objects.now ≤ 32 }
    ensures { result.items ≡ filter (λ o. nat_lt (o.number - 1) count) objects.now }
{
    let mut among = ArrayVec::new();
    for o in objects {
        if o.index() < count {
            among.push(*o);
        }
    }
    among
}
