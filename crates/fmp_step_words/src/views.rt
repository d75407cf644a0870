//! What is told of a machine between two events, besides what the calls look up.
ghost use Rattle.std.specs.Prelude.{◌≡◌, ◌≤◌, [], None, false, slice_get};
ghost use Rattle.fmp_codes.specs.declared.numbers.Pri.{Pri as AnyPri};
ghost use Rattle.fmp_rules.specs.World.{item};
ghost use Rattle.fmp_rules.specs.Objects.{values, pool};

use crate::objects::Objects;
use arrayvec::ArrayVec;
use fmp_codes::{Object, Pri, Proc, Runner, Task};
use fmp_rules::Pool;

/// A machine that also shows what no call looks up.
pub trait Views: Objects {
    /// The ready tasks of a priority on a processor, in their precedence.
    fn ready(&self, p: Proc, priority: Pri) -> ArrayVec<Task, 64>
        ensures { let w = Self.world self.now in result.items ≡ Self.ordering.ready w.order w.tasks p priority };

    /// Whether tasks of a priority are ready on a processor. It may say so where none is; it does not say no where one is.
    fn may_have_ready(&self, p: Proc, priority: Pri) -> bool
        ensures { let w = Self.world self.now in result ≡ false → Self.ordering.ready w.order w.tasks p priority ≡ [] };

    /// Whether tasks of a priority or of one after it are ready on a processor, likewise.
    fn may_have_ready_from(&self, p: Proc, priority: Pri) -> bool
        ensures { let w = Self.world self.now in result ≡ false → (x : AnyPri) → priority.number ≤ x.number → Self.ordering.ready w.order w.tasks p x ≡ [] };

    /// The handlers that are due on a processor, the running one first.
    fn due(&self, p: Proc) -> ArrayVec<Runner, 64>
        ensures { result.items ≡ item [] (Self.world self.now).due p.number };

    /// The ticks left of a task's wait, where it is timed.
    fn wait_left(&self, t: Task) -> Option<u64>
        ensures { result ≡ item None (Self.world self.now).waits_left t.number };

    /// The ticks left of a cyclic handler, where it is started.
    fn cyclic_left(&self, c: Object) -> Option<u64>
        ensures { result ≡ item None (Self.world self.now).cyclics_left c.number };

    /// The ticks left of an alarm, where it is started.
    fn alarm_left(&self, a: Object) -> Option<u64>
        ensures { result ≡ item None (Self.world self.now).alarms_left a.number };

    /// The value at a place after the oldest one of a data queue, if there are so many.
    fn value(&self, d: Object, index: usize) -> Option<i64>
        ensures { result ≡ slice_get (values (Self.world self.now) d) index };

    /// A pool, with a mark for each block that is handed out.
    fn pool(&self, m: Object) -> Pool
        ensures { result ≡ pool (Self.world self.now) m };
}
