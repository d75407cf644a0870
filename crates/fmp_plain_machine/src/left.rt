//! The ticks left, where there are some.
ghost use Rattle.std.specs.Prelude.{◌≡◌, None};
ghost use Rattle.fmp_rules.specs.World.{item};

use crate::machine::PlainMachine;
use fmp_codes::{Object, Task};

impl PlainMachine {
    /// The ticks left of a task's wait, if it is timed.
    pub fn wait_left(&self, t: Task) -> Option<u64>
        ensures { result ≡ item None self.now.waits_left t.number }
    {
        self.waits_left.at(t.index())
    }

    /// The ticks left of a cyclic handler, if it is started.
    pub fn cyclic_left(&self, c: Object) -> Option<u64>
        ensures { result ≡ item None self.now.cyclics_left c.number }
    {
        self.handlers.cyclics_left.at(c.index())
    }

    /// The ticks left of an alarm, if it is started.
    pub fn alarm_left(&self, a: Object) -> Option<u64>
        ensures { result ≡ item None self.now.alarms_left a.number }
    {
        self.handlers.alarms_left.at(a.index())
    }
}
