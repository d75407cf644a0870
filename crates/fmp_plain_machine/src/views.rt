//! What the plain machine shows.
use crate::machine::PlainMachine;
use arrayvec::ArrayVec;
use fmp_codes::{Object, Pri, Proc, Runner, Task};
use fmp_rules::Pool;
use fmp_step_words::Views;

impl Views for PlainMachine {
    fn ready(&self, p: Proc, priority: Pri) -> ArrayVec<Task, 64> {
        PlainMachine::ready(self, p, priority)
    }

    // It has no word that tells whether there is one: whoever asks looks at the tasks.
    fn may_have_ready(&self, p: Proc, priority: Pri) -> bool {
        true
    }

    fn may_have_ready_from(&self, p: Proc, priority: Pri) -> bool {
        true
    }

    fn due(&self, p: Proc) -> ArrayVec<Runner, 64> {
        let mut due = ArrayVec::new();
        due.try_extend_from_slice(PlainMachine::due(self, p))
            .unwrap();
        due
    }

    fn wait_left(&self, t: Task) -> Option<u64> {
        PlainMachine::wait_left(self, t)
    }

    fn cyclic_left(&self, c: Object) -> Option<u64> {
        PlainMachine::cyclic_left(self, c)
    }

    fn alarm_left(&self, a: Object) -> Option<u64> {
        PlainMachine::alarm_left(self, a)
    }

    fn value(&self, d: Object, index: usize) -> Option<i64> {
        PlainMachine::value(self, d, index)
    }

    fn pool(&self, m: Object) -> Pool {
        PlainMachine::pool(self, m)
    }
}
