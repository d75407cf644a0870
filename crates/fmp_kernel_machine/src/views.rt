//! What the kernel shows.
use crate::machine::KernelMachine;
use arrayvec::ArrayVec;
use fmp_codes::{Object, Pri, Proc, Runner, Task};
use fmp_rules::Pool;
use fmp_step_words::Views;

impl Views for KernelMachine {
    fn ready(&self, p: Proc, priority: Pri) -> ArrayVec<Task, 64> {
        KernelMachine::ready(self, p, priority)
    }

    fn may_have_ready(&self, p: Proc, priority: Pri) -> bool {
        self.ready_word(p) >> priority.index() & 1 == 1
    }

    fn may_have_ready_from(&self, p: Proc, priority: Pri) -> bool {
        self.ready_word(p) >> priority.index() != 0
    }

    fn due(&self, p: Proc) -> ArrayVec<Runner, 64> {
        KernelMachine::due(self, p)
    }

    fn wait_left(&self, t: Task) -> Option<u64> {
        KernelMachine::wait_left(self, t)
    }

    fn cyclic_left(&self, c: Object) -> Option<u64> {
        KernelMachine::cyclic_left(self, c)
    }

    fn alarm_left(&self, a: Object) -> Option<u64> {
        KernelMachine::alarm_left(self, a)
    }

    fn value(&self, d: Object, index: usize) -> Option<i64> {
        KernelMachine::value(self, d, index)
    }

    fn pool(&self, m: Object) -> Pool {
        KernelMachine::pool(self, m)
    }
}
