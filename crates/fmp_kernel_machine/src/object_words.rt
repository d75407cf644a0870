//! The words of the definitions about objects and time, on the kernel.
use crate::machine::KernelMachine;
use arrayvec::ArrayVec;
use fmp_codes::{Object, Proc, Runner, Task};
use fmp_rules::{Alarm, Cyclic, DataQueueSetup, Eventflag, QueueKind, Semaphore, Timer};
use fmp_step_words::Objects;

impl Objects for KernelMachine {
    #[tactic(auto, unfolding(fmp_kernel_order::specs::Queues::listed))]
    fn first_waiter(&self, kind: QueueKind, o: Object) -> Option<Task> {
        self.resources.first_waiter(kind, o)
    }

    #[tactic(auto, unfolding(fmp_kernel_order::specs::Queues::listed))]
    fn waiters(&self, kind: QueueKind, o: Object) -> ArrayVec<Task, 64> {
        self.resources.waiters(kind, o)
    }

    fn semaphore_count(&self) -> usize {
        self.resources.semaphore_count()
    }

    fn semaphore(&self, s: Object) -> Semaphore {
        self.resources.semaphore(s)
    }

    fn set_count(&mut self, s: Object, count: u16) {
        self.resources.set_count(s, count);
    }

    fn eventflag_count(&self) -> usize {
        self.resources.eventflag_count()
    }

    fn eventflag(&self, f: Object) -> Eventflag {
        self.resources.eventflag(f)
    }

    fn set_pattern(&mut self, f: Object, pattern: u32) {
        self.resources.set_pattern(f, pattern);
    }

    fn data_queue_count(&self) -> usize {
        self.resources.data_queue_count()
    }

    fn data_queue(&self, d: Object) -> DataQueueSetup {
        self.resources.data_queue(d)
    }

    fn value_count(&self, d: Object) -> usize {
        self.resources.value_count(d)
    }

    fn first_value(&self, d: Object) -> Option<i64> {
        self.resources.first_value(d)
    }

    fn drop_value(&mut self, d: Object) {
        self.resources.drop_value(d);
    }

    fn add_value(&mut self, d: Object, value: i64) {
        self.resources.add_value(d, value);
    }

    fn pool_count(&self) -> usize {
        self.resources.pool_count()
    }

    fn free_block(&self, m: Object) -> Option<u8> {
        self.resources.free_block(m)
    }

    fn is_handed(&self, m: Object, block: i32) -> bool {
        self.resources.is_handed(m, block)
    }

    fn set_handed(&mut self, m: Object, block: u8, handed: bool) {
        self.resources.set_handed(m, block, handed);
    }

    fn cyclic_count(&self) -> usize {
        self.assigned.cyclic_count()
    }

    fn cyclic(&self, c: Object) -> Cyclic {
        self.assigned.cyclic(c)
    }

    fn set_cyclic_left(&mut self, c: Object, left: Option<u64>) {
        self.assigned.set_cyclic_left(c, left);
    }

    fn assign_cyclic(&mut self, c: Object, p: Proc) {
        self.assigned.assign_cyclic(c, p);
    }

    fn alarm_count(&self) -> usize {
        self.assigned.alarm_count()
    }

    fn alarm(&self, a: Object) -> Alarm {
        self.assigned.alarm(a)
    }

    fn set_alarm_left(&mut self, a: Object, left: Option<u64>) {
        self.assigned.set_alarm_left(a, left);
    }

    fn assign_alarm(&mut self, a: Object, p: Proc) {
        self.assigned.assign_alarm(a, p);
    }

    fn spin_lock_count(&self) -> usize {
        self.spins.len()
    }

    fn holder(&self, l: Object) -> Option<Proc> {
        self.spins.holder(l)
    }

    fn take_lock(&mut self, p: Proc, l: Object) {
        self.dispatch.lock(p);
        self.spins.take(l, p);
    }

    fn timer(&self) -> Timer {
        self.assigned.timer()
    }

    #[tactic(auto, unfolding(fmp_rules::specs::Tick::counted_down))]
    fn count_down(&mut self, p: Proc) {
        self.assigned.count_down(p);
    }

    #[tactic(auto, unfolding(fmp_kernel_order::specs::Queues::listed))]
    fn expired_waits(&self) -> ArrayVec<Task, 64> {
        self.assigned.expired_waits()
    }

    fn expired_alarms(&self) -> ArrayVec<Object, 32> {
        self.assigned.expired_alarms()
    }

    fn expired_cyclics(&self) -> ArrayVec<Object, 32> {
        self.assigned.expired_cyclics()
    }

    fn add_due(&mut self, p: Proc, handler: Runner) {
        self.dispatch.add_due(p, handler);
    }

    fn end_handler(&mut self, p: Proc) {
        self.dispatch.return_handler(p);
    }
}
