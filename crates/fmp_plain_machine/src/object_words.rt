//! The words of the definitions about objects and time, on the plain machine.
ghost use Rattle.std.specs.Prelude.{◌≡◌, slice_get};
ghost use Rattle.fmp_rules.specs.Objects.{pool, values};

use crate::blocks;
use crate::counts::{lower, objects_over};
use crate::groups::Group;
use crate::machine::PlainMachine;
use arrayvec::ArrayVec;
use fmp_codes::{Object, Proc, Runner, Task};
use fmp_rules::{Alarm, Cyclic, DataQueueSetup, Eventflag, Pool, QueueKind, Semaphore, Timer};
use fmp_step_words::{Objects, Words};

impl PlainMachine {
    /// A pool.
    pub fn pool(&self, m: Object) -> Pool
        ensures { result ≡ pool self.now m }
    {
        let pool = self.resources.pools.as_slice().get(m.index()).copied();
        pool.unwrap_or(Pool::default())
    }

    /// The value at a place after the oldest one of a data queue, if there are so many.
    pub fn value(&self, d: Object, index: usize) -> Option<i64>
        ensures { result ≡ slice_get (values self.now d) index }
    {
        self.resources.data_queues.value(d, index)
    }
}

impl Objects for PlainMachine {
    #[tactic(auto, unfolding(fmp_rules::specs::Arrivals::numbered))]
    fn first_waiter(&self, kind: QueueKind, o: Object) -> Option<Task> {
        let order = self.order_in(kind, o);
        self.first_of(Group::Queue(kind, o, order))
    }

    #[tactic(auto, unfolding(fmp_rules::specs::Arrivals::numbered))]
    fn waiters(&self, kind: QueueKind, o: Object) -> ArrayVec<Task, 64> {
        let order = self.order_in(kind, o);
        self.members(Group::Queue(kind, o, order))
    }

    fn semaphore_count(&self) -> usize {
        self.resources.semaphores.len()
    }

    fn semaphore(&self, s: Object) -> Semaphore {
        let semaphore = self.resources.semaphores.as_slice().get(s.index()).copied();
        semaphore.unwrap_or(Semaphore::default())
    }

    fn set_count(&mut self, s: Object, count: u16) {
        if let Some(semaphore) = self.resources.semaphores.get_mut(s.index()) {
            semaphore.count = count;
        }
    }

    fn eventflag_count(&self) -> usize {
        self.resources.eventflags.len()
    }

    fn eventflag(&self, f: Object) -> Eventflag {
        let eventflag = self.resources.eventflags.as_slice().get(f.index()).copied();
        eventflag.unwrap_or(Eventflag::default())
    }

    fn set_pattern(&mut self, f: Object, pattern: u32) {
        if let Some(eventflag) = self.resources.eventflags.get_mut(f.index()) {
            eventflag.pattern = pattern;
        }
    }

    fn data_queue_count(&self) -> usize {
        self.resources.data_queues.len()
    }

    fn data_queue(&self, d: Object) -> DataQueueSetup {
        self.resources.data_queues.setup(d)
    }

    fn value_count(&self, d: Object) -> usize {
        self.resources.data_queues.value_count(d)
    }

    fn first_value(&self, d: Object) -> Option<i64> {
        self.resources.data_queues.first_value(d)
    }

    fn drop_value(&mut self, d: Object) {
        self.resources.data_queues.drop_value(d);
    }

    fn add_value(&mut self, d: Object, value: i64) {
        self.resources.data_queues.add_value(d, value);
    }

    fn pool_count(&self) -> usize {
        self.resources.pools.len()
    }

    fn free_block(&self, m: Object) -> Option<u8> {
        let pool = self.pool(m);
        blocks::free_block(&pool)
    }

    fn is_handed(&self, m: Object, block: i32) -> bool {
        let pool = self.pool(m);
        blocks::is_handed(&pool, block)
    }

    fn set_handed(&mut self, m: Object, block: u8, handed: bool) {
        let changed = blocks::with_mark(self.pool(m), block, handed);
        if let Some(pool) = self.resources.pools.get_mut(m.index()) {
            *pool = changed;
        }
    }

    fn cyclic_count(&self) -> usize {
        self.handlers.cyclics.len()
    }

    fn cyclic(&self, c: Object) -> Cyclic {
        let cyclic = self.handlers.cyclics.as_slice().get(c.index()).copied();
        cyclic.unwrap_or(Cyclic::default())
    }

    fn set_cyclic_left(&mut self, c: Object, left: Option<u64>) {
        self.handlers.cyclics_left.set(c.index(), left);
    }

    fn assign_cyclic(&mut self, c: Object, p: Proc) {
        if let Some(cyclic) = self.handlers.cyclics.get_mut(c.index()) {
            cyclic.assigned = p;
        }
    }

    fn alarm_count(&self) -> usize {
        self.handlers.alarms.len()
    }

    fn alarm(&self, a: Object) -> Alarm {
        let alarm = self.handlers.alarms.as_slice().get(a.index()).copied();
        alarm.unwrap_or(Alarm::default())
    }

    fn set_alarm_left(&mut self, a: Object, left: Option<u64>) {
        self.handlers.alarms_left.set(a.index(), left);
    }

    fn assign_alarm(&mut self, a: Object, p: Proc) {
        if let Some(alarm) = self.handlers.alarms.get_mut(a.index()) {
            alarm.assigned = p;
        }
    }

    fn spin_lock_count(&self) -> usize {
        self.resources.holders.len()
    }

    fn holder(&self, l: Object) -> Option<Proc> {
        let holder = self.resources.holders.as_slice().get(l.index()).copied();
        holder.flatten()
    }

    fn take_lock(&mut self, p: Proc, l: Object) {
        self.set_locked(p, true);
        if let Some(holder) = self.resources.holders.get_mut(l.index()) {
            *holder = Some(p);
        }
    }

    fn timer(&self) -> Timer {
        self.handlers.timer
    }

    #[tactic(auto, unfolding(fmp_rules::specs::Tick::counted_down))]
    fn count_down(&mut self, p: Proc) {
        let timer = self.handlers.timer;
        lower(timer, p, self.tasks.records(), &mut self.waits_left);
        self.handlers.count_down(p);
    }

    #[tactic(auto, unfolding(fmp_rules::specs::Arrivals::numbered), using(crate::proofs::Expired::over_in_order))]
    fn expired_waits(&self) -> ArrayVec<Task, 64> {
        self.waits_over()
    }

    fn expired_alarms(&self) -> ArrayVec<Object, 32> {
        objects_over(
            self.handlers.alarms.len(),
            self.handlers.alarms_left.as_slice(),
        )
    }

    fn expired_cyclics(&self) -> ArrayVec<Object, 32> {
        objects_over(
            self.handlers.cyclics.len(),
            self.handlers.cyclics_left.as_slice(),
        )
    }

    fn add_due(&mut self, p: Proc, handler: Runner) {
        if let Some(due) = self.due.get_mut(p.index()) {
            due.add(handler);
        }
    }

    fn end_handler(&mut self, p: Proc) {
        if let Some(due) = self.due.get_mut(p.index()) {
            due.end_first();
        }
    }
}
