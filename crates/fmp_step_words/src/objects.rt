//! What a machine has to do, so that the calls on objects and ticks can be made on it.
ghost use Rattle.std.specs.Prelude.{◌≡◌, ◌≤◌, ◌<◌, ◌≤ℤ◌, pos, IsTrue, [], ◌∷◌, ◌++◌, length};
ghost use Rattle.fmp_rules.specs.World.{item, first, rest};
ghost use Rattle.fmp_rules.specs.Objects.{semaphore, eventflag, data_queue, values, free_block, cyclic, alarm, holder};
ghost use Rattle.fmp_rules.specs.Ordering.{queue};
ghost use Rattle.fmp_rules.specs.SyncCalls.{with_count, with_pattern};
ghost use Rattle.fmp_rules.specs.BufferCalls.{with_values, with_handed, is_handed};
ghost use Rattle.fmp_rules.specs.TimeCalls.{with_cyclic_left, with_alarm_left, with_cyclic_at, with_alarm_at};
ghost use Rattle.fmp_rules.specs.SpinCalls.{taken, without_handler};
ghost use Rattle.fmp_rules.specs.Tick.{counted_down, expired, tasks_expired, with_due};

use crate::words::Words;
use arrayvec::ArrayVec;
use fmp_codes::{Object, Proc, Runner, Task};
use fmp_rules::{Alarm, Cyclic, DataQueueSetup, Eventflag, QueueKind, Semaphore, Timer};

/// A machine that also shows the objects and the time of a state of the definitions, and changes them by their words.
pub trait Objects: Words {
    // ---- waiting

    /// The task that comes first in a queue of an object.
    fn first_waiter(&self, kind: QueueKind, o: Object) -> Option<Task>
        ensures { result ≡ first (queue Self.ordering (Self.world self.now) kind o) };

    /// The tasks that wait in a queue of an object, in their order.
    fn waiters(&self, kind: QueueKind, o: Object) -> ArrayVec<Task, 64>
        ensures { result.items ≡ queue Self.ordering (Self.world self.now) kind o };

    // ---- semaphores

    /// How many semaphores there are.
    fn semaphore_count(&self) -> usize
        ensures value { result ≡ length (Self.world self.now).semaphores }
        ensures few { result ≤ 32 };

    /// A semaphore.
    fn semaphore(&self, s: Object) -> Semaphore
        ensures { result ≡ semaphore (Self.world self.now) s };

    /// Changes the count of a semaphore.
    fn set_count(&mut self, s: Object, count: u16)
        ensures state { Self.world self.new ≡ with_count (Self.world self.old) s count }
        ensures room { Self.room self.new ≡ Self.room self.old };

    // ---- eventflags

    /// How many eventflags there are.
    fn eventflag_count(&self) -> usize
        ensures value { result ≡ length (Self.world self.now).eventflags }
        ensures few { result ≤ 32 };

    /// An eventflag.
    fn eventflag(&self, f: Object) -> Eventflag
        ensures { result ≡ eventflag (Self.world self.now) f };

    /// Changes the pattern of an eventflag.
    fn set_pattern(&mut self, f: Object, pattern: u32)
        ensures state { Self.world self.new ≡ with_pattern (Self.world self.old) f pattern }
        ensures room { Self.room self.new ≡ Self.room self.old };

    // ---- data queues

    /// How many data queues there are.
    fn data_queue_count(&self) -> usize
        ensures value { result ≡ length (Self.world self.now).data_queues }
        ensures few { result ≤ 32 };

    /// What the configuration says of a data queue.
    fn data_queue(&self, d: Object) -> DataQueueSetup
        ensures { result ≡ data_queue (Self.world self.now) d };

    /// How many values there are in a data queue.
    fn value_count(&self, d: Object) -> usize
        ensures value { result ≡ length (values (Self.world self.now) d) }
        ensures within { result ≤ (data_queue (Self.world self.now) d).capacity };

    /// The oldest value of a data queue.
    fn first_value(&self, d: Object) -> Option<i64>
        ensures { result ≡ first (values (Self.world self.now) d) };

    /// Takes the oldest value out of a data queue, if there is one.
    fn drop_value(&mut self, d: Object)
        ensures state { Self.world self.new ≡ with_values (Self.world self.old) d (rest (values (Self.world self.old) d)) }
        ensures room { Self.room self.new ≡ Self.room self.old };

    /// Puts a value last into a data queue that has a place for it.
    fn add_value(&mut self, d: Object, value: i64)
        requires { length (values (Self.world self.old) d) < (data_queue (Self.world self.old) d).capacity }
        ensures state { Self.world self.new ≡ with_values (Self.world self.old) d (values (Self.world self.old) d ++ value ∷ []) }
        ensures room { Self.room self.new ≡ Self.room self.old };

    // ---- pools

    /// How many pools there are.
    fn pool_count(&self) -> usize
        ensures value { result ≡ length (Self.world self.now).pools }
        ensures few { result ≤ 32 };

    /// The least block of a pool that is not handed out.
    fn free_block(&self, m: Object) -> Option<u8>
        ensures value { result ≡ free_block (Self.world self.now) m };

    /// Whether an argument is the number of a block of a pool that is handed out.
    fn is_handed(&self, m: Object, block: i32) -> bool
        ensures value { result ≡ is_handed (Self.world self.now) m block }
        ensures few { IsTrue result → block ≤ℤ pos 63 };

    /// Marks a block of a pool as handed out or as free.
    fn set_handed(&mut self, m: Object, block: u8, handed: bool)
        ensures state { Self.world self.new ≡ with_handed (Self.world self.old) m block handed }
        ensures room { Self.room self.new ≡ Self.room self.old };

    // ---- cyclic handlers

    /// How many cyclic handlers there are.
    fn cyclic_count(&self) -> usize
        ensures value { result ≡ length (Self.world self.now).cyclics }
        ensures few { result ≤ 32 };

    /// A cyclic handler.
    fn cyclic(&self, c: Object) -> Cyclic
        ensures { result ≡ cyclic (Self.world self.now) c };

    /// Starts a cyclic handler with so many ticks left, or stops it.
    fn set_cyclic_left(&mut self, c: Object, left: Option<u64>)
        ensures state { Self.world self.new ≡ with_cyclic_left (Self.world self.old) c left }
        ensures room { Self.room self.new ≡ Self.room self.old };

    /// Assigns a cyclic handler to a processor.
    fn assign_cyclic(&mut self, c: Object, p: Proc)
        ensures state { Self.world self.new ≡ with_cyclic_at (Self.world self.old) c p }
        ensures room { Self.room self.new ≡ Self.room self.old };

    // ---- alarms

    /// How many alarms there are.
    fn alarm_count(&self) -> usize
        ensures value { result ≡ length (Self.world self.now).alarms }
        ensures few { result ≤ 32 };

    /// An alarm.
    fn alarm(&self, a: Object) -> Alarm
        ensures { result ≡ alarm (Self.world self.now) a };

    /// Starts an alarm with so many ticks left, or stops it.
    fn set_alarm_left(&mut self, a: Object, left: Option<u64>)
        ensures state { Self.world self.new ≡ with_alarm_left (Self.world self.old) a left }
        ensures room { Self.room self.new ≡ Self.room self.old };

    /// Assigns an alarm to a processor.
    fn assign_alarm(&mut self, a: Object, p: Proc)
        ensures state { Self.world self.new ≡ with_alarm_at (Self.world self.old) a p }
        ensures room { Self.room self.new ≡ Self.room self.old };

    // ---- spin locks

    /// How many spin locks there are.
    fn spin_lock_count(&self) -> usize
        ensures value { result ≡ length (Self.world self.now).holders }
        ensures few { result ≤ 32 };

    /// The processor that holds a spin lock.
    fn holder(&self, l: Object) -> Option<Proc>
        ensures { result ≡ holder (Self.world self.now) l };

    /// Lets a processor take a spin lock and enter the CPU-locked state.
    fn take_lock(&mut self, p: Proc, l: Object)
        ensures state { Self.world self.new ≡ taken (Self.world self.old) p l }
        ensures room { Self.room self.new ≡ Self.room self.old };

    // ---- time

    /// Which processors' ticks count.
    fn timer(&self) -> Timer
        ensures { result ≡ (Self.world self.now).timer };

    /// Lowers the counts of ticks that a tick on a processor counts for.
    fn count_down(&mut self, p: Proc)
        ensures state { Self.world self.new ≡ counted_down (Self.world self.old) p }
        ensures room { Self.room self.new ≡ Self.room self.old };

    /// The tasks whose waits have 0 ticks left, in the order in which the waits began.
    fn expired_waits(&self) -> ArrayVec<Task, 64>
        ensures { let w = Self.world self.now in result.items ≡ tasks_expired w.waits_left (Self.ordering.timed w.order w.waits_left) };

    /// The alarms that have 0 ticks left, in the order of their numbers.
    fn expired_alarms(&self) -> ArrayVec<Object, 32>
        ensures { let w = Self.world self.now in result.items ≡ expired w.alarms_left w.alarms };

    /// The cyclic handlers that have 0 ticks left, in the order of their numbers.
    fn expired_cyclics(&self) -> ArrayVec<Object, 32>
        ensures { let w = Self.world self.now in result.items ≡ expired w.cyclics_left w.cyclics };

    /// Lets a handler become the last that is due on a processor.
    fn add_due(&mut self, p: Proc, handler: Runner)
        requires { length (item [] (Self.world self.old).due p.number) < 64 }
        ensures state { Self.world self.new ≡ with_due (Self.world self.old) p handler }
        ensures room { Self.room self.new ≡ Self.room self.old };

    /// Lets the handler that runs on a processor be due no longer.
    fn end_handler(&mut self, p: Proc)
        ensures state { Self.world self.new ≡ without_handler (Self.world self.old) p }
        ensures room { Self.room self.new ≡ Self.room self.old };
}
