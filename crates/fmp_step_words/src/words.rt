//! What a machine has to do, so that every call can be made on it.
ghost use Rattle.std.specs.Prelude.{◌≡◌, ◌+◌, ◌≤◌, ◌<◌, ℕ, length};
ghost use Rattle.fmp_rules.specs.World.{World, task, processor, with_processor, handler, first};
ghost use Rattle.fmp_rules.specs.Ordering.{Ordering, top, with_task, place, end_wait, begin_wait, requeue};
ghost use Rattle.fmp_rules.specs.Processors.{unlocked, holds_lock};

use fmp_codes::{Pri, Proc, Runner, Task};
use fmp_rules::{Limits, Processor, TaskRecord, Wait};

/// A machine that shows a state of the definitions, over a way of its own to keep what came before what, and changes it by
/// their words.
pub trait Words {
    // What is kept of the order, and how.
    ghost Order: { Type 0 };

    ghost ordering: { Ordering Order };

    // The state that the machine shows.
    ghost world: { Self → World Order };

    // For how many words there is room: a machine that numbers its tasks may run short of numbers. A call and a step ask for
    // 64, as many as there are tasks that one of them may release.
    ghost room: { Self → ℕ };

    /// The record of a task. In TOPPERS/FMP: its TCB.
    fn task(&self, t: Task) -> TaskRecord
        ensures { result ≡ task (world self.now) t };

    /// How many tasks there are.
    fn task_count(&self) -> usize
        ensures value { result ≡ length (world self.now).tasks }
        ensures few { result ≤ 64 };

    /// The record of a processor. In TOPPERS/FMP: its PCB.
    fn processor(&self, p: Proc) -> Processor
        ensures { result ≡ processor (world self.now) p };

    /// How many processors there are.
    fn processor_count(&self) -> usize
        ensures value { result ≡ length (world self.now).processors }
        ensures few { result ≤ 8 };

    /// The handler that is due on a processor, and runs there.
    fn handler(&self, p: Proc) -> Option<Runner>
        ensures { result ≡ handler (world self.now) p };

    /// The task that comes first on a processor. In TOPPERS/FMP: p_schedtsk.
    fn top(&self, p: Proc) -> Option<Task>
        ensures { result ≡ top ordering (world self.now) p };

    /// The first of the ready tasks of a priority on a processor.
    fn first_ready(&self, p: Proc, priority: Pri) -> Option<Task>
        ensures { let w = world self.now in result ≡ first (ordering.ready w.order w.tasks p priority) };

    /// The limits that the configuration sets.
    fn limits(&self) -> Limits
        ensures value { result ≡ (world self.now).limits }
        ensures few { result.priorities ≤ 32 };

    /// Whether a processor holds a spin lock.
    fn holds_lock(&self, p: Proc) -> bool
        ensures { result ≡ holds_lock (world self.now) p };

    /// Changes the record of a processor.
    fn set_processor(&mut self, p: Proc, changed: Processor)
        ensures state { world self.new ≡ with_processor (world self.old) p changed }
        ensures room { room self.new ≡ room self.old };

    /// Lets a processor leave the CPU-locked state and free the spin lock that it holds.
    fn unlock(&mut self, p: Proc)
        ensures state { world self.new ≡ unlocked (world self.old) p }
        ensures room { room self.new ≡ room self.old };

    /// Changes the fields of a task, which keeps its place in every order.
    fn set_task(&mut self, t: Task, changed: TaskRecord)
        ensures state { world self.new ≡ with_task (world self.old) t changed }
        ensures room { room self.new ≡ room self.old };

    /// Changes the fields of a task, which goes last where it is ready then. In TOPPERS/FMP: make_runnable, make_non_runnable.
    fn place(&mut self, t: Task, changed: TaskRecord)
        requires { 0 < room self.old }
        ensures state { world self.new ≡ place ordering (world self.old) t changed }
        ensures room { room self.old ≤ room self.new + 1 };

    /// Ends the wait of a task, if it has one, and changes its fields. It goes last where it is ready then. In TOPPERS/FMP: wait_complete, wait_dequeue_wobj.
    fn end_wait(&mut self, t: Task, changed: TaskRecord)
        requires { 0 < room self.old }
        ensures state { world self.new ≡ end_wait ordering (world self.old) t changed }
        ensures room { room self.old ≤ room self.new + 1 };

    /// Lets a task wait, with so many ticks left or for ever. In TOPPERS/FMP: make_wait, make_wait_tmout.
    fn begin_wait(&mut self, t: Task, wait: Wait, left: Option<u64>)
        requires { 0 < room self.old }
        ensures state { world self.new ≡ begin_wait ordering (world self.old) t wait left }
        ensures room { room self.old ≤ room self.new + 1 };

    /// Changes the fields of a task whose wait stays. It comes last where it is ready or waits in a queue by priority. In TOPPERS/FMP: change_priority.
    fn requeue(&mut self, t: Task, changed: TaskRecord)
        requires room { 0 < room self.old }
        requires wait { changed.wait ≡ (task (world self.old) t).wait }
        ensures state { world self.new ≡ requeue ordering (world self.old) t changed }
        ensures room { room self.old ≤ room self.new + 1 };
}
