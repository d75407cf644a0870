//! The operations on a semaphore alone, which the kernel does not call: a call's rule stands in `fmp_rules/specs`. They are
//! this part's own surface.
ghost use Rattle.std.specs.Prelude.{◌≡◌, true, false, nat_lt};
ghost use Rattle.fmp_waitq.specs.Queue.{has_waiter, put_ranked, joined_by, waiter_of};
ghost use Rattle.fmp_sem.specs.Semaphores.{signalled, polled, WaitsAtZero};

use crate::Sem;
use fmp_codes::{Pri, Task};

/// What a signal to a semaphore did.
#[derive(Clone, Copy)]
pub enum Signal {
    /// The first task that waited does not wait any more.
    Released(Task),
    /// Nobody waited, and the count is one more.
    Counted,
    /// Nobody waited, and the count is the greatest already.
    Over,
}

impl Sem {
    /// A signal: the first task that waits is released, or else the count rises, unless it is the greatest already.
    pub fn signal(&mut self) -> Signal
        ensures state { self.new ≡ (signalled self.old).0 }
        ensures answer { result ≡ (signalled self.old).1 }
        ensures at_zero { WaitsAtZero self.old → WaitsAtZero self.new }
    {
        if let Some(task) = self.first() {
            self.leave(task);
            return Signal::Released(task);
        }
        if self.setup.most <= self.count {
            return Signal::Over;
        }
        self.count += 1;
        Signal::Counted
    }

    /// Takes one of the count, if it is above 0. Tells whether it was.
    pub fn poll(&mut self) -> bool
        ensures state { self.new ≡ polled self.old }
        ensures had { result ≡ nat_lt 0 self.old.semaphore.count }
        ensures at_zero { WaitsAtZero self.old → WaitsAtZero self.new }
    {
        let had = self.count > 0;
        self.count = self.count.saturating_sub(1);
        had
    }

    /// A task of this priority that does not wait joins the waiters.
    pub fn join(&mut self, task: Task, priority: Pri)
        requires { has_waiter task self.old.waiters ≡ false }
        ensures waiters { let order = self.old.semaphore.setup.order in
            self.new ≡ record self.old { waiters = put_ranked (waiter_of order task priority) self.old.waiters } }
        ensures at_zero { self.old.semaphore.count ≡ 0 → WaitsAtZero self.new }
    {
        self.queue.join(task, priority);
    }

    /// A task that waits leaves its place and joins the waiters anew, with this priority.
    pub fn reorder(&mut self, task: Task, priority: Pri)
        requires { has_waiter task self.old.waiters ≡ true }
        ensures waiters { let order = self.old.semaphore.setup.order in
            self.new ≡ record self.old { waiters = joined_by (waiter_of order task priority) self.old.waiters } }
        ensures at_zero { WaitsAtZero self.old → WaitsAtZero self.new }
    {
        self.queue.reorder(task, priority);
    }
}
