//! Semaphores with their wait queues.
//!
//! Contracts see a semaphore as its record, which has the setup and the count, and the list of its waiters in the order of
//! the setup. The words change one of these and say exactly how. The operations are what the calls on semaphores do to a
//! semaphore itself, and tell whom they release; tasks that wait only while the count is 0 do so after each of them. No call
//! allocates.
#![tactic(auto)]

ghost use Rattle.std.specs.Prelude.{◌≡◌, map, []};
ghost use Rattle.fmp_kernel_parts.specs.Digests.{seed, told};
ghost use Rattle.fmp_kernel_parts.specs.Tasks.{AreDistinct};
ghost use Rattle.fmp_waitq.specs.Queue.{task_of, has_waiter, left_by, joined_by, waiter_of};
ghost use Rattle.fmp_sem.specs.Semaphores.{added_semaphore, waiter, WaitsAtZero};

mod operations;

use arrayvec::ArrayVec;
use fmp_codes::{Pri, Task};
use fmp_interned::{Value, part_hash};
use fmp_kernel_parts::{Digest, Part, ToDigest};
use fmp_kernel_same::Same;
use fmp_rules::{Semaphore, SemaphoreSetup};
use fmp_waitq::WaitQueue;
pub use operations::Signal;
use std::alloc::AllocError;
use std::marker::Model;

/// A semaphore, and the tasks that wait for it in the order that its setup says.
#[derive(Drop)]
pub struct Sem {
    setup: SemaphoreSetup,
    count: u16,
    queue: WaitQueue,
}

impl Model for Sem {
    ghost use Rattle.std.specs.Prelude.{◌≡◌};
    ghost use Rattle.fmp_sem.specs.Semaphores.{SemaphoreState};

    ghost Value = { SemaphoreState };

    ghost view = { λ a. record { semaphore = record { setup = a.setup; count = a.count }; waiters = a.queue.waiters } };

    ghost invariant = { λ a. a.queue.order ≡ a.setup.order };
}

impl Sem {
    /// A semaphore with its first count, for which nobody waits.
    pub fn new(setup: SemaphoreSetup) -> Self
        ensures { result ≡ record { semaphore = record { setup = setup; count = setup.initial }; waiters = [] } }
    {
        Sem {
            setup,
            count: setup.initial,
            queue: WaitQueue::new(setup.order),
        }
    }

    /// Its setup and its count.
    pub fn semaphore(&self) -> Semaphore
        ensures { result ≡ self.now.semaphore }
    {
        Semaphore {
            setup: self.setup,
            count: self.count,
        }
    }

    /// Changes the count.
    pub fn set_count(&mut self, count: u16)
        ensures { self.new ≡ record self.old { semaphore = record self.old.semaphore { count = count } } }
    {
        self.count = count;
    }

    /// A task joins the waiters with this priority, and leaves the place where it stood, if any.
    pub fn place(&mut self, task: Task, priority: Pri)
        ensures { let order = self.old.semaphore.setup.order in
            self.new ≡ record self.old { waiters = joined_by (waiter_of order task priority) self.old.waiters } }
    {
        self.queue.place(task, priority);
    }

    /// A task does not wait any more. Tells whether it did.
    pub fn leave(&mut self, task: Task) -> bool
        ensures waiters { self.new ≡ record self.old { waiters = left_by task self.old.waiters } }
        ensures there { result ≡ has_waiter task self.old.waiters }
        ensures at_zero { WaitsAtZero self.old → WaitsAtZero self.new }
    {
        self.queue.leave(task)
    }

    /// The task that waits first.
    pub fn first(&self) -> Option<Task>
        ensures { result ≡ waiter self.now }
    {
        self.queue.first()
    }

    /// The waiting tasks in their order.
    pub fn list(&self) -> ArrayVec<Task, 64>
        ensures tasks { result.items ≡ map task_of self.now.waiters }
        ensures distinct { AreDistinct (map task_of self.now.waiters) }
    {
        self.queue.list()
    }
}

impl Part for Sem {
    ghost fits = { λ a b. Unit {0} };

    fn is_same(&self, other: &Self) -> bool {
        self.count == other.count
            && self.queue.is_same(&other.queue)
            && self.setup.is_same(&other.setup)
    }

    fn copy_from(&mut self, other: &Self) {
        self.setup = other.setup;
        self.count = other.count;
        self.queue.copy_from(&other.queue);
    }
}

impl ToDigest for Sem {
    ghost digested = { λ s sum. added_semaphore s sum };

    fn add_to(&self, digest: &mut Digest) {
        digest.add(u64::from(self.count));
        self.queue.add_to(digest);
    }
}

impl Value for Sem {
    ghost hashed = { λ s. told (added_semaphore s seed) };

    fn is_same(&self, other: &Self) -> bool {
        Part::is_same(self, other)
    }

    fn hash(&self) -> u64 {
        part_hash(self)
    }

    fn another(&self) -> Result<Self, AllocError> {
        let mut other = Sem::new(self.setup);
        other.copy_from(self);
        Ok(other)
    }
}
