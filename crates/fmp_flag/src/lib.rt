//! Eventflags with their wait queues.
//!
//! Contracts see an eventflag as its record, which has the setup and the pattern, and the list of its waiters in the order of
//! the setup. The words change one of these and say exactly how. The operations are what the calls on eventflags do to an
//! eventflag itself, and tell whom they release; what each task waits for is told by who keeps it. Tasks that wait only for
//! what is not set do so after each of them. No call allocates.
#![tactic(auto)]

ghost use Rattle.std.specs.Prelude.{◌≡◌, List, map, []};
ghost use Rattle.fmp_kernel_parts.specs.Digests.{seed, told};
ghost use Rattle.fmp_kernel_parts.specs.Tasks.{AreDistinct};
ghost use Rattle.fmp_waitq.specs.Queue.{task_of, has_waiter, left_by, joined_by, waiter_of};
ghost use Rattle.fmp_flag.specs.Eventflags.{added_eventflag, waiter, with_pattern, WaitsUnmet};
ghost use Rattle.fmp_flag.specs.declared.wanted.Wanted.{Wanted as AnyWanted};

mod operations;
mod serving;
mod wanted;

use arrayvec::ArrayVec;
use fmp_codes::{Pri, Task};
use fmp_interned::{Value, part_hash};
use fmp_kernel_parts::{Digest, Part, ToDigest};
use fmp_kernel_same::Same;
use fmp_rules::{Eventflag, EventflagSetup};
use fmp_waitq::WaitQueue;
use std::alloc::AllocError;
use std::marker::Model;
pub use wanted::Wanted;

/// An eventflag, and the tasks that wait for it in the order that its setup says.
#[derive(Drop)]
pub struct Flag {
    setup: EventflagSetup,
    pattern: u32,
    queue: WaitQueue,
}

impl Model for Flag {
    ghost use Rattle.std.specs.Prelude.{◌≡◌};
    ghost use Rattle.fmp_flag.specs.Eventflags.{EventflagState};

    ghost Value = { EventflagState };

    ghost view = { λ a. record { eventflag = record { setup = a.setup; pattern = a.pattern }; waiters = a.queue.waiters } };

    ghost invariant = { λ a. a.queue.order ≡ a.setup.order };
}

impl Flag {
    /// An eventflag with its first pattern, for which nobody waits.
    pub fn new(setup: EventflagSetup) -> Self
        ensures { result ≡ record { eventflag = record { setup = setup; pattern = setup.initial }; waiters = [] } }
    {
        Flag {
            setup,
            pattern: setup.initial,
            queue: WaitQueue::new(setup.order),
        }
    }

    /// Its setup and its pattern.
    pub fn eventflag(&self) -> Eventflag
        ensures { result ≡ self.now.eventflag }
    {
        Eventflag {
            setup: self.setup,
            pattern: self.pattern,
        }
    }

    /// Changes the pattern.
    pub fn set_pattern(&mut self, pattern: u32)
        ensures { self.new ≡ with_pattern self.old pattern }
    {
        self.pattern = pattern;
    }

    /// A task joins the waiters with this priority, and leaves the place where it stood, if any.
    pub fn place(&mut self, task: Task, priority: Pri)
        ensures { let order = self.old.eventflag.setup.order in
            self.new ≡ record self.old { waiters = joined_by (waiter_of order task priority) self.old.waiters } }
    {
        self.queue.place(task, priority);
    }

    /// A task does not wait any more. Tells whether it did.
    pub fn leave(&mut self, task: Task) -> bool
        ensures waiters { self.new ≡ record self.old { waiters = left_by task self.old.waiters } }
        ensures there { result ≡ has_waiter task self.old.waiters }
        ensures unmet { (ws : List AnyWanted) → WaitsUnmet ws self.old → WaitsUnmet ws self.new }
    {
        self.queue.leave(task)
    }

    /// The task that waits first.
    pub fn first(&self) -> Option<Task>
        ensures { result ≡ waiter self.now }
    {
        self.queue.first()
    }

    /// The waiting tasks in their order.
    pub fn list(&self) -> ArrayVec<Task, 64>
        ensures tasks { result.items ≡ map task_of self.now.waiters }
        ensures distinct { AreDistinct (map task_of self.now.waiters) }
    {
        self.queue.list()
    }
}

impl Part for Flag {
    ghost fits = { λ a b. Unit {0} };

    fn is_same(&self, other: &Self) -> bool {
        self.pattern == other.pattern
            && self.queue.is_same(&other.queue)
            && self.setup.is_same(&other.setup)
    }

    fn copy_from(&mut self, other: &Self) {
        self.setup = other.setup;
        self.pattern = other.pattern;
        self.queue.copy_from(&other.queue);
    }
}

impl ToDigest for Flag {
    ghost digested = { λ s sum. added_eventflag s sum };

    fn add_to(&self, digest: &mut Digest) {
        digest.add(u64::from(self.pattern));
        self.queue.add_to(digest);
    }
}

impl Value for Flag {
    ghost hashed = { λ f. told (added_eventflag f seed) };

    fn is_same(&self, other: &Self) -> bool {
        Part::is_same(self, other)
    }

    fn hash(&self) -> u64 {
        part_hash(self)
    }

    fn another(&self) -> Result<Self, AllocError> {
        let mut other = Flag::new(self.setup);
        other.copy_from(self);
        Ok(other)
    }
}
