//! Memory pools of blocks of one size: which blocks are handed out, and the tasks that wait for one.
//!
//! Contracts see a pool as what the configuration says of it, a mark for each of 64 blocks, of which it has the first few, and
//! the list of waiters as a wait queue has it, in the order that the configuration says.
//!
//! The marks are the bits of a word, so the least block that is free is found without a loop. No call allocates.
#![tactic(auto)]

ghost use Rattle.std.specs.Prelude.{◌≡◌, ◌≤◌, ◌≤ℤ◌, IfSome, pos, IsTrue, false, [], map, replicate, slice_set};
ghost use Rattle.fmp_kernel_parts.specs.Digests.{seed, told};
ghost use Rattle.fmp_kernel_parts.specs.Tasks.{AreDistinct};
ghost use Rattle.fmp_waitq.specs.Queue.{task_of, has_waiter, left_by, joined_by, waiter_of};
ghost use Rattle.fmp_mpf.specs.MemoryPool.{added_pool, free_block, is_handed, waiter};
ghost use Rattle.fmp_mpf.specs.Operations.{IsServed};

mod marks;
mod operations;

use crate::marks::{all_marks, first_free, is_marked, no_marks, with_mark};
use arrayvec::ArrayVec;
use fmp_codes::{Pri, Task};
use fmp_interned::{Value, part_hash};
use fmp_kernel_parts::{Digest, Part, ToDigest};
use fmp_kernel_same::Same;
use fmp_rules::{Pool, PoolSetup};
use fmp_waitq::WaitQueue;
pub use operations::Given;
use std::alloc::AllocError;
use std::marker::Model;

/// A memory pool with its blocks, and the tasks that wait for one.
#[derive(Drop)]
pub struct Mpf {
    setup: PoolSetup,
    /// A bit for each block, set where it is handed out.
    handed: u64,
    queue: WaitQueue,
}

impl Model for Mpf {
    ghost use Rattle.std.specs.Prelude.{◌≡◌};
    ghost use Rattle.fmp_mpf.specs.Marks.{marks};
    ghost use Rattle.fmp_mpf.specs.MemoryPool.{MemoryPool};

    ghost Value = { MemoryPool };

    ghost view = { λ a. record { pool = record { setup = a.setup; handed = marks a.handed }; waiters = a.queue.waiters } };

    ghost invariant = { λ a. a.queue.order ≡ a.setup.order };
}

impl Mpf {
    /// A pool of which no block is handed out and for which no task waits.
    pub fn new(setup: PoolSetup) -> Self
        ensures { result ≡ record { pool = record { setup = setup; handed = replicate 64 false }; waiters = [] } }
    {
        Mpf {
            setup,
            handed: no_marks(),
            queue: WaitQueue::new(setup.order),
        }
    }

    /// What the configuration says of it.
    pub fn setup(&self) -> PoolSetup
        ensures { result ≡ self.now.pool.setup }
    {
        self.setup
    }

    /// What the configuration says of it, and a mark for each block that is handed out.
    pub fn pool(&self) -> Pool
        ensures { result ≡ self.now.pool }
    {
        Pool {
            setup: self.setup,
            handed: all_marks(self.handed),
        }
    }

    /// The least block that is not handed out.
    pub fn free_block(&self) -> Option<u8>
        ensures value { result ≡ free_block self.now }
        ensures few { IfSome result (λ b. b ≤ 63) }
    {
        first_free(self.handed, self.setup.blocks)
    }

    /// Whether this is the number of a block that is handed out.
    pub fn is_handed(&self, block: i32) -> bool
        ensures value { result ≡ is_handed self.now block }
        ensures few { IsTrue result → block ≤ℤ pos 63 }
    {
        if block < 0 || i32::from(self.setup.blocks) <= block {
            return false;
        }
        is_marked(self.handed, block as u8)
    }

    /// Marks a block as handed out or as free.
    pub fn set_handed(&mut self, block: u8, handed: bool)
        ensures { self.new ≡ record self.old { pool = record self.old.pool { handed = slice_set self.old.pool.handed block handed } } }
    {
        self.handed = with_mark(self.handed, block, handed);
    }

    /// A task of this priority waits for a block, last among its equals. It leaves the place where it stood, if any.
    pub fn place(&mut self, task: Task, priority: Pri)
        ensures { self.new ≡ record self.old { waiters = joined_by (waiter_of self.old.pool.setup.order task priority) self.old.waiters } }
    {
        self.queue.place(task, priority);
    }

    /// A task does not wait for a block any more. Tells whether it did.
    pub fn leave(&mut self, task: Task) -> bool
        ensures waiters { self.new ≡ record self.old { waiters = left_by task self.old.waiters } }
        ensures there { result ≡ has_waiter task self.old.waiters }
        ensures served { IsServed self.old → IsServed self.new }
    {
        self.queue.leave(task)
    }

    /// The first task that waits for a block.
    pub fn first(&self) -> Option<Task>
        ensures { result ≡ waiter self.now }
    {
        self.queue.first()
    }

    /// The tasks that wait for a block, in their order.
    pub fn list(&self) -> ArrayVec<Task, 64>
        ensures tasks { result.items ≡ map task_of self.now.waiters }
        ensures distinct { AreDistinct (map task_of self.now.waiters) }
    {
        self.queue.list()
    }
}

impl Part for Mpf {
    ghost fits = { λ a b. Unit {0} };

    #[tactic(auto, using(crate::proofs::Bits::marks_same))]
    fn is_same(&self, other: &Self) -> bool {
        self.handed == other.handed
            && self.queue.is_same(&other.queue)
            && self.setup.is_same(&other.setup)
    }

    fn copy_from(&mut self, other: &Self) {
        self.setup = other.setup;
        self.handed = other.handed;
        self.queue.copy_from(&other.queue);
    }
}

impl ToDigest for Mpf {
    ghost digested = { λ m sum. added_pool m sum };

    #[tactic(auto, using(crate::proofs::Bits::word_told), unfolding(crate::specs::MemoryPool::added_pool))]
    fn add_to(&self, digest: &mut Digest) {
        digest.add(self.handed);
        self.queue.add_to(digest);
    }
}

impl Value for Mpf {
    ghost hashed = { λ m. told (added_pool m seed) };

    fn is_same(&self, other: &Self) -> bool {
        Part::is_same(self, other)
    }

    fn hash(&self) -> u64 {
        part_hash(self)
    }

    fn another(&self) -> Result<Self, AllocError> {
        let mut other = Mpf::new(self.setup);
        other.copy_from(self);
        Ok(other)
    }
}
