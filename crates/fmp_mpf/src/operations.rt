//! The operations on a memory pool alone, which the kernel does not call: a call's rule stands in `fmp_rules/specs`. They are
//! this part's own surface.
ghost use Rattle.std.specs.Prelude.{◌≡◌, None, true, false};
ghost use Rattle.std.specs.Option.{option_map};
ghost use Rattle.fmp_waitq.specs.Queue.{has_waiter, joined_by, put_ranked, waiter_of};
ghost use Rattle.fmp_mpf.specs.MemoryPool.{free_block};
ghost use Rattle.fmp_mpf.specs.Operations.{without_block, give, IsServed};

use crate::Mpf;
use fmp_codes::{Block, Pri, Task};

/// What became of a block that came back.
#[derive(Clone, Copy)]
pub enum Given {
    /// This task, which waited for a block, is released with it.
    To(Task),
    /// It is free.
    Free,
    /// It is no block of the pool that is handed out.
    Stranger,
}

impl Mpf {
    /// Hands out the least free block, if there is one.
    pub fn get(&mut self) -> Option<Block>
        ensures pool { self.new ≡ without_block self.old (free_block self.old) }
        ensures answer { option_map (λ b. b.number) result ≡ free_block self.old }
        ensures served { IsServed self.old → IsServed self.new }
    {
        let block = self.free_block()?;
        self.set_handed(block, true);
        Some(Block::new(block))
    }

    /// Takes back the block of this number.
    pub fn give(&mut self, block: i32) -> Given
        ensures pool { self.new ≡ (give self.old block).0 }
        ensures answer { result ≡ (give self.old block).1 }
        ensures served { IsServed self.old → IsServed self.new }
    {
        if !self.is_handed(block) {
            return Given::Stranger;
        }
        match self.first() {
            Some(task) => {
                self.leave(task);
                Given::To(task)
            }
            None => {
                self.set_handed(block as u8, false);
                Given::Free
            }
        }
    }

    /// A task of this priority that does not wait for a block begins to, last among its equals.
    pub fn join(&mut self, task: Task, priority: Pri)
        requires { has_waiter task self.old.waiters ≡ false }
        ensures pool { self.new ≡ record self.old { waiters = put_ranked (waiter_of self.old.pool.setup.order task priority) self.old.waiters } }
        ensures served { free_block self.old ≡ None → IsServed self.new }
    {
        self.queue.join(task, priority);
    }

    /// A task that waits for a block leaves its place and joins anew, with this priority.
    pub fn reorder(&mut self, task: Task, priority: Pri)
        requires { has_waiter task self.old.waiters ≡ true }
        ensures pool { self.new ≡ record self.old { waiters = joined_by (waiter_of self.old.pool.setup.order task priority) self.old.waiters } }
        ensures served { IsServed self.old → IsServed self.new }
    {
        self.queue.reorder(task, priority);
    }
}
