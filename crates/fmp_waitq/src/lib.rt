//! Wait queues: the tasks that wait for an object, in the order in which it serves them. The kernel calls all operations but
//! `reorder`, which serves those of the objects: a call's rule stands in `fmp_rules/specs`.
//!
//! Contracts see a queue as its order and a list of waiters, each a task with its rank: its priority in a queue by priority,
//! and 0 in one by arrival. A lower rank comes first, and of equal ranks the one that joined earlier. No task waits twice in
//! one queue.
//!
//! The tasks are linked in arrays: the first one is found, and a task leaves, and joins a queue by arrival, without a walk. In
//! a queue by priority a task that joins walks to its place. No call allocates.
#![tactic(auto)]

ghost use Rattle.std.specs.Prelude.{◌≡◌, ℕ, ◌-◌, false, true, Some, [], map, slice_index};
ghost use Rattle.fmp_rules.specs.World.{first};
ghost use Rattle.fmp_kernel_parts.specs.Tasks.{AreDistinct};
ghost use Rattle.fmp_waitq.specs.Queue.{task_of, added_waiters, has_waiter, left_by, put_ranked, joined_by, rank_of, waiter_of};
ghost use Rattle.fmp_waitq.specs.Kept.{spot_in, rank_in};

use arrayvec::ArrayVec;
use fmp_codes::{Pri, Task};
use fmp_kernel_parts::{Digest, Part, TaskList, ToDigest};
use fmp_rules::Order;
use std::marker::Model;

/// The waiters of one queue in their order. No task is there twice. In TOPPERS/FMP: wait_queue of a WOBJCB.
#[derive(Drop)]
pub struct WaitQueue {
    order: Order,
    tasks: TaskList,
    /// For each task its rank, while it waits, and else 0, so that equal queues have equal ranks, however they came to be.
    ranks: [u8; 64],
}

impl Model for WaitQueue {
    ghost use Rattle.std.specs.Prelude.{map};
    ghost use Rattle.fmp_waitq.specs.Queue.{Queue};
    ghost use Rattle.fmp_waitq.specs.Kept.{waiter_in, AreRanks};

    ghost Value = { Queue };

    ghost view = { λ a. record { order = a.order; waiters = map (waiter_in a.ranks) a.tasks } };

    ghost invariant = { λ a. AreRanks a.order a.ranks a.tasks };
}

impl WaitQueue {
    /// A queue without waiters, of this order.
    pub fn new(order: Order) -> Self
        ensures { result ≡ record { order = order; waiters = [] } }
    {
        WaitQueue {
            order,
            tasks: TaskList::new(),
            ranks: [0; 64],
        }
    }

    /// A task of this priority that is not there joins: in a queue by arrival as the last, in one by priority as the last of
    /// those of the same or a higher priority.
    pub fn join(&mut self, task: Task, priority: Pri)
        requires { has_waiter task self.old.waiters ≡ false }
        ensures { self.new ≡ record self.old { waiters = put_ranked (waiter_of self.old.order task priority) self.old.waiters } }
    {
        match self.order {
            Order::First => {
                self.ranks[task.index()] = 0;
                self.tasks.push_last(task);
            }
            Order::Priority => {
                let rank = priority.number;
                let following = spot(&self.tasks, &self.ranks, rank);
                self.ranks[task.index()] = rank;
                match following {
                    Some(following) => self.tasks.insert_before(following, task),
                    None => self.tasks.push_last(task),
                }
            }
        }
    }

    /// A task is not there any more. Tells whether it was.
    pub fn leave(&mut self, task: Task) -> bool
        ensures waiters { self.new ≡ record self.old { waiters = left_by task self.old.waiters } }
        ensures there { result ≡ has_waiter task self.old.waiters }
    {
        self.ranks[task.index()] = 0;
        self.tasks.remove(task)
    }

    /// A task that is there leaves its place and joins anew, with this priority.
    pub fn reorder(&mut self, task: Task, priority: Pri)
        requires { has_waiter task self.old.waiters ≡ true }
        ensures { self.new ≡ record self.old { waiters = joined_by (waiter_of self.old.order task priority) self.old.waiters } }
    {
        self.place(task, priority);
    }

    /// A task joins with this priority, and leaves the place where it stood, if any.
    pub fn place(&mut self, task: Task, priority: Pri)
        ensures { self.new ≡ record self.old { waiters = joined_by (waiter_of self.old.order task priority) self.old.waiters } }
    {
        self.leave(task);
        self.join(task, priority);
    }

    /// The task that waits first.
    pub fn first(&self) -> Option<Task>
        ensures { result ≡ first (map task_of self.now.waiters) }
    {
        self.tasks.first()
    }

    /// The waiting tasks in their order.
    pub fn list(&self) -> ArrayVec<Task, 64>
        ensures tasks { result.items ≡ map task_of self.now.waiters }
        ensures distinct { AreDistinct (map task_of self.now.waiters) }
    {
        self.tasks.list()
    }
}

impl Part for WaitQueue {
    ghost fits = { λ a b. Unit {0} };

    fn is_same(&self, other: &Self) -> bool {
        self.order == other.order
            && (self.tasks.are_empty(&other.tasks)
                || self.tasks.is_same(&other.tasks) && self.ranks == other.ranks)
    }

    fn copy_from(&mut self, other: &Self) {
        self.order = other.order;
        if !self.tasks.are_empty(&other.tasks) {
            self.tasks.copy_from(&other.tasks);
            self.ranks = other.ranks;
        }
    }
}

impl ToDigest for WaitQueue {
    ghost digested = { λ q sum. added_waiters q.waiters sum };

    /// Adds the tasks, which tell their ranks.
    fn add_to(&self, digest: &mut Digest) {
        self.tasks.add_to(digest);
    }
}

/// The first of some tasks whose rank is above this one.
fn spot(tasks: &TaskList, ranks: &[u8; 64], rank: u8) -> Option<Task>
    ensures { result ≡ spot_in (rank_in ranks.now) rank tasks.now }
{
    let mut here = tasks.first();
    for _ in 0..64usize {
        match here {
            Some(task) => {
                if rank < ranks[task.index()] {
                    return Some(task);
                }
                here = tasks.next(task);
            }
            None => return None,
        }
    }
    None
}
