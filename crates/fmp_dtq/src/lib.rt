//! Data queues: the values that were sent and not yet received, with the tasks that wait to send and those that wait to
//! receive.
//!
//! Contracts see a data queue as what the configuration says of it, the list of its values, the oldest first, and two lists of
//! waiters as a wait queue has them: the senders in the order that the configuration says, and the receivers by arrival.
//!
//! `Dtq::new` takes the memory for as many values as the configuration says. No other call allocates.
#![tactic(auto)]

ghost use Rattle.std.specs.Prelude.{◌≡◌, ◌↔◌, ◌≤◌, ◌<◌, ◌++◌, ◌∷◌, [], length, map, slice_get, ℤ, Some, IfOk, IsTrue};
ghost use Rattle.fmp_rules.specs.World.{first, rest};
ghost use Rattle.fmp_kernel_parts.specs.Digests.{added_all, seed, told};
ghost use Rattle.fmp_kernel_parts.specs.Tasks.{AreDistinct};
ghost use Rattle.fmp_waitq.specs.Queue.{task_of, has_waiter, left_by, joined_by, waiter_of};
ghost use Rattle.fmp_dtq.specs.DataQueue.{added_value, added_queue, sender, receiver};
ghost use Rattle.fmp_dtq.specs.Served.{IsServed};

mod operations;

use arrayvec::ArrayVec;
use circular_buffer::HeapCircularBuffer;
use fmp_codes::{Pri, Task};
use fmp_interned::{Value, part_hash};
use fmp_kernel_parts::{Digest, Part, ToDigest};
use fmp_kernel_same::Same;
use fmp_rules::{DataQueueSetup, Order};
use fmp_waitq::WaitQueue;
pub use operations::{Forced, Received, Sent};
use std::alloc::{AllocError, Global};
use std::marker::Model;

/// A data queue with its values, and the tasks that wait to send and to receive.
#[derive(Drop)]
pub struct Dtq {
    setup: DataQueueSetup,
    values: HeapCircularBuffer<i64>,
    senders: WaitQueue,
    receivers: WaitQueue,
}

impl Model for Dtq {
    ghost use Rattle.std.specs.Prelude.{◌≡◌, ◌≤◌, length};
    ghost use Rattle.fmp_setup.specs.declared.setup.Order.TheVariants as order;
    ghost use Rattle.fmp_dtq.specs.DataQueue.{DataQueue};

    ghost Value = { DataQueue };

    ghost view = { λ a. record { setup = a.setup; values = a.values.items; senders = a.senders.waiters; receivers = a.receivers.waiters } };

    ghost invariant = { λ a. (a.setup.capacity ≤ a.values.capacity) × (length a.values.items ≤ a.setup.capacity)
        × (a.senders.order ≡ a.setup.order) × (a.receivers.order ≡ order.First) };
}

impl Dtq {
    /// A data queue without values and waiters.
    pub fn new(alloc: Global, setup: DataQueueSetup) -> Result<Self, AllocError>
        ensures { IfOk result (λ q. q ≡ record { setup = setup; values = []; senders = []; receivers = [] }) }
    {
        let values = HeapCircularBuffer::with_capacity(alloc, usize::from(setup.capacity))?;
        Ok(Dtq {
            setup,
            values,
            senders: WaitQueue::new(setup.order),
            receivers: WaitQueue::new(Order::First),
        })
    }

    /// What the configuration says of it.
    pub fn setup(&self) -> DataQueueSetup
        ensures { result ≡ self.now.setup }
    {
        self.setup
    }

    /// How many values it has.
    pub fn len(&self) -> usize
        ensures value { result ≡ length self.now.values }
        ensures within { result ≤ self.now.setup.capacity }
    {
        self.values.len()
    }

    /// Its oldest value.
    pub fn first_value(&self) -> Option<i64>
        ensures { result ≡ first self.now.values }
    {
        self.values.front().copied()
    }

    /// The value at a place after the oldest one, if there are so many.
    pub fn value(&self, index: usize) -> Option<i64>
        ensures { result ≡ slice_get self.now.values index }
    {
        self.values.get(index).copied()
    }

    /// Takes out its oldest value, if it has one.
    pub fn drop_value(&mut self)
        ensures { self.new ≡ record self.old { values = rest self.old.values } }
    {
        self.values.pop_front();
    }

    /// Puts a value last, for which there is a place.
    pub fn add_value(&mut self, value: i64)
        requires { length self.old.values < self.old.setup.capacity }
        ensures { self.new ≡ record self.old { values = self.old.values ++ value ∷ [] } }
    {
        self.values.try_push_back(value).unwrap();
    }

    /// A task of this priority waits to send, last among its equals. It leaves the place among the senders where it stood, if any.
    pub fn place_sender(&mut self, task: Task, priority: Pri)
        ensures { self.new ≡ record self.old { senders = joined_by (waiter_of self.old.setup.order task priority) self.old.senders } }
    {
        self.senders.place(task, priority);
    }

    /// A task of this priority waits to receive, after all others. It leaves the place among the receivers where it stood, if
    /// any.
    pub fn place_receiver(&mut self, task: Task, priority: Pri)
        ensures { self.new ≡ record self.old { receivers = joined_by (waiter_of Order.First task priority) self.old.receivers } }
    {
        self.receivers.place(task, priority);
    }

    /// A task does not wait to send any more. Tells whether it did.
    pub fn leave_senders(&mut self, task: Task) -> bool
        ensures senders { self.new ≡ record self.old { senders = left_by task self.old.senders } }
        ensures there { result ≡ has_waiter task self.old.senders }
        ensures served { IsServed self.old → IsServed self.new }
    {
        self.senders.leave(task)
    }

    /// A task does not wait to receive any more. Tells whether it did.
    pub fn leave_receivers(&mut self, task: Task) -> bool
        ensures receivers { self.new ≡ record self.old { receivers = left_by task self.old.receivers } }
        ensures there { result ≡ has_waiter task self.old.receivers }
        ensures served { IsServed self.old → IsServed self.new }
    {
        self.receivers.leave(task)
    }

    /// The first task that waits to send.
    pub fn first_sender(&self) -> Option<Task>
        ensures { result ≡ sender self.now }
    {
        self.senders.first()
    }

    /// The first task that waits to receive.
    pub fn first_receiver(&self) -> Option<Task>
        ensures { result ≡ receiver self.now }
    {
        self.receivers.first()
    }

    /// The tasks that wait to send, in their order.
    pub fn senders(&self) -> ArrayVec<Task, 64>
        ensures tasks { result.items ≡ map task_of self.now.senders }
        ensures distinct { AreDistinct (map task_of self.now.senders) }
    {
        self.senders.list()
    }

    /// The tasks that wait to receive, in their order.
    pub fn receivers(&self) -> ArrayVec<Task, 64>
        ensures tasks { result.items ≡ map task_of self.now.receivers }
        ensures distinct { AreDistinct (map task_of self.now.receivers) }
    {
        self.receivers.list()
    }
}

/// Whether there are two values, and they are the same.
fn are_both(one: Option<i64>, other: Option<i64>) -> bool
    ensures { IsTrue result ↔ ((v : ℤ) × (one ≡ Some v) × (other ≡ Some v)) }
{
    match (one, other) {
        (Some(one), Some(other)) => one == other,
        _ => false,
    }
}

/// Whether two rings have the same values.
#[tactic(auto, using(crate::proofs::Values::one_more))]
fn are_same_values(one: &HeapCircularBuffer<i64>, other: &HeapCircularBuffer<i64>) -> bool
    ensures { IsTrue result ↔ (one.now.items ≡ other.now.items) }
{
    if one.len() != other.len() {
        return false;
    }
    for at in 0..one.len() {
        if !are_both(one.get(at).copied(), other.get(at).copied()) {
            return false;
        }
    }
    true
}

/// Adds values to a digest.
fn add_values(values: &[i64], digest: &mut Digest)
    ensures { digest.new ≡ added_all added_value values.now digest.old }
{
    for value in values {
        digest.add(value.cast_unsigned());
    }
}

/// A ring gets the values of another one, for which it has the places.
fn copy_values(values: &mut HeapCircularBuffer<i64>, others: &HeapCircularBuffer<i64>)
    requires { length others.now.items ≤ values.old.capacity }
    ensures items { values.new.items ≡ others.now.items }
    ensures capacity { values.new.capacity ≡ values.old.capacity }
{
    let (front, back) = others.as_slices();
    values.clear();
    values.fill_from_slice(front);
    values.fill_from_slice(back);
}

impl Part for Dtq {
    ghost fits = { λ a b. b.setup.capacity ≤ a.setup.capacity };

    fn is_same(&self, other: &Self) -> bool {
        are_same_values(&self.values, &other.values)
            && self.senders.is_same(&other.senders)
            && self.receivers.is_same(&other.receivers)
            && self.setup.is_same(&other.setup)
    }

    fn copy_from(&mut self, other: &Self) {
        self.setup = other.setup;
        copy_values(&mut self.values, &other.values);
        self.senders.copy_from(&other.senders);
        self.receivers.copy_from(&other.receivers);
    }
}

impl ToDigest for Dtq {
    ghost digested = { λ q sum. added_queue q sum };

    fn add_to(&self, digest: &mut Digest) {
        let (front, back) = self.values.as_slices();
        add_values(front, digest);
        add_values(back, digest);
        self.senders.add_to(digest);
        self.receivers.add_to(digest);
    }
}

impl Value for Dtq {
    ghost hashed = { λ q. told (added_queue q seed) };

    fn is_same(&self, other: &Self) -> bool {
        Part::is_same(self, other)
    }

    fn hash(&self) -> u64 {
        part_hash(self)
    }

    fn another(&self) -> Result<Self, AllocError> {
        let mut other = Dtq::new(*self.values.allocator(), self.setup)?;
        other.copy_from(self);
        Ok(other)
    }
}
