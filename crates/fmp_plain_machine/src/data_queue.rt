//! A data queue.
ghost use Rattle.std.specs.Prelude.{◌≡◌, ◌≤◌, ◌<◌, ◌++◌, ◌∷◌, [], length, slice_get, IfOk};
ghost use Rattle.fmp_rules.specs.World.{first, rest};

use circular_buffer::HeapCircularBuffer;
use fmp_rules::DataQueueSetup;
use std::alloc::{AllocError, Global};
use std::marker::Model;

/// A data queue, with room for as many values as the configuration says.
#[derive(Drop)]
pub(crate) struct DataQueue {
    setup: DataQueueSetup,
    values: HeapCircularBuffer<i64>,
}

impl Model for DataQueue {
    ghost use Rattle.std.specs.Prelude.{◌≤◌, length};
    ghost use Rattle.fmp_plain_machine.specs.DataQueues.{Queue};

    ghost Value = { Queue };

    ghost view = { λ a. record { setup = a.setup; values = a.values.items } };

    ghost invariant = { λ a. (a.setup.capacity ≤ a.values.capacity) × (length a.values.items ≤ a.setup.capacity) };
}

impl DataQueue {
    /// An empty data queue.
    pub(crate) fn new(alloc: Global, setup: DataQueueSetup) -> Result<Self, AllocError>
        ensures { IfOk result (λ q. q ≡ record { setup = setup; values = [] }) }
    {
        let values = HeapCircularBuffer::with_capacity(alloc, usize::from(setup.capacity))?;
        Ok(DataQueue { setup, values })
    }

    /// What the configuration says of it.
    pub(crate) fn setup(&self) -> DataQueueSetup
        ensures { result ≡ self.now.setup }
    {
        self.setup
    }

    /// How many values it has.
    pub(crate) fn len(&self) -> usize
        ensures value { result ≡ length self.now.values }
        ensures within { result ≤ self.now.setup.capacity }
    {
        self.values.len()
    }

    /// Its oldest value.
    pub(crate) fn first(&self) -> Option<i64>
        ensures { result ≡ first self.now.values }
    {
        self.values.front().copied()
    }

    /// The value at a place after its oldest one, if there are so many.
    pub(crate) fn value(&self, index: usize) -> Option<i64>
        ensures { result ≡ slice_get self.now.values index }
    {
        self.values.get(index).copied()
    }

    /// Takes out its oldest value, if it has one.
    pub(crate) fn drop_first(&mut self)
        ensures { self.new ≡ record self.old { values = rest self.old.values } }
    {
        self.values.pop_front();
    }

    /// Adds a value after the others.
    pub(crate) fn add(&mut self, value: i64)
        requires { length self.old.values < self.old.setup.capacity }
        ensures { self.new ≡ record self.old { values = self.old.values ++ value ∷ [] } }
    {
        self.values.try_push_back(value).unwrap();
    }
}
