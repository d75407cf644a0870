//! All data queues.
ghost use Rattle.std.specs.Prelude.{◌≡◌, ◌≤◌, ◌<◌, ◌++◌, ◌∷◌, [], length, map, slice_get, slice_index_or, slice_set, IfOk};
ghost use Rattle.fmp_rules.specs.Objects.{no_data_queue};
ghost use Rattle.fmp_rules.specs.World.{first, rest, item, with_item};
ghost use Rattle.fmp_plain_machine.specs.DataQueues.{no_queue};

use crate::data_queue::DataQueue;
use fmp_codes::Object;
use fmp_rules::DataQueueSetup;
use std::alloc::{AllocError, Global};
use std::marker::Model;

/// All data queues, in the order of their numbers.
#[derive(Drop)]
pub(crate) struct DataQueues {
    queues: Vec<DataQueue>,
}

impl Model for DataQueues {
    ghost use Rattle.std.specs.Prelude.{◌≤◌, length};
    ghost use Rattle.fmp_plain_machine.specs.DataQueues.{AllQueues, all_of};

    ghost Value = { AllQueues };

    ghost view = { λ a. all_of a.queues.items };

    ghost invariant = { λ a. length a.queues.items ≤ 32 };
}

/// Takes the oldest value out of the data queue at a place, if there is one.
fn drop_at(queues: &mut Vec<DataQueue>, index: usize)
    ensures { let q = slice_index_or queues.old.items index no_queue in queues.new.items ≡ slice_set queues.old.items index (record q { values = rest q.values }) }
{
    if let Some(queue) = queues.get_mut(index) {
        queue.drop_first();
    }
}

/// Adds a value after the others of the data queue at a place.
fn add_at(queues: &mut Vec<DataQueue>, index: usize, value: i64)
    requires { let q = slice_index_or queues.old.items index no_queue in length q.values < q.setup.capacity }
    ensures { let q = slice_index_or queues.old.items index no_queue in queues.new.items ≡ slice_set queues.old.items index (record q {
      values = q.values ++ value
          ∷ [];
    }) }
{
    if let Some(queue) = queues.get_mut(index) {
        queue.add(value);
    }
}

impl DataQueues {
    /// Empty data queues, as the configuration says.
    pub(crate) fn new(alloc: Global, setups: &[DataQueueSetup]) -> Result<Self, AllocError>
        requires { length setups.now ≤ 32 }
        ensures { IfOk result (λ qs. qs ≡ record { setups = setups.now; contents = map (λ s. []) setups.now }) }
    {
        let mut queues = Vec::new(alloc);
        for setup in setups {
            queues.push(DataQueue::new(alloc, *setup)?)?;
        }
        Ok(DataQueues { queues })
    }

    /// How many there are.
    pub(crate) fn len(&self) -> usize
        ensures value { result ≡ length self.now.setups }
        ensures few { result ≤ 32 }
    {
        self.queues.len()
    }

    /// What the configuration says of one.
    pub(crate) fn setup(&self, d: Object) -> DataQueueSetup
        ensures { result ≡ item no_data_queue self.now.setups d.number }
    {
        match self.queues.get(d.index()) {
            Some(queue) => queue.setup(),
            None => DataQueueSetup::default(),
        }
    }

    /// How many values one has.
    pub(crate) fn value_count(&self, d: Object) -> usize
        ensures value { result ≡ length (item [] self.now.contents d.number) }
        ensures within { result ≤ (item no_data_queue self.now.setups d.number).capacity }
    {
        match self.queues.get(d.index()) {
            Some(queue) => queue.len(),
            None => 0,
        }
    }

    /// The oldest value of one.
    pub(crate) fn first_value(&self, d: Object) -> Option<i64>
        ensures { result ≡ first (item [] self.now.contents d.number) }
    {
        self.queues.get(d.index())?.first()
    }

    /// The value at a place after the oldest one of one, if there are so many.
    pub(crate) fn value(&self, d: Object, index: usize) -> Option<i64>
        ensures { result ≡ slice_get (item [] self.now.contents d.number) index }
    {
        self.queues.get(d.index())?.value(index)
    }

    /// Takes the oldest value out of one, if it has one.
    #[tactic(auto, using(crate::proofs::DataQueues::changed, crate::proofs::DataQueues::values_at))]
    pub(crate) fn drop_value(&mut self, d: Object)
        ensures { self.new ≡ record self.old { contents = with_item self.old.contents d.number (rest (item [] self.old.contents d.number)) } }
    {
        drop_at(&mut self.queues, d.index());
    }

    /// Adds a value after the others of one.
    #[tactic(auto, using(crate::proofs::DataQueues::changed, crate::proofs::DataQueues::values_at))]
    pub(crate) fn add_value(&mut self, d: Object, value: i64)
        requires { length (item [] self.old.contents d.number) < (item no_data_queue self.old.setups d.number).capacity }
        ensures { self.new ≡ record self.old { contents = with_item self.old.contents d.number (item [] self.old.contents d.number ++ value ∷ []) } }
    {
        add_at(&mut self.queues, d.index(), value);
    }
}
