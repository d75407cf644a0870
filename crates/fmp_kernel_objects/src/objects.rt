//! The list of all objects of a kind, each with the tasks that wait for it.
ghost use Rattle.std.specs.Prelude.{◌≡◌, ◌≤◌, ◌<◌, ℕ, ◌-◌, List, [], length, map, option_copied, slice_get, slice_index_or, unwrap_or, IfOk};
ghost use Rattle.fmp_interned.specs.Parts.{AreNumbersOf};
ghost use Rattle.fmp_kernel_objects.specs.Fitting.{AreFitting};
ghost use Rattle.fmp_setup.specs.declared.setup.Order.{Order};
ghost use Rattle.fmp_rules.specs.World.{first, item, with_item};
ghost use Rattle.fmp_waitq.specs.Queue.{Waiter, task_of, left_by, joined_by, waiter_of};

use arrayvec::ArrayVec;
use fmp_codes::{Object, Pri, Task};
use fmp_interned::{Interned, Value};
use fmp_kernel_parts::{Part, are_same, copy_all};
use std::alloc::{AllocError, Global};
use std::marker::Model;

/// A kind of objects.
pub(crate) trait Kind: Part + Drop {
    /// What a configuration says of one.
    type Setup;

    // What stands where there is none, and one of a setup, for which nobody waits.
    ghost blank: { Self };

    ghost made: { Self.Setup → Self };

    /// One of a setup, for which nobody waits, with the memory that it needs.
    fn make(alloc: Global, setup: &Self::Setup) -> Result<Self, AllocError>
        ensures { IfOk result (λ x. x ≡ made setup.now) };
}

/// A queue of tasks that wait for an object: `Q` says which, since a kind may have two.
pub(crate) trait Waited<Q>: Kind {
    // Its waiters and their order, and the object with other waiters.
    ghost waiters: { Self → List Waiter };

    ghost order: { Self → Order };

    ghost with_waiters: { Self → List Waiter → Self };

    /// The task that waits first.
    fn first(&self) -> Option<Task>
        ensures { result ≡ first (map task_of (waiters self.now)) };

    /// The tasks that wait, in their order.
    fn list(&self) -> ArrayVec<Task, 64>
        ensures { result.items ≡ map task_of (waiters self.now) };

    /// Lets a task join the waiters, and leave the place where it stood.
    fn place(&mut self, task: Task, priority: Pri)
        ensures { self.new ≡ with_waiters self.old (joined_by (waiter_of (order self.old) task priority) (waiters self.old)) };

    /// Lets a task leave the waiters.
    fn leave(&mut self, task: Task)
        ensures { self.new ≡ with_waiters self.old (left_by task (waiters self.old)) };

    ghost nobody: { waiters Self.Kind.blank ≡ [] };
}

/// All objects of a kind, in the order of their numbers.
#[derive(Drop)]
pub(crate) struct Objects<T> {
    pub(crate) items: Vec<T>,
}

impl<T> Model for Objects<T> {
    ghost Value = { List T };

    ghost view = { λ a. a.items.items };

    ghost invariant = { λ a. length a.items.items ≤ 32 };
}

impl<T: Kind> Objects<T> {
    /// Those of a configuration, for which nobody waits.
    pub(crate) fn new(alloc: Global, setups: &[T::Setup]) -> Result<Self, AllocError>
        requires { length setups.now ≤ 32 }
        ensures { IfOk result (λ xs. xs ≡ map T.made setups.now) }
    {
        let mut items = Vec::new(alloc);
        for setup in setups {
            items.push(T::make(alloc, setup)?)?;
        }
        Ok(Objects { items })
    }

    /// How many there are.
    pub(crate) fn len(&self) -> usize
        ensures value { result ≡ length self.now }
        ensures few { result ≤ 32 }
    {
        self.items.len()
    }

    /// One, if it is there.
    #[tactic(auto, using(crate::proofs::Columns::columns))]
    pub(crate) fn get(&self, o: Object) -> Option<&T>
        ensures exact { option_copied result ≡ slice_get self.now (o.number - 1) }
        ensures blank { unwrap_or (option_copied result) T.blank ≡ item T.blank self.now o.number }
    {
        self.items.get(o.index())
    }

    /// All become as those are that have these numbers among others, as many as there are here.
    pub(crate) fn become_kept(&mut self, kept: &Interned<T>, numbers: &[u32])
    where
        T: Value,
        requires long { length numbers.now ≡ length self.old }
        requires kept { (xs : List T) × AreNumbersOf kept.now numbers.now xs × AreFitting T.Part.fits self.old xs }
        ensures { (xs : List T) → AreNumbersOf kept.now numbers.now xs → self.new ≡ xs }
    {
        for at in 0..numbers.len() {
            self.items[at].copy_from(kept.get(numbers[at]));
        }
    }

    /// The task that waits first for one.
    pub(crate) fn first<Q>(&self, o: Object) -> Option<Task>
    where
        T: Waited<Q>,
        ensures { result ≡ first (map task_of (T.Waited.waiters (item T.Kind.blank self.now o.number))) }
    {
        self.items.get(o.index())?.first()
    }

    /// The tasks that wait for one, in their order.
    pub(crate) fn list<Q>(&self, o: Object) -> ArrayVec<Task, 64>
    where
        T: Waited<Q>,
        ensures { result.items ≡ map task_of (T.Waited.waiters (item T.Kind.blank self.now o.number)) }
    {
        match self.items.get(o.index()) {
            Some(object) => object.list(),
            None => ArrayVec::new(),
        }
    }

    /// Lets a task join the waiters of one, and leave the place where it stood.
    pub(crate) fn place<Q>(&mut self, o: Object, task: Task, priority: Pri)
    where
        T: Waited<Q>,
        ensures { let x = item T.Kind.blank self.old o.number in
            self.new ≡ with_item self.old o.number (T.Waited.with_waiters x (joined_by (waiter_of (T.Waited.order x) task priority) (T.Waited.waiters x))) }
    {
        if let Some(object) = self.items.get_mut(o.index()) {
            object.place(task, priority);
        }
    }

    /// Lets a task leave the waiters of one.
    pub(crate) fn leave<Q>(&mut self, o: Object, task: Task)
    where
        T: Waited<Q>,
        ensures { let x = item T.Kind.blank self.old o.number in
            self.new ≡ with_item self.old o.number (T.Waited.with_waiters x (left_by task (T.Waited.waiters x))) }
    {
        if let Some(object) = self.items.get_mut(o.index()) {
            object.leave(task);
        }
    }
}

impl<T: Part> Part for Objects<T> {
    ghost fits = { λ xs ys. (length xs ≡ length ys)
        × ((k : ℕ) (a b : T) → k < length ys → T.fits (slice_index_or xs k a) (slice_index_or ys k b)) };

    fn is_same(&self, other: &Self) -> bool {
        are_same(self.items.as_slice(), other.items.as_slice())
    }

    fn copy_from(&mut self, other: &Self) {
        copy_all(self.items.as_mut_slice(), other.items.as_slice());
    }
}
