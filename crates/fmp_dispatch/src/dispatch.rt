//! All processors, and what may run on them.
ghost use Rattle.std.specs.Prelude.{◌≡◌, ◌≤◌, ◌<◌, ◌++◌, ◌∷◌, [], length, replicate, true, false};
ghost use Rattle.fmp_kernel_parts.specs.Digests.{seed, told};
ghost use Rattle.fmp_rules.specs.World.{first, rest, no_processor};
ghost use Rattle.fmp_dispatch.specs.Dispatching.{idle, processor_in, with_processor_in, due_on, with_due_on, with_lock_in, added_dispatching};

use crate::due::{Due, nothing_due};
use arrayvec::ArrayVec;
use fmp_codes::{Proc, Runner};
use fmp_interned::{Value, part_hash};
use fmp_kernel_parts::{Digest, Part, ToDigest, add_all, are_same, copy_all};
use fmp_kernel_same::{add_each, are_equal};
use fmp_rules::Processor;
use std::alloc::AllocError;
use std::marker::Model;

/// The processors in the order of their numbers, with the handlers that are due on each. There are at most 8.
#[derive(Drop)]
pub struct Dispatch {
    processors: ArrayVec<Processor, 8>,
    due: ArrayVec<Due, 8>,
}

impl Model for Dispatch {
    ghost use Rattle.std.specs.Prelude.{◌≡◌, ◌≤◌, length};
    ghost use Rattle.fmp_dispatch.specs.Dispatching.{Dispatching};

    ghost Value = { Dispatching };

    ghost view = { λ a. record { processors = a.processors.items; due = a.due.items } };

    ghost invariant = { λ a. (length a.processors.items ≤ 8) × (length a.due.items ≡ length a.processors.items) };
}

/// So many processors, on which nothing runs.
fn blank_processors(count: u8) -> ArrayVec<Processor, 8>
    requires { count ≤ 8 }
    ensures { result.items ≡ replicate count no_processor }
{
    let mut processors = ArrayVec::new();
    for _index in 0..count {
        processors.push(Processor::default());
    }
    processors
}

impl Dispatch {
    /// So many processors, on which nothing runs and nothing is due.
    pub fn new(count: u8) -> Self
        requires { count ≤ 8 }
        ensures { result ≡ idle count }
    {
        Dispatch {
            processors: blank_processors(count),
            due: nothing_due(count),
        }
    }

    /// How many processors there are.
    pub fn count(&self) -> usize
        ensures value { result ≡ length self.now.processors }
        ensures due { result ≡ length self.now.due }
        ensures few { result ≤ 8 }
    {
        self.processors.len()
    }

    /// The record of a processor, or a blank one where there is none of its number.
    pub fn processor(&self, p: Proc) -> Processor
        ensures { result ≡ processor_in self.now p }
    {
        let processor = self.processors.as_slice().get(p.index()).copied();
        processor.unwrap_or(Processor::default())
    }

    /// Changes the record of a processor.
    pub fn set_processor(&mut self, p: Proc, changed: Processor)
        ensures { self.new ≡ with_processor_in self.old p changed }
    {
        if let Some(place) = self.processors.get_mut(p.index()) {
            *place = changed;
        }
    }

    /// The handler that runs on a processor: the first that is due there.
    pub fn handler(&self, p: Proc) -> Option<Runner>
        ensures { result ≡ first (due_on self.now p) }
    {
        let due = self.due.as_slice().get(p.index())?;
        due.head()
    }

    /// The handlers that are due on a processor, the running one first.
    pub fn due(&self, p: Proc) -> ArrayVec<Runner, 64>
        ensures { result.items ≡ due_on self.now p }
    {
        match self.due.as_slice().get(p.index()) {
            Some(due) => due.list(),
            None => ArrayVec::new(),
        }
    }

    /// Lets a handler become the last that is due on a processor, on which fewer than 64 are.
    pub fn add_due(&mut self, p: Proc, handler: Runner)
        requires { length (due_on self.old p) < 64 }
        ensures { self.new ≡ with_due_on self.old p (due_on self.old p ++ handler ∷ []) }
    {
        if let Some(due) = self.due.get_mut(p.index()) {
            due.add(handler);
        }
    }

    /// Ends the handler that runs on a processor, if one does.
    pub fn return_handler(&mut self, p: Proc)
        ensures { self.new ≡ with_due_on self.old p (rest (due_on self.old p)) }
    {
        if let Some(due) = self.due.get_mut(p.index()) {
            due.end_first();
        }
    }

    /// Lets a processor enter the CPU-locked state, or leave it.
    fn set_locked(&mut self, p: Proc, locked: bool)
        ensures { self.new ≡ with_lock_in self.old p locked }
    {
        let processor = self.processor(p);
        self.set_processor(
            p,
            Processor {
                locked,
                ..processor
            },
        );
    }

    /// Lets a processor enter the CPU-locked state.
    pub fn lock(&mut self, p: Proc)
        ensures { self.new ≡ with_lock_in self.old p true }
    {
        self.set_locked(p, true);
    }

    /// Lets a processor leave the CPU-locked state.
    pub fn unlock(&mut self, p: Proc)
        ensures { self.new ≡ with_lock_in self.old p false }
    {
        self.set_locked(p, false);
    }
}

impl Part for Dispatch {
    ghost fits = { λ a b. length a.processors ≡ length b.processors };

    fn is_same(&self, other: &Self) -> bool {
        are_equal(self.processors.as_slice(), other.processors.as_slice())
            && are_same(self.due.as_slice(), other.due.as_slice())
    }

    fn copy_from(&mut self, other: &Self) {
        self.processors.clear();
        self.processors
            .try_extend_from_slice(other.processors.as_slice())
            .unwrap();
        copy_all(self.due.as_mut_slice(), other.due.as_slice());
    }
}

impl ToDigest for Dispatch {
    ghost digested = { λ d sum. added_dispatching d sum };

    fn add_to(&self, digest: &mut Digest) {
        add_each(self.processors.as_slice(), digest);
        add_all(self.due.as_slice(), digest);
    }
}

impl Value for Dispatch {
    ghost hashed = { λ d. told (added_dispatching d seed) };

    fn is_same(&self, other: &Self) -> bool {
        Part::is_same(self, other)
    }

    fn hash(&self) -> u64 {
        part_hash(self)
    }

    fn another(&self) -> Result<Self, AllocError> {
        let mut other = Dispatch::new(self.count() as u8);
        other.copy_from(self);
        Ok(other)
    }
}
