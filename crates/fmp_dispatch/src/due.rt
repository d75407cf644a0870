//! The handlers that are due on a processor.
ghost use Rattle.std.specs.Prelude.{◌≡◌, ◌<◌, ◌≤◌, ◌++◌, ◌∷◌, [], length, replicate};
ghost use Rattle.fmp_dispatch.specs.Dispatching.{added_due};
ghost use Rattle.fmp_rules.specs.World.{first, rest};

use arrayvec::ArrayVec;
use fmp_codes::Runner;
use fmp_kernel_parts::{Digest, Part, ToDigest};
use fmp_kernel_same::{add_each, are_equal};
use std::marker::Model;

/// The handlers that are due on a processor, at most 64, in a ring from the oldest one on. The first one runs.
#[derive(Drop)]
pub(crate) struct Due {
    slots: [Runner; 64],
    oldest: usize,
    len: usize,
}

impl Model for Due {
    ghost use Rattle.std.specs.Prelude.{◌<◌, ◌≤◌, List};
    ghost use Rattle.fmp_codes.specs.declared.records.Runner.{Runner as AnyRunner};
    ghost use Rattle.fmp_dispatch.specs.Window.{window};

    ghost Value = { List AnyRunner };

    ghost view = { λ a. window a.oldest a.len a.slots };

    ghost invariant = { λ a. (a.oldest < 64) × (a.len ≤ 64) };
}

impl Due {
    /// The handler that runs.
    pub(crate) fn head(&self) -> Option<Runner>
        ensures { result ≡ first self.now }
    {
        if self.len == 0 {
            None
        } else {
            Some(self.slots[self.oldest])
        }
    }

    /// All handlers that are due, the oldest first.
    pub(crate) fn list(&self) -> ArrayVec<Runner, 64>
        ensures { result.items ≡ self.now }
    {
        let mut list = ArrayVec::new();
        let (newest, oldest) = self.slots.split_at(self.oldest);
        list.try_extend_from_slice(oldest).unwrap();
        list.try_extend_from_slice(newest).unwrap();
        list.truncate(self.len);
        list
    }

    /// Adds a handler after the others.
    pub(crate) fn add(&mut self, handler: Runner)
        requires { length self.old < 64 }
        ensures { self.new ≡ self.old ++ handler ∷ [] }
    {
        self.slots[(self.oldest + self.len) % 64] = handler;
        self.len += 1;
    }

    /// Takes out the handler that runs, if there is one.
    pub(crate) fn end_first(&mut self)
        ensures { self.new ≡ rest self.old }
    {
        if 0 < self.len {
            self.oldest = (self.oldest + 1) % 64;
            self.len -= 1;
        }
    }
}

impl Default for Due {
    /// No handler.
    fn default() -> Self
        ensures { result ≡ [] }
    {
        Due {
            slots: [Runner::default(); 64],
            oldest: 0,
            len: 0,
        }
    }
}

impl Part for Due {
    ghost fits = { λ a b. Unit {0} };

    /// Whether the same handlers are due, wherever in the ring they stand.
    fn is_same(&self, other: &Self) -> bool {
        if self.len == 0 && other.len == 0 {
            return true;
        }
        are_equal(self.list().as_slice(), other.list().as_slice())
    }

    /// What the slots hold does not matter where no handler is due.
    fn copy_from(&mut self, other: &Self) {
        self.len = other.len;
        if 0 < self.len {
            self.slots = other.slots;
            self.oldest = other.oldest;
        }
    }
}

impl ToDigest for Due {
    ghost digested = { λ due sum. added_due due sum };

    fn add_to(&self, digest: &mut Digest) {
        if self.len == 0 {
            digest.add(0);
        } else {
            let list = self.list();
            digest.add(list.len() as u64);
            add_each(list.as_slice(), digest);
        }
    }
}

/// For so many processors, that no handler is due.
pub(crate) fn nothing_due(count: u8) -> ArrayVec<Due, 8>
    requires { count ≤ 8 }
    ensures { result.items ≡ replicate count [] }
{
    let mut due = ArrayVec::new();
    for _index in 0..count {
        due.push(Due::default());
    }
    due
}
