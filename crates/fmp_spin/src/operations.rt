//! The operations on one spin lock, which the kernel does not call: a call's rule stands in `fmp_rules/specs`. They are
//! this part's own surface.
ghost use Rattle.std.specs.Prelude.{◌≡◌, ◌≤◌, not, Some, None, length, is_some, if◌then◌else◌};
ghost use Rattle.fmp_rules.specs.World.{item, with_item};
ghost use Rattle.fmp_rules.specs.Processors.{is_at};
ghost use Rattle.fmp_spin.specs.Locks.{held_by};

use crate::holder::{first_held, is_at};
use crate::spins::Spins;
use fmp_codes::{Object, Proc};

impl Spins {
    /// The least lock that a processor holds.
    pub fn held_by(&self, p: Proc) -> Option<Object>
        ensures { result ≡ held_by p self.now }
    {
        let index = first_held(p, self.holders.as_slice())?;
        Some(Object::from_index(index))
    }

    /// Lets a processor take a lock if it is free. Tells whether it was.
    pub fn try_take(&mut self, l: Object, p: Proc) -> bool
        requires { l.number ≤ length self.old }
        ensures taken { result ≡ not (is_some (item None self.old l.number)) }
        ensures state { self.new ≡ (if result then with_item self.old l.number (Some p) else self.old) }
    {
        let free = self.holder(l).is_none();
        if free {
            self.take(l, p);
        }
        free
    }

    /// Lets a processor free one lock if it holds it. Tells whether it did.
    pub fn give(&mut self, l: Object, p: Proc) -> bool
        requires { l.number ≤ length self.old }
        ensures given { result ≡ is_at p (item None self.old l.number) }
        ensures state { self.new ≡ (if result then with_item self.old l.number None else self.old) }
    {
        let held = is_at(p, self.holder(l));
        if held {
            if let Some(holder) = self.holders.get_mut(l.index()) {
                *holder = None;
            }
        }
        held
    }
}
