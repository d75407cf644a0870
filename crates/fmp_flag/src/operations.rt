//! The operations on an eventflag alone, which the kernel does not call: a call's rule stands in `fmp_rules/specs`. They are
//! this part's own surface.
ghost use Rattle.std.specs.Prelude.{◌≡◌, true, false, bit_and, List};
ghost use Rattle.fmp_rules.specs.Objects.{holds};
ghost use Rattle.fmp_waitq.specs.Queue.{has_waiter, put_ranked, joined_by, waiter_of};
ghost use Rattle.fmp_flag.specs.Eventflags.{with_pattern, is_met, bits_set, polled, WaitsUnmet};
ghost use Rattle.fmp_flag.specs.declared.wanted.Wanted.{Wanted as AnyWanted};

use crate::Flag;
use crate::serving::{cleared, serve};
use crate::wanted::{Wanted, holds};
use arrayvec::ArrayVec;
use fmp_codes::{Mode, Pri, Task};

impl Flag {
    /// Sets bits of the pattern, and goes over the waiters once: each who wants what is set is released with the pattern, which
    /// may be cleared then. `wanted` has what each task wants, in the order of their numbers. Tells whom it released, each with
    /// the pattern.
    pub fn set(&mut self, bits: u32, wanted: &[Wanted]) -> ArrayVec<(Task, u32), 64>
        ensures did { (self.new, result.items) ≡ bits_set self.old wanted.now bits }
        ensures unmet { WaitsUnmet wanted.now self.old → WaitsUnmet wanted.now self.new }
    {
        let pattern = self.pattern | bits;
        let tasks = self.list();
        serve(self, pattern, wanted, tasks.as_slice())
    }

    /// Clears all bits of the pattern but these.
    pub fn clear(&mut self, bits: u32)
        ensures pattern { self.new ≡ with_pattern self.old (bit_and self.old.eventflag.pattern bits) }
        ensures unmet { (ws : List AnyWanted) → WaitsUnmet ws self.old → WaitsUnmet ws self.new }
    {
        self.pattern &= bits;
    }

    /// Tells the pattern, if it has what is asked for, and clears it then if the setup says so.
    pub fn poll(&mut self, pattern: u32, mode: Mode) -> Option<u32>
        ensures did { (self.new, result) ≡ polled self.old (holds self.old.eventflag.pattern pattern mode) }
        ensures unmet { (ws : List AnyWanted) → WaitsUnmet ws self.old → WaitsUnmet ws self.new }
    {
        let found = self.pattern;
        if !holds(found, pattern, mode) {
            return None;
        }
        self.pattern = cleared(self, found);
        Some(found)
    }

    /// A task of this priority that does not wait joins the waiters.
    pub fn join(&mut self, task: Task, priority: Pri)
        requires { has_waiter task self.old.waiters ≡ false }
        ensures waiters { let order = self.old.eventflag.setup.order in
            self.new ≡ record self.old { waiters = put_ranked (waiter_of order task priority) self.old.waiters } }
        ensures unmet { (ws : List AnyWanted) → is_met self.old.eventflag.pattern ws task ≡ false → WaitsUnmet ws self.old → WaitsUnmet ws self.new }
    {
        self.queue.join(task, priority);
    }

    /// A task that waits leaves its place and joins the waiters anew, with this priority.
    pub fn reorder(&mut self, task: Task, priority: Pri)
        requires { has_waiter task self.old.waiters ≡ true }
        ensures waiters { let order = self.old.eventflag.setup.order in
            self.new ≡ record self.old { waiters = joined_by (waiter_of order task priority) self.old.waiters } }
        ensures unmet { (ws : List AnyWanted) → WaitsUnmet ws self.old → WaitsUnmet ws self.new }
    {
        self.queue.reorder(task, priority);
    }
}
