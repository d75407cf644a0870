//! Who holds the spin locks.
ghost use Rattle.std.specs.Prelude.{◌≡◌, None, map, slice_index_or, slice_set, if◌then◌else◌};
ghost use Rattle.std.specs.List.{list_any};
ghost use Rattle.fmp_rules.specs.Processors.{is_at, with_lock};

use crate::machine::PlainMachine;
use arrayvec::ArrayVec;
use fmp_codes::Proc;

/// Whether the holder of a spin lock is this processor.
fn is_at(p: Proc, holder: Option<Proc>) -> bool
    ensures { result ≡ is_at p holder }
{
    match holder {
        None => false,
        Some(q) => p.number == q.number,
    }
}

/// Whether one of these is the processor.
pub(crate) fn holds(p: Proc, holders: &[Option<Proc>]) -> bool
    ensures { result ≡ list_any (is_at p) holders.now }
{
    holders.iter().any(|holder| is_at(p, *holder))
}

/// Frees a spin lock if this processor holds it.
fn free_at(p: Proc, holders: &mut ArrayVec<Option<Proc>, 32>, index: usize)
    ensures { let h = slice_index_or holders.old.items index None in holders.new.items ≡ slice_set holders.old.items index (if is_at p h then None else h) }
{
    if let Some(holder) = holders.get_mut(index) {
        if is_at(p, *holder) {
            *holder = None;
        }
    }
}

/// Frees the spin locks that a processor holds.
pub(crate) fn free(p: Proc, holders: &mut ArrayVec<Option<Proc>, 32>)
    ensures { holders.new.items ≡ map (λ h. if is_at p h then None else h) holders.old.items }
{
    for index in 0..holders.len() {
        free_at(p, holders, index);
    }
}

impl PlainMachine {
    /// Lets a processor enter the CPU-locked state, or leave it.
    pub(crate) fn set_locked(&mut self, p: Proc, locked: bool)
        ensures { self.new ≡ with_lock self.old p locked }
    {
        if let Some(processor) = self.processors.get_mut(p.index()) {
            processor.locked = locked;
        }
    }
}
