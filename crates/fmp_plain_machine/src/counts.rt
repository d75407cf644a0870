//! Counts of ticks.
ghost use Rattle.std.specs.Prelude.{◌≡◌, ◌≤◌, false, None, length, map, filter, slice_index_or, slice_set};
ghost use Rattle.std.specs.List.{range_with_len, list_any};
ghost use Rattle.fmp_codes.specs.Numbers.{as_object};
ghost use Rattle.fmp_setup.specs.Setup.{counts_for};
ghost use Rattle.fmp_rules.specs.World.{item};
ghost use Rattle.fmp_rules.specs.Tick.{is_over, one_less, lowered};

use arrayvec::ArrayVec;
use fmp_codes::{Object, Proc};
use fmp_rules::{Alarm, Cyclic, TaskRecord, Timer};
use std::marker::Model;

/// What is assigned to a processor.
pub(crate) trait Assigned {
    ghost use Rattle.fmp_codes.specs.declared.numbers.Proc.{Proc as AnyProc};

    ghost assigned: { Self → AnyProc };

    /// The processor.
    fn assigned(&self) -> Proc
        ensures { result ≡ assigned self.now };
}

impl Assigned for TaskRecord {
    ghost assigned = { λ r. r.assigned };

    fn assigned(&self) -> Proc {
        self.assigned
    }
}

impl Assigned for Cyclic {
    ghost assigned = { λ c. c.assigned };

    fn assigned(&self) -> Proc {
        self.assigned
    }
}

impl Assigned for Alarm {
    ghost assigned = { λ a. a.assigned };

    fn assigned(&self) -> Proc {
        self.assigned
    }
}

/// Whether a tick on p counts for what is assigned to q.
fn counts_for(timer: Timer, p: Proc, q: Proc) -> bool
    ensures { result ≡ counts_for timer p q }
{
    match timer {
        Timer::Local => q.number == p.number,
        Timer::Global(master) => p.number == master.number,
    }
}

/// Takes one more tick off the ticks left, of which 0 stay 0, and says whether none are left. Where nothing is counted, nothing changes.
#[inline(always)]
fn fall(left: &mut Option<u64>) -> bool
    ensures fallen { left.new ≡ one_less left.old }
    ensures over { result ≡ is_over left.new }
{
    match left {
        None => false,
        Some(ticks) => {
            *ticks = ticks.saturating_sub(1);
            *ticks == 0
        }
    }
}

/// Counts of ticks, at most N, and whether one of them may be 0.
#[derive(Drop)]
pub(crate) struct Counts<const N: usize> {
    left: ArrayVec<Option<u64>, N>,
    may_be_over: bool,
}

impl<const N: usize> Model for Counts<N> {
    ghost use Rattle.std.specs.Prelude.{◌≡◌, ℕ, false, List, Option};
    ghost use Rattle.std.specs.List.{list_any};
    ghost use Rattle.fmp_rules.specs.Tick.{is_over};

    ghost Value = { List (Option ℕ) };

    ghost view = { λ a. a.left.items };

    ghost invariant = { λ a. a.may_be_over ≡ false → list_any is_over a.left.items ≡ false };
}

impl<const N: usize> Counts<N> {
    /// These counts.
    pub(crate) fn new(left: ArrayVec<Option<u64>, N>) -> Self
        ensures { result ≡ left.entry.items }
    {
        Counts {
            left,
            may_be_over: true,
        }
    }

    /// The counts in their order.
    pub(crate) fn as_slice(&self) -> &[Option<u64>]
        ensures value { result.now ≡ self.now }
        ensures few { length result.now ≤ N }
    {
        self.left.as_slice()
    }

    /// The count at a place, or none where there is no such place.
    pub(crate) fn at(&self, index: usize) -> Option<u64>
        ensures { result ≡ slice_index_or self.now index None }
    {
        self.left.as_slice().get(index).copied().flatten()
    }

    /// Whether one of them may be 0. They are looked at only where one became 0 since they were looked at last.
    pub(crate) fn may_be_over(&self) -> bool
        ensures { result ≡ false → list_any is_over self.now ≡ false }
    {
        self.may_be_over
    }

    /// Changes the count at a place, if there is one.
    #[tactic(auto, using(crate::proofs::Over::none_set))]
    pub(crate) fn set(&mut self, index: usize, left: Option<u64>)
        ensures { self.new ≡ slice_set self.old index left }
    {
        if let Some(place) = self.left.get_mut(index) {
            *place = left;
        }
        self.may_be_over = self.may_be_over || is_over(left);
    }

    /// Lowers the count at a place, if there is one.
    #[inline(always)]
    #[tactic(auto, using(crate::proofs::Over::none_set))]
    fn lower_at(&mut self, index: usize)
        ensures { self.new ≡ slice_set self.old index (one_less (slice_index_or self.old index None)) }
    {
        let Some(left) = self.left.get_mut(index) else {
            return;
        };
        let is_over = fall(left);
        self.may_be_over = self.may_be_over || is_over;
    }

    /// Looks at all counts, where one may be 0.
    fn look(&mut self)
        ensures { self.new ≡ self.old }
    {
        if self.may_be_over {
            self.may_be_over = any_over(self.left.as_slice());
        }
    }
}

/// Lowers the counts of what a tick on a processor counts for.
pub(crate) fn lower<T: Assigned, const N: usize>(
    timer: Timer,
    p: Proc,
    items: &[T],
    counts: &mut Counts<N>,
)
    ensures { counts.new ≡ lowered (λ x. counts_for timer p (T.assigned x)) items.now counts.old }
{
    counts.look();
    for (index, item) in items.iter().enumerate() {
        if counts_for(timer, p, item.assigned()) {
            counts.lower_at(index);
        }
    }
}

/// Whether there are ticks left, and they are 0.
pub(crate) fn is_over(left: Option<u64>) -> bool
    ensures { result ≡ is_over left }
{
    match left {
        None => false,
        Some(ticks) => ticks == 0,
    }
}

/// Whether any of the counts is 0.
fn any_over(counts: &[Option<u64>]) -> bool
    ensures { result ≡ list_any is_over counts.now }
{
    counts.iter().any(|left| is_over(*left))
}

/// Those of so many objects whose ticks left are 0, in the order of their numbers.
#[tactic(auto, using(crate::proofs::Objects::one_more))]
pub(crate) fn objects_over(count: usize, counts: &[Option<u64>]) -> ArrayVec<Object, 32>
    requires { count ≤ 32 }
    ensures { result.items ≡ filter (λ o. is_over (item None counts.now o.number)) (map as_object (range_with_len 1 count)) }
{
    let mut over = ArrayVec::new();
    for index in 0..count {
        let o = Object::from_index(index);
        if is_over(counts.get(o.index()).copied().flatten()) {
            over.push(o);
        }
    }
    over
}
