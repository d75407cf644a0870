//! Which lines are taken, and which of the others may be taken next.
ghost use Rattle.std.specs.Prelude.{◌≡◌, ◌≤◌, ◌<◌, ◌+◌, ◌-◌, ◌^◌, ℕ, [], ◌++◌, ◌&&◌, leb, length};
ghost use Rattle.arrayvec.specs.ArrayVec.{array_vec_len};
ghost use Rattle.fmp_search_lines.specs.Orders.{numbers_from};
ghost use Rattle.fmp_search_lines.specs.Places as spec;
ghost use Rattle.fmp_search_lines.specs.Lasts.{last_at, must_at};

use arrayvec::ArrayVec;

/// How many lines may be pending.
pub const MOST_PENDING: usize = 16;

/// The last line that may come before a line.
pub fn last_of(lasts: &[u32], line: u32) -> u32
    ensures { result ≡ last_at lasts.now line }
{
    match lasts.get(line as usize) {
        Some(last) => *last,
        None => 0,
    }
}

/// Whether a line may come before all of these.
#[tactic(auto, unfolding(crate::specs::Places::may_pass))]
pub fn may_pass(lasts: &[u32], line: u32, lines: &[u32]) -> bool
    ensures { result ≡ spec.may_pass (last_at lasts.now) line lines.now }
{
    match lines.split_first() {
        Some((first, rest)) => line <= last_of(lasts, *first) && may_pass(lasts, line, rest),
        None => true,
    }
}

/// Whether a line may come before so many lines from one on.
#[tactic(auto, unfolding(crate::specs::Places::may_pass, crate::specs::Orders::numbers_from))]
fn numbers_pass(lasts: &[u32], line: u32, low: u32, more: u32) -> bool
    requires { low + more < 2 ^ 32 }
    ensures { result ≡ spec.may_pass (last_at lasts.now) line (numbers_from low more) }
{
    if more == 0 {
        return true;
    }
    line <= last_of(lasts, low) && numbers_pass(lasts, line, low + 1, more - 1)
}

/// Whether a line may come before all of these, and before so many lines from one on.
fn both_pass(lasts: &[u32], line: u32, lines: &[u32], low: u32, more: u32) -> bool
    requires { low + more < 2 ^ 32 }
    ensures { result ≡ spec.may_pass (last_at lasts.now) line (lines.now ++ numbers_from low more) }
{
    may_pass(lasts, line, lines) && numbers_pass(lasts, line, low, more)
}

/// Adds these lines but for one to others.
#[tactic(auto, unfolding(crate::specs::Places::without))]
fn put_without(left: &mut ArrayVec<u32, MOST_PENDING>, lines: &[u32], line: u32)
    requires { array_vec_len left.old + length lines.now ≤ 16 }
    ensures { left.new.items ≡ left.old.items ++ spec.without line lines.now }
{
    if let Some((first, rest)) = lines.split_first() {
        if *first != line {
            left.push(*first);
        }
        put_without(left, rest, line);
    }
}

/// Adds these lines to others.
pub(crate) fn put_all(left: &mut ArrayVec<u32, MOST_PENDING>, lines: &[u32])
    requires { array_vec_len left.old + length lines.now ≤ 16 }
    ensures { left.new.items ≡ left.old.items ++ lines.now }
{
    if let Some((first, rest)) = lines.split_first() {
        left.push(*first);
        put_all(left, rest);
    }
}

/// Adds so many lines from one on to others.
#[tactic(auto, unfolding(crate::specs::Orders::numbers_from))]
fn put_numbers(left: &mut ArrayVec<u32, MOST_PENDING>, low: u32, more: u32)
    requires room { array_vec_len left.old + more ≤ 16 }
    requires small { low + more < 2 ^ 32 }
    ensures { left.new.items ≡ left.old.items ++ numbers_from low more }
{
    if more > 0 {
        left.push(low);
        put_numbers(left, low + 1, more - 1);
    }
}

/// Whether each of these lines is at the goal or after it, or need not be taken.
#[tactic(auto, unfolding(crate::specs::Places::are_late))]
fn are_late(musts: &[bool], goal: u32, lines: &[u32]) -> bool
    ensures { result ≡ spec.are_late (must_at musts.now) goal lines.now }
{
    match lines.split_first() {
        Some((first, rest)) => (goal <= *first || !must_of(musts, *first))
            && are_late(musts, goal, rest),
        None => true,
    }
}

/// Whether a line has to be taken.
pub fn must_of(musts: &[bool], line: u32) -> bool
    ensures { result ≡ must_at musts.now line }
{
    match musts.get(line as usize) {
        Some(must) => *must,
        None => true,
    }
}

/// All lines before the top are taken, but for those that are pending.
#[derive(Drop)]
pub struct Taken {
    pub top: u32,
    pub pending: ArrayVec<u32, MOST_PENDING>,
}

impl Taken {
    /// No line is taken.
    pub fn none() -> Taken
        ensures top { result.top ≡ 0 }
        ensures pending { result.pending.items ≡ [] }
    {
        Taken {
            top: 0,
            pending: ArrayVec::new(),
        }
    }

    /// As another is.
    pub fn twin(&self) -> Taken
        ensures top { result.top ≡ self.now.top }
        ensures pending { result.pending.items ≡ self.now.pending.items }
    {
        let mut pending = ArrayVec::new();
        put_all(&mut pending, self.pending.as_slice());
        Taken {
            top: self.top,
            pending,
        }
    }

    /// Whether so many lines may be left pending, and the next be taken, of so many lines.
    pub fn may_leave(&self, lasts: &[u32], count: u32, more: u32) -> bool
        ensures { result ≡ spec.may_leave (last_at lasts.now) count self.now.top self.now.pending.items more }
    {
        u64::from(self.top) + u64::from(more) < u64::from(count)
            && (both_pass(
                lasts,
                self.top + more,
                self.pending.as_slice(),
                self.top,
                more,
            ) && self.pending.len() as u64 + u64::from(more) <= MOST_PENDING as u64)
    }

    /// The line that a step takes, if it may be taken here.
    pub fn line_of(&self, lasts: &[u32], count: u32, step: u8) -> Option<u32>
        ensures { result ≡ spec.line_of (last_at lasts.now) count self.now.top self.now.pending.items step }
    {
        if step < 16 {
            return self.pending.as_slice().get(usize::from(step)).copied();
        }
        let more = u32::from(step - 16);
        if self.may_leave(lasts, count, more) {
            Some(self.top + more)
        } else {
            None
        }
    }

    /// No step of this number or a greater one takes a line: after one that leaves too many lines pending, or passes a line that may not come later, so does
    /// each that leaves more.
    pub fn steps(&self, lasts: &[u32], count: u32) -> u8
        ensures { (s : ℕ) → result ≤ s → spec.line_of (last_at lasts.now) count self.now.top self.now.pending.items s ≡ None }
    {
        for more in 0..17 {
            if !self.may_leave(lasts, count, u32::from(more)) {
                return 16 + more;
            }
        }
        33
    }

    /// The first line that has to be taken and is pending, or else the top. No answer depends on it.
    pub(crate) fn goal(&self, musts: &[bool]) -> u32 {
        for line in self.pending.as_slice() {
            if must_of(musts, *line) {
                return *line;
            }
        }
        self.top
    }

    /// Takes the line of a step.
    pub fn take(&mut self, step: u8, line: u32)
        requires room { 16 ≤ step → array_vec_len self.old.pending + (step - 16) ≤ 16 }
        requires small { 16 ≤ step → self.old.top + (step - 16) + 1 < 2 ^ 32 }
        ensures top { self.new.top ≡ spec.top_after self.old.top step }
        ensures pending { self.new.pending.items ≡ spec.pending_after self.old.top self.old.pending.items line step }
    {
        if step < 16 {
            let mut left = ArrayVec::new();
            put_without(&mut left, self.pending.as_slice(), line);
            self.pending = left;
        } else {
            let more = u32::from(step - 16);
            put_numbers(&mut self.pending, self.top, more);
            self.top += more + 1;
        }
    }

    /// Whether all lines before the goal are that have to be, where the last of these has to be.
    pub fn has_all(&self, musts: &[bool], goal: u32) -> bool
        ensures { result ≡ (leb goal self.now.top && spec.are_late (must_at musts.now) goal self.now.pending.items) }
    {
        goal <= self.top && are_late(musts, goal, self.pending.as_slice())
    }
}
