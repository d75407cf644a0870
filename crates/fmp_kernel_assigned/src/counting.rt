//! How the ticks left fall, and follow what they belong to.
ghost use Rattle.std.specs.Prelude.{◌≡◌, map};
ghost use Rattle.fmp_rules.specs.Due.{IsLeast};
ghost use Rattle.fmp_time.specs.Times.{AreWaits};
ghost use Rattle.fmp_kernel_assigned.specs.Counting.{followed, with_left, less_one, fallen, ticks_below, AreShown, lesser, shown_left};

use fmp_codes::Proc;
use fmp_rules::Timer;
use fmp_time::{Item, Timers};

/// Lowers all ticks left.
fn lower_all(timers: &mut Timers)
    ensures { timers.new ≡ record timers.old { left = map less_one timers.old.left } }
{
    for index in 0..8usize {
        timers.lower(Proc::from_index(index));
    }
}

/// Lowers the ticks left for which a tick on a processor counts.
pub(crate) fn count_down(timers: &mut Timers, timer: Timer, p: Proc)
    ensures { timers.new ≡ record timers.old { left = map (fallen timer p) timers.old.left } }
{
    match timer {
        Timer::Local => timers.lower(p),
        Timer::Global(master) => {
            if p.number == master.number {
                lower_all(timers);
            }
        }
    }
}

/// The lesser of two counts, where there are such.
fn lesser(left: Option<u64>, other: Option<u64>) -> Option<u64>
    ensures { result ≡ lesser left other }
{
    match (left, other) {
        (Some(ticks), Some(others)) => Some(ticks.min(others)),
        _ => left.or(other),
    }
}

/// The least ticks left of all.
pub(crate) fn least(timers: &Timers) -> Option<u64>
    ensures least { IsLeast (AreShown (ticks_below 8) timers.now) result }
    ensures waits { AreWaits timers.now }
{
    let mut least = None;
    for index in 0..8usize {
        least = lesser(least, timers.next(Proc::from_index(index)));
    }
    least
}

/// Lets an item that counts go on on another processor, if it is assigned to another one.
pub(crate) fn follow(timers: &mut Timers, item: Item, from: Proc, to: Proc)
    ensures { timers.new ≡ followed timers.old item from to }
{
    if to.number != from.number {
        timers.move_to(item, to);
    }
}

/// The ticks left where they show, and else 0 in their place.
pub(crate) fn shown(shows: bool, left: Option<u64>) -> Option<u64>
    ensures { result ≡ shown_left shows left }
{
    if shows { left } else { left.and(Some(0)) }
}

/// Gives an item so many ticks left on a processor, or lets it count no more.
pub(crate) fn set_left(timers: &mut Timers, p: Proc, item: Item, left: Option<u64>)
    ensures { timers.new ≡ with_left timers.old p item left }
{
    match left {
        Some(ticks) => timers.arm(p, item, ticks),
        None => timers.cancel(item),
    }
}
