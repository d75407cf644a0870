//! Moving bounds to what has a mark.
ghost use Rattle.std.specs.Prelude.{◌≡◌, ◌<◌, ◌≤◌, ◌↔◌, Some, true, IsTrue, length, slice_get};
ghost use Rattle.fmp_run_most.specs.Raised.{IsExtreme, AreRaised};

use crate::figure::{Figure, Measure, is_beyond};
use crate::gauge::SPAN;

/// Whether a number has a mark.
fn is_marked(marks: &[bool], number: usize) -> bool
    ensures { IsTrue result ↔ (slice_get marks.now number ≡ Some true) }
{
    marks.get(number).copied() == Some(true)
}

/// The bound of a measure, or what is farthest beyond it of the numbers that have a mark among those of the figure at a place.
fn extreme(measure: Measure, bound: u16, marks: &[bool], at: usize) -> u16
    requires { at < 1024 }
    ensures { IsExtreme measure bound marks.now at result }
{
    let mut extreme = bound;
    for number in 0..SPAN {
        if is_marked(marks, at * SPAN as usize + number as usize)
            && is_beyond(measure, extreme, number as u16)
        {
            extreme = number as u16;
        }
    }
    extreme
}

/// Moves all bounds so.
pub(crate) fn raise(figures: &[Figure], bounds: &mut [u16], marks: &[bool])
    requires { (length figures.now ≤ 1024) × (length bounds.old ≡ length figures.now) }
    ensures { AreRaised figures.now bounds.old marks.now bounds.new }
{
    for at in 0..figures.len() {
        bounds[at] = extreme(figures[at].measure, bounds[at], marks, at);
    }
}
