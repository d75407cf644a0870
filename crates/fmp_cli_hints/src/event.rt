//! The first byte of an event's line that is at fault.
ghost use Rattle.std.specs.Prelude.{◌≡◌, ◌≤◌, length};
ghost use Rattle.fmp_cli_hints.specs.Contexts as contexts;
ghost use Rattle.fmp_cli_hints.specs.Places as spec;

use crate::walk::Walk;
use fmp_text::{Names, event_or_misfit};

/// How far a line of an event text fits, without its line feed: where it does not, its rest begins with the first byte at fault.
/// A carriage return at its end is no part of it.
#[tactic(auto, unfolding(crate::specs::Places::event_place))]
pub fn event_place<'a>(names: &Names, line: &'a [u8]) -> Walk<'a>
    ensures { result ≡ spec.event_place names.now line.now }
{
    match event_or_misfit(names, line) {
        Ok(_event) => Walk::going(&[]),
        Err(misfit) => Walk::refused(misfit),
    }
}

/// How many bytes of a line stand before the place.
pub(crate) fn column_of(line: &[u8], walk: &Walk<'_>) -> usize
    ensures column { result ≡ contexts.column_of line.now walk.now }
    ensures within { result ≤ length line.now }
{
    line.len().saturating_sub(walk.rest().len())
}
