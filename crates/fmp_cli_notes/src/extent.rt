//! How far a search went, and why it went no farther.
ghost use Rattle.std.specs.Prelude.{◌≡◌};
ghost use Rattle.fmp_out.specs.Putting.{Adds};
ghost use Rattle.fmp_cli_notes.specs.Extent as spec;

use crate::notes::{About, Notes};
use fmp_cli::{ExploreRequest, Memory, places_within};
use fmp_run_explore::{Extent, Finding, Outcome};

/// Why a search found no more places.
#[derive(Clone, Copy)]
pub enum Reach {
    /// There are no more.
    All,
    /// There was no room for more.
    Room,
    /// There was no memory for more.
    Wanting,
    /// It was to go so far and no farther, or was ended.
    Part,
}

/// That of a search that went through orders of so many lines, as far as it was to go or as there was room for places.
pub(crate) fn reach_within(lines: u32, turns: u32) -> Reach
    ensures { result ≡ spec.reach_within lines turns }
{
    if lines < turns {
        Reach::Room
    } else {
        Reach::Part
    }
}

/// That of a search that found no order.
pub(crate) fn reach_of(finding: Finding, turns: u32) -> Reach
    ensures { result ≡ spec.reach_of finding turns }
{
    match finding {
        Finding::Never => Reach::All,
        Finding::NotWithin(lines) => reach_within(lines, turns),
        Finding::Wanting(_) => Reach::Wanting,
        Finding::Ended(_) | Finding::Shown => Reach::Part,
    }
}

/// How the places are counted.
fn places_of(reach: Reach) -> &'static [u8]
    ensures { result.now ≡ spec.places_of reach }
{
    match reach {
        Reach::All => b"places gone through: ",
        _ => b"places found: ",
    }
}

/// What has room for as many places as there is room for.
fn room_of(request: &ExploreRequest<'_>) -> &'static [u8]
    ensures { result.now ≡ spec.room_of request.now }
{
    match request.memory {
        Memory::Given(bytes)
            if places_within(request.keeps_steps(), bytes).count <= request.bounds.places.count => {
            b", all for which --memory has room"
        }
        _ if request.says_places => b", all for which --places has room",
        Memory::Free(_) => b", all for which half of the free memory has room",
        _ => b", all for which there is room where the free memory is not known",
    }
}

/// Why no more were found.
fn why(reach: Reach, request: &ExploreRequest<'_>) -> &'static [u8]
    ensures { result.now ≡ spec.why reach request.now }
{
    match reach {
        Reach::All => b", all there are",
        Reach::Room => room_of(request),
        Reach::Wanting => b", all for which there was memory",
        Reach::Part => b"",
    }
}

/// Tells how many places were found, why no more, and how far the farthest is.
#[tactic(auto, unfolding(crate::specs::Extent::extent_line))]
pub(crate) fn tell_extent<N: Notes>(
    notes: &mut N,
    about: About<'_>,
    extent: Extent,
    reach: Reach,
    request: &ExploreRequest<'_>,
)
    ensures { Adds (spec.extent_line about.entry.asked.now extent reach request.now) (N.told notes.old) (N.told notes.new) }
{
    let mut line = about.line();
    line.put(places_of(reach));
    line.put_number(extent.places as u64);
    line.put(why(reach, request));
    line.put(b"; lines to the farthest: ");
    line.put_number(u64::from(extent.farthest));
    notes.note(line);
}

/// Tells how far a search went that found no order: through all places, through those for which there was room or memory, or through those within so many
/// lines.
pub fn note_extent<N: Notes>(
    notes: &mut N,
    about: About<'_>,
    outcome: &Outcome,
    request: &ExploreRequest<'_>,
)
    ensures { Adds (spec.extent_note about.entry.asked.now outcome.now.extent outcome.now.finding request.now) (N.told notes.old) (N.told notes.new) }
{
    if let Some(extent) = outcome.extent {
        let reach = reach_of(outcome.finding, request.bounds.turns.count);
        tell_extent(notes, about, extent, reach, request);
    }
}
