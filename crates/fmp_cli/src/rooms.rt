//! For how many places a search has room.
ghost use Rattle.std.specs.Prelude.{◌≡◌, ◌<◌, min};
ghost use Rattle.fmp_cli.specs.Rooms as spec;

use crate::explore::ExploreRequest;
use fmp_ranges::{Bounds, Places};
use fmp_search_question::is_lasting;

// How many bytes are reckoned for a place: 48 for itself, which it takes at most, while the table of places grows too, and as many for its parts.
const BYTES_OF_PLACE: u64 = 96;

// How many are reckoned for a place where all steps are kept, too, which take 12 each.
const BYTES_WITH_STEPS: u64 = 240;

// For how many places there may be room.
const MOST_PLACES: u64 = 100_000_000;

/// Which memory the places of a search may take, in bytes.
#[derive(Clone, Copy)]
pub enum Memory {
    /// So much, as a command line says.
    Given(u64),
    /// Half of what is free, which is so much.
    Free(u64),
    /// Nothing is said of it, and it is not known how much is free.
    Unknown,
}

impl Memory {
    /// The same, where so much is free and nothing else is said.
    fn with_free(self, free: Option<u64>) -> Memory
        ensures { result ≡ spec.with_free self free }
    {
        match (self, free) {
            (Memory::Unknown, Some(bytes)) => Memory::Free(bytes),
            _ => self,
        }
    }

    /// How many places it holds, where all steps are kept, too, or are not.
    fn places(self, keeps_steps: bool) -> Places
        ensures { result.count ≡ spec.places_in keeps_steps self }
    {
        match self {
            Memory::Given(bytes) => places_within(keeps_steps, bytes),
            Memory::Free(bytes) => places_within(keeps_steps, bytes / 2),
            Memory::Unknown => Places { count: 10_000_000 },
        }
    }
}

/// How many bytes are reckoned for a place, where all steps are kept, too, or are not.
fn bytes_of_place(keeps_steps: bool) -> u64
    ensures value { result ≡ spec.bytes_of_place keeps_steps }
    ensures some { 0 < result }
{
    if keeps_steps {
        BYTES_WITH_STEPS
    } else {
        BYTES_OF_PLACE
    }
}

/// How many places so many bytes hold, where all steps are kept, too, or are not: always the one where all runs begin, and no more than
/// there may be room for.
pub fn places_within(keeps_steps: bool, bytes: u64) -> Places
    ensures { result.count ≡ spec.places_within keeps_steps bytes }
{
    let count = (bytes / bytes_of_place(keeps_steps)).clamp(1, MOST_PLACES);
    Places {
        count: count as u32,
    }
}

/// The smaller of two rooms.
fn smaller(one: Places, other: Places) -> Places
    ensures { result.count ≡ min one.count other.count }
{
    if one.count < other.count { one } else { other }
}

/// For how many places a request has room by its number of places, if it says one, and by this memory.
fn room_in(request: &ExploreRequest<'_>, memory: Memory) -> Places
    ensures { result.count ≡ spec.room_in (spec.keeps_steps request.now) request.now.says_places request.now.bounds.places.count memory }
{
    let keeps_steps = request.keeps_steps();
    match (request.says_places, memory) {
        (false, _) => memory.places(keeps_steps),
        (true, Memory::Given(_)) => smaller(request.bounds.places, memory.places(keeps_steps)),
        (true, _) => request.bounds.places,
    }
}

impl<'a> ExploreRequest<'a> {
    /// Whether the search keeps all steps, since it is asked what stays for ever, or one of many questions may ask that. How far everything goes is told without.
    pub fn keeps_steps(&self) -> bool
        ensures { result ≡ spec.keeps_steps self.now }
    {
        !self.most && (self.questions.is_some() || is_lasting(self.question.as_bytes()))
    }

    /// The same request, with its room for places: what the memory holds that it gives, or else half of so many free bytes, where that is
    /// known. The number of places that it says is a limit besides a memory that it gives, and else the only one. All else stays as it is.
    pub fn with_room(self, free: Option<u64>) -> ExploreRequest<'a>
        ensures memory { result.memory ≡ spec.with_free self.entry.memory free }
        ensures places { result.bounds.places.count ≡ spec.room_of self.entry free }
        ensures turns { result.bounds.turns.count ≡ self.entry.bounds.turns.count }
        ensures others { result ≡ record self.entry { memory = result.memory; bounds = result.bounds } }
    {
        let memory = self.memory.with_free(free);
        let bounds = Bounds {
            turns: self.bounds.turns,
            places: room_in(&self, memory),
        };
        ExploreRequest {
            memory,
            bounds,
            ..self
        }
    }
}
