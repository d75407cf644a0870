//! A guess by the first bytes of a word: which call it may name. Nothing is said of a guess but that it is a call of the table, since
//! whoever asks for one compares the name. A word that is guessed wrong is only found more slowly.
ghost use Rattle.std.specs.Prelude.{IfSome};
ghost use Rattle.fmp_calls.specs.Known.{IsKnown};

use crate::table::{KnownCall, call_at};

/// The slot of a word is in the highest bits of the product of its key and this number, which was searched for so that each call has a
/// slot of its own. With a call more another number has to be found, and the slots anew: `tools/likely-calls` writes both.
const FACTOR: u64 = 0xb1a7_f458_120f_6a8b;

/// For each slot the place of a call in the table, as [`call_at`] counts places. At 255 there is none.
const SLOTS: [u8; 256] = [
    145, 255, 255, 144, 255, 131, 76, 73, 255, 37, 255, 255, 255, 129, 255, 255, 19, 14, 255, 15,
    100, 255, 255, 255, 255, 4, 162, 255, 255, 255, 141, 35, 255, 255, 255, 255, 255, 255, 255,
    255, 255, 5, 255, 255, 64, 255, 255, 255, 255, 135, 255, 255, 103, 11, 255, 255, 255, 255, 255,
    255, 255, 104, 32, 255, 255, 255, 255, 255, 132, 255, 255, 255, 255, 255, 255, 255, 255, 255,
    0, 255, 255, 255, 140, 2, 67, 142, 255, 38, 255, 255, 255, 255, 255, 255, 136, 163, 255, 255,
    255, 255, 8, 255, 255, 255, 255, 255, 255, 255, 255, 255, 128, 133, 255, 70, 255, 255, 255,
    255, 16, 255, 255, 255, 255, 255, 255, 255, 255, 255, 255, 255, 255, 255, 255, 255, 255, 137,
    255, 255, 255, 255, 138, 1, 255, 255, 12, 255, 255, 139, 192, 160, 255, 255, 255, 255, 255, 9,
    255, 39, 255, 102, 255, 255, 255, 255, 3, 74, 96, 17, 255, 255, 255, 255, 255, 255, 34, 255,
    40, 161, 255, 65, 255, 255, 255, 255, 255, 255, 255, 255, 71, 165, 255, 255, 255, 255, 255,
    164, 255, 69, 255, 255, 255, 255, 13, 255, 255, 255, 255, 255, 33, 255, 255, 255, 130, 255,
    255, 255, 255, 255, 101, 255, 6, 255, 75, 36, 255, 42, 10, 99, 255, 7, 255, 255, 255, 255, 255,
    18, 66, 143, 255, 255, 255, 255, 255, 255, 97, 72, 255, 98, 255, 255, 255, 68, 134, 255, 255,
    41,
];

/// The call that a word with this key ([`fmp_bytes::word_key`]) may name.
#[inline(always)]
pub fn likely_call(key: u64) -> Option<&'static KnownCall>
    ensures { IfSome result (λ known. IsKnown known.now) }
{
    call_at(SLOTS[(key.wrapping_mul(FACTOR) >> 56) as usize])
}
