//! Finding the next line that says something after bytes that were searched before.
ghost use Rattle.std.specs.Prelude.{◌≡◌, ◌≢◌, ◌<◌, ◌≤◌, ◌+◌, ◌^◌, length, take, drop, Ok, None};
ghost use Rattle.fmp_text.specs.Events.{ScansTo, HasNoFeed};

use fmp_names::Names;
use fmp_text::{Scan, first_said, line_event};
use memchr::memchr;

/// The first whole line that is not skipped, after so many lines, where the first `searched` bytes hold no line feed. Where
/// there is none, it says no event.
#[inline(always)]
pub fn next_said(names: &Names, before: u32, searched: usize, bytes: &[u8]) -> Scan
    requires fits { before + length bytes.now < 2 ^ 32 }
    requires within { searched ≤ length bytes.now }
    requires searched { HasNoFeed (take searched bytes.now) }
    ensures within { result.used ≤ length bytes.now }
    ensures lines { result.lines ≤ before + result.used }
    ensures gives { ScansTo names.now before bytes.now result }
    ensures whole { result.said ≡ Ok None → HasNoFeed (drop result.used bytes.now) }
{
    if searched == 0 {
        return first_said(names, before, bytes);
    }
    let Some(found) = memchr(b'\n', &bytes[searched..]) else {
        return Scan {
            said: Ok(None),
            used: 0,
            lines: before,
        };
    };
    let end = searched + found;
    let said = line_event(names, &bytes[..end]);
    match said {
        Ok(None) => {
            let following = first_said(names, before + 1, &bytes[end + 1..]);
            Scan {
                said: following.said,
                used: end + 1 + following.used,
                lines: following.lines,
            }
        }
        _ => Scan {
            said,
            used: end + 1,
            lines: before + 1,
        },
    }
}
