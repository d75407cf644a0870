//! The first line at which too many lines are open.
ghost use Rattle.std.specs.Prelude.{◌≡◌, ◌≤◌, ◌<◌, ◌+◌, ◌^◌, ◌++◌, length};
ghost use Rattle.arrayvec.specs.ArrayVec.{array_vec_len};
ghost use Rattle.fmp_search_lines.specs.Crowds.{SaysCrowded, still_open};
ghost use Rattle.fmp_search_lines.specs.Lasts.{last_at};

use crate::taken::{MOST_PENDING, last_of};
use arrayvec::ArrayVec;

/// How many open lines are kept: one more than may be pending.
const MOST_OPEN: usize = 17;

/// Adds those of these lines to others that may come after a line.
#[tactic(auto, unfolding(crate::specs::Crowds::still_open))]
fn put_open(left: &mut ArrayVec<u32, MOST_OPEN>, lasts: &[u32], line: u32, lines: &[u32])
    requires { array_vec_len left.old + length lines.now ≤ 17 }
    ensures { left.new.items ≡ left.old.items ++ still_open (last_at lasts.now) line lines.now }
{
    if let Some((first, rest)) = lines.split_first() {
        if line <= last_of(lasts, *first) {
            left.push(*first);
        }
        put_open(left, lasts, line, rest);
    }
}

/// The first line at which more lines before it may still come after it than may be pending. None where there is no such line.
pub(crate) fn first_crowded(lasts: &[u32]) -> Option<u32>
    requires { length lasts.now < 2 ^ 32 }
    ensures { SaysCrowded (last_at lasts.now) (length lasts.now) result }
{
    let mut open: ArrayVec<u32, MOST_OPEN> = ArrayVec::new();
    for line in 0..lasts.len() as u32 {
        let mut left = ArrayVec::new();
        put_open(&mut left, lasts, line, open.as_slice());
        if left.len() > MOST_PENDING {
            return Some(line);
        }
        left.push(line);
        open = left;
    }
    None
}
