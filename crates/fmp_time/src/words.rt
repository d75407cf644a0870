//! Numbers that tell what the timers show.
ghost use Rattle.std.specs.Prelude.{◌≡◌, ◌<◌, ◌++◌, IfOk, IfSome};
ghost use Rattle.std.specs.Option.{option_map};
ghost use Rattle.fmp_time.specs.Left.{left_by};
ghost use Rattle.fmp_time.specs.Words.{left_words};

use fmp_interned::Words;
use std::alloc::AllocError;

/// Adds what tells that an item counts in a list, with so many ticks left, or nothing where it counts in none. The error is want of memory.
pub(crate) fn add_left(
    words: &mut Words,
    place: usize,
    at: Option<(usize, u64)>,
) -> Result<(), AllocError>
    requires place_in { place < 128 }
    requires list_in { IfSome at (λ at. at.0 < 8) }
    ensures { IfOk result (λ done. words.new ≡ words.old ++ left_words place (option_map left_by at)) }
{
    if let Some((list, ticks)) = at {
        words.push((8 * place + list) as u32)?;
        words.push((ticks % 0x1_0000_0000) as u32)?;
        words.push((ticks / 0x1_0000_0000) as u32)?;
    }
    Ok(())
}
