//! What a comment passes over at once: bytes that neither end it nor a line.
ghost use Rattle.std.specs.Prelude.{◌≡◌, ◌≤◌, ℕ, length};
ghost use Rattle.fmp_config_statements.specs.Lexing.{lexed};
ghost use Rattle.fmp_config_statements.specs.declared.modes.Mode.TheVariants as modes;

use crate::modes::{Mode, Place};
use memchr::memchr2;

/// The rest of a text after what a comment `// ..` passes over: from a line feed or a backslash on.
fn past_line_comment(place: Place, bytes: &[u8]) -> &[u8]
    ensures same { (line : ℕ) → lexed (modes.LineComment place) line bytes.now ≡ lexed (modes.LineComment place) line result.now }
    ensures shorter { length result.now ≤ length bytes.now }
{
    match memchr2(b'\n', b'\\', bytes) {
        Some(at) => &bytes[at..],
        None => &bytes[bytes.len()..],
    }
}

/// The rest of a text after what a comment `/* .. */` passes over: from a line feed or a `*` on.
fn past_block(place: Place, began: u32, bytes: &[u8]) -> &[u8]
    ensures same { (line : ℕ) → lexed (modes.Block place began) line bytes.now ≡ lexed (modes.Block place began) line result.now }
    ensures shorter { length result.now ≤ length bytes.now }
{
    match memchr2(b'\n', b'*', bytes) {
        Some(at) => &bytes[at..],
        None => &bytes[bytes.len()..],
    }
}

/// The rest of a text after what stands before it passes over, where that is a comment.
#[inline(always)]
pub(crate) fn past_comment(mode: Mode, bytes: &[u8]) -> &[u8]
    ensures same { (line : ℕ) → lexed mode line bytes.now ≡ lexed mode line result.now }
    ensures shorter { length result.now ≤ length bytes.now }
{
    match mode {
        Mode::LineComment(place) => past_line_comment(place, bytes),
        Mode::Block(place, began) => past_block(place, began, bytes),
        Mode::Gap(_)
        | Mode::Word(_)
        | Mode::Quoted(_)
        | Mode::Escaped(_)
        | Mode::Opening(_, _)
        | Mode::Star(_, _)
        | Mode::Continued => bytes,
    }
}
