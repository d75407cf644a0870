//! The last line of a text that says where its log goes on.
ghost use Rattle.std.specs.Prelude.{◌≡◌, ◌≤◌, ◌<◌, ◌^◌, ◌++◌, ℕ, length, take, drop, codes, decimal, IfSome, None};
ghost use Rattle.fmp_trace.specs.Prints.{IsUnended};
ghost use Rattle.fmp_run_partial.specs.Endings as spec;

use fmp_bytes::{spelled_number, unsigned32};
use itoa::Buffer;
use memchr::memrchr;

/// Where the last line of a text begins, whose line feed is left out.
fn last_line(text: &[u8]) -> usize
    ensures within { result ≤ length text.now }
    ensures before { spec.AreLines (take result text.now) }
    ensures line { IsUnended (drop result text.now) }
{
    match memrchr(b'\n', text) {
        Some(at) => at + 1,
        None => 0,
    }
}

/// The number of 32 bits that digits spell, if they do.
#[tactic(auto, unfolding(crate::specs::Endings::number_in))]
fn number_in(digits: &[u8]) -> Option<u32>
    ensures { result ≡ spec.number_in digits.now }
{
    let number = spelled_number(digits)?;
    unsigned32(number.negative, number.magnitude?)
}

/// The number of a line of a log that a line says, without its line feed: `ends` and the number in decimal.
fn log_line(line: &[u8]) -> Option<u32>
    ensures some { IfSome result (λ n. line.now ≡ codes "ends " ++ decimal n) }
    ensures none { result ≡ None → (n : ℕ) → n < 2 ^ 32 → line.now ≡ codes "ends " ++ decimal n → ⊥ }
{
    let digits = line.strip_prefix(b"ends ".as_slice())?;
    let number = number_in(digits)?;
    let mut buffer = Buffer::new();
    if buffer.format(number).as_bytes() == digits {
        Some(number)
    } else {
        None
    }
}

/// A text without its last line, and the number that this says, where it says at which line of its log the text ends.
pub fn split_ending(text: &[u8]) -> (&[u8], Option<u32>)
    ensures { spec.IsBody text.now result.0.now result.1 }
{
    let Some((last, front)) = text.split_last() else {
        return (text, None);
    };
    if *last != b'\n' {
        return (text, None);
    }
    let start = last_line(front);
    match log_line(&front[start..]) {
        Some(line) => (&front[..start], Some(line)),
        None => (text, None),
    }
}
