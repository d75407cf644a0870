//! Numerals.
ghost use Rattle.std.specs.Prelude.{◌≡◌};
ghost use Rattle.fmp_config_statements.specs.Numbers as spec;

use fmp_bytes::spelled_number;

/// The number that a text stands for: decimal digits without a leading zero, or `0x` and hexadecimal digits. What is more than a `u64` holds counts as its greatest.
#[tactic(auto, unfolding(crate::specs::Numbers::numeral))]
pub fn numeral(text: &[u8]) -> Option<u64>
    ensures { result ≡ spec.numeral text.now }
{
    let number = spelled_number(text)?;
    if number.zero_led {
        return None;
    }
    match number.magnitude {
        Some(magnitude) => Some(magnitude),
        None => Some(u64::MAX),
    }
}
