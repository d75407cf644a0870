//! Codes, and whether a line is that of a refused call.
ghost use Rattle.std.specs.Prelude.{◌≡◌};
ghost use Rattle.fmp_search_pattern.specs.Items as spec;

use fmp_bytes::cut;
use fmp_codes::Code;

/// Whether a word is the name of a code, such as `E_OK`.
pub fn is_code(word: &[u8]) -> bool
    ensures { result ≡ spec.is_code word.now }
{
    Code::ALL.iter().any(|code| code.name().as_bytes() == word)
}

/// Whether a word is the code of a refused call.
#[tactic(auto, unfolding(crate::specs::Items::is_refusal))]
fn is_refusal(word: &[u8]) -> bool
    ensures { result ≡ spec.is_refusal word.now }
{
    is_code(word) && word != b"E_OK".as_slice()
}

/// Whether some word of a line is such a code.
pub(crate) fn is_refused(line: &[u8]) -> bool
    ensures { result ≡ spec.is_refused line.now }
{
    let mut rest = Some(line);
    while let Some(text) = rest {
        let (word, after) = cut(b' ', text);
        rest = after;
        if is_refusal(word) {
            return true;
        }
    }
    false
}
