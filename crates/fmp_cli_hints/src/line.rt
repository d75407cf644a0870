//! Finding a line of a text.
ghost use Rattle.std.specs.Prelude.{◌≡◌, option_map};
ghost use Rattle.std.specs.Option.{option_copied};
ghost use Rattle.fmp_cli_hints.specs.Contexts as spec;

use fmp_bytes::cut;

/// The line after so many line feeds, and what follows its own, where it has one. There is none where the text has fewer.
#[tactic(auto, unfolding(crate::specs::Contexts::line_after))]
pub fn line_after(count: u32, text: &[u8]) -> Option<(&[u8], Option<&[u8]>)>
    ensures { option_map (λ l. (l.0.now, option_copied l.1)) result ≡ spec.line_after count text.now }
{
    let mut rest = text;
    for _step in 0..count {
        let (_line, after) = cut(b'\n', rest);
        rest = after?;
    }
    Some(cut(b'\n', rest))
}
