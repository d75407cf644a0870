//! Where a name of a configuration stands first.
ghost use Rattle.std.specs.Prelude.{◌+◌, ◌<◌, ◌^◌, length};

use crate::numbers::defined_line;
use crate::opened::{Opened, after_token, awaits_name, is_inside};
use fmp_config_statements::{Lexer, Token};
use fmp_out::Text;

/// The line of an earlier token, or else that of this one, where it is this word in the place of a name.
fn line_of(
    word: &[u8],
    line: Option<u32>,
    inside: bool,
    opened: &Option<Opened>,
    token: &Token<'_>,
) -> Option<u32> {
    if line.is_none() && !inside && awaits_name(opened) && token.text() == word {
        Some(token.line())
    } else {
        line
    }
}

/// The line in which a word first stands in the place of a name.
fn named_line(text: &[u8], word: &[u8]) -> Option<u32>
    requires { length text.now + 1 < 2 ^ 32 }
{
    let mut lexer = Lexer::new(text);
    let mut inside = false;
    let mut opened = None;
    let mut line = None;
    while let Some(token) = lexer.next_token() {
        line = line_of(word, line, inside, &opened, &token);
        opened = after_token(inside, opened, &token);
        inside = is_inside(inside, &token);
    }
    line
}

/// What stands after the number of the line in which a name stands first.
const FIRST: &[u8] = b" has the name first: choose another one here.\n";

/// Adds in which line the name stands first, if it stands in one.
fn put_line(out: &mut Text, line: Option<u32>) {
    if let Some(line) = line {
        out.put(b"  Line ");
        out.put_number(u64::from(line));
        out.put(FIRST);
    }
}

/// Adds in which line of a text a name stands first: in a statement, or after `#define`.
pub(crate) fn put_taken_hint(out: &mut Text, text: &[u8], word: &[u8])
    requires { length text.now + 1 < 2 ^ 32 }
{
    put_line(out, named_line(text, word).or(defined_line(text, word)));
}
