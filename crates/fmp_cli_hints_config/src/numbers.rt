//! Why a word of a configuration is no number there.
ghost use Rattle.std.specs.Prelude.{◌<◌, ◌+◌, ◌^◌, length};

use crate::place::Place;
use fmp_bytes::{Class, is_identifier, split_prefix};
use fmp_cli_help::statement_word;
use fmp_config_statements::{Item, Lexer, StatementName, Token, TokenKind, numeral};
use fmp_names::is_processor_word;
use fmp_out::Text;

/// How much of `#define` stands right before a token.
#[derive(Clone, Copy)]
pub enum Stage {
    Outside,
    /// The `#`.
    Sign,
    /// All of it.
    Define,
}

/// How much of `#define` stands right before what follows a token.
fn stage_after(stage: Stage, token: &Token<'_>) -> Stage {
    if matches!(token.kind(), TokenKind::Directive) {
        Stage::Sign
    } else if matches!(stage, Stage::Sign) && token.text() == b"define".as_slice() {
        Stage::Define
    } else {
        Stage::Outside
    }
}

/// The line of a token that is this word after `#define`, else the line of an earlier one.
fn line_after_define(
    word: &[u8],
    stage: Stage,
    line: Option<u32>,
    token: &Token<'_>,
) -> Option<u32> {
    if matches!(stage, Stage::Define) && token.text() == word {
        Some(token.line())
    } else {
        line
    }
}

/// The line of the last `#define` of a text for this word.
pub(crate) fn defined_line(text: &[u8], word: &[u8]) -> Option<u32>
    requires { length text.now + 1 < 2 ^ 32 }
{
    let mut lexer = Lexer::new(text);
    let mut stage = Stage::Outside;
    let mut line = None;
    while let Some(token) = lexer.next_token() {
        line = line_after_define(word, stage, line, &token);
        stage = stage_after(stage, &token);
    }
    line
}

/// What is told of a name that has a `#define`, after the number of its line.
const DEFINED: &[u8] =
    b": the name stands for a number where that is all that follows it, in digits or after 0x: no sign, parentheses, suffix or sum.\n";

/// What is told of a name that has none.
const UNDEFINED: &[u8] =
    b"  No `#define` of this text gives the name a number. Files that `#include` and `INCLUDE` name are not read.\n";

/// What is told of digits that are no number.
const DIGITS: &[u8] =
    b"  A number is written in digits, without a leading zero, or after 0x, and has no suffix.\n";

/// Adds what is told of a name, with the line of its `#define` if it has one.
fn put_name(out: &mut Text, line: Option<u32>) {
    match line {
        None => out.put(UNDEFINED),
        Some(line) => {
            out.put(b"  `#define` in line ");
            out.put_number(u64::from(line));
            out.put(DEFINED);
        }
    }
}

/// What is told of a processor's name.
const PROCESSOR: &[u8] = b"  A processor is written as its number: 1 for P1.\n";

/// What is told of a name whose `#define` stands after it.
const LATER: &[u8] = b" comes later: a name is defined before it is used.\n";

/// Adds that the name is defined in this line, which comes later, if there is one.
fn put_later(out: &mut Text, line: Option<u32>) {
    if let Some(line) = line {
        out.put(b"  `#define` in line ");
        out.put_number(u64::from(line));
        out.put(LATER);
    }
}

/// Adds what is told of a name where a number has to stand, before or after its `#define`.
fn put_named(out: &mut Text, place: &Place<'_>, word: &[u8]) {
    let before = defined_line(place.head(), word);
    let anywhere = defined_line(place.text(), word);
    if before.is_none() && anywhere.is_some() {
        put_later(out, anywhere);
    } else if before.is_none() && is_processor_word(word) {
        out.put(PROCESSOR);
    } else {
        put_name(out, before);
    }
}

/// Whether a word stands for a number before a place: it is one, or has a `#define` there.
pub(crate) fn is_numeric(text: &[u8], word: &[u8]) -> bool
    requires { length text.now + 1 < 2 ^ 32 }
{
    numeral(word).is_some() || defined_line(text, word).is_some()
}

/// Adds which number is out of its range.
fn put_field(out: &mut Text, item: Option<(StatementName, Item)>) {
    if let Some((name, item)) = item {
        out.put(b"  here: ");
        out.put(statement_word(name, item));
        out.put(b", which is out of its range\n");
    }
}

/// Adds what is told of the word at a place of a configuration, where it is no number that may stand there.
pub(crate) fn put_number_hint(out: &mut Text, place: &Place<'_>) {
    let (word, _rest) = split_prefix(Class::Word, place.rest());
    if is_identifier(word) {
        put_named(out, place, word);
    } else if numeral(word).is_none() {
        out.put(DIGITS);
    } else {
        put_field(out, place.item());
    }
}
