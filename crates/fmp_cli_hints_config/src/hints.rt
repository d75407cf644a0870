//! What is told of the word of a configuration that is at fault.
use crate::classes::near_class;
use crate::numbers::put_number_hint;
use crate::place::Place;
use crate::taken::put_taken_hint;
use fmp_bytes::following;
use fmp_cli_help::{is_left_out, near_attribute, near_statement, put_left_out, statement_word};
use fmp_cli_hints::put_near;
use fmp_config::ConfigKind;
use fmp_config_statements::{Item, StatementName, find_statement};
use fmp_out::Text;
use std::alloc::{AllocError, Global};

/// Adds the nearest attribute of a statement to a name that is none of its attributes.
fn put_attribute_hint(
    alloc: Global,
    out: &mut Text,
    statement: Option<StatementName>,
    word: &[u8],
) -> Result<(), AllocError> {
    if let Some(StatementName::Create(kind)) = statement {
        put_near(out, near_attribute(alloc, kind, word)?);
    }
    Ok(())
}

/// What is told of a directive.
const DIRECTIVE: &[u8] =
    b"  Let the C preprocessor do its part before: `cpp -P`, or `tools/from-toppers`.\n";

/// What is told of a `#` that begins no directive.
const COMMENT: &[u8] =
    b"  A comment stands between `/*` and `*/`, or after `//` up to the end of its line.\n";

/// What is told of a statement that stands for the second time.
const ONCE: &[u8] = b"  It stands once: leave one of the two out.\n";

/// The directives of the C preprocessor that are not read.
pub const DIRECTIVES: [&[u8]; 11] = [
    b"#if",
    b"#ifdef",
    b"#ifndef",
    b"#elif",
    b"#else",
    b"#endif",
    b"#undef",
    b"#pragma",
    b"#error",
    b"#line",
    b"#warning",
];

/// What is told of a word with a `#` before it.
fn directive_words(word: &[u8]) -> &'static [u8] {
    for directive in &DIRECTIVES {
        if *directive == word {
            return DIRECTIVE;
        }
    }
    COMMENT
}

/// What is told of a statement of which there are too many.
fn many_words(word: &[u8]) -> &'static [u8] {
    match find_statement(word) {
        Some(StatementName::Processors | StatementName::Timer | StatementName::Limits) => ONCE,
        _ => b"",
    }
}

/// What is to be done about a statement that is left out.
const LEFT_OUT: &[u8] = b"  Leave the statement out, as `tools/from-toppers` does.\n";

/// Adds that a name is left out, or the nearest statement to it, or what is to be done about a directive.
fn put_statement_hint(alloc: Global, out: &mut Text, word: &[u8]) -> Result<(), AllocError> {
    if following(b'#', word).is_some() {
        out.put(directive_words(word));
    } else if is_left_out(word) {
        out.put(b"  ");
        put_left_out(out, word);
        out.put(LEFT_OUT);
    } else {
        put_near(out, near_statement(alloc, word)?);
    }
    Ok(())
}

/// What may be written for a word of a statement.
fn written(item: Item) -> &'static [u8] {
    match item {
        Item::First | Item::Second | Item::Member => {
            b", a number or the name of one, without parentheses, sign or sum\n"
        }
        Item::Name | Item::Function => {
            b", a name: a letter or `_`, then letters, digits and `_`, 64 bytes at most\n"
        }
        _ => b"\n",
    }
}

/// Adds which word has to stand in the place of a token that does not fit, where it has to be a word.
fn put_item(out: &mut Text, item: Option<(StatementName, Item)>) {
    if let Some((name, item)) = item {
        out.put(b"  here: ");
        out.put(statement_word(name, item));
        out.put(written(item));
    }
}

/// What is told of a `;` or a `}` where nothing is open.
const STRAY: &[u8] =
    b"  No `;` and no `}` stands here: a class ends with one `}`, and each statement with one `;`.\n";

/// What is told of a statement that may not stand where it does.
const MISPLACED: &[u8] =
    b"  Not here: `TIMER` and `LIMITS` stand before the first class, `DEF_CLASS` and `CLASS` outside of classes. A `}` ends a class.\n";

/// Adds what is told of a token that does not fit: that a `;` or a `}` stands where nothing is open, that a statement stands at the
/// wrong place, or which word has to stand there.
fn put_syntax_hint(out: &mut Text, place: &Place<'_>) {
    if place.is_stray() {
        out.put(STRAY);
    } else if place.is_misplaced() {
        out.put(MISPLACED);
    } else {
        put_item(out, place.item());
    }
}

/// Adds what is told of the word at a place.
pub(crate) fn put_word_hint(
    alloc: Global,
    out: &mut Text,
    place: &Place<'_>,
) -> Result<(), AllocError> {
    let word = place.word();
    match place.kind() {
        ConfigKind::Syntax => put_syntax_hint(out, place),
        ConfigKind::NameTaken => put_taken_hint(out, place.head(), word),
        ConfigKind::BadAttribute => put_attribute_hint(alloc, out, place.statement(), word)?,
        ConfigKind::Unsupported => put_statement_hint(alloc, out, word)?,
        ConfigKind::UnknownClass => put_near(out, near_class(alloc, place.head(), word)?),
        ConfigKind::OutOfRange => put_number_hint(out, place),
        ConfigKind::TooMany => out.put(many_words(word)),
        _ => {}
    }
    Ok(())
}
