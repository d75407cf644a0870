//! The parts of statements, token by token.
ghost use Rattle.std.specs.Prelude.{◌≡◌, ◌≤◌, ◌<◌, ◌+◌, ◌^◌, IfSome};
ghost use Rattle.fmp_config_statements.specs.Parts as spec;

use crate::word::is_mark;
use crate::{Token, TokenKind};
use fmp_names::is_name;

/// A word of a statement, by what it stands for.
#[derive(Clone, Copy)]
pub enum Item {
    /// The name of a class or an object.
    Name,
    /// The name of a function.
    Function,
    /// The first number of a statement: digits, or the name of a number.
    First,
    /// The second number of a statement.
    Second,
    /// An attribute.
    Attribute,
    /// A number of a processor in a list.
    Member,
    /// A string.
    Text,
}

/// A part of a statement.
#[derive(Clone, Copy)]
pub enum Part {
    /// This byte.
    Mark(u8),
    /// One word.
    One(Item),
    /// One or more words with this byte between them.
    Series(u8, Item),
    /// One or more tokens with balanced parentheses, without braces, and without a comma outside parentheses.
    Free,
    /// `LOCAL`, or `GLOBAL`, a comma and a number.
    Method,
}

/// What has to follow in a part of a statement.
#[derive(Clone, Copy)]
pub enum Scan {
    Mark(u8),
    One(Item),
    /// One word of a series.
    Next(u8, Item),
    /// One more word of a series, after its mark, or nothing.
    More(u8, Item),
    /// Any tokens, in so many open parentheses, after others or not.
    Free(u64, bool),
    Method,
    /// The comma after `GLOBAL`.
    Master,
    Nothing,
}

/// Whether the token can be such a word.
#[tactic(auto, unfolding(crate::specs::Parts::is_item))]
pub fn is_item(item: Item, token: &Token<'_>) -> bool
    ensures { result ≡ spec.is_item item token.now }
{
    match item {
        Item::Name | Item::Function | Item::Attribute => is_name(token.text()),
        Item::First | Item::Second | Item::Member => {
            matches!(token.kind(), TokenKind::Digits) || is_name(token.text())
        }
        Item::Text => matches!(token.kind(), TokenKind::Text),
    }
}

/// Whether a token cannot stand in a free field.
#[tactic(auto, unfolding(crate::specs::Parts::is_barred))]
fn is_barred(token: &Token<'_>) -> bool
    ensures { result ≡ spec.is_barred token.now }
{
    match token.kind() {
        TokenKind::Identifier => !is_name(token.text()),
        _ => is_mark(b'{', token) || is_mark(b'}', token),
    }
}

/// Whether a token ends a free field outside parentheses.
#[tactic(auto, unfolding(crate::specs::Parts::is_stop))]
fn is_stop(token: &Token<'_>) -> bool
    ensures { result ≡ spec.is_stop token.now }
{
    is_mark(b',', token) || is_mark(b')', token)
}

/// What has to follow in a free field.
#[tactic(auto, unfolding(crate::specs::Parts::next_free))]
fn next_free(depth: u64, token: &Token<'_>) -> Option<Scan>
    requires { depth + 1 < 2 ^ 64 }
    ensures value { result ≡ spec.next_free depth token.now }
    ensures depth { IfSome result (λ s. spec.depth_of s ≤ depth + 1) }
{
    if is_barred(token) || (depth == 0 && is_stop(token)) {
        None
    } else if is_mark(b'(', token) {
        Some(Scan::Free(depth + 1, true))
    } else if is_mark(b')', token) {
        Some(Scan::Free(depth.saturating_sub(1), true))
    } else {
        Some(Scan::Free(depth, true))
    }
}

/// What has to follow after the word of a timer.
#[tactic(auto, unfolding(crate::specs::Parts::next_method))]
fn next_method(token: &Token<'_>) -> Option<Scan>
    ensures value { result ≡ spec.next_method token.now }
    ensures depth { IfSome result (λ s. spec.depth_of s ≤ 0) }
{
    if token.text() == b"LOCAL".as_slice() {
        Some(Scan::Nothing)
    } else if token.text() == b"GLOBAL".as_slice() {
        Some(Scan::Master)
    } else {
        None
    }
}

impl Scan {
    ghost use Rattle.std.specs.Prelude.{◌≡◌, ◌≤◌, ◌<◌, ◌+◌, ◌^◌, IfSome};
    ghost use Rattle.fmp_config_statements.specs.Parts as spec;

    /// What has to follow at the beginning of a part.
    pub fn of(part: Part) -> Self
        ensures value { result ≡ spec.scan_of part }
        ensures depth { spec.depth_of result ≡ 0 }
    {
        match part {
            Part::Mark(byte) => Scan::Mark(byte),
            Part::One(item) => Scan::One(item),
            Part::Series(byte, item) => Scan::Next(byte, item),
            Part::Free => Scan::Free(0, false),
            Part::Method => Scan::Method,
        }
    }

    /// What has to follow after a token, or None where the token does not go on with the part.
    #[tactic(auto, unfolding(crate::specs::Parts::next_of))]
    pub fn next(self, token: &Token<'_>) -> Option<Scan>
        requires { spec.depth_of self + 1 < 2 ^ 64 }
        ensures value { result ≡ spec.next_of self token.now }
        ensures depth { IfSome result (λ s. spec.depth_of s ≤ spec.depth_of self + 1) }
    {
        match self {
            Scan::Mark(byte) if is_mark(byte, token) => Some(Scan::Nothing),
            Scan::One(item) if is_item(item, token) => Some(Scan::Nothing),
            Scan::Next(byte, item) if is_item(item, token) => Some(Scan::More(byte, item)),
            Scan::More(byte, item) if is_mark(byte, token) => Some(Scan::Next(byte, item)),
            Scan::Free(depth, _) => next_free(depth, token),
            Scan::Method => next_method(token),
            Scan::Master if is_mark(b',', token) => Some(Scan::One(Item::First)),
            _ => None,
        }
    }

    /// Whether the part can end so.
    pub fn may_end(self) -> bool
        ensures { result ≡ spec.may_end self }
    {
        match self {
            Scan::More(..) | Scan::Nothing => true,
            Scan::Free(depth, taken) => depth == 0 && taken,
            _ => false,
        }
    }
}
