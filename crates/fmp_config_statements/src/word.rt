//! Words: what is kept of a token.
ghost use Rattle.std.specs.Prelude.{◌≡◌};
ghost use Rattle.fmp_config_statements.specs.Words as spec;

use crate::{Token, TokenKind};
use std::marker::Model;

/// The bytes of a token, and its line from 1. No bytes and line 0 where a statement has no such word.
#[derive(Drop)]
pub struct Word<'a> {
    text: &'a [u8],
    line: u32,
    left: usize,
}

impl<'a> Model for Word<'a> {
    ghost use Rattle.fmp_config_statements.specs.Words.{Word as Kept};

    ghost Value = { Kept };

    ghost view = { λ w. record { text = w.text.now; line = w.line } };
}

impl<'a> Word<'a> {
    ghost use Rattle.std.specs.Prelude.{◌≡◌};
    ghost use Rattle.fmp_config_statements.specs.Words as spec;

    /// No word.
    pub fn none() -> Self
        ensures { result ≡ spec.no_word }
    {
        Word {
            text: &[],
            line: 0,
            left: 0,
        }
    }

    /// The word of a token.
    pub fn of(token: &Token<'a>) -> Self
        ensures { result ≡ spec.word_of token.now }
    {
        Word {
            text: token.text(),
            line: token.line(),
            left: token.left(),
        }
    }

    /// The token's bytes.
    pub fn text(&self) -> &'a [u8]
        ensures { result.now ≡ self.now.text }
    {
        self.text
    }

    /// The token's line.
    pub fn line(&self) -> u32
        ensures { result ≡ self.now.line }
    {
        self.line
    }

    /// A hint where the token stands, which no contract rests on: how many bytes of the text are left from its first one on, and 0
    /// where there is no token.
    pub fn left(&self) -> usize {
        self.left
    }
}

/// Whether the token is this byte alone.
pub fn is_mark(byte: u8, token: &Token<'_>) -> bool
    ensures { result ≡ spec.is_mark byte token.now }
{
    matches!(token.kind(), TokenKind::Symbol) && is_one(byte, token.text())
}

/// Whether the text is this byte and nothing else.
fn is_one(byte: u8, text: &[u8]) -> bool
    ensures { result ≡ spec.is_one byte text.now }
{
    match text {
        [only] => *only == byte,
        _ => false,
    }
}
