//! Tokens, and how those of a text end.
ghost use Rattle.std.specs.Prelude.{◌≡◌};

use std::marker::Model;

/// The kinds of tokens.
#[derive(Clone, Copy)]
pub enum TokenKind {
    /// A letter or `_`, then letters, digits and `_`.
    Identifier,
    /// A digit, then letters, digits and `_`.
    Digits,
    /// One other byte.
    Symbol,
    /// A string.
    Text,
    /// The `#` that begins a directive.
    Directive,
    /// The end of a directive.
    DirectiveEnd,
}

/// How the tokens of a text end.
#[derive(Clone, Copy)]
pub enum End {
    /// With the text.
    Done,
    /// Before a byte that may not stand there, in this line.
    Bad(u32),
    /// With the text, in a comment or a string that began in this line.
    CutShort(u32),
}

/// A token: its kind, its bytes, and its line.
#[derive(Drop)]
pub struct Token<'a> {
    kind: TokenKind,
    text: &'a [u8],
    line: u32,
    left: usize,
}

impl<'a> Model for Token<'a> {
    ghost use Rattle.fmp_config_statements.specs.Lexing.{Lexeme};

    ghost Value = { Lexeme };

    ghost view = { λ t. record { kind = t.kind; text = t.text.now; line = t.line } };
}

impl<'a> Token<'a> {
    /// The token of a kind, these bytes, a line, and how many bytes are left from it on.
    pub(crate) fn new(kind: TokenKind, text: &'a [u8], line: u32, left: usize) -> Token<'a>
        ensures { result ≡ record { kind = kind; text = text.now; line = line } }
    {
        Token {
            kind,
            text,
            line,
            left,
        }
    }

    /// The token's kind.
    pub fn kind(&self) -> TokenKind
        ensures { result ≡ self.now.kind }
    {
        self.kind
    }

    /// The bytes of a word, or the one byte of a symbol, as they stand in the text; none for the other kinds.
    pub fn text(&self) -> &'a [u8]
        ensures { result.now ≡ self.now.text }
    {
        self.text
    }

    /// The number of the line, from 1, in which the token begins, or in which the directive ends that it ends.
    pub fn line(&self) -> u32
        ensures { result ≡ self.now.line }
    {
        self.line
    }

    /// A hint where the token stands, which no contract rests on: how many bytes of the text are left from its first one on.
    pub fn left(&self) -> usize {
        self.left
    }
}
