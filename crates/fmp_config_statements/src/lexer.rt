//! Reading a text's tokens.
ghost use Rattle.std.specs.Prelude.{◌≡◌, ◌+◌, ◌<◌, ◌^◌, length, IfOk, IfErr};
ghost use Rattle.fmp_config_statements.specs.Lexing as spec;

use crate::comments::past_comment;
use crate::modes::{Mode, Place, Step, line_after, step_of};
use crate::tokens::{End, Token, TokenKind};
use fmp_bytes::{Class, split_prefix};
use std::marker::Model;

/// The tokens of a text that are still to be read.
#[derive(Drop)]
pub struct Lexer<'a> {
    /// The bytes that are left.
    rest: &'a [u8],
    /// What stands before them.
    mode: Mode,
    /// Their line.
    line: u32,
}

impl<'a> Model for Lexer<'a> {
    ghost use Rattle.std.specs.Prelude.{◌+◌, ◌<◌, ◌^◌, length};
    ghost use Rattle.fmp_config_statements.specs.Lexing.{Lexed, lexed};

    ghost Value = { Lexed };

    ghost view = { λ l. lexed l.mode l.line l.rest.now };

    ghost invariant = { λ l. l.line + length l.rest.now < 2 ^ 32 };
}

/// The bytes of the token at the beginning of a text.
#[tactic(auto, unfolding(crate::specs::Lexing::text_of))]
fn token_text(kind: TokenKind, bytes: &[u8]) -> &[u8]
    requires { 0 < length bytes.now }
    ensures { result.now ≡ spec.text_of kind bytes.now }
{
    match kind {
        TokenKind::Identifier | TokenKind::Digits => split_prefix(Class::Word, bytes).0,
        TokenKind::Symbol => &bytes[..1],
        TokenKind::Text | TokenKind::Directive | TokenKind::DirectiveEnd => &[],
    }
}

/// How many bytes are left from the last `"` on that began a string.
fn quote_left(mode: Mode, next: Mode, quoted: usize, left: usize) -> usize {
    match (mode, next) {
        (Mode::Gap(_) | Mode::Word(_), Mode::Quoted(_)) => left,
        _ => quoted,
    }
}

/// How many bytes are left from a token on. A string is given at its end.
fn token_left(kind: TokenKind, quoted: usize, left: usize) -> usize {
    match kind {
        TokenKind::Text => quoted,
        _ => left,
    }
}

/// What the end of the text gives in this place and line: the end of a directive, and that no tokens follow.
#[tactic(auto, unfolding(crate::specs::Lexing::lexed, crate::specs::Lexing::ended_in))]
fn ended_at<'a>(place: Place, line: u32) -> Result<(Token<'a>, Lexer<'a>), End>
    ensures ok { IfOk result (λ r. spec.ended_at place line ≡ spec.with_lexeme r.0 r.1) }
    ensures err { IfErr result (λ end. spec.ended_at place line ≡ spec.ended end) }
{
    match place {
        Place::LineStart | Place::Code => Err(End::Done),
        Place::Directive => {
            let after = Lexer {
                rest: &[],
                mode: Mode::Gap(Place::LineStart),
                line,
            };
            Ok((Token::new(TokenKind::DirectiveEnd, &[], line, 0), after))
        }
    }
}

/// What the end of the text gives after what stands before it.
#[tactic(auto, unfolding(crate::specs::Lexing::ended_in))]
fn ended_in<'a>(mode: Mode, line: u32) -> Result<(Token<'a>, Lexer<'a>), End>
    ensures ok { IfOk result (λ r. spec.ended_in mode line ≡ spec.with_lexeme r.0 r.1) }
    ensures err { IfErr result (λ end. spec.ended_in mode line ≡ spec.ended end) }
{
    match mode {
        Mode::Gap(place) | Mode::Word(place) | Mode::LineComment(place) => ended_at(place, line),
        Mode::Continued => ended_at(Place::Directive, line),
        Mode::Quoted(began)
        | Mode::Escaped(began)
        | Mode::Opening(_, began)
        | Mode::Block(_, began)
        | Mode::Star(_, began) => Err(End::CutShort(began)),
    }
}

impl<'a> Lexer<'a> {
    ghost use Rattle.std.specs.Prelude.{◌≡◌, ◌+◌, ◌<◌, ◌^◌, [], ◌∷◌, length, IfOk, IfErr, IfSome, IfNone};
    ghost use Rattle.fmp_config_statements.specs.Lexing as spec;

    /// The tokens of a text.
    #[tactic(auto, unfolding(crate::specs::Lexing::lexed_text))]
    pub fn new(text: &'a [u8]) -> Lexer<'a>
        requires { length text.now + 1 < 2 ^ 32 }
        ensures { result ≡ spec.lexed_text text.now }
    {
        Lexer {
            rest: text,
            mode: Mode::Gap(Place::LineStart),
            line: 1,
        }
    }

    /// The next token and those that follow it, or how the tokens end.
    fn next(&self) -> Result<(Token<'a>, Lexer<'a>), End>
        ensures ok { IfOk result (λ r. self.now ≡ spec.with_lexeme r.0 r.1) }
        ensures err { IfErr result (λ end. self.now ≡ spec.ended end) }
    {
        let mut rest = self.rest;
        let mut mode = self.mode;
        let mut line = self.line;
        let mut quoted = 0;
        while let Some((byte, after)) = rest.split_first() {
            let next_line = line_after(line, *byte);
            match step_of(mode, line, *byte, after) {
                Step::Pass(next) => {
                    quoted = quote_left(mode, next, quoted, rest.len());
                    mode = next;
                }
                Step::Give(kind, at, next) => {
                    let left = token_left(kind, quoted, rest.len());
                    let token = Token::new(kind, token_text(kind, rest), at, left);
                    let others = Lexer {
                        rest: after,
                        mode: next,
                        line: next_line,
                    };
                    return Ok((token, others));
                }
                Step::Stop(end) => return Err(end),
            }
            line = next_line;
            rest = past_comment(mode, after);
        }
        ended_in(mode, line)
    }

    /// The next token, while there is one.
    pub fn next_token(&mut self) -> Option<Token<'a>>
        ensures some { IfSome result (λ t. self.old.lexemes ≡ t ∷ self.new.lexemes) }
        ensures none { IfNone result (self.old.lexemes ≡ []) }
        ensures left { IfNone result (self.new ≡ self.old) }
        ensures end { self.new.end ≡ self.old.end }
    {
        match self.next() {
            Ok((token, others)) => {
                *self = others;
                Some(token)
            }
            Err(_) => None,
        }
    }

    /// How the tokens end, once all of them are read.
    pub fn end(&self) -> End
        requires { self.now.lexemes ≡ [] }
        ensures { result ≡ self.now.end }
    {
        match self.next() {
            Ok(_) => unreachable!(),
            Err(end) => end,
        }
    }
}
