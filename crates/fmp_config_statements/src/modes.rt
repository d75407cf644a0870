//! What a byte does, by what stands before it and what follows it.
ghost use Rattle.std.specs.Prelude.{◌≡◌, ◌+◌, ◌<◌, ◌≤◌, ◌^◌};
ghost use Rattle.fmp_config_statements.specs.Steps as spec;

use crate::tokens::{End, TokenKind};
use fmp_bytes::Class;

/// What blanks and comments leave as it is.
#[derive(Clone, Copy, PartialEq, Eq)]
pub enum Place {
    /// Nothing but blanks and comments stands before in the line.
    LineStart,
    /// A token stands before in the line.
    Code,
    /// A directive has begun.
    Directive,
}

/// What stands before a byte. The numbers are the lines in which a string or a comment began.
#[derive(Clone, Copy, PartialEq, Eq)]
pub enum Mode {
    /// A whole token, a blank or a comment.
    Gap(Place),
    /// The first bytes of a word, which goes on as long as letters, digits and `_` do.
    Word(Place),
    /// The first bytes of a string.
    Quoted(u32),
    /// A backslash in a string.
    Escaped(u32),
    /// The first bytes of a comment `// ..`.
    LineComment(Place),
    /// The `/` of the `/*` that opens a comment.
    Opening(Place, u32),
    /// The first bytes of a comment `/* .. */`.
    Block(Place, u32),
    /// A `*` in such a comment, which a `/` closes.
    Star(Place, u32),
    /// A backslash that takes a line feed along in a directive.
    Continued,
}

/// What a byte does.
#[derive(Clone, Copy)]
pub enum Step {
    /// It gives no token.
    Pass(Mode),
    /// It gives a token of this kind and line.
    Give(TokenKind, u32, Mode),
    /// Reading ends before it.
    Stop(End),
}

/// Whether a text begins with a byte.
fn is_next(byte: u8, text: &[u8]) -> bool
    ensures { result ≡ spec.is_next byte text.now }
{
    matches!(text, [first, ..] if *first == byte)
}

/// Where a token leaves the reader.
fn following(place: Place) -> Place
    ensures { result ≡ spec.following place }
{
    match place {
        Place::LineStart | Place::Code => Place::Code,
        Place::Directive => Place::Directive,
    }
}

/// What a line end outside comments and strings does.
#[tactic(auto, unfolding(crate::specs::Steps::at_line_end))]
fn at_line_end(place: Place, line: u32) -> Step
    ensures { result ≡ spec.at_line_end place line }
{
    match place {
        Place::LineStart | Place::Code => Step::Pass(Mode::Gap(Place::LineStart)),
        Place::Directive => {
            Step::Give(TokenKind::DirectiveEnd, line, Mode::Gap(Place::LineStart))
        }
    }
}

/// What a byte of no word does outside directives.
#[tactic(auto, unfolding(crate::specs::Steps::single_in_code))]
fn single_in_code(line: u32, byte: u8) -> Step
    ensures { result ≡ spec.single_in_code line byte }
{
    if byte == b'"' {
        Step::Pass(Mode::Quoted(line))
    } else if byte.is_ascii_graphic() {
        Step::Give(TokenKind::Symbol, line, Mode::Gap(Place::Code))
    } else {
        Step::Stop(End::Bad(line))
    }
}

/// What a byte does that is no blank, begins no comment and is of no word.
#[tactic(auto, unfolding(crate::specs::Steps::single))]
fn single(place: Place, line: u32, byte: u8, rest: &[u8]) -> Step
    ensures { result ≡ spec.single place line byte rest.now }
{
    match place {
        Place::LineStart if byte == b'#' => {
            Step::Give(TokenKind::Directive, line, Mode::Gap(Place::Directive))
        }
        Place::LineStart | Place::Code => single_in_code(line, byte),
        Place::Directive if byte == b'\\' && is_next(b'\n', rest) => Step::Pass(Mode::Continued),
        Place::Directive => Step::Give(TokenKind::Symbol, line, Mode::Gap(Place::Directive)),
    }
}

/// What a byte does that is no blank and begins no comment.
#[tactic(auto, unfolding(crate::specs::Steps::begun))]
fn begun(place: Place, line: u32, byte: u8, rest: &[u8]) -> Step
    ensures { result ≡ spec.begun place line byte rest.now }
{
    if Class::Letter.has(byte) {
        Step::Give(TokenKind::Identifier, line, Mode::Word(following(place)))
    } else if Class::Digit.has(byte) {
        Step::Give(TokenKind::Digits, line, Mode::Word(following(place)))
    } else {
        single(place, line, byte, rest)
    }
}

/// What a byte does between tokens.
#[inline(always)]
#[tactic(auto, unfolding(crate::specs::Steps::in_gap))]
fn in_gap(place: Place, line: u32, byte: u8, rest: &[u8]) -> Step
    ensures { result ≡ spec.in_gap place line byte rest.now }
{
    if byte == b'\n' {
        at_line_end(place, line)
    } else if Class::Space.has(byte) {
        Step::Pass(Mode::Gap(place))
    } else if byte == b'/' && is_next(b'/', rest) {
        Step::Pass(Mode::LineComment(place))
    } else if byte == b'/' && is_next(b'*', rest) {
        Step::Pass(Mode::Opening(place, line))
    } else {
        begun(place, line, byte, rest)
    }
}

/// What a byte does in a string that began in this line.
fn in_string(began: u32, byte: u8) -> Step
    ensures { result ≡ spec.in_string began byte }
{
    match byte {
        b'"' => Step::Give(TokenKind::Text, began, Mode::Gap(Place::Code)),
        b'\\' => Step::Pass(Mode::Escaped(began)),
        _ => Step::Pass(Mode::Quoted(began)),
    }
}

/// Whether a byte of a comment `// ..` takes the line feed after it along.
fn goes_on(place: Place, byte: u8, rest: &[u8]) -> bool
    ensures { result ≡ spec.goes_on place byte rest.now }
{
    match place {
        Place::LineStart | Place::Code => false,
        Place::Directive => byte == b'\\' && is_next(b'\n', rest),
    }
}

/// What a byte does in a comment `// ..`.
#[tactic(auto, unfolding(crate::specs::Steps::in_line_comment))]
fn in_line_comment(place: Place, line: u32, byte: u8, rest: &[u8]) -> Step
    ensures { result ≡ spec.in_line_comment place line byte rest.now }
{
    if byte == b'\n' {
        at_line_end(place, line)
    } else if goes_on(place, byte, rest) {
        Step::Pass(Mode::Continued)
    } else {
        Step::Pass(Mode::LineComment(place))
    }
}

/// What a byte does in a comment `/* .. */` that began in this line.
fn in_block(place: Place, began: u32, byte: u8) -> Step
    ensures { result ≡ spec.in_block place began byte }
{
    if byte == b'*' {
        Step::Pass(Mode::Star(place, began))
    } else {
        Step::Pass(Mode::Block(place, began))
    }
}

/// What a byte does after a `*` in such a comment.
fn after_star(place: Place, began: u32, byte: u8) -> Step
    ensures { result ≡ spec.after_star place began byte }
{
    if byte == b'/' {
        Step::Pass(Mode::Gap(place))
    } else {
        in_block(place, began, byte)
    }
}

/// What a byte does in this line, by what stands before it and the bytes after it.
#[tactic(auto, unfolding(crate::specs::Steps::step_of))]
pub fn step_of(mode: Mode, line: u32, byte: u8, rest: &[u8]) -> Step
    ensures { result ≡ spec.step_of mode line byte rest.now }
{
    match mode {
        Mode::Word(place) if Class::Word.has(byte) => Step::Pass(Mode::Word(place)),
        Mode::Gap(place) | Mode::Word(place) => in_gap(place, line, byte, rest),
        Mode::Quoted(began) => in_string(began, byte),
        Mode::Escaped(began) => Step::Pass(Mode::Quoted(began)),
        Mode::LineComment(place) => in_line_comment(place, line, byte, rest),
        Mode::Opening(place, began) => Step::Pass(Mode::Block(place, began)),
        Mode::Block(place, began) => in_block(place, began, byte),
        Mode::Star(place, began) => after_star(place, began, byte),
        Mode::Continued => Step::Pass(Mode::Gap(Place::Directive)),
    }
}

/// The line of what follows a byte.
pub(crate) fn line_after(line: u32, byte: u8) -> u32
    requires { line + 1 < 2 ^ 32 }
    ensures value { result ≡ spec.line_after line byte }
    ensures bound { result ≤ line + 1 }
{
    if byte == b'\n' { line + 1 } else { line }
}
