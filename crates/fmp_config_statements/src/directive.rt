//! Directives: lines that begin with `#`.
ghost use Rattle.std.specs.Prelude.{◌≡◌};
ghost use Rattle.fmp_config_statements.specs.Directives as spec;

use crate::fault::{ConfigKind, Fault};
use crate::numbers::numeral;
use crate::word::Word;
use crate::{Token, TokenKind};
use fmp_names::is_name;

/// The greatest number that a name can have.
pub const MOST_DEFINED: u64 = 4_294_967_295;

/// What was read of a directive.
#[derive(Drop)]
pub enum Directive<'a> {
    /// No directive is being read.
    Outside,
    /// Its `#`, in this line.
    Marked(u32),
    /// `#define`, in this line.
    Naming(u32),
    /// `#define` in this line, and a name.
    Numbering(u32, Word<'a>),
    /// `#define` in this line, a name and a number.
    Defining(u32, Word<'a>, u64),
    /// What has no effect, whatever follows.
    Skipped,
}

/// The number after the name of a `#define`, where it is one.
#[tactic(auto, unfolding(crate::specs::Directives::defined_number))]
fn defined_number(token: &Token<'_>) -> Option<u64>
    ensures { result ≡ spec.defined_number token.now }
{
    let number = numeral(token.text())?;
    if number <= MOST_DEFINED {
        Some(number)
    } else {
        None
    }
}

/// What the first word after the `#` says.
#[tactic(auto, unfolding(crate::specs::Directives::named))]
fn named<'a>(line: u32, token: &Token<'a>) -> Result<Directive<'a>, Fault<'a>>
    ensures { result ≡ spec.named line token.now }
{
    if !matches!(token.kind(), TokenKind::Identifier) {
        return Err(Fault::of_line(ConfigKind::Syntax, line));
    }
    if token.text() == b"include".as_slice() {
        Ok(Directive::Skipped)
    } else if token.text() == b"define".as_slice() {
        Ok(Directive::Naming(line))
    } else {
        Err(Fault::of_directive(line, &Word::of(token)))
    }
}

/// What a `#define` says with its second word.
#[tactic(auto, unfolding(crate::specs::Directives::named_number))]
fn named_number<'a>(line: u32, token: &Token<'a>) -> Directive<'a>
    ensures { result ≡ spec.named_number line token.now }
{
    if is_name(token.text()) {
        Directive::Numbering(line, Word::of(token))
    } else {
        Directive::Skipped
    }
}

/// What a `#define` says with its third word.
#[tactic(auto, unfolding(crate::specs::Directives::numbered))]
fn numbered<'a>(line: u32, name: Word<'a>, token: &Token<'_>) -> Directive<'a>
    ensures { result ≡ spec.numbered line name.entry token.now }
{
    match defined_number(token) {
        Some(number) => Directive::Defining(line, name, number),
        None => Directive::Skipped,
    }
}

impl<'a> Directive<'a> {
    ghost use Rattle.std.specs.Prelude.{◌≡◌};
    ghost use Rattle.fmp_config_statements.specs.Directives as spec;

    /// What was read with one token more, or the directive's fault.
    pub fn next(self, token: &Token<'a>) -> Result<Directive<'a>, Fault<'a>>
        ensures { result ≡ spec.next_directive self.entry token.now }
    {
        match self {
            Directive::Marked(line) => named(line, token),
            Directive::Naming(line) => Ok(named_number(line, token)),
            Directive::Numbering(line, name) => Ok(numbered(line, name, token)),
            Directive::Outside | Directive::Defining(..) | Directive::Skipped => {
                Ok(Directive::Skipped)
            }
        }
    }
}
