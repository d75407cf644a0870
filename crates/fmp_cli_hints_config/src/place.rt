//! The place of a fault in a configuration, and what stands before it.
ghost use Rattle.std.specs.Prelude.{◌≡◌, ◌+◌, ◌<◌, ◌≤◌, ◌^◌, length};
ghost use Rattle.fmp_config.specs.Limits.{most_bytes};

use crate::opened::{Opened, after_token, is_inside, item_in, missing_in};
use fmp_bytes::{Class, following};
use fmp_config::{ConfigFault, ConfigKind};
use fmp_config_statements::{Item, Lexer, StatementName, find_statement};

/// What stands before a place: the statement that is open there, and the last word that is a statement's name.
#[derive(Drop)]
struct Before {
    opened: Option<Opened>,
    last: Option<StatementName>,
}

/// What stands in a text, in one pass over it.
fn all_before(text: &[u8]) -> Before
    requires { length text.now + 1 < 2 ^ 32 }
{
    let mut lexer = Lexer::new(text);
    let mut opened = None;
    let mut inside = false;
    let mut last = None;
    while let Some(token) = lexer.next_token() {
        opened = after_token(inside, opened, &token);
        inside = is_inside(inside, &token);
        last = find_statement(token.text()).or(last);
    }
    Before { opened, last }
}

/// The place of a fault: that of the token at fault.
#[derive(Drop)]
pub(crate) struct Place<'a> {
    text: &'a [u8],
    at: usize,
    fault: &'a ConfigFault,
    before: Before,
    ghost within: { at ≤ length text.now },
    ghost few: { length text.now ≤ most_bytes },
}

/// The place after the last byte that is no blank.
fn end_of_text(text: &[u8]) -> usize
    ensures { result ≤ length text.now }
{
    let mut end = 0;
    for (index, byte) in text.iter().enumerate() {
        if !Class::Space.has(*byte) {
            end = index + 1;
        }
    }
    end
}

/// Whether a fault is told with the form of its statement.
fn wants_form(kind: ConfigKind) -> bool {
    matches!(
        kind,
        ConfigKind::Syntax
            | ConfigKind::OutOfRange
            | ConfigKind::BadAttribute
            | ConfigKind::BadClass
    )
}

impl<'a> Place<'a> {
    /// The place of a fault of a text, if a token is at fault. Where it stands is taken from the fault.
    pub(crate) fn of_fault(text: &'a [u8], fault: &'a ConfigFault) -> Option<Place<'a>>
        requires { length text.now ≤ most_bytes }
    {
        if fault.left == 0 || text.len() < fault.left {
            return None;
        }
        let at = text.len() - fault.left;
        Some(Place {
            text,
            at,
            fault,
            before: all_before(&text[..at]),
        })
    }

    /// The kind of the fault.
    pub(crate) fn kind(&self) -> ConfigKind
        ensures { result ≡ self.now.fault.now.kind }
    {
        self.fault.kind
    }

    /// The word of the fault.
    pub(crate) fn word(&self) -> &'a [u8] {
        self.fault.word.as_bytes()
    }

    /// The whole text.
    pub(crate) fn text(&self) -> &'a [u8]
        ensures few { length result.now ≤ most_bytes }
        ensures text { result.now ≡ self.now.text.now }
    {
        self.text
    }

    /// The text before the place.
    pub(crate) fn head(&self) -> &'a [u8]
        ensures few { length result.now ≤ most_bytes }
        ensures within { length result.now ≤ length self.now.text.now }
    {
        &self.text[..self.at]
    }

    /// The text from the place on.
    pub(crate) fn rest(&self) -> &'a [u8] {
        &self.text[self.at..]
    }

    /// The statement that a token does not go on with, and the byte that has to stand there in its place.
    pub(crate) fn missing(&self) -> Option<(StatementName, u8)> {
        match self.fault.kind {
            ConfigKind::Syntax => missing_in(&self.before.opened),
            _ => None,
        }
    }

    /// The statement that is open, and the word that has to follow, where it has to be a word.
    pub(crate) fn item(&self) -> Option<(StatementName, Item)> {
        item_in(&self.before.opened)
    }

    /// Whether a `;` or a `}` stands where no statement is open.
    pub(crate) fn is_stray(&self) -> bool {
        let rest = self.rest();
        self.before.opened.is_none()
            && (following(b';', rest).is_some() || following(b'}', rest).is_some())
    }

    /// Whether the first word of a statement stands where no statement is open.
    pub(crate) fn is_misplaced(&self) -> bool {
        self.before.opened.is_none() && find_statement(self.word()).is_some()
    }

    /// The statement of the word at fault: the word itself, or the last one before it that is a statement's name.
    pub(crate) fn statement(&self) -> Option<StatementName> {
        find_statement(self.word()).or(self.before.last)
    }

    /// The statement whose form is told: the one that misses a byte, or that of the word, unless nothing is wrong with its form.
    pub(crate) fn formed(&self) -> Option<StatementName> {
        if let Some((name, _byte)) = self.missing() {
            return Some(name);
        }
        if wants_form(self.fault.kind) && !self.is_stray() && !self.is_misplaced() {
            self.statement()
        } else {
            None
        }
    }

    /// The byte under which the caret stands: the first one of the token, or the one after what stands before it, where a byte is missing there.
    pub(crate) fn caret(&self) -> usize
        ensures { result ≤ length self.now.text.now }
    {
        match self.missing() {
            Some(_) => end_of_text(self.head()),
            None => self.at,
        }
    }
}
