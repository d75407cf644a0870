//! The statement that is open behind a token of a configuration, and what has to follow there.
ghost use Rattle.std.specs.Prelude.{◌≡◌, ◌≤◌, ◌<◌, ◌+◌, ◌^◌, IfSome};
ghost use Rattle.fmp_cli_hints_config.specs.Opened as spec;
ghost use Rattle.fmp_config_statements.specs.Parts.{depth_of};

use fmp_config_statements::{Item, Part, Scan, StatementName, Token, TokenKind, find_statement};
use std::marker::Model;

/// A statement that is open: what has to follow of the part that is being read, and the parts after it.
#[derive(Drop)]
pub(crate) struct Opened {
    name: StatementName,
    scan: Scan,
    rest: &'static [Part],
}

impl Model for Opened {
    ghost use Rattle.fmp_cli_hints_config.specs.Opened.{Opened as Begun};

    ghost Value = { Begun };

    ghost view = { λ o. record { name = o.name; scan = o.scan; rest = o.rest.now } };
}

/// A statement after its first word.
fn begun(name: StatementName) -> Opened
    ensures { depth_of result.scan ≡ 0 }
{
    Opened {
        name,
        scan: Scan::Nothing,
        rest: name.parts(),
    }
}

/// The statement with a token of its next part. One that does not fit changes nothing.
fn entered(opened: Opened, token: &Token<'_>) -> Opened
    ensures { depth_of result.scan ≤ depth_of opened.scan + 1 }
{
    let [part, rest @ ..] = opened.rest else {
        return opened;
    };
    match Scan::of(*part).next(token) {
        Some(scan) => Opened {
            name: opened.name,
            scan,
            rest,
        },
        None => opened,
    }
}

/// The statement with a token of the part that is being read, or of the next one. One that fits neither changes nothing.
fn advanced(opened: Opened, token: &Token<'_>) -> Opened
    requires { depth_of opened.scan + 1 < 2 ^ 64 }
    ensures { depth_of result.scan ≤ depth_of opened.scan + 1 }
{
    match opened.scan.next(token) {
        Some(scan) => Opened { scan, ..opened },
        None => entered(opened, token),
    }
}

/// The statement, where more has to follow.
fn settled(opened: Opened) -> Option<Opened>
    ensures { IfSome result (λ o. depth_of o.scan ≤ depth_of opened.scan) }
{
    if opened.rest.is_empty() && matches!(opened.scan, Scan::Nothing) {
        None
    } else {
        Some(opened)
    }
}

/// The open statement after a token outside directives.
fn stepped(opened: Option<Opened>, token: &Token<'_>) -> Option<Opened>
    requires { spec.depth_in opened + 1 < 2 ^ 64 }
    ensures { spec.depth_in result ≤ spec.depth_in opened + 1 }
{
    match opened {
        None => match find_statement(token.text()) {
            Some(name) => Some(begun(name)),
            None => None,
        },
        Some(opened) => settled(advanced(opened, token)),
    }
}

/// Whether what follows a token stands inside a directive.
pub(crate) fn is_inside(inside: bool, token: &Token<'_>) -> bool {
    match token.kind() {
        TokenKind::Directive => true,
        TokenKind::DirectiveEnd => false,
        _ => inside,
    }
}

/// The open statement after a token inside or outside a directive.
pub(crate) fn after_token(inside: bool, opened: Option<Opened>, token: &Token<'_>) -> Option<Opened>
    requires { spec.depth_in opened + 1 < 2 ^ 64 }
    ensures { spec.depth_in result ≤ spec.depth_in opened + 1 }
{
    if inside || matches!(token.kind(), TokenKind::Directive) {
        opened
    } else {
        stepped(opened, token)
    }
}

/// The byte that the first of these parts is.
fn first_mark(rest: &[Part]) -> Option<u8> {
    match rest {
        [Part::Mark(byte), ..] => Some(*byte),
        _ => None,
    }
}

/// The byte that has to follow, where it has to be a byte.
fn mark_at(scan: Scan, rest: &[Part]) -> Option<u8> {
    match scan {
        Scan::Nothing | Scan::More(..) => first_mark(rest),
        Scan::Free(0, true) => first_mark(rest),
        Scan::Free(0, false) => None,
        Scan::Free(..) => Some(b')'),
        Scan::Master => Some(b','),
        Scan::Mark(_) | Scan::One(_) | Scan::Next(..) | Scan::Method => None,
    }
}

/// The word that the first of these parts begins with.
fn first_item(rest: &[Part]) -> Option<Item> {
    match rest {
        [Part::One(item) | Part::Series(_, item), ..] => Some(*item),
        _ => None,
    }
}

/// The word that has to follow, where it has to be a word.
fn item_at(scan: Scan, rest: &[Part]) -> Option<Item> {
    match scan {
        Scan::One(item) | Scan::Next(_, item) => Some(item),
        Scan::Nothing => first_item(rest),
        _ => None,
    }
}

/// The open statement, and the byte that has to follow in it, where it has to be a byte.
pub(crate) fn missing_in(opened: &Option<Opened>) -> Option<(StatementName, u8)> {
    match opened {
        Some(opened) => {
            let byte = mark_at(opened.scan, opened.rest)?;
            Some((opened.name, byte))
        }
        None => None,
    }
}

/// The open statement, and the word that has to follow in it, where it has to be a word.
pub(crate) fn item_in(opened: &Option<Opened>) -> Option<(StatementName, Item)> {
    match opened {
        Some(opened) => {
            let item = item_at(opened.scan, opened.rest)?;
            Some((opened.name, item))
        }
        None => None,
    }
}

/// Whether the open statement defines a class, whose name has to follow.
pub(crate) fn awaits_class(opened: &Option<Opened>) -> bool {
    match opened {
        Some(opened) => {
            matches!(opened.name, StatementName::DefClass)
                && matches!(item_at(opened.scan, opened.rest), Some(Item::Name))
        }
        None => false,
    }
}

/// Whether a name has to follow in the open statement.
pub(crate) fn awaits_name(opened: &Option<Opened>) -> bool {
    match opened {
        Some(opened) => matches!(item_at(opened.scan, opened.rest), Some(Item::Name)),
        None => false,
    }
}
