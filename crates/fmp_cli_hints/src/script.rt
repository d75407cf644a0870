//! The first byte of a script text's line that is at fault.
ghost use Rattle.std.specs.Prelude.{◌≡◌};
ghost use Rattle.fmp_text.specs.EventFaults.{first_word};
ghost use Rattle.fmp_cli_hints.specs.Scripts as spec;

use crate::walk::Walk;
use crate::wanted::{Wanted, byte_wanted, event_wanted};
use fmp_bytes::{Class, skip, split_prefix};
use fmp_text::{Names, TextKind, without_return};
use fmp_text_scripts::{Misfit, Wanted as ScriptWanted, line_misfit};

/// Whether a word is one of those by which C programs choose and repeat.
fn is_of_c(word: &[u8]) -> bool
    ensures { result ≡ spec.is_of_c word.now }
{
    word == b"if".as_slice()
        || word == b"else".as_slice()
        || word == b"while".as_slice()
        || word == b"for".as_slice()
        || word == b"do".as_slice()
        || word == b"switch".as_slice()
        || word == b"break".as_slice()
        || word == b"continue".as_slice()
        || word == b"return".as_slice()
}

/// What is wanted in place of a byte that may not stand in a line with this first word: one of those with which C programs set variables and put
/// statements together, in a line with an answer one with which they look at a part of it, or another.
fn byte_in_script(word: &[u8], text: &[u8]) -> Wanted
    ensures { result ≡ spec.byte_wanted word.now text.now }
{
    match text {
        [b'{' | b'}', ..] => Wanted::NoBrace,
        [
            b'&' | b'|' | b'+' | b'~' | b'<' | b'>' | b'=' | b'!' | b'*' | b'.',
            ..
        ] if word == b"on".as_slice() => Wanted::WholeAnswer,
        [b'=', ..] => Wanted::Jumps,
        _ => byte_wanted(text),
    }
}

/// What is wanted where a line with this first word is refused.
fn script_wanted(word: &[u8], misfit: Misfit<'_>) -> Wanted
    ensures { result ≡ spec.script_wanted word.now misfit.entry.rest.now misfit.entry.wanted }
{
    match misfit.wanted {
        ScriptWanted::LineByte => byte_in_script(word, misfit.rest),
        ScriptWanted::LineEnd => Wanted::LineEnd,
        ScriptWanted::Call(wanted) => event_wanted(misfit.rest, wanted),
        wanted => Wanted::Script(wanted),
    }
}

/// How far a line with this fault fits, without its line feed. A carriage return at its end is no part of it. Where it begins with a word of C, a word or a
/// byte at fault is so from there on.
#[tactic(auto, unfolding(crate::specs::Scripts::script_place))]
pub(crate) fn script_place<'a>(names: &Names, line: &'a [u8], kind: TextKind) -> Walk<'a>
    ensures { result ≡ spec.script_place names.now line.now kind }
{
    let text = skip(Class::Blank, without_return(line));
    let (word, _rest) = split_prefix(Class::Word, text);
    match kind {
        TextKind::CutShort | TextKind::TooMany | TextKind::Memory => Walk::going(text),
        TextKind::BadByte | TextKind::BadWord if is_of_c(word) => Walk::stuck(text, Wanted::Jumps),
        _ => {
            let misfit = line_misfit(names, kind, line);
            Walk::stuck(misfit.rest, script_wanted(word, misfit))
        }
    }
}
