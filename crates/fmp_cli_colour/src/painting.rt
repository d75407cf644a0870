//! A line of a trace in colours.
ghost use Rattle.std.specs.Prelude.{◌≡◌, ◌+◌, ◌-◌, ◌^◌, ◌<◌, ◌++◌, OnOk, OnErr, is_err, if◌then◌else◌};
ghost use Rattle.std.specs.Option.{option_copied};
ghost use Rattle.fmp_run_devices.specs.Devices.{BeginsWith, IsKnown, bytes_of};
ghost use Rattle.fmp_cli_colour.specs.Painting as spec;

use fmp_bytes::{Class, all_of, cut};
use fmp_run_devices::{Failed, Sink, write_all};

/// What a word of a line tells.
#[derive(Clone, Copy)]
pub enum Mark {
    /// Nothing that has a colour.
    Plain,
    /// The call was refused.
    Refused,
    /// A task was released.
    Released,
    /// The processor has another running task.
    Dispatched,
}

/// Whether a word is the error code of a call that was refused.
#[tactic(auto, unfolding(crate::specs::Painting::is_refusal))]
fn is_refusal(word: &[u8]) -> bool
    ensures { result ≡ spec.is_refusal word.now }
{
    word.starts_with(b"E_") && !word.starts_with(b"E_OK") && all_of(Class::Word, word)
}

/// What a word tells, where so many words from it on are told plainly.
#[tactic(auto, unfolding(crate::specs::Painting::mark_of))]
fn mark_of(plain: u8, word: &[u8]) -> Mark
    ensures { result ≡ spec.mark_of plain word.now }
{
    if plain > 0 {
        Mark::Plain
    } else if is_refusal(word) {
        Mark::Refused
    } else if word.starts_with(b"rel=") {
        Mark::Released
    } else if word.starts_with(b"run=") {
        Mark::Dispatched
    } else {
        Mark::Plain
    }
}

/// What stands before a word: a blank, and its colour.
fn before(mark: Mark) -> &'static [u8]
    ensures { result.now ≡ spec.before mark }
{
    match mark {
        Mark::Plain => b" ",
        Mark::Refused => b" \x1b[31m",
        Mark::Released => b" \x1b[32m",
        Mark::Dispatched => b" \x1b[36m",
    }
}

/// What ends the colour of a word.
fn following(mark: Mark) -> &'static [u8]
    ensures { result.now ≡ spec.following_word mark }
{
    match mark {
        Mark::Plain => b"",
        Mark::Refused | Mark::Released | Mark::Dispatched => b"\x1b[0m",
    }
}

/// Writes two pieces, one after the other.
fn put_both<W: Sink>(sink: &mut W, first: &[u8], second: &[u8]) -> Result<(), Failed>
    requires { W.failures sink.old < 2 ^ 64 - 1 }
    ensures count { W.failures sink.new ≡ W.failures sink.old + (if is_err result then 1 else 0) }
    ensures known { IsKnown (W.written sink.old) → IsKnown (W.written sink.new) }
    ensures ok { IsKnown (W.written sink.old) → OnOk result (bytes_of (W.written sink.new) ≡ bytes_of (W.written sink.old) ++ (first.now ++ second.now)) }
    ensures err { IsKnown (W.written sink.old) → OnErr result (BeginsWith (bytes_of (W.written sink.old)) (first.now ++ second.now) (bytes_of (W.written sink.new))) }
{
    write_all(sink, first)?;
    write_all(sink, second)
}

/// Writes a word after its blank.
fn put_word<W: Sink>(sink: &mut W, plain: u8, word: &[u8]) -> Result<(), Failed>
    requires { W.failures sink.old < 2 ^ 64 - 1 }
    ensures count { W.failures sink.new ≡ W.failures sink.old + (if is_err result then 1 else 0) }
    ensures known { IsKnown (W.written sink.old) → IsKnown (W.written sink.new) }
    ensures ok { IsKnown (W.written sink.old) → OnOk result (bytes_of (W.written sink.new) ≡ bytes_of (W.written sink.old) ++ spec.painted_word plain word.now) }
    ensures err { IsKnown (W.written sink.old)
        → OnErr result (BeginsWith (bytes_of (W.written sink.old)) (spec.painted_word plain word.now) (bytes_of (W.written sink.new))) }
{
    let mark = mark_of(plain, word);
    write_all(sink, before(mark))?;
    put_both(sink, word, following(mark))
}

/// Writes the words after the number of a line, of which so many are plain.
fn put_words<W: Sink>(sink: &mut W, words: Option<&[u8]>, plain: u8) -> Result<(), Failed>
    requires { W.failures sink.old < 2 ^ 64 - 1 }
    ensures count { W.failures sink.new ≡ W.failures sink.old + (if is_err result then 1 else 0) }
    ensures known { IsKnown (W.written sink.old) → IsKnown (W.written sink.new) }
    ensures ok { IsKnown (W.written sink.old)
        → OnOk result (bytes_of (W.written sink.new) ≡ bytes_of (W.written sink.old) ++ spec.painted_words plain (spec.words_left (option_copied words.entry))) }
    ensures err { IsKnown (W.written sink.old)
        → OnErr result (BeginsWith (bytes_of (W.written sink.old)) (spec.painted_words plain (spec.words_left (option_copied words.entry)))
        (bytes_of (W.written sink.new))) }
{
    let mut rest = words;
    let mut left = plain;
    while let Some(text) = rest {
        let (word, after) = cut(b' ', text);
        put_word(sink, left, word)?;
        rest = after;
        left = left.saturating_sub(1);
    }
    Ok(())
}

/// Writes the line of an event, without its line feed.
#[tactic(auto, unfolding(crate::specs::Painting::painted_event))]
fn put_event<W: Sink>(sink: &mut W, line: &[u8]) -> Result<(), Failed>
    requires { W.failures sink.old < 2 ^ 64 - 1 }
    ensures count { W.failures sink.new ≡ W.failures sink.old + (if is_err result then 1 else 0) }
    ensures known { IsKnown (W.written sink.old) → IsKnown (W.written sink.new) }
    ensures ok { IsKnown (W.written sink.old) → OnOk result (bytes_of (W.written sink.new) ≡ bytes_of (W.written sink.old) ++ spec.painted_event line.now) }
    ensures err { IsKnown (W.written sink.old) → OnErr result (BeginsWith (bytes_of (W.written sink.old)) (spec.painted_event line.now) (bytes_of (W.written sink.new))) }
{
    let (number, words) = cut(b' ', line);
    write_all(sink, number)?;
    put_words(sink, words, 2)
}

/// Writes a line of a trace, without its line feed: that of an event in colours, and one of a state as it is. After a failed
/// call a beginning of that is out.
#[tactic(auto, unfolding(crate::specs::Painting::painted))]
pub fn put_painted<W: Sink>(sink: &mut W, line: &[u8]) -> Result<(), Failed>
    requires { W.failures sink.old < 2 ^ 64 - 1 }
    ensures count { W.failures sink.new ≡ W.failures sink.old + (if is_err result then 1 else 0) }
    ensures known { IsKnown (W.written sink.old) → IsKnown (W.written sink.new) }
    ensures ok { IsKnown (W.written sink.old) → OnOk result (bytes_of (W.written sink.new) ≡ bytes_of (W.written sink.old) ++ spec.painted line.now) }
    ensures err { IsKnown (W.written sink.old) → OnErr result (BeginsWith (bytes_of (W.written sink.old)) (spec.painted line.now) (bytes_of (W.written sink.new))) }
{
    if line.starts_with(b" ") {
        return write_all(sink, line);
    }
    put_event(sink, line)
}
