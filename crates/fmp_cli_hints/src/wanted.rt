//! What is wanted at a place of a text.
ghost use Rattle.std.specs.Prelude.{◌≡◌};
ghost use Rattle.fmp_cli_hints.specs.Places as spec;

use fmp_cli_help::{put_argument, put_call};
use fmp_codes::{ArgumentKind, Call, Event, Proc};
use fmp_out::Text;
use fmp_text::{Names, Wanted as EventWanted};
use fmp_text_scripts::Wanted as ScriptWanted;
use fmp_trace::put_event;
use std::alloc::{AllocError, Global};

/// What is wanted at a place of a line.
#[derive(Clone, Copy)]
pub enum Wanted {
    /// A byte that may stand in a line.
    LineByte,
    /// A processor of the machine.
    Processor,
    /// What happens on a processor.
    Happening,
    /// Nothing more in the line.
    LineEnd,
    /// This byte of a call.
    Mark(Call, u8),
    /// An argument of a call.
    Argument(Call, ArgumentKind),
    /// Nothing more in the line of a call.
    CallEnd(Call),
    /// This in a script, but for what a line of events has as well.
    Script(ScriptWanted),
    /// Labels and `goto`, which are all by which a script chooses and repeats.
    Jumps,
    /// A line without a brace.
    NoBrace,
    /// An answer as a whole, and no part of its value.
    WholeAnswer,
    /// The end of the line in place of a `;`.
    NoStop,
    /// A line of its own for a comment.
    NoComment,
    /// A number in place of what would have to be computed.
    NoSum,
    /// A number or a name without a `&`.
    NoAddress,
    /// This number of a trace's line.
    LineNumber(u32),
    /// Who runs.
    Runner,
    /// This call as it is printed.
    Printed(Call),
    /// The answer to an event.
    Answer,
    /// What may follow the answer.
    Tail,
    /// Printed ASCII.
    PrintedByte,
    /// A line feed without a carriage return before it.
    NoReturn,
    /// As much of an answer as a trace that may leave out parts tells.
    PartAnswer,
    /// What may follow that.
    PartTail,
    /// The last line of such a trace.
    LastLine,
    /// The line of a log at which such a trace ends.
    LogLine,
    /// Fewer lines before this one that may come after it.
    FewUnderWay,
}

/// What is wanted in place of a byte that may not stand in a line, which begins the text.
pub(crate) fn byte_wanted(text: &[u8]) -> Wanted
    ensures { result ≡ spec.byte_wanted text.now }
{
    match text {
        [b';', ..] => Wanted::NoStop,
        [b'#' | b'/', ..] => Wanted::NoComment,
        [b'&', ..] => Wanted::NoAddress,
        [b'<' | b'>' | b'|' | b'+' | b'~', ..] => Wanted::NoSum,
        _ => Wanted::LineByte,
    }
}

/// What is wanted where a line of events, or a call, is refused, from which place on the text is left.
pub(crate) fn event_wanted(text: &[u8], wanted: EventWanted) -> Wanted
    ensures { result ≡ spec.event_wanted text.now wanted }
{
    match wanted {
        EventWanted::LineByte => byte_wanted(text),
        EventWanted::Processor => Wanted::Processor,
        EventWanted::Happening => Wanted::Happening,
        EventWanted::LineEnd => Wanted::LineEnd,
        EventWanted::Mark(call, byte) => Wanted::Mark(call, byte),
        EventWanted::Argument(call, kind) => Wanted::Argument(call, kind),
        EventWanted::CallEnd(call) => Wanted::CallEnd(call),
    }
}

/// What stands before what is wanted.
pub const LABEL: &[u8] = b"  expected: ";

/// What is wanted in a script alone.
fn script_words(wanted: ScriptWanted) -> &'static [u8] {
    match wanted {
        ScriptWanted::Step => {
            b"`script` and a function, or in a script `end`, a label, as `again:`, `on <answer> goto <label>`, `goto <label>`, or a call that `fmpsim list` has, but not `ret_hdr`\n"
        }
        ScriptWanted::ScriptEnd => b"`end` before this line, which begins another script\n",
        ScriptWanted::JumpPlace => {
            b"a call right before it, or another `on` of that call: `on` and `goto` say where a script goes on after a call\n"
        }
        ScriptWanted::Function => b"a function of the configuration that has no script yet\n",
        ScriptWanted::Answered => {
            b"an answer: a code, as `E_TMOUT`, a code and its value, as `E_OK:3`, or `refused`, which is each code but `E_OK`\n"
        }
        ScriptWanted::AnsweredValue => {
            b"a number of 64 bits with a sign, without a leading zero\n"
        }
        ScriptWanted::Goal => b"`goto` and the name of a label\n",
        ScriptWanted::LabelName => {
            b"the name of a label: a letter or `_`, then letters, digits and `_`, but not `script`, `end`, `on`, `goto` or `ret_hdr`\n"
        }
        ScriptWanted::NewLabel => b"a label that the script does not have yet\n",
        ScriptWanted::Labels => b"before it a label for each `goto` of the script\n",
        ScriptWanted::LineByte | ScriptWanted::LineEnd | ScriptWanted::Call(_) => b"",
    }
}

/// What is wanted in a script in place of what C has.
fn jump_words(wanted: Wanted) -> &'static [u8] {
    match wanted {
        Wanted::Script(wanted) => script_words(wanted),
        Wanted::Jumps => {
            b"labels and `goto`, which are all that a script has of the kind: `again:` before a call, and `on E_TMOUT goto again` or `goto again` after one\n"
        }
        Wanted::NoBrace => {
            b"a line without a brace: a script ends with `end`; `again:` before a call and `on E_TMOUT goto again` after it are all by which it chooses and repeats\n"
        }
        Wanted::WholeAnswer => {
            b"a code alone, as `on E_OK goto a`, or with one value, as `on E_OK:3 goto a`: for a bit of a pattern a line for each value that has it, or `pol_flg(F1, 1, TWF_ORW)` and `on E_OK goto a`\n"
        }
        _ => b"",
    }
}

/// What is wanted in a trace that may leave out parts, where a whole one has something else.
fn partial_words(wanted: Wanted) -> &'static [u8] {
    match wanted {
        Wanted::PartAnswer => {
            b"a blank and the answer: a code, as `E_OK`, `:` and its value where it has one, or `:*`; `wait`, `spin`, `gone`, `idle`, `held`, `taken` or `none`; `?` for any; or `open` where its end is not told\n"
        }
        Wanted::PartTail => {
            b"the end of the line, or in this order ` rel=<task>:<code>[:<value>]`.., ` lost=<value>`, ` run=<task>` or ` run=idle`, ` ipi=<p>[,<p>]..`, ` by=<line>`\n"
        }
        Wanted::LastLine => b"the end of the text below this line: `ends` is the last one\n",
        Wanted::LogLine => {
            b"a blank and the line of the log at which the trace ends, within 32 bits and without a leading zero\n"
        }
        Wanted::FewUnderWay => {
            b"at most 16 lines before this one that may still come after it, by their `by=` or since they are `open`\n"
        }
        _ => jump_words(wanted),
    }
}

/// What is wanted where no call and no processor is.
fn words(wanted: Wanted) -> &'static [u8] {
    match wanted {
        Wanted::LineByte => b"a letter, a digit, `_`, `-`, `(`, `)`, `,` or a blank\n",
        Wanted::Happening => b"`tick`, `ipi`, or a call that `fmpsim list` has\n",
        Wanted::LineEnd => b"the end of the line\n",
        Wanted::NoStop => b"the end of the line, without a `;`\n",
        Wanted::NoComment =>
            b"the end of the line: a comment has a line of its own, which begins with `#`\n",
        Wanted::NoSum =>
            b"a number or a name: nothing is computed, so that `1 << 2` is written 4 and `1|2` is written 3\n",
        Wanted::NoAddress =>
            b"a number or a name without a `&`: what a call gives back stands in its answer\n",
        Wanted::Runner => b"who runs there: the name of a task or a handler, or `-`\n",
        Wanted::Answer => {
            b"a blank and the answer: a code, as `E_OK`, and a value after `:` where it has one; or `wait`, `spin`, `gone`, `idle`, `held`, `taken` or `none`\n"
        }
        Wanted::Tail => {
            b"the end of the line, or in this order ` rel=<task>:<code>[:<value>]`.., ` lost=<value>`, ` run=<task>` or ` run=idle`, ` ipi=<p>[,<p>]..`\n"
        }
        Wanted::PrintedByte => b"printed ASCII, from the blank to `~`\n",
        Wanted::NoReturn => b"a line feed without a carriage return before it\n",
        _ => partial_words(wanted),
    }
}

/// Adds that a processor of the machine is wanted.
pub fn put_processors(out: &mut Text, processors: u8) {
    out.put(b"a processor, P1 to P");
    out.put_number(u64::from(processors));
    out.put(b"\n");
}

/// Adds that this number of the line is wanted.
fn put_line_number(out: &mut Text, number: u32) {
    out.put(b"the line's number, ");
    out.put_number(u64::from(number));
    out.put(b"\n");
}

/// Adds that this byte is wanted at the place.
pub fn put_mark(out: &mut Text, byte: u8) {
    out.put(b"  here: `");
    out.put_byte(byte);
    out.put(b"`\n");
}

/// Adds that the end of the line is wanted at the place.
fn put_end(out: &mut Text) {
    out.put(b"  here: the end of the line\n");
}

/// Adds what is wanted, but for a call as it is printed.
fn put_reported(out: &mut Text, names: &Names, wanted: Wanted) {
    match wanted {
        Wanted::Processor => put_processors(out, names.processors()),
        Wanted::LineNumber(number) => put_line_number(out, number),
        Wanted::Mark(call, byte) => {
            put_call(out, call);
            put_mark(out, byte);
        }
        Wanted::Argument(call, kind) => {
            put_call(out, call);
            put_argument(out, kind);
        }
        Wanted::CallEnd(call) => {
            put_call(out, call);
            put_end(out);
        }
        _ => out.put(words(wanted)),
    }
}

/// Adds the call that is wanted as it is printed, if one is.
fn put_printed(
    alloc: Global,
    out: &mut Text,
    names: &Names,
    wanted: Wanted,
) -> Result<(), AllocError> {
    if let Wanted::Printed(call) = wanted {
        let mut printed = Vec::new(alloc);
        put_event(&mut printed, names, Event::Call(Proc::new(1), call))?;
        out.put(printed.as_slice());
        out.put(b"\n");
    }
    Ok(())
}

/// Adds what is wanted, on the machine of these names.
pub(crate) fn put_wanted(
    alloc: Global,
    out: &mut Text,
    names: &Names,
    wanted: Wanted,
) -> Result<(), AllocError> {
    out.put(LABEL);
    put_reported(out, names, wanted);
    put_printed(alloc, out, names, wanted)
}
