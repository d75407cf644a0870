//! Reading a script text.
ghost use Rattle.std.specs.Prelude.{◌≡◌, ◌+◌, ◌<◌, ◌≤◌, ◌^◌, length, is_some, ◌==◌, IfOk};
ghost use Rattle.fmp_text_scripts.specs.Scripts.{AreInBits};
ghost use Rattle.std.specs.List.{list_any};
ghost use Rattle.fmp_text_scripts.specs.Texts as spec;
ghost use Rattle.fmp_text_scripts.specs.Texts.{Takes, ReadsAs, nothing_read};

use crate::line::{Said, said_in};
use crate::linking::{Jump, Label, Name, has_label, is_any, link};
use crate::script::{Script, Scripts, has_script};
use crate::ways::Pattern;
use fmp_codes::Call;
use fmp_text::{MOST_BYTES, Names, TextFault, TextKind, is_skipped};
use memchr::memchr;
use std::alloc::Global;
use std::marker::Model;

/// The greatest number of steps of a script.
pub const MOST_STEPS: usize = 256;

/// The greatest number of labels of a script.
const MOST_LABELS: usize = 256;

/// The greatest number of jumps of a script, each of which is a way.
const MOST_WAYS: usize = 1024;

/// A script that is open, with the line that opened it.
#[derive(Drop)]
pub struct Opened<'t> {
    pub line: u32,
    pub function: usize,
    pub steps: Vec<Call>,
    pub jumps: Vec<Jump<'t>>,
    pub labels: Vec<Label<'t>>,
    /// Whether the last line that said something is a call or an `on`.
    pub following: bool,
}

/// What the lines of a text say so far.
#[derive(Drop)]
struct Reader<'t> {
    alloc: Global,
    scripts: Vec<Script>,
    unclosed: Option<Opened<'t>>,
}

impl<'t> Model for Reader<'t> {
    ghost use Rattle.fmp_text_scripts.specs.Texts.{Reading};
    ghost use Rattle.fmp_text_scripts.specs.Views.{reading_of};

    ghost Value = { Reading };

    ghost view = { λ r. reading_of r.scripts.items r.unclosed };
}

impl<'t> Reader<'t> {
    /// Nothing was read.
    fn new(alloc: Global) -> Reader<'t>
        ensures { result ≡ nothing_read }
    {
        Reader {
            alloc,
            scripts: Vec::new(alloc),
            unclosed: None,
        }
    }

    /// Whether the lines of a script follow.
    fn is_open(&self) -> bool
        ensures { result ≡ is_some self.now.unclosed }
    {
        self.unclosed.is_some()
    }

    /// Whether a function has a script already.
    fn has(&self, function: usize) -> bool
        ensures { result ≡ list_any (λ s. s.function == function) self.now.scripts }
    {
        has_script(&self.scripts, function)
    }

    /// Opens the script of a function, without steps. Where the function has a script already, the fault is `WrongArguments`.
    fn begin(&mut self, line: u32, function: usize) -> Result<(), TextFault>
        ensures { Takes (spec.took line self.old (Some (Said.Opens function))) line result self.new }
    {
        if self.has(function) {
            return Err(TextFault {
                kind: TextKind::WrongArguments,
                line,
            });
        }
        self.unclosed = Some(Opened {
            line,
            function,
            steps: Vec::new(self.alloc),
            jumps: Vec::new(self.alloc),
            labels: Vec::new(self.alloc),
            following: false,
        });
        Ok(())
    }

    /// Adds a step to the open script, if any. Where it has `MOST_STEPS` of them already, the fault is `TooMany`.
    fn ask(&mut self, line: u32, call: Call) -> Result<(), TextFault>
        ensures { Takes (spec.took line self.old (Some (Said.Asks call))) line result self.new }
    {
        let Some(mut opened) = self.unclosed.take() else {
            return Ok(());
        };
        if opened.steps.len() >= MOST_STEPS {
            return Err(TextFault {
                kind: TextKind::TooMany,
                line,
            });
        }
        opened.steps.push(call)?;
        opened.following = true;
        self.unclosed = Some(opened);
        Ok(())
    }

    /// Adds a label to the open script, if any. Where it has one of this name already, the fault is `WrongArguments`; where it has `MOST_LABELS`
    /// of others, `TooMany`.
    fn label(&mut self, line: u32, name: Name<'t>) -> Result<(), TextFault>
        ensures { Takes (spec.took line self.old (Some (Said.Stands name.entry))) line result self.new }
    {
        let Some(mut opened) = self.unclosed.take() else {
            return Ok(());
        };
        if has_label(&opened.labels, &name) {
            return Err(TextFault {
                kind: TextKind::WrongArguments,
                line,
            });
        }
        if opened.labels.len() >= MOST_LABELS {
            return Err(TextFault {
                kind: TextKind::TooMany,
                line,
            });
        }
        let at = opened.steps.len();
        opened.labels.push(Label { name, at })?;
        opened.following = false;
        self.unclosed = Some(opened);
        Ok(())
    }

    /// Adds a jump to the open script, if any. Where it stands after no call and no `on`, the fault is `BadWord`; where the script has `MOST_WAYS`
    /// of them already, `TooMany`.
    fn jump(&mut self, line: u32, answer: Pattern, name: Name<'t>) -> Result<(), TextFault>
        ensures { Takes (spec.took line self.old (Some (Said.Jumps answer name.entry))) line result self.new }
    {
        let Some(mut opened) = self.unclosed.take() else {
            return Ok(());
        };
        if !opened.following {
            return Err(TextFault {
                kind: TextKind::BadWord,
                line,
            });
        }
        if opened.jumps.len() >= MOST_WAYS {
            return Err(TextFault {
                kind: TextKind::TooMany,
                line,
            });
        }
        let after = opened.steps.len();
        opened.jumps.push(Jump {
            after,
            answer,
            name,
        })?;
        opened.following = !is_any(answer);
        self.unclosed = Some(opened);
        Ok(())
    }

    /// Closes the open script, if any, and puts it after those read before. Where no label has the name of one of its jumps, the fault is
    /// `UnknownName`.
    fn close(&mut self, line: u32) -> Result<(), TextFault>
        ensures { Takes (spec.took line self.old (Some Said.Closes)) line result self.new }
    {
        let Some(opened) = self.unclosed.take() else {
            return Ok(());
        };
        let ways = link(self.alloc, line, &opened.labels, &opened.jumps)?;
        self.scripts.push(Script {
            function: opened.function,
            steps: opened.steps,
            ways,
        })?;
        Ok(())
    }

    /// Takes in what a line of this number says. The error is its fault in that line, or want of memory.
    fn take(&mut self, line: u32, said: Option<Said<'t>>) -> Result<(), TextFault>
        ensures { Takes (spec.took line self.old said.entry) line result self.new }
    {
        match said {
            None => Ok(()),
            Some(Said::Opens(function)) => self.begin(line, function),
            Some(Said::Asks(call)) => self.ask(line, call),
            Some(Said::Stands(name)) => self.label(line, name),
            Some(Said::Jumps(answer, name)) => self.jump(line, answer, name),
            Some(Said::Closes) => self.close(line),
        }
    }

    /// Reads a whole line of this number without its line feed. The error is its first fault, or want of memory.
    fn read_line(&mut self, names: &Names, line: u32, text: &'t [u8]) -> Result<(), TextFault>
        ensures { Takes (spec.with_line names.now line self.old text.now) line result self.new }
    {
        match said_in(names, self.is_open(), text) {
            Ok(said) => self.take(line, said),
            Err(kind) => Err(TextFault { kind, line }),
        }
    }

    /// The scripts that were read, in the order of their text. Where one is still open, the fault is `CutShort` in the line that opened it.
    fn finish(self) -> Result<Scripts, TextFault>
        ensures { result ≡ spec.at_end self.entry self.entry.unclosed }
    {
        let Reader {
            alloc: _,
            scripts,
            unclosed,
        } = self;
        match unclosed {
            Some(opened) => Err(TextFault {
                kind: TextKind::CutShort,
                line: opened.line,
            }),
            None => Ok(Scripts::new(scripts)),
        }
    }
}

/// Reads the scripts of a text: for each a line with `script` and the name of its function, a line for each call, and a line
/// with `end`. Lines end with a line feed; blank lines and comments are skipped.
///
/// The error is the first fault of the text, or want of memory.
pub fn read_scripts(alloc: Global, text: &[u8], names: &Names) -> Result<Scripts, TextFault>
    ensures exact { ReadsAs (λ s. s) (spec.scripts_in names.now text.now) result }
    ensures in_bits { IfOk result AreInBits }
{
    names.validity();
    if text.len() > MOST_BYTES {
        return Err(TextFault {
            kind: TextKind::TooMany,
            line: 0,
        });
    }
    let mut reader = Reader::new(alloc);
    let mut used = 0;
    let mut lines = 0;
    while let Some(end) = memchr(b'\n', &text[used..]) {
        lines += 1;
        if let Err(fault) = reader.read_line(names, lines, &text[used..used + end]) {
            return Err(fault);
        }
        used += end + 1;
    }
    if is_skipped(&text[used..]) {
        reader.finish()
    } else {
        Err(TextFault {
            kind: TextKind::CutShort,
            line: lines + 1,
        })
    }
}
