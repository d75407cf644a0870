//! Which jump of a script has no label.
ghost use Rattle.std.specs.Prelude.{◌≡◌, None, IfOk};
ghost use Rattle.std.specs.Option.{option_copied};
ghost use Rattle.fmp_cli_help.specs.Near.{nearest};

use crate::hints::put_near;
use crate::wanted::Wanted;
use fmp_bytes::cut;
use fmp_cli_help::nearer;
use fmp_out::Text;
use fmp_text::Names;
use fmp_text_scripts::{Name, Said, Wanted as ScriptWanted, said_in};
use std::alloc::{AllocError, Global};

/// The line of this number jumps to the label of this name.
#[derive(Drop)]
struct Jump<'t> {
    line: u32,
    name: Name<'t>,
}

/// Whether one of these labels has this name.
fn has_label(labels: &[Name<'_>], name: &Name<'_>) -> bool {
    for label in labels {
        if label.text() == name.text() {
            return true;
        }
    }
    false
}

/// The first of these jumps whose name no label has.
fn first_without<'a, 't>(labels: &[Name<'t>], jumps: &'a [Jump<'t>]) -> Option<&'a Jump<'t>> {
    for jump in jumps {
        if !has_label(labels, &jump.name) {
            return Some(jump);
        }
    }
    None
}

/// The nearest of these labels, if one is near.
fn near_label<'t>(
    alloc: Global,
    word: &[u8],
    labels: &[Name<'t>],
) -> Result<Option<&'t [u8]>, AllocError>
    ensures { IfOk result (λ found. option_copied found ≡ nearest word.now None labels.now) }
{
    let mut best = None;
    for label in labels {
        best = nearer(alloc, word, best, label.text())?;
    }
    Ok(best)
}

/// The labels and the jumps of the script that some lines leave open.
#[derive(Drop)]
struct Marks<'t> {
    labels: Vec<Name<'t>>,
    jumps: Vec<Jump<'t>>,
}

impl<'t> Marks<'t> {
    /// There are none.
    fn new(alloc: Global) -> Self {
        Marks {
            labels: Vec::new(alloc),
            jumps: Vec::new(alloc),
        }
    }

    /// Takes in a line of this number: one that ends a script leaves nothing of those before it.
    fn take_in(&mut self, names: &Names, number: u32, line: &'t [u8]) -> Result<(), AllocError> {
        match said_in(names, true, line) {
            Ok(Some(Said::Stands(name))) => self.labels.push(name)?,
            Ok(Some(Said::Jumps(_, name))) => {
                self.jumps.push(Jump { line: number, name })?;
            }
            Ok(Some(Said::Closes)) => {
                self.labels.clear();
                self.jumps.clear();
            }
            _ => {}
        }
        Ok(())
    }
}

/// The labels and the jumps of the script that the lines before this one leave open.
fn marks_before<'t>(
    alloc: Global,
    names: &Names,
    line: u32,
    text: &'t [u8],
) -> Result<Marks<'t>, AllocError> {
    let mut marks = Marks::new(alloc);
    let mut rest = Some(text);
    for number in 1..line {
        let Some(lines) = rest else {
            return Ok(marks);
        };
        let (own, after) = cut(b'\n', lines);
        marks.take_in(names, number, own)?;
        rest = after;
    }
    Ok(marks)
}

/// What stands after the name of a label that is not there.
const MISSING: &[u8] = b"`, and the script has no such label\n";

/// Adds that the line of this number jumps to a label that is not there.
fn put_jump(out: &mut Text, line: u32, name: &[u8]) {
    out.put(b"  line ");
    out.put_number(u64::from(line));
    out.put(b" jumps to `");
    out.put(name);
    out.put(MISSING);
}

/// Adds which of the jumps has no label, if one has none, and the label that may be meant.
fn put_without_label(alloc: Global, out: &mut Text, marks: &Marks<'_>) -> Result<(), AllocError> {
    if let Some(jump) = first_without(&marks.labels, &marks.jumps) {
        let name = jump.name.text();
        put_jump(out, jump.line, name);
        put_near(out, near_label(alloc, name, &marks.labels)?);
    }
    Ok(())
}

/// Adds, where a label for each jump is wanted before the line of this number, which jump before it has none.
pub(crate) fn put_label_hint(
    alloc: Global,
    out: &mut Text,
    names: &Names,
    line: u32,
    text: &[u8],
    wanted: Option<Wanted>,
) -> Result<(), AllocError> {
    match wanted {
        Some(Wanted::Script(ScriptWanted::Labels)) => {
            let marks = marks_before(alloc, names, line, text)?;
            put_without_label(alloc, out, &marks)
        }
        _ => Ok(()),
    }
}
