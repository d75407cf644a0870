//! What may be written in the texts, what is reported of a name, and what was read of a configuration.
ghost use Rattle.std.specs.Prelude.{◌≡◌, false, IfErr};
ghost use Rattle.fmp_cli_perform.specs.Ended.{EndsDescribing};
ghost use Rattle.fmp_cli_perform.specs.Performed.{EndsListing, EndsProgram, IsUnlisted};

use fmp_cli::{Described, Paths};
use fmp_cli_desk::{
    Desk, Ending, FaultForm, NO_PATHS, ended, put_lines, settled_write, worked_alone,
};
use fmp_cli_diagnostics::LineForm;
use fmp_cli_help::{about, everything, near_word};
use fmp_cli_hints::TextForm;
use fmp_cli_runs::Describing;
use fmp_out::Text;
use fmp_run_events::Status;
use std::alloc::{AllocError, Global};
use std::io::Write;

/// Writes a text to standard output.
pub fn put_out<D: Desk>(desk: &D, text: &[u8]) -> Result<(), Ending>
    ensures { IfErr result IsUnlisted }
{
    settled_write(desk.output().write_all(text))
}

/// What is reported of a name that nothing has.
fn unknown_lines(alloc: Global, name: &str) -> Result<Text, AllocError> {
    let near = near_word(alloc, name.as_bytes())?;
    let mut text = Text::new(alloc);
    text.put(b"fmpsim: nothing is called ");
    text.put(name.as_bytes());
    text.put(b": see fmpsim list\n");
    if let Some(near) = near {
        text.put(b"  near: ");
        text.put(near);
        text.put_byte(b'\n');
    }
    Ok(text)
}

/// Writes what may be written in the texts, or what is reported of a name.
fn list<D: Desk>(desk: &D, name: Option<&str>) -> Result<Status, Ending>
    ensures { EndsListing name.entry result }
{
    let alloc = desk.alloc();
    let Some(name) = name else {
        put_out(desk, everything(alloc)?.as_slice())?;
        return Ok(Status::Done);
    };
    let Some(text) = about(alloc, name.as_bytes())? else {
        put_lines(desk, unknown_lines(alloc, name)?);
        return Ok(Status::Usage);
    };
    put_out(desk, text.as_slice())?;
    Ok(Status::Done)
}

/// How reporting what may be written ends the program.
pub fn listed<D: Desk>(desk: &D, name: Option<&str>, line: LineForm) -> Status
    ensures { EndsProgram false (EndsListing name.entry) result }
{
    // No text is read, so that of their forms any will do.
    let text = TextForm::Events;
    ended(desk, &NO_PATHS, FaultForm { line, text }, list(desk, name))
}

/// How writing something of a configuration alone ends the program. A fault is reported.
pub fn described<D: Desk>(
    desk: &D,
    paths: &Paths<'_>,
    mut describing: Describing,
    line: LineForm,
) -> Status
    ensures { EndsProgram false (EndsDescribing (D.text_at desk.now) paths.now.config.now describing) result }
{
    // Nor here.
    let text = TextForm::Events;
    let run = worked_alone(desk, paths, &mut describing).map(|()| Status::Done);
    ended(desk, paths, FaultForm { line, text }, run)
}

/// How writing what was read of a configuration ends the program. A fault is reported.
pub fn config_listed<D: Desk>(desk: &D, request: &Described<'_>, line: LineForm) -> Status
    ensures { EndsProgram false (EndsDescribing (D.text_at desk.now) request.now.config.now Describing.Listing) result }
{
    let paths = Paths {
        config: request.config,
        text: "",
        // Nor here.
        context: request.context.then_some(TextForm::Events),
    };
    described(desk, &paths, Describing::Listing, line)
}
