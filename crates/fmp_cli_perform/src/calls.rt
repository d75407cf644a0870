//! What the machine answers to events, and what these change of some things: each event's part is written as it comes.
ghost use Rattle.fmp_cli_perform.specs.Ended.{EndsAnswering, EndsFollowing};
ghost use Rattle.fmp_cli_perform.specs.Performed.{EndsProgram, refuses_colour};

use crate::colours::{is_coloured, uncoloured};
use fmp_cli::{Colour, Paths, Report};
use fmp_cli_desk::{Desk, Ending, FaultForm, ended, put_lines, report_name, streamed};
use fmp_cli_diagnostics::LineForm;
use fmp_cli_hints::TextForm;
use fmp_cli_runs::{Answering, Following};
use fmp_out::Text;
use fmp_run_events::Status;

/// How reporting what the machine answers ends the program. A fault is reported.
pub fn called<D: Desk>(
    desk: &D,
    paths: &Paths<'_>,
    report: Report,
    colour: Colour,
    line: LineForm,
) -> Status
    ensures { EndsProgram (refuses_colour colour) (EndsAnswering (D.text_at desk.now) paths.now report) result }
{
    let Some(coloured) = is_coloured(desk, colour) else {
        return uncoloured(desk);
    };
    let text = TextForm::Events;
    let fault_form = FaultForm { line, text };
    let run = streamed(desk, paths, fault_form, coloured, &mut Answering { report });
    ended(desk, paths, fault_form, run)
}

/// Reports that a name names nothing in a configuration, and what is near to it.
fn report_unnamed<D: Desk>(desk: &D, path: &str, config: &[u8], name: &str) {
    let mut text = Text::new(desk.alloc());
    text.put(b"fmpsim: --of: ");
    text.put(path.as_bytes());
    text.put(b" has nothing called '");
    text.put(name.as_bytes());
    text.put(b"'\n");
    put_lines(desk, text);
    report_name(desk, config, name);
}

/// How reporting what changes of some things ends the program. A fault is reported, and a name that names nothing.
pub fn lived<D: Desk>(
    desk: &D,
    paths: &Paths<'_>,
    names: &str,
    colour: Colour,
    line: LineForm,
) -> Status
    ensures { EndsProgram (refuses_colour colour) (EndsFollowing (D.text_at desk.now) paths.now names.now) result }
{
    let Some(coloured) = is_coloured(desk, colour) else {
        return uncoloured(desk);
    };
    let text = TextForm::Events;
    let fault_form = FaultForm { line, text };
    let run = streamed(desk, paths, fault_form, coloured, &mut Following { names });
    if let Err(Ending::Unnamed(index, config)) = &run {
        let name = names.split(',').nth(*index).unwrap_or("");
        report_unnamed(desk, paths.config, config.as_slice(), name);
    }
    ended(desk, paths, fault_form, run.map(|()| Status::Done))
}
