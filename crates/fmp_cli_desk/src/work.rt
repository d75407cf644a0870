//! Runs at a desk: the texts of a run are opened and read, what it writes goes to standard output, and how it ends is an [`Ending`].
ghost use Rattle.std.specs.Prelude.{◌≡◌, ◌-◌, ◌<◌, ◌^◌, [], Some};
ghost use Rattle.fmp_cli_runs.specs.Texts.{text_ends};
ghost use Rattle.fmp_cli_desk.specs.Runs.{HasRun, HasRunOver, HasWorked};
ghost use Rattle.fmp_cli_desk.specs.Texts.{IsNew, IsWhole};

use crate::desk::{Desk, FaultForm};
use crate::ending::{Ending, Fault, kept, settled};
use crate::keeping::{Kept, LineKeeper};
use crate::texts::{both_opened, both_read, config_alone};
use fmp_cli::Paths;
use fmp_cli_colour::ColourSink;
use fmp_cli_runs::Run;
use fmp_run_devices::TextSource;
use fmp_run_events::{ReadSource, RunFault, Source, WriteSink};

/// Runs over texts that are there, with standard output, in colours or not.
pub fn written<D: Desk, S: Source, R: Run>(
    desk: &D,
    config: &[u8],
    text: &mut S,
    coloured: bool,
    run: &mut R,
) -> Result<R::Done, Ending>
where
    R::Fault: Fault,
    requires may_run { R.may_run }
    requires text_calls { S.failures text.old < 2 ^ 64 - 1 }
    ensures { HasRun (R.promises run.old run.new config.now (text_ends S.left S.failures S.given S.ended text.old text.new))
        ⟦<R::Fault as Fault>⟧.ending result }
{
    let alloc = desk.alloc();
    let mut output = match WriteSink::new(alloc, desk.output()) {
        Ok(output) => output,
        Err(_) => return Err(Ending::Fault(RunFault::Memory)),
    };
    if coloured {
        let mut colours = ColourSink::new(output);
        let ended = run.run(alloc, config, text, &mut colours);
        return settled(ended, colours.below().is_closed());
    }
    let ended = run.run(alloc, config, text, &mut output);
    settled(ended, output.is_closed())
}

/// Runs over texts that were read.
pub fn worked_over<D: Desk, R: Run>(
    desk: &D,
    texts: Kept,
    text: Vec<u8>,
    run: &mut R,
) -> Result<R::Done, Ending>
where
    R::Fault: Fault,
    requires { R.may_run }
    ensures { HasRunOver (IsNew (Some text.items)) (R.promises run.old run.new texts.config.items) ⟦<R::Fault as Fault>⟧.ending texts result }
{
    let mut text = TextSource::new(desk.alloc(), text);
    let ended = written(desk, texts.config.as_slice(), &mut text, false, run);
    kept(ended, texts)
}

/// Reads both texts, and runs over them. What the form of faults wants is kept of them.
pub fn worked<D: Desk, R: Run>(
    desk: &D,
    paths: &Paths<'_>,
    fault_form: FaultForm,
    run: &mut R,
) -> Result<R::Done, Ending>
where
    R::Fault: Fault,
    requires { R.may_run }
    ensures { HasWorked (D.text_at desk.now paths.now.config.now) (IsWhole (D.text_at desk.now paths.now.text.now)) (R.promises run.old run.new)
        ⟦<R::Fault as Fault>⟧.ending result }
{
    let (texts, text) = both_read(desk, paths, fault_form)?;
    worked_over(desk, texts, text, run)
}

/// Reads the configuration, and runs over it where there is no other text.
pub fn worked_alone<D: Desk, R: Run>(
    desk: &D,
    paths: &Paths<'_>,
    run: &mut R,
) -> Result<R::Done, Ending>
where
    R::Fault: Fault,
    requires { R.may_run }
    ensures { HasWorked (D.text_at desk.now paths.now.config.now) (IsNew (Some [])) (R.promises run.old run.new) ⟦<R::Fault as Fault>⟧.ending result }
{
    let texts = config_alone(desk, paths)?;
    worked_over(desk, texts, Vec::new(desk.alloc()), run)
}

/// Reads the configuration, and runs over the other text as it comes, with standard output in colours or not. What the form of faults wants is kept of both.
pub fn streamed<D: Desk, R: Run>(
    desk: &D,
    paths: &Paths<'_>,
    fault_form: FaultForm,
    coloured: bool,
    run: &mut R,
) -> Result<R::Done, Ending>
where
    R::Fault: Fault,
    requires { R.may_run }
    ensures { HasWorked (D.text_at desk.now paths.now.config.now) (IsNew (D.text_at desk.now paths.now.text.now)) (R.promises run.old run.new)
        ⟦<R::Fault as Fault>⟧.ending result }
{
    let (config, text) = both_opened(desk, paths)?;
    let mut lines = LineKeeper::new(desk.alloc(), text, fault_form.shows_place(paths));
    let mut text = ReadSource::new(&mut lines);
    let ended = written(desk, config.as_slice(), &mut text, coloured, run);
    drop(text);
    let text = lines.into_kept();
    kept(ended, Kept { config, text })
}
