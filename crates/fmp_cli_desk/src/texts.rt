//! The texts that a run reads: a configuration, and beside it another text. One of them may come from standard input. Each is opened once, and why it cannot
//! be read is kept.
ghost use Rattle.std.specs.Prelude.{◌≡◌, IfErr, IfOk, IfSome};
ghost use Rattle.fmp_config.specs.Limits as config_limits;
ghost use Rattle.fmp_text.specs.Limits as text_limits;
ghost use Rattle.fmp_cli_desk.specs.declared.ending.Ending.TheVariants.{OneInput};
ghost use Rattle.fmp_cli_desk.specs.Texts.{AreRead, IsFaultBefore, IsUnbegun};

use crate::desk::{Desk, FaultForm};
use crate::ending::Ending;
use crate::keeping::{ErrorKeeper, Kept, KeptText};
use fmp_cli::Paths;
use fmp_config::MOST_BYTES as MOST_CONFIG_BYTES;
use fmp_run_devices::{MemSource, ReadFault};
use fmp_run_events::{ReadSource, RunFault, read_up_to};
use fmp_run_texts::config_from;
use fmp_text::MOST_BYTES;
use std::alloc::Global;
use std::io;
use std::io::{ErrorKind, Read};

/// The path in whose place a text is read from standard input.
pub const STANDARD_INPUT: &str = "-";

/// Why a text was not read.
#[derive(Drop)]
enum Unread {
    Failed(io::Error),
    Memory,
}

/// A text, read to its end, or beyond a limit.
fn text_up_to<T: Read + Drop>(alloc: Global, text: T, limit: usize) -> Result<Vec<u8>, Unread>
    ensures { IfOk result (λ bytes. AreRead limit (T.remaining text) bytes.items) }
{
    let mut text = ErrorKeeper::new(text);
    let mut source = ReadSource::new(&mut text);
    let read = read_up_to(alloc, &mut source, limit);
    drop(source);
    match read {
        Ok(bytes) => Ok(bytes),
        Err(ReadFault::Memory) => Err(Unread::Memory),
        Err(ReadFault::Failed) => Err(Unread::Failed(
            text.into_error()
                .unwrap_or(io::Error::from(ErrorKind::Other)),
        )),
    }
}

/// A configuration, read to its end, or beyond its greatest length. It is kept for what stands beside a fault.
fn config_read<T: Read + Drop>(alloc: Global, text: T) -> Result<Vec<u8>, Ending>
    ensures ok { IfOk result (λ bytes. AreRead config_limits.most_bytes (T.remaining text) bytes.items) }
    ensures err { IfErr result (IsUnbegun (T.remaining text)) }
{
    match text_up_to(alloc, text, MOST_CONFIG_BYTES) {
        Ok(config) => Ok(config),
        Err(Unread::Failed(error)) => Err(Ending::NoConfig(error)),
        Err(Unread::Memory) => Err(Ending::Fault(RunFault::Memory)),
    }
}

/// Another text, read to its end, or beyond its greatest length.
pub fn text_read<T: Read + Drop>(alloc: Global, text: T) -> Result<Vec<u8>, Ending>
    ensures { IfOk result (λ bytes. AreRead text_limits.most_bytes (T.remaining text) bytes.items) }
{
    match text_up_to(alloc, text, MOST_BYTES) {
        Ok(text) => Ok(text),
        Err(Unread::Failed(error)) => Err(Ending::NoText(error)),
        Err(Unread::Memory) => Err(Ending::Fault(RunFault::Memory)),
    }
}

/// The configuration, read where no other text is.
pub fn config_alone<D: Desk>(desk: &D, paths: &Paths<'_>) -> Result<Kept, Ending>
    ensures ok { IfOk result (λ texts. AreRead config_limits.most_bytes (D.text_at desk.now paths.now.config.now) texts.config.items) }
    ensures err { IfErr result (IsUnbegun (D.text_at desk.now paths.now.config.now)) }
{
    match desk.open(paths.config) {
        Ok(text) => Ok(Kept {
            config: config_read(desk.alloc(), text)?,
            text: KeptText::Nothing,
        }),
        Err(error) => Err(Ending::NoConfig(error)),
    }
}

/// The trace with which a search begins, or the text of many questions, read to its end, or beyond its greatest length.
pub fn trace_read<D: Desk>(desk: &D, path: &str) -> Result<Vec<u8>, Ending>
    ensures ok { IfOk result (λ bytes. AreRead text_limits.most_bytes (D.text_at desk.now path.now) bytes.items) }
    ensures err { (known : _) → IfErr result (IsUnbegun known) }
{
    let text = match desk.open(path) {
        Ok(text) => text,
        Err(error) => return Err(Ending::NoTrace(error)),
    };
    match text_up_to(desk.alloc(), text, MOST_BYTES) {
        Ok(text) => Ok(text),
        Err(Unread::Failed(error)) => Err(Ending::NoTrace(error)),
        Err(Unread::Memory) => Err(Ending::Fault(RunFault::Memory)),
    }
}

/// Whether a third text may come from this path: not where it is standard input, and another text comes from there. The error says so.
pub fn third_allowed(paths: &Paths<'_>, third: &str) -> Result<(), Ending>
    ensures { IfErr result (λ ending. ending ≡ OneInput) }
{
    if third == STANDARD_INPUT && (paths.config == third || paths.text == third) {
        return Err(Ending::OneInput);
    }
    Ok(())
}

/// The configuration, read, and the other text, opened. Both are opened before either is read.
pub fn both_opened<D: Desk>(desk: &D, paths: &Paths<'_>) -> Result<(Vec<u8>, D::Text), Ending>
    ensures config { IfOk result (λ both. AreRead config_limits.most_bytes (D.text_at desk.now paths.now.config.now) both.0.items) }
    ensures text { IfOk result (λ both. D.Text.remaining both.1 ≡ D.text_at desk.now paths.now.text.now) }
    ensures err { IfErr result (IsUnbegun (D.text_at desk.now paths.now.config.now)) }
{
    if paths.config == STANDARD_INPUT && paths.text == STANDARD_INPUT {
        return Err(Ending::OneInput);
    }
    let config = match desk.open(paths.config) {
        Ok(config) => config,
        Err(error) => return Err(Ending::NoConfig(error)),
    };
    let text = match desk.open(paths.text) {
        Ok(text) => text,
        Err(error) => return Err(Ending::NoText(error)),
    };
    Ok((config_read(desk.alloc(), config)?, text))
}

/// The first fault of a configuration, for which a run over it wants no other text.
fn config_fault(alloc: Global, config: &[u8]) -> Option<RunFault>
    ensures { IfSome result (IsFaultBefore config.now) }
{
    let mut source = MemSource::new(config);
    config_from(alloc, &mut source).err()
}

/// The other text, read whole, with what is kept of both. Where it cannot be read that is reported behind a fault of the configuration.
fn whole_read<T: Read + Drop>(
    alloc: Global,
    config: Vec<u8>,
    text: T,
    shows_place: bool,
) -> Result<(Kept, Vec<u8>), Ending>
    ensures config { IfOk result (λ both. both.0.config.items ≡ config.items) }
    ensures text { IfOk result (λ both. AreRead text_limits.most_bytes (T.remaining text) both.1.items) }
    ensures err { (known : _) → AreRead config_limits.most_bytes known config.items → IfErr result (IsUnbegun known) }
{
    match text_up_to(alloc, text, MOST_BYTES) {
        Ok(bytes) => {
            let text = KeptText::of_whole(alloc, bytes.as_slice(), shows_place);
            Ok((Kept { config, text }, bytes))
        }
        Err(Unread::Failed(error)) => {
            let fault = config_fault(alloc, config.as_slice()).unwrap_or(RunFault::Read);
            let text = KeptText::Unreadable(error);
            Err(Ending::Faulty(fault, Kept { config, text }))
        }
        Err(Unread::Memory) => Err(Ending::Fault(RunFault::Memory)),
    }
}

/// The configuration, read, and the other text, read whole: so its bytes are known to the run. Standard input and a pipe may be long in coming: they are
/// read only where the configuration has no fault, which is reported at once.
pub fn both_read<D: Desk>(
    desk: &D,
    paths: &Paths<'_>,
    fault_form: FaultForm,
) -> Result<(Kept, Vec<u8>), Ending>
    ensures config { IfOk result (λ both. AreRead config_limits.most_bytes (D.text_at desk.now paths.now.config.now) both.0.config.items) }
    ensures text { IfOk result (λ both. AreRead text_limits.most_bytes (D.text_at desk.now paths.now.text.now) both.1.items) }
    ensures err { IfErr result (IsUnbegun (D.text_at desk.now paths.now.config.now)) }
{
    let alloc = desk.alloc();
    let (config, text) = both_opened(desk, paths)?;
    if !desk.is_file(paths.text) {
        if let Some(fault) = config_fault(alloc, config.as_slice()) {
            let text = KeptText::Nothing;
            return Err(Ending::Faulty(fault, Kept { config, text }));
        }
    }
    whole_read(alloc, config, text, fault_form.shows_place(paths))
}
