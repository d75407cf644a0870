//! Reading the configuration of a run.
ghost use Rattle.std.specs.Prelude.{◌≡◌, ◌-◌, ◌^◌, ◌<◌};
ghost use Rattle.fmp_run_devices.specs.Ends.{source_ends};
ghost use Rattle.fmp_run_texts.specs.Faults.{is_text};
ghost use Rattle.fmp_run_texts.specs.Readings.{ReadsText};
ghost use Rattle.fmp_run_texts.specs.Texts.{FirstConfigFault, SaysConfig};

use crate::fault::RunFault;
use fmp_config::{Config, MOST_BYTES, read_config};
use fmp_run_devices::{Source, read_up_to};
use std::alloc::Global;

/// Reads a configuration to its end, and keeps its text beside it.
pub fn config_and_text_from<R: Source>(
    alloc: Global,
    source: &mut R,
) -> Result<(Config, Vec<u8>), RunFault>
    requires { R.failures source.old < 2 ^ 64 - 1 }
    ensures { ReadsText (λ text read. SaysConfig text read.0 × (read.1.items ≡ text)) FirstConfigFault is_text (source_ends R.left R.failures source.old source.new) result }
{
    let text = read_up_to(alloc, source, MOST_BYTES)?;
    match read_config(alloc, text.as_slice()) {
        Ok(config) => Ok((config, text)),
        Err(fault) => Err(RunFault::Config(fault)),
    }
}

/// Reads a configuration to its end.
pub fn config_from<R: Source>(alloc: Global, source: &mut R) -> Result<Config, RunFault>
    requires { R.failures source.old < 2 ^ 64 - 1 }
    ensures { ReadsText SaysConfig FirstConfigFault is_text (source_ends R.left R.failures source.old source.new) result }
{
    let (config, _text) = config_and_text_from(alloc, source)?;
    Ok(config)
}
