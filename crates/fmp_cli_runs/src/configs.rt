//! What `fmpsim wave --gtkw` does, and `fmpsim list` of a configuration: there is no other text.
ghost use Rattle.fmp_cli_runs.specs.Texts.{OverBytes};
ghost use Rattle.fmp_cli_runs.specs.Traces.{Describes};

use crate::run::Run;
use fmp_run_devices::{MemSource, Sink, Source};
use fmp_run_events::RunFault;
use fmp_run_list::run_list;
use fmp_run_wave::run_save;
use std::alloc::Global;

/// Writes this of a configuration.
#[derive(Clone, Copy)]
pub enum Describing {
    /// GTKWave's save file.
    Save,
    /// What was read of it.
    Listing,
}

impl Run for Describing {
    type Done = ();

    type Fault = RunFault;

    ghost promises = { λ old _ config _ output result. OverBytes config (λ configs. Describes old configs output result) };

    fn run<S: Source, W: Sink>(
        &mut self,
        alloc: Global,
        config: &[u8],
        _text: &mut S,
        output: &mut W,
    ) -> Result<(), RunFault> {
        let mut config = MemSource::new(config);
        match self {
            Describing::Save => run_save(alloc, &mut config, output),
            Describing::Listing => run_list(alloc, &mut config, output),
        }
    }
}
