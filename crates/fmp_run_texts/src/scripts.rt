//! Scripts, as a run reads them.

use crate::fault::RunFault;
use crate::reading::Reader;
use fmp_config::Config;
use fmp_text_scripts::{Scripts, read_scripts};
use std::alloc::Global;

/// Reads scripts over the names of a configuration.
#[derive(Clone, Copy)]
pub struct ScriptReader;

impl Reader for ScriptReader {
    ghost use Rattle.fmp_text_scripts.specs.ScriptGrammar.{SpellsScripts};
    ghost use Rattle.fmp_text_scripts.specs.Scripts.{AreInBits};
    ghost use Rattle.fmp_run_texts.specs.Texts.{IsFirstOfScripts};

    type Out = Scripts;

    ghost says = { λ _ c. SpellsScripts c.names };

    ghost keeps = { λ _ _. AreInBits };

    ghost is_fault = { λ _ c. IsFirstOfScripts c.names };

    fn read(&self, alloc: Global, config: &Config, text: Vec<u8>) -> Result<Scripts, RunFault> {
        match read_scripts(alloc, text.as_slice(), config.names()) {
            Ok(scripts) => Ok(scripts),
            Err(fault) => Err(RunFault::Text(fault)),
        }
    }
}
