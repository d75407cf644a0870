//! What a search is asked, as three texts say it.
ghost use Rattle.std.specs.Prelude.{◌-◌, ◌<◌, ◌^◌};
ghost use Rattle.fmp_run_devices.specs.Ends.{source_ends};
ghost use Rattle.fmp_run_explore.specs.Asked.{ReadsAsked};

use crate::asker::Asker;
use crate::fault::ExploreFault;
use fmp_rules::Config;
use fmp_run_devices::Source;
use fmp_run_texts::{ScriptReader, texts_from};
use fmp_text_scripts::Scripts;
use std::alloc::Global;

/// A machine, the scripts of what runs on it, and what is asked of their orders.
#[derive(Drop)]
pub struct Asked<T> {
    pub config: Config,
    pub scripts: Scripts,
    pub question: T,
}

/// Reads a configuration and scripts to their ends, and a question, and judges them. It has no writer in hand, so nothing is written before all
/// are accepted.
pub fn asked_from<Q: Asker, R: Source, S: Source>(
    alloc: Global,
    asker: &Q,
    config: &mut R,
    scripts: &mut S,
) -> Result<Asked<Q::Out>, ExploreFault>
    requires config_calls { R.failures config.old < 2 ^ 64 - 1 }
    requires script_calls { S.failures scripts.old < 2 ^ 64 - 1 }
    ensures { ReadsAsked (Q.asks asker.now) (Q.keeps asker.now) (Q.is_fault asker.now) (source_ends R.left R.failures config.old config.new)
        (source_ends S.left S.failures scripts.old scripts.new) result }
{
    let (machine, list) = match texts_from(alloc, &ScriptReader, config, scripts) {
        Ok(texts) => texts,
        Err(fault) => return Err(ExploreFault::Run(fault)),
    };
    match asker.ask(alloc, machine.names()) {
        Ok(question) => Ok(Asked {
            config: machine,
            scripts: list,
            question,
        }),
        Err(fault) => Err(fault),
    }
}
