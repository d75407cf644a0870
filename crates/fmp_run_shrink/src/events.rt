//! Lists of events, as a run reads them.

use fmp_codes::Event;
use fmp_rules::Config;
use fmp_run_texts::{Reader, RunFault};
use fmp_text::read_events;
use std::alloc::Global;

/// Reads a list of events over the names of a configuration.
#[derive(Clone, Copy)]
pub(crate) struct EventReader;

impl Reader for EventReader {
    ghost use Rattle.fmp_text.specs.TextGrammar.{SpellsText};
    ghost use Rattle.fmp_run_shrink.specs.Events.{IsAsRead};
    ghost use Rattle.fmp_run_shrink.specs.Faults.{IsFirstOfEvents};

    type Out = Vec<Event>;

    ghost says = { λ _ c text events. SpellsText c.names text events.items };

    ghost keeps = { λ _. IsAsRead };

    ghost is_fault = { λ _ c. IsFirstOfEvents c.names };

    fn read(&self, alloc: Global, config: &Config, text: Vec<u8>) -> Result<Vec<Event>, RunFault> {
        match read_events(alloc, text.as_slice(), config.names()) {
            Ok(events) => Ok(events),
            Err(fault) => Err(RunFault::Text(fault)),
        }
    }
}
