//! What has to stay as it was where events are left out, beside that the question is shown.
ghost use Rattle.std.specs.Prelude.{◌↔◌, IfOk, IsTrue};
ghost use Rattle.fmp_codes.specs.Records.{AreOn};
ghost use Rattle.fmp_search_shrink.specs.Shrinking.{IsKeeping, KeepsTo};

use crate::made::{Made, made_calls};
use crate::runners::are_kept;
use fmp_codes::Event;
use fmp_rules::Config;
use std::alloc::{AllocError, Global};

/// What has to stay as it was.
#[derive(Drop)]
pub(crate) enum Keeping {
    Nothing,
    /// Each runner's own order of the calls that it makes where the whole list is given: these are the calls.
    Runs(Vec<Made>),
}

impl Keeping {
    /// What has to stay of the whole list, where its runs are to be kept or not.
    pub(crate) fn of(
        alloc: Global,
        config: &Config,
        whole: &[Event],
        runs: bool,
    ) -> Result<Keeping, AllocError>
        requires { AreOn config.now.processors whole.now }
        ensures { IfOk result (IsKeeping config.now runs whole.now) }
    {
        if !runs {
            return Ok(Keeping::Nothing);
        }
        Ok(Keeping::Runs(made_calls(alloc, config, whole)?))
    }

    /// Whether it stays with these events.
    pub(crate) fn is_kept_by(
        &self,
        alloc: Global,
        config: &Config,
        events: &[Event],
    ) -> Result<bool, AllocError>
        requires { AreOn config.now.processors events.now }
        ensures { IfOk result (λ r. IsTrue r ↔ KeepsTo config.now self.now events.now) }
    {
        match self {
            Keeping::Nothing => Ok(true),
            Keeping::Runs(given) => {
                let made = made_calls(alloc, config, events)?;
                Ok(are_kept(made.as_slice(), given.as_slice()))
            }
        }
    }
}
