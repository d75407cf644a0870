//! What is looked for in the runs of seeds, as a text asks it where there is one.

use fmp_names::Names;
use fmp_run_explore::{Asker, ExploreFault, question_from};
use fmp_search_pattern::Question;
use std::alloc::Global;

/// Asks by a text, if there is one, that steps are shown.
#[derive(Clone, Copy)]
pub(crate) struct SeedAsker<'a> {
    pub(crate) text: Option<&'a [u8]>,
}

impl<'a> Asker for SeedAsker<'a> {
    ghost use Rattle.std.specs.Prelude.{option_map};
    ghost use Rattle.fmp_run_seeds.specs.Found.{AsksFor, IsFirstOfAsked};

    type Out = Option<Question>;

    ghost asks = { λ s names. AsksFor names (option_map (λ t. t.now) s.text) };

    ghost is_fault = { λ s. IsFirstOfAsked (option_map (λ t. t.now) s.text) };

    fn ask(&self, alloc: Global, names: &Names) -> Result<Option<Question>, ExploreFault> {
        match self.text {
            None => Ok(None),
            Some(text) => Ok(Some(question_from(alloc, names, text)?)),
        }
    }
}
