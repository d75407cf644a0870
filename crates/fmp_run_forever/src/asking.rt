//! What is to stay for ever, as a text asks it.

use fmp_names::Names;
use fmp_run_explore::{Asker, ExploreFault};
use fmp_run_texts::RunFault;
use fmp_search_pattern::Moment;
use fmp_search_question::{ReadFault, read_lasting};
use std::alloc::Global;

/// Asks by a text that something stays for ever.
#[derive(Clone, Copy)]
pub(crate) struct LastingAsker<'a> {
    pub(crate) text: &'a [u8],
}

impl<'a> Asker for LastingAsker<'a> {
    ghost use Rattle.std.specs.Prelude.{◌≡◌, ◌≤◌, Ok, length};
    ghost use Rattle.fmp_search_question.specs.Lasting.{lasting_in};
    ghost use Rattle.fmp_run_forever.specs.Asked.{IsFirstOfLasting};

    type Out = Vec<Moment>;

    ghost asks = { λ s names lasting. lasting_in names s.text.now ≡ Ok lasting.items };

    ghost keeps = { λ _ lasting. length lasting.items ≤ 64 };

    ghost is_fault = { λ s. IsFirstOfLasting s.text.now };

    fn ask(&self, alloc: Global, names: &Names) -> Result<Vec<Moment>, ExploreFault> {
        match read_lasting(alloc, names, self.text) {
            Ok(lasting) => Ok(lasting),
            Err(ReadFault::Memory) => Err(ExploreFault::Run(RunFault::Memory)),
            Err(ReadFault::Text(fault, place)) => Err(ExploreFault::Question(fault, place)),
        }
    }
}
