//! Questions about the orders of scripts, as texts ask them.
ghost use Rattle.std.specs.Prelude.{⊤, ◌≡◌, ℕ, Ok, IfOk, IfErr};
ghost use Rattle.fmp_names.specs.Names.{NameLists};
ghost use Rattle.fmp_search_question.specs.declared.fault.QuestionFault.{QuestionFault as AnyFault};
ghost use Rattle.fmp_search_question.specs.Reading.{question_in};
ghost use Rattle.fmp_run_explore.specs.Faults.{IsFirstOfQuestion, IsUnasked};

use crate::fault::ExploreFault;
use fmp_names::Names;
use fmp_run_texts::RunFault;
use fmp_search_pattern::Question;
use fmp_search_question::{ReadFault, read_question};
use std::alloc::Global;

/// Who asks a question of some kind: that steps are shown, that something stays for ever.
pub trait Asker {
    /// What is asked.
    type Out: Drop;

    // It is what is asked for these names.
    ghost asks: { Self → NameLists → Self.Out → Type 0 };

    // This holds of it, whatever is asked.
    ghost keeps: { Self → Self.Out → Type 0 } = { λ _ _. ⊤ };

    // What is asked has this fault first, at the byte of this number from 0.
    ghost is_fault: { Self → NameLists → AnyFault → ℕ → Type 0 };

    /// What is asked for the names of a machine, or its first fault.
    fn ask(&self, alloc: Global, names: &Names) -> Result<Self::Out, ExploreFault>
        ensures asks { IfOk result (asks self.now names.now) }
        ensures keeps { IfOk result (keeps self.now) }
        ensures fault { IfErr result (IsUnasked (is_fault self.now names.now)) };
}

/// The question of a text, or its first fault.
pub fn question_from(alloc: Global, names: &Names, text: &[u8]) -> Result<Question, ExploreFault>
    ensures asks { IfOk result (λ q. question_in names.now text.now ≡ Ok q) }
    ensures fault { IfErr result (IsUnasked (IsFirstOfQuestion text.now names.now)) }
{
    match read_question(alloc, names, text) {
        Ok(question) => Ok(question),
        Err(ReadFault::Memory) => Err(ExploreFault::Run(RunFault::Memory)),
        Err(ReadFault::Text(fault, place)) => Err(ExploreFault::Question(fault, place)),
    }
}

/// Asks by a text that steps are shown.
#[derive(Clone, Copy)]
pub struct StepsAsker<'a> {
    pub text: &'a [u8],
}

impl<'a> Asker for StepsAsker<'a> {
    ghost use Rattle.std.specs.Prelude.{◌≡◌, Ok};
    ghost use Rattle.fmp_search_question.specs.Reading.{question_in};
    ghost use Rattle.fmp_run_explore.specs.Faults.{IsFirstOfQuestion};

    type Out = Question;

    ghost asks = { λ s names question. question_in names s.text.now ≡ Ok question };

    ghost is_fault = { λ s. IsFirstOfQuestion s.text.now };

    fn ask(&self, alloc: Global, names: &Names) -> Result<Question, ExploreFault> {
        question_from(alloc, names, self.text)
    }
}
