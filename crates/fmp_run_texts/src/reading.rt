//! Reading the second text of a run over the machine of the first.
ghost use Rattle.std.specs.Prelude.{⊤, ℕ, ◌-◌, ◌^◌, ◌<◌, ◌≤◌, List, length, IfErr, IfOk, OnOk};
ghost use Rattle.fmp_setup.specs.Setup.{Setup};
ghost use Rattle.fmp_text.specs.declared.fault.TextFault.{TextFault as AnyFault};
ghost use Rattle.fmp_text.specs.Limits.{most_bytes};
ghost use Rattle.fmp_trace_check.specs.declared.checking.Verdict.{Verdict as AnyVerdict};
ghost use Rattle.fmp_run_devices.specs.Devices.{IsKnown, ReadUpTo, bytes_of};
ghost use Rattle.fmp_run_devices.specs.Ends.{source_ends};
ghost use Rattle.fmp_run_texts.specs.Faults.{IsOfText, OnText, is_config};
ghost use Rattle.fmp_run_texts.specs.Readings.{ReadsText, ReadsTexts};
ghost use Rattle.fmp_run_texts.specs.Traces.{IsYes, verdict_by};

use crate::config::config_from;
use crate::fault::RunFault;
use fmp_config::Config;
use fmp_run_devices::{Source, read_up_to};
use fmp_text::MOST_BYTES;
use std::alloc::Global;

/// A kind of text that is read over a configuration: scripts, a list of events, a trace that is judged.
pub trait Reader {
    /// What is made of the text.
    type Out: Drop;

    // It is what the text says.
    ghost says: { Self → Setup → List ℕ → Self.Out → Type 0 };

    // This holds of it, whatever the text.
    ghost keeps: { Self → Setup → Self.Out → Type 0 } = { λ _ _ _. ⊤ };

    // The text has this fault first, or memory ran out.
    ghost is_fault: { Self → Setup → List ℕ → AnyFault → Type 0 };

    // The verdict in what was made of it, where it comes to one.
    ghost verdict: { Self → Self.Out → AnyVerdict } = { λ _ _. AnyVerdict.Yes };

    // A text that may have no fault, and no other verdict than yes.
    ghost accepts: { Self → Setup → List ℕ → Type 0 } = { λ _ _ _. ⊥ };

    /// Makes it of a text, or says the text's first fault. That is also the first one of a longer text of which this much was read, up to its limit.
    fn read(&self, alloc: Global, config: &Config, text: Vec<u8>) -> Result<Self::Out, RunFault>
        ensures says { IfOk result (says self.now config.now text.items) }
        ensures short { OnOk result (length text.items ≤ most_bytes) }
        ensures keeps { IfOk result (keeps self.now config.now) }
        ensures fault { IfErr result (OnText (λ fault. (all rest : List ℕ) → ReadUpTo most_bytes all text.items rest → is_fault self.now config.now all fault)) }
        ensures accepted { (all rest : List ℕ) → ReadUpTo most_bytes all text.items rest → accepts self.now config.now all
            → IsYes (verdict_by (verdict self.now) result) }
        ensures kinds { IfErr result IsOfText };
}

/// Reads a text to its end over a configuration.
pub(crate) fn text_from<T: Reader, S: Source>(
    alloc: Global,
    reader: &T,
    config: &Config,
    source: &mut S,
) -> Result<T::Out, RunFault>
    requires { S.failures source.old < 2 ^ 64 - 1 }
    ensures reads { ReadsText (T.says reader.now config.now) (λ text. OnText (T.is_fault reader.now config.now text)) is_config
        (source_ends S.left S.failures source.old source.new) result }
    ensures keeps { IfOk result (T.keeps reader.now config.now) }
    ensures accepted { IsKnown (S.left source.old) → T.accepts reader.now config.now (bytes_of (S.left source.old)) → IsYes (verdict_by (T.verdict reader.now) result) }
{
    let text = read_up_to(alloc, source, MOST_BYTES)?;
    reader.read(alloc, config, text)
}

/// Reads a configuration and a text over it to their ends. It has no writer in hand, so nothing is written before both are accepted.
pub fn texts_from<T: Reader, R: Source, S: Source>(
    alloc: Global,
    reader: &T,
    config: &mut R,
    text: &mut S,
) -> Result<(Config, T::Out), RunFault>
    requires config_calls { R.failures config.old < 2 ^ 64 - 1 }
    requires text_calls { S.failures text.old < 2 ^ 64 - 1 }
    ensures { ReadsTexts (T.says reader.now) (T.keeps reader.now) (T.is_fault reader.now) (source_ends R.left R.failures config.old config.new)
        (source_ends S.left S.failures text.old text.new) result }
{
    let configuration = config_from(alloc, config)?;
    let made = text_from(alloc, reader, &configuration, text)?;
    Ok((configuration, made))
}
