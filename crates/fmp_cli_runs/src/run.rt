//! What a run of the program is.
ghost use Rattle.std.specs.Prelude.{⊤, ℕ, ◌-◌, ◌^◌, ◌<◌, List, Result};
ghost use Rattle.fmp_run_devices.specs.Ends.{Ends, SinkEnd, sink_ends};
ghost use Rattle.fmp_cli_runs.specs.Texts.{TextEnd, text_ends};

use fmp_run_devices::{Sink, Source};
use std::alloc::Global;

/// A run of a configuration and another text, over any devices. What it is asked for it has.
pub trait Run {
    /// What it gives.
    type Done: Drop;
    /// With what it ends before its time.
    type Fault: Drop;

    // What lets it run: of a run in threads, that these may share what they are.
    ghost may_run: { Type 0 } = { ⊤ };

    // What it promises, of itself before and after, of the bytes of the configuration, of the other text and of the output, and of how it ends.
    ghost promises: { Self → Self → List ℕ → Ends TextEnd → Ends SinkEnd → Result Self.Done Self.Fault → Type 0 };

    /// Runs once.
    fn run<S: Source, W: Sink>(
        &mut self,
        alloc: Global,
        config: &[u8],
        text: &mut S,
        output: &mut W,
    ) -> Result<Self::Done, Self::Fault>
        requires may_run { may_run }
        requires text_calls { S.failures text.old < 2 ^ 64 - 1 }
        requires output_calls { W.failures output.old < 2 ^ 64 - 1 }
        ensures { promises self.old self.new config.now (text_ends S.left S.failures S.given S.ended text.old text.new)
            (sink_ends W.written W.buffered W.failures output.old output.new) result };
}
