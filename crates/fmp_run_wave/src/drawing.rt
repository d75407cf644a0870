//! A waveform while it is drawn.
ghost use Rattle.std.specs.Prelude.{◌≡◌, IfOk};
ghost use Rattle.fmp_out.specs.Putting.{Adds};
ghost use Rattle.fmp_run_wave.specs.Waves as spec;

use crate::changes::{Texts, put_call_value, put_changes, put_mark, put_time};
use crate::header::put_header;
use crate::snapshot::Snapshot;
use crate::values::put_values;
use fmp_codes::Record;
use fmp_names::Names;
use fmp_out::Text;
use fmp_plain::Plain;
use fmp_plain_machine::PlainMachine;
use fmp_rules::Config;
use fmp_trace_check::Watcher;
use std::alloc::{AllocError, Global};
use std::marker::Model;

/// Adds what stands before the values at time 0.
#[tactic(auto, unfolding(crate::specs::Waves::start_begin))]
fn put_start_begin(out: &mut Text)
    ensures { Adds spec.start_begin out.old out.new }
{
    out.put(b"#0\n$dumpvars\n");
}

/// Adds what stands after them.
#[tactic(auto, unfolding(crate::specs::Waves::start_end))]
fn put_start_end(out: &mut Text)
    ensures { Adds spec.start_end out.old out.new }
{
    out.put(b"$end\n");
}

/// Adds what stands before the first event: the declarations, and the values that the signals begin with.
#[tactic(auto, unfolding(crate::specs::Waves::start_text))]
fn put_start(out: &mut Text, config: &Config, shown: &Snapshot)
    ensures { Adds (spec.start_text config.now shown.now) out.old out.new }
{
    put_header(out, config);
    put_start_begin(out);
    put_values(out, config.names(), shown);
    put_start_end(out);
}

/// A waveform while it is drawn: what is shown of the last state, and all that was told up to it.
#[derive(Drop)]
pub(crate) struct Drawing {
    shown: Snapshot,
    texts: Texts,
    wave: Text,
}

impl Model for Drawing {
    ghost use Rattle.fmp_run_wave.specs.Waves.{Picture};

    ghost Value = { Picture };

    ghost view = { λ a. record { shown = a.shown; wave = a.wave.bytes } };
}

impl Drawing {
    /// What stands before the first event of a configuration's machine.
    pub(crate) fn new(alloc: Global, config: &Config) -> Result<Drawing, AllocError>
        ensures { IfOk result (λ d. d ≡ spec.start_of config.now) }
    {
        let plain = Plain::boot(config)?;
        let shown = Snapshot::of(plain.machine());
        let mut wave = Text::new(alloc);
        put_start(&mut wave, config, &shown);
        wave.so_far()?;
        Ok(Drawing {
            shown,
            texts: Texts::new(alloc),
            wave,
        })
    }

    /// The waveform so far.
    pub(crate) fn into_wave(self) -> Result<Vec<u8>, AllocError>
        ensures { IfOk result (λ wave. wave.items ≡ self.wave) }
    {
        let Drawing { wave, .. } = self;
        wave.finish()
    }
}

impl Watcher for Drawing {
    ghost watched = { spec.following };

    /// Tells event n with its answer, after which the machine is in its state now.
    #[tactic(auto, unfolding(crate::specs::Waves::change_text))]
    fn watch(
        &mut self,
        names: &Names,
        n: u32,
        report: &Record,
        machine: &PlainMachine,
    ) -> Result<(), AllocError> {
        put_time(&mut self.wave, n);
        put_mark(&mut self.wave, report.event);
        put_call_value(&mut self.wave, &mut self.texts, names, report);
        put_changes(
            &mut self.wave,
            &mut self.texts,
            names,
            report,
            &mut self.shown,
            machine,
        );
        self.wave.so_far()?;
        Ok(())
    }
}
