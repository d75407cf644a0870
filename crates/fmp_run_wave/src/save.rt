//! GTKWave's save file, and the run that writes it.
ghost use Rattle.std.specs.Prelude.{◌≡◌, ◌-◌, ◌^◌, ◌<◌, IfOk};
ghost use Rattle.fmp_out.specs.Putting.{Adds};
ghost use Rattle.fmp_run_devices.specs.Ends.{sink_ends, source_ends};
ghost use Rattle.fmp_run_texts.specs.Owed.{OwesConfig};
ghost use Rattle.fmp_run_wave.specs.Saves as spec;

use crate::listing::{Form, put_listing};
use fmp_out::Text;
use fmp_rules::Config;
use fmp_run_devices::{Sink, Source, write_out};
use fmp_run_texts::{RunFault, config_from};
use std::alloc::{AllocError, Global};

/// Adds how the window begins.
#[tactic(auto, unfolding(crate::specs::Saves::window_text))]
fn put_window(out: &mut Text)
    ensures { Adds spec.window_text out.old out.new }
{
    out.put(
        b"[timestart] 0\n[size] 1500 900\n[pos] -1 -1\n*-1.000000 0\n[signals_width] 200\n[sst_expanded] 0\n",
    );
}

/// The save file of a configuration.
#[tactic(auto, unfolding(crate::specs::Saves::save_of))]
fn save_file(alloc: Global, config: &Config) -> Result<Vec<u8>, AllocError>
    ensures { IfOk result (λ text. text.items ≡ spec.save_of config.now) }
{
    let mut text = Text::new(alloc);
    put_window(&mut text);
    put_listing(&mut text, Form::Traces, config);
    text.finish()
}

/// Reads a configuration, and writes the save file by which GTKWave shows all signals of the configuration's waveforms.
///
/// docs/FORMATS.md has its form.
#[inline(never)]
pub fn run_save<R: Source, W: Sink>(
    alloc: Global,
    config: &mut R,
    save: &mut W,
) -> Result<(), RunFault>
    requires config_calls { R.failures config.old < 2 ^ 64 - 1 }
    requires save_calls { W.failures save.old < 2 ^ 64 - 1 }

    // What it owes to the text and to its devices, whatever it writes.
    ensures owes { OwesConfig (source_ends R.left R.failures config.old config.new) (sink_ends W.written W.buffered W.failures save.old save.new) result }

    // What it writes: the save file of the configuration that the text says.
    ensures writes { spec.WritesSave (source_ends R.left R.failures config.old config.new) (sink_ends W.written W.buffered W.failures save.old save.new) result }
{
    let configuration = config_from(alloc, config)?;
    let text = save_file(alloc, &configuration)?;
    write_out(save, text.as_slice())?;
    Ok(())
}
