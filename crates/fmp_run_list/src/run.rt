//! The run that lists a configuration.
ghost use Rattle.std.specs.Prelude.{◌≡◌, ◌-◌, ◌^◌, ◌<◌, IfOk};
ghost use Rattle.fmp_run_devices.specs.Ends.{sink_ends, source_ends};
ghost use Rattle.fmp_run_texts.specs.Owed.{OwesConfig};
ghost use Rattle.fmp_run_list.specs.Runs.{WritesListing, listing_in};

use crate::fields::put_field_lines;
use crate::listing_text;
use fmp_config::Config;
use fmp_out::Text;
use fmp_run_devices::{Sink, Source, write_out};
use fmp_run_texts::{RunFault, config_and_text_from};
use std::alloc::{AllocError, Global};
use std::mem;

/// The listing of a configuration that was read of a text. The error is want of memory.
fn listed(alloc: Global, configuration: &Config, text: &[u8]) -> Result<Vec<u8>, AllocError>
    ensures { IfOk result (λ out. out.items ≡ listing_in configuration.now text.now) }
{
    let mut listing = listing_text(alloc, configuration)?;
    let mut out = Text::new(alloc);
    mem::swap(out.as_mut_vec(), &mut listing);
    put_field_lines(alloc, &mut out, text);
    out.finish()
}

/// Reads a configuration, and writes what was read of it, a line for each thing that it says, and its fields without effect as they stand in its text.
///
/// docs/FORMATS.md has the form of a listing.
#[inline(never)]
pub fn run_list<R: Source, W: Sink>(
    alloc: Global,
    config: &mut R,
    listing: &mut W,
) -> Result<(), RunFault>
    requires config_calls { R.failures config.old < 2 ^ 64 - 1 }
    requires listing_calls { W.failures listing.old < 2 ^ 64 - 1 }

    // What it owes to the text and to its devices, whatever it writes.
    ensures owes { OwesConfig (source_ends R.left R.failures config.old config.new) (sink_ends W.written W.buffered W.failures listing.old listing.new) result }

    // What it writes: the listing of the configuration that the text says.
    ensures writes { WritesListing (source_ends R.left R.failures config.old config.new) (sink_ends W.written W.buffered W.failures listing.old listing.new) result }
{
    let (configuration, text) = config_and_text_from(alloc, config)?;
    let lines = listed(alloc, &configuration, text.as_slice())?;
    write_out(listing, lines.as_slice())?;
    Ok(())
}
