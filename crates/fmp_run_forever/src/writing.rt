//! The search for what was read, and what is written of it.
ghost use Rattle.std.specs.Prelude.{◌≡◌, ◌≢◌, ◌+◌, ◌-◌, ◌≤◌, ◌<◌, ◌^◌, [], Err, OnOk, IfOk, if◌then◌else◌, length};
ghost use Rattle.fmp_run_devices.specs.Devices.{IsKnown, bytes_of};
ghost use Rattle.fmp_run_forever.specs.Gone.{IsGone};
ghost use Rattle.fmp_run_forever.specs.Stayed.{IsPartWritten, IsWritten, is_unwritten};
ghost use Rattle.fmp_run_forever.specs.Told.{TellsCalls};
ghost use Rattle.fmp_text_scripts.specs.Scripts.{AreInBits};

use crate::searching::found;
use crate::staying::Staying;
use fmp_ranges::Bounds;
use fmp_run_devices::{Sink, write_out};
use fmp_run_explore::{Asked, Orders};
use fmp_search::{Extent, Met, Progress};
use fmp_search_orders::Rules;
use fmp_search_pattern::Moment;
use std::alloc::Global;

/// Why what was found was not written, or nothing was found.
#[derive(Clone, Copy)]
pub(crate) enum WriteFault {
    /// Memory ran out, and nothing is out.
    Memory,
    /// A write or a flush failed.
    Write,
}

/// Goes through every order of what was read, and writes what is known of them. It goes as far as the bounds say.
pub(crate) fn found_written<W: Sink, P: Progress>(
    alloc: Global,
    asked: &Asked<Vec<Moment>>,
    rules: Rules,
    bounds: Bounds,
    output: &mut W,
    progress: &mut P,
) -> Result<(Staying, Extent, Option<Met>), WriteFault>
    requires output_calls { W.failures output.old < 2 ^ 64 - 1 }
    requires few { length asked.now.question.items ≤ 64 }
    requires in_bits { AreInBits asked.now.scripts }
    ensures written { IsKnown (W.written output.old)
        → IfOk result (λ r. IsWritten asked.now.config asked.now.scripts rules asked.now.question.items bounds.turns.count
        (bounds.places.count - 1) (bytes_of (W.written output.old)) (bytes_of (W.written output.new)) r.0) }
    ensures gone { IfOk result (λ r. IsGone asked.now.config asked.now.scripts rules asked.now.question.items (P.over progress.new) r.0 r.1) }
    ensures tells { IfOk result (λ r. TellsCalls asked.now.config asked.now.scripts rules bounds.turns.count r.0 r.2) }
    ensures known { IsKnown (W.written output.old) → IsKnown (W.written output.new) }
    ensures passed { OnOk result (W.buffered output.new ≡ []) }
    ensures none_held { W.buffered output.old ≡ [] → result ≢ Err WriteFault.Write → W.buffered output.new ≡ [] }
    ensures part { IsKnown (W.written output.old) → (result ≡ Err WriteFault.Write)
        → IsPartWritten asked.now.config asked.now.scripts rules asked.now.question.items bounds.turns.count
        (bounds.places.count - 1) (bytes_of (W.written output.old)) (bytes_of (W.written output.new)) }
    ensures unwritten { IsKnown (W.written output.old) → (result ≡ Err WriteFault.Memory) → bytes_of (W.written output.new) ≡ bytes_of (W.written output.old) }
    ensures writes { W.failures output.new ≡ W.failures output.old + (if is_unwritten result then 1 else 0) }
{
    let orders = Orders {
        config: &asked.config,
        scripts: &asked.scripts,
        rules,
    };
    let report = match found(alloc, &orders, &asked.question, progress, bounds) {
        Ok(report) => report,
        Err(_) => return Err(WriteFault::Memory),
    };
    progress.end();
    match write_out(output, report.text.as_slice()) {
        Ok(()) => Ok((report.staying, report.extent, report.met)),
        Err(_) => Err(WriteFault::Write),
    }
}
