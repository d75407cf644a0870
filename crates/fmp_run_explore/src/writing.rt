//! The search for what was read, and what is written of it.
ghost use Rattle.std.specs.Prelude.{◌≡◌, ◌≢◌, ◌+◌, ◌-◌, ◌<◌, ◌^◌, [], Err, OnOk, IfOk, if◌then◌else◌};
ghost use Rattle.fmp_run_devices.specs.Devices.{IsKnown, bytes_of};
ghost use Rattle.fmp_text_scripts.specs.Scripts.{AreInBits};
ghost use Rattle.fmp_run_explore.specs.Explored.{IsEndedBy, IsPartWritten, IsWritten};
ghost use Rattle.fmp_run_explore.specs.Gone.{IsGone};
ghost use Rattle.fmp_run_explore.specs.Made.{TellsCalls};
ghost use Rattle.fmp_run_explore.specs.Searched.{searched};
ghost use Rattle.fmp_run_explore.specs.Faults as faults;

use crate::asking::Asked;
use crate::orders::Orders;
use crate::searched::{Outcome, Searched};
use crate::searching::found;
use fmp_ranges::Bounds;
use fmp_run_devices::{Sink, write_out};
use fmp_search::Progress;
use fmp_search_orders::Rules;
use fmp_search_pattern::Question;
use std::alloc::Global;

/// Why what was found was not written, or nothing was found.
#[derive(Clone, Copy)]
pub(crate) enum WriteFault {
    /// Memory ran out, and nothing is out.
    Memory,
    /// A write or a flush failed.
    Write,
}

/// Goes through every order of what was read, and writes what is known of them. It goes as far as the bounds say.
pub(crate) fn found_written<W: Sink, P: Progress>(
    alloc: Global,
    asked: Asked<Question>,
    rules: Rules,
    bounds: Bounds,
    output: &mut W,
    progress: &mut P,
) -> Result<Outcome, WriteFault>
    requires output_calls { W.failures output.old < 2 ^ 64 - 1 }
    requires in_bits { AreInBits asked.scripts }
    ensures written { IsKnown (W.written output.old)
        → IfOk result (λ o. IsWritten asked.config asked.scripts rules asked.question bounds.turns.count (bounds.places.count - 1)
        (bytes_of (W.written output.old))
        (bytes_of (W.written output.new)) o.finding) }
    ensures searched { IfOk result (λ o. o.searched ≡ searched asked.config asked.scripts rules asked.question) }
    ensures went { IfOk result (λ o. IsGone o.searched o.finding o.extent) }
    ensures tells { IfOk result (λ o. TellsCalls o.searched bounds.turns.count o.finding o.met) }
    ensures ended { IfOk result (λ o. IsEndedBy (P.over progress.new) o.finding) }
    ensures known { IsKnown (W.written output.old) → IsKnown (W.written output.new) }
    ensures passed { OnOk result (W.buffered output.new ≡ []) }
    ensures none_held { W.buffered output.old ≡ [] → result ≢ Err WriteFault.Write → W.buffered output.new ≡ [] }
    ensures part { IsKnown (W.written output.old) → (result ≡ Err WriteFault.Write)
        → IsPartWritten asked.config asked.scripts rules asked.question bounds.turns.count (bounds.places.count - 1) (bytes_of (W.written output.old))
        (bytes_of (W.written output.new)) }
    ensures unwritten { IsKnown (W.written output.old) → (result ≡ Err WriteFault.Memory) → bytes_of (W.written output.new) ≡ bytes_of (W.written output.old) }
    ensures writes { W.failures output.new ≡ W.failures output.old + (if faults.is_unwritten result then 1 else 0) }
{
    let orders = Orders {
        config: &asked.config,
        scripts: &asked.scripts,
        rules,
    };
    let report = match found(alloc, &orders, &asked.question, progress, bounds) {
        Ok(report) => report,
        Err(_) => return Err(WriteFault::Memory),
    };
    progress.end();
    match write_out(output, report.text.as_slice()) {
        Ok(()) => Ok(Outcome {
            finding: report.finding,
            extent: report.extent,
            met: report.met,
            searched: Searched::of(asked, rules),
        }),
        Err(_) => Err(WriteFault::Write),
    }
}
