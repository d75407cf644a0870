//! Passing on what a sink holds back, however a run ended.
ghost use Rattle.std.specs.Prelude.{◌≡◌, ◌≢◌, ◌⊎◌, ◌+◌, ◌-◌, ◌^◌, ◌<◌, [], Err, Result, false, if◌then◌else◌};
ghost use Rattle.fmp_run_devices.specs.Devices.{IsKnown, bytes_of};
ghost use Rattle.fmp_run_texts.specs.Faults.{failed_write};

use crate::fault::RunFault;
use fmp_run_devices::Sink;

/// Passes on what the sink holds back after a run that ended so, and answers how the run ended, or that the flush failed. After
/// a failed write nothing more is asked of the sink.
pub fn pass_on<W: Sink>(ended: Result<(), RunFault>, sink: &mut W) -> Result<(), RunFault>
    requires { failed_write ended ≡ false → W.failures sink.old < 2 ^ 64 - 1 }
    ensures ended { (result ≡ ended) ⊎ (result ≡ Err RunFault.Write) }
    ensures passed { result ≢ Err RunFault.Write → W.buffered sink.new ≡ [] }
    ensures known { IsKnown (W.written sink.old) → IsKnown (W.written sink.new) }
    ensures same { IsKnown (W.written sink.old) → bytes_of (W.written sink.new) ≡ bytes_of (W.written sink.old) }
    ensures writes { W.failures sink.new + (if failed_write ended then 1 else 0) ≡ W.failures sink.old + (if failed_write result then 1 else 0) }
{
    match ended {
        Err(RunFault::Write) => Err(RunFault::Write),
        ended => {
            sink.flush()?;
            ended
        }
    }
}
