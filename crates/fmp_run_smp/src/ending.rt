//! How a run of processors ended, and what is told of it.
ghost use Rattle.std.specs.Prelude.{◌≡◌, ◌≢◌, ◌+◌, ◌-◌, ◌^◌, ◌<◌, ◌++◌, [], length, OnOk, IfOk, IfErr, Err, false, if◌then◌else◌};
ghost use Rattle.fmp_trace.specs.Lines.{lines_from};
ghost use Rattle.fmp_run_devices.specs.Devices.{BeginsWith, IsKnown, bytes_of};
ghost use Rattle.fmp_smp_histories.specs.Histories.{state_after};
ghost use Rattle.fmp_run_texts.specs.Faults.{failed_write, is_config, is_read, is_thread_fault, is_text};
ghost use Rattle.fmp_show_state.specs.Waits.{waiting_lines};
ghost use Rattle.fmp_run_smp.specs.Scripted as spec;

use fmp_codes::{Answer, Event, Proc, Record};
use fmp_run_devices::{Sink, write_out};
use fmp_run_texts::{RunFault, Status};
use fmp_show_state::put_waiting;
use fmp_text::Names;
use fmp_trace::put_line;
use fmp_world::{Ended, History};
use std::alloc::{AllocError, Global};

/// How a run of processors ended, and who waits there.
#[derive(Drop)]
pub struct SmpEnd {
    pub ended: Ended,
    /// A line for each task that waits at the end of the run.
    pub waiting: Vec<u8>,
}

/// How the program ends after a run of processors.
pub const fn status_of_end(ended: Ended) -> Status
    ensures { result ≡ spec.status_of_end ended }
{
    match ended {
        Ended::Quiet => Status::Done,
        Ended::Limit => Status::Limit,
    }
}

/// Whether a run ended quiet while a task waits, of which these lines tell.
pub(crate) fn is_stuck(ended: Ended, waiting: &[u8]) -> bool
    ensures { result ≡ spec.is_stuck ended waiting.now }
{
    match ended {
        Ended::Quiet => !waiting.is_empty(),
        Ended::Limit => false,
    }
}

impl SmpEnd {
    ghost use Rattle.std.specs.Prelude.{◌≡◌};
    ghost use Rattle.fmp_run_smp.specs.Scripted as spec;

    /// How the program ends after it, where that a task waits at a quiet end is a status of its own, or is not.
    pub fn status(&self, strict: bool) -> Status
        ensures { result ≡ spec.status_by strict self.now.ended self.now.waiting.items }
    {
        if strict && is_stuck(self.ended, self.waiting.as_slice()) {
            Status::Waiting
        } else {
            status_of_end(self.ended)
        }
    }
}

/// A line for each task that waits at the end of a history.
fn waiting_at_end(
    alloc: Global,
    names: &Names,
    history: &History<'_>,
) -> Result<Vec<u8>, AllocError>
    ensures { IfOk result (λ v. v.items ≡ waiting_lines names.now (state_after history.now.config history.now.records)) }
{
    let mut lines = Vec::new(alloc);
    put_waiting(&mut lines, names, history.last().machine())?;
    Ok(lines)
}

/// The trace of a history, whose records are made again one after the other.
fn history_text(alloc: Global, history: &History<'_>, names: &Names) -> Result<Vec<u8>, AllocError>
    requires { length history.now.records < 2 ^ 32 }
    ensures { IfOk result (λ v. v.items ≡ lines_from names.now 1 history.now.records) }
{
    let mut replay = history.replay(alloc)?;
    let mut report = Record::answer(Event::Tick(Proc::new(1)), None, Answer::Nothing);
    let mut out = Vec::new(alloc);
    let mut n: u32 = 0;
    while replay.next(&mut report) {
        n += 1;
        put_line(&mut out, names, n, &report)?;
    }
    Ok(out)
}

/// Writes the trace of a history, and holds none of it back. It is whole before the first byte is out. Tells a line for each task that
/// waits at the end of the history.
pub(crate) fn write_history<W: Sink>(
    alloc: Global,
    names: &Names,
    history: &History<'_>,
    trace: &mut W,
) -> Result<Vec<u8>, RunFault>
    requires calls { W.failures trace.old < 2 ^ 64 - 1 }
    requires few { length history.now.records < 2 ^ 32 }
    ensures written { IsKnown (W.written trace.old)
        → OnOk result (bytes_of (W.written trace.new) ≡ bytes_of (W.written trace.old) ++ lines_from names.now 1 history.now.records) }
    ensures waiting { IfOk result (λ v. v.items ≡ waiting_lines names.now (state_after history.now.config history.now.records)) }
    ensures known { IsKnown (W.written trace.old) → IsKnown (W.written trace.new) }
    ensures passed { OnOk result (W.buffered trace.new ≡ []) }
    ensures none_held { W.buffered trace.old ≡ [] → result ≢ Err RunFault.Write → W.buffered trace.new ≡ [] }
    ensures write { IsKnown (W.written trace.old) → (result ≡ Err RunFault.Write)
        → BeginsWith (bytes_of (W.written trace.old)) (lines_from names.now 1 history.now.records) (bytes_of (W.written trace.new)) }
    ensures unwritten { IsKnown (W.written trace.old) → IfErr result (λ fault. fault ≢ RunFault.Write → bytes_of (W.written trace.new) ≡ bytes_of (W.written trace.old)) }
    ensures kinds { IfErr result (λ fault. (is_config fault ≡ false) × (is_text fault ≡ false) × (is_read fault ≡ false)) }
    ensures no_thread_fault { IfErr result (λ fault. is_thread_fault fault ≡ false) }
    ensures writes { W.failures trace.new ≡ W.failures trace.old + (if failed_write result then 1 else 0) }
{
    let waiting = waiting_at_end(alloc, names, history)?;
    let text = history_text(alloc, history, names)?;
    write_out(trace, text.as_slice())?;
    Ok(waiting)
}
