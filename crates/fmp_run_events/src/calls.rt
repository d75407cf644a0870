//! The runs that answer a list of events, each as it comes.
ghost use Rattle.std.specs.Prelude.{◌≡◌, ◌≢◌, ◌++◌, ◌+◌, ◌-◌, ◌^◌, ◌<◌, ◌≤◌, [], ℕ, List, true, false, length, OnOk, IfErr, Err, if◌then◌else◌};
ghost use Rattle.fmp_setup.specs.Valid.{IsValid};
ghost use Rattle.fmp_text_feed.specs.Feed.{IsWanting};
ghost use Rattle.fmp_text.specs.Events.{Reading, reading_by_line};
ghost use Rattle.fmp_text.specs.Limits.{most_bytes, most_events};
ghost use Rattle.fmp_run_stream.specs.Details.{detail_of};
ghost use Rattle.fmp_run_devices.specs.Devices.{IsKnown, bytes_of};
ghost use Rattle.fmp_run_devices.specs.Ends.{passing_ends, sink_ends, source_ends};
ghost use Rattle.fmp_run_devices.specs.Hearing.{Moves, Passes};
ghost use Rattle.fmp_run_texts.specs.Faults.{failed_read, failed_write, is_config, is_thread_fault};
ghost use Rattle.fmp_run_texts.specs.Texts.{FlushFails};
ghost use Rattle.fmp_run_events.specs.Owed.{OwesEvents, WritesEvents};
ghost use Rattle.fmp_run_stream.specs.Told.{IsTold};
ghost use Rattle.fmp_run_stream.specs.Runs.{FirstEventFault, IsAnswered, IsPrefixOut, trace_of};
ghost use Rattle.fmp_run_stream.specs.Streams.{IsAllOut, Leaves, Streams};

use fmp_rules::Config;
use fmp_run_devices::{Sink, Source, new_piece};
use fmp_run_stream::{Answering, Detail};
use fmp_run_texts::{RunFault, config_from, pass_on};
use std::alloc::Global;

/// Answers the events of a text, piece by piece. What was written is passed on before each piece is waited for.
fn answer_all<S: Source, W: Sink>(
    run: &mut Answering,
    config: &Config,
    events: &mut S,
    trace: &mut W,
    piece: &mut [u8],
) -> Result<(), RunFault>
    requires event_calls { S.failures events.old < 2 ^ 64 - 1 }
    requires trace_calls { W.failures trace.old < 2 ^ 64 - 1 }
    requires counted { run.old.count ≡ run.old.feed.events }
    requires few { run.old.feed.events ≤ most_events }
    requires fits { run.old.feed.taken ≤ most_bytes }
    requires wanting { IsWanting run.old.feed }
    requires unended { run.old.feed.ended ≡ false }
    requires processors { length run.old.kernel.processors ≡ config.now.processors }
    requires room { length piece.old ≡ 65536 }
    ensures known { IsKnown (W.written trace.old) → IsKnown (W.written trace.new) }
    ensures answered { (p : Passes (S.given events.old) (S.given events.new) (S.ended events.new)) → IsKnown (W.written trace.old) → (d : Detail) (text : List ℕ) (whole : Reading) (old : List ℕ)
        → Streams d true config.now text whole old run.old (bytes_of (W.written trace.old)) p.all
        → OnOk result (IsAllOut d config.now whole old (bytes_of (W.written trace.new))) }
    ensures first { (p : Passes (S.given events.old) (S.given events.new) (S.ended events.new)) → (d : Detail) (text : List ℕ) (whole : Reading) (old : List ℕ)
        → Streams d false config.now text whole old run.old (bytes_of (W.written trace.old)) p.all
        → IfErr result (FirstEventFault whole) }
    ensures leaves { (p : Passes (S.given events.old) (S.given events.new) (S.ended events.new)) → IsKnown (W.written trace.old) → (d : Detail) (text : List ℕ) (whole : Reading) (old : List ℕ)
        → Streams d true config.now text whole old run.old (bytes_of (W.written trace.old)) p.all
        → IfErr result (Leaves d config.now text whole old (bytes_of (W.written trace.new))) }
    ensures moves { Moves (S.given events.old) (S.given events.new) (S.left events.old) (S.left events.new) }
    ensures end { OnOk result (S.ended events.new ≡ true) }
    ensures kinds { IfErr result (λ fault. is_config fault ≡ false) }
    ensures no_thread_fault { IfErr result (λ fault. is_thread_fault fault ≡ false) }
    ensures reads { S.failures events.new ≡ S.failures events.old + (if failed_read result then 1 else 0) }
    ensures writes { W.failures trace.new ≡ W.failures trace.old + (if failed_write result then 1 else 0) }
{
    while !run.has_ended() {
        trace.flush()?;
        run.take_piece(events, trace, piece)?;
        run.drain(config, trace)?;
    }
    Ok(())
}

/// Answers the events of a text from boot on.
fn answer_from_boot<S: Source, W: Sink>(
    alloc: Global,
    detail: Detail,
    config: &Config,
    events: &mut S,
    trace: &mut W,
) -> Result<(), RunFault>
    requires event_calls { S.failures events.old < 2 ^ 64 - 1 }
    requires trace_calls { W.failures trace.old < 2 ^ 64 - 1 }
    ensures known { IsKnown (W.written trace.old) → IsKnown (W.written trace.new) }
    ensures answered { (p : Passes (S.given events.old) (S.given events.new) (S.ended events.new)) → IsKnown (W.written trace.old)
        → OnOk result (IsAllOut detail config.now (reading_by_line config.now.names p.all) (bytes_of (W.written trace.old))
        (bytes_of (W.written trace.new))) }
    ensures valid { OnOk result (IsValid config.now) }
    ensures first { (p : Passes (S.given events.old) (S.given events.new) (S.ended events.new)) → IfErr result (FirstEventFault (reading_by_line config.now.names p.all)) }
    ensures leaves { (p : Passes (S.given events.old) (S.given events.new) (S.ended events.new)) → IsKnown (W.written trace.old)
        → IfErr result (Leaves detail config.now p.all (reading_by_line config.now.names p.all)
        (bytes_of (W.written trace.old)) (bytes_of (W.written trace.new))) }
    ensures moves { Moves (S.given events.old) (S.given events.new) (S.left events.old) (S.left events.new) }
    ensures end { OnOk result (S.ended events.new ≡ true) }
    ensures kinds { IfErr result (λ fault. is_config fault ≡ false) }
    ensures no_thread_fault { IfErr result (λ fault. is_thread_fault fault ≡ false) }
    ensures reads { S.failures events.new ≡ S.failures events.old + (if failed_read result then 1 else 0) }
    ensures writes { W.failures trace.new ≡ W.failures trace.old + (if failed_write result then 1 else 0) }
{
    let mut piece = new_piece(alloc)?;
    let mut run = Answering::new(alloc, detail, config)?;
    run.begin(config.names(), trace)?;
    answer_all(&mut run, config, events, trace, piece.as_mut_slice())
}

/// Answers the events of a text from boot on, and passes on what the sink holds back, also where the text has a fault.
pub(crate) fn answer_text<S: Source, W: Sink>(
    alloc: Global,
    detail: Detail,
    config: &Config,
    events: &mut S,
    trace: &mut W,
) -> Result<(), RunFault>
    requires event_calls { S.failures events.old < 2 ^ 64 - 1 }
    requires trace_calls { W.failures trace.old < 2 ^ 64 - 1 }
    ensures known { IsKnown (W.written trace.old) → IsKnown (W.written trace.new) }
    ensures answered { (p : Passes (S.given events.old) (S.given events.new) (S.ended events.new)) → IsKnown (W.written trace.old)
        → OnOk result (IsAllOut detail config.now (reading_by_line config.now.names p.all) (bytes_of (W.written trace.old))
        (bytes_of (W.written trace.new))) }
    ensures valid { OnOk result (IsValid config.now) }
    ensures passed { result ≢ Err RunFault.Write → W.buffered trace.new ≡ [] }
    ensures first { (p : Passes (S.given events.old) (S.given events.new) (S.ended events.new)) → IfErr result (FirstEventFault (reading_by_line config.now.names p.all)) }
    ensures leaves { (p : Passes (S.given events.old) (S.given events.new) (S.ended events.new)) → IsKnown (W.written trace.old)
        → IfErr result (Leaves detail config.now p.all (reading_by_line config.now.names p.all)
        (bytes_of (W.written trace.old)) (bytes_of (W.written trace.new))) }
    ensures moves { Moves (S.given events.old) (S.given events.new) (S.left events.old) (S.left events.new) }
    ensures end { OnOk result (S.ended events.new ≡ true) }
    ensures kinds { IfErr result (λ fault. is_config fault ≡ false) }
    ensures no_thread_fault { IfErr result (λ fault. is_thread_fault fault ≡ false) }
    ensures reads { result ≢ Err RunFault.Write → S.failures events.new ≡ S.failures events.old + (if failed_read result then 1 else 0) }
    ensures flush { (p : Passes (S.given events.old) (S.given events.new) (S.ended events.new)) → FlushFails (S.failures events.old) (S.failures events.new) (IsKnown (W.written trace.old)
        → IsPrefixOut (detail_of detail) config.now (reading_by_line config.now.names p.all).events (bytes_of (W.written trace.old))
        (bytes_of (W.written trace.new))) }
    ensures writes { W.failures trace.new ≡ W.failures trace.old + (if failed_write result then 1 else 0) }
{
    let ended = answer_from_boot(alloc, detail, config, events, trace);
    pass_on(ended, trace)
}

/// Reads a configuration and events, and writes what is told of the machine at boot, and then what is told of each event, as it comes.
///
/// No list of events or of records is kept.
pub fn run_events<R: Source, S: Source, W: Sink>(
    alloc: Global,
    detail: Detail,
    config: &mut R,
    events: &mut S,
    trace: &mut W,
) -> Result<(), RunFault>
    requires config_calls { R.failures config.old < 2 ^ 64 - 1 }
    requires event_calls { S.failures events.old < 2 ^ 64 - 1 }
    requires trace_calls { W.failures trace.old < 2 ^ 64 - 1 }

    // It reads the events as they come, and to their end where it goes to its own.
    ensures moves { Moves (S.given events.old) (S.given events.new) (S.left events.old) (S.left events.new) }
    ensures end { OnOk result (S.ended events.new ≡ true) }

    // What it owes to both texts and to its devices, whatever it writes.
    ensures owes { (p : Passes (S.given events.old) (S.given events.new) (S.ended events.new))
        → OwesEvents (source_ends R.left R.failures config.old config.new) (passing_ends p.all p.rest S.failures events.old events.new)
        (sink_ends W.written W.buffered W.failures trace.old trace.new) result }

    // What it writes: what is told of the machine at boot and of each event.
    ensures writes { (p : Passes (S.given events.old) (S.given events.new) (S.ended events.new))
        → WritesEvents (detail ≡ Detail.Line) (detail_of detail) (source_ends R.left R.failures config.old config.new)
        (passing_ends p.all p.rest S.failures events.old events.new) (sink_ends W.written W.buffered W.failures trace.old trace.new) result }
{
    let configuration = config_from(alloc, config)?;
    configuration.names().validity();
    answer_text(alloc, detail, &configuration, events, trace)
}

/// Reads a configuration and events, and writes the trace of the machine's answers, each line as its event comes.
///
/// No list of events or of records is kept.
pub fn run_calls<R: Source, S: Source, W: Sink>(
    alloc: Global,
    config: &mut R,
    events: &mut S,
    trace: &mut W,
) -> Result<(), RunFault>
    requires config_calls { R.failures config.old < 2 ^ 64 - 1 }
    requires event_calls { S.failures events.old < 2 ^ 64 - 1 }
    requires trace_calls { W.failures trace.old < 2 ^ 64 - 1 }

    // It reads the events as they come, and to their end where it goes to its own.
    ensures moves { Moves (S.given events.old) (S.given events.new) (S.left events.old) (S.left events.new) }
    ensures end { OnOk result (S.ended events.new ≡ true) }

    // What it owes to both texts and to its devices, whatever it writes.
    ensures owes { (p : Passes (S.given events.old) (S.given events.new) (S.ended events.new))
        → OwesEvents (source_ends R.left R.failures config.old config.new) (passing_ends p.all p.rest S.failures events.old events.new)
        (sink_ends W.written W.buffered W.failures trace.old trace.new) result }

    // Where it goes to its end, what is written is the trace of the answers to the events that were handed over.
    ensures answered { IsKnown (R.left config.old) → (text : List ℕ) → S.given events.new ≡ S.given events.old ++ text → IsKnown (W.written trace.old)
        → OnOk result (IsAnswered (bytes_of (R.left config.old)) text (bytes_of (W.written trace.old)) (bytes_of (W.written trace.new))) }

    // And then it is the trace of records that are told: each by those before it, without a machine.
    ensures told { IsKnown (R.left config.old) → (text : List ℕ) → S.given events.new ≡ S.given events.old ++ text → IsKnown (W.written trace.old)
        → OnOk result (IsTold (bytes_of (R.left config.old)) text (bytes_of (W.written trace.old)) (bytes_of (W.written trace.new))) }

    // What it writes.
    ensures writes { (p : Passes (S.given events.old) (S.given events.new) (S.ended events.new))
        → WritesEvents (Unit {0}) trace_of (source_ends R.left R.failures config.old config.new)
        (passing_ends p.all p.rest S.failures events.old events.new) (sink_ends W.written W.buffered W.failures trace.old trace.new) result }
{
    run_events(alloc, Detail::Line, config, events, trace)
}
