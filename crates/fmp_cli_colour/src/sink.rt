//! A sink that colours what passes.
ghost use Rattle.std.specs.Prelude.{◌≡◌, ◌+◌, ◌-◌, ◌^◌, ◌<◌, ◌≤◌, ◌++◌, [], None, Some, length, IfOk, OnOk, OnErr, is_err, if◌then◌else◌};
ghost use Rattle.std.specs.Io.KnownBytes.{Keeps, WriteAppends};
ghost use Rattle.fmp_run_devices.specs.Devices.{BeginsWith, IsKnown, bytes_of, is_failed_write};
ghost use Rattle.fmp_cli_colour.specs.Painting.{first_length, painted_first};

use crate::painting::put_painted;
use fmp_bytes::cut;
use fmp_run_devices::{Failed, History, Passing, Sink, write_all};

/// A sink of traces in colours, over the sink that gets them. A write takes a line, or the rest that has no line feed: so one
/// that is written in two pieces is coloured as if they were two. What was written to it is known: the lines before they were coloured.
#[derive(Drop)]
pub struct ColourSink<W> {
    sink: W,
    passed: History,
}

impl<W: Sink> ColourSink<W> {
    /// A sink of coloured traces over this one.
    pub fn new(sink: W) -> ColourSink<W>
        ensures below { result.sink ≡ sink }
        ensures passed { result.passed.bytes ≡ [] }
    {
        ColourSink {
            sink,
            passed: History::new(),
        }
    }

    /// The sink that gets the coloured lines.
    pub fn below(&self) -> &W
        ensures { result.now ≡ self.now.sink }
    {
        &self.sink
    }
}

/// Writes the first line of a text in colours, and answers how long it is.
#[tactic(auto, unfolding(crate::specs::Painting::first_length, crate::specs::Painting::painted_first))]
fn put_first<W: Sink>(sink: &mut W, text: &[u8]) -> Result<usize, Failed>
    requires { W.failures sink.old < 2 ^ 64 - 1 }
    ensures length { IfOk result (λ n. (n ≡ first_length text.now) × (n ≤ length text.now)) }
    ensures count { W.failures sink.new ≡ W.failures sink.old + (if is_failed_write result text.now then 1 else 0) }
    ensures known { IsKnown (W.written sink.old) → IsKnown (W.written sink.new) }
    ensures ok { IsKnown (W.written sink.old) → OnOk result (bytes_of (W.written sink.new) ≡ bytes_of (W.written sink.old) ++ painted_first text.now) }
    ensures err { IsKnown (W.written sink.old) → OnErr result (BeginsWith (bytes_of (W.written sink.old)) (painted_first text.now) (bytes_of (W.written sink.new))) }
{
    let (line, rest) = cut(b'\n', text);
    put_painted(sink, line)?;
    match rest {
        None => Ok(line.len()),
        Some(_) => {
            write_all(sink, b"\n")?;
            Ok(line.len() + 1)
        }
    }
}

impl<W: Sink> Sink for ColourSink<W> {
    ghost written = { λ s. Some s.passed.bytes };

    ghost buffered = { λ s. W.buffered s.sink };

    ghost failures = { λ s. W.failures s.sink };

    fn failures(&self) -> u64 {
        self.sink.failures()
    }

    fn write(&mut self, piece: &[u8]) -> Result<usize, Failed>
        requires { W.failures self.old.sink < 2 ^ 64 - 1 }
        ensures fits { IfOk result (λ n. n ≤ length piece.now) }
        ensures count { W.failures self.new.sink ≡ W.failures self.old.sink + (if is_failed_write result piece.now then 1 else 0) }
        ensures bytes { WriteAppends (Some self.old.passed.bytes) (Some self.new.passed.bytes) result piece.now }

        // The line that was taken is out in its colours.
        ensures length { IfOk result (λ n. n ≡ first_length piece.now) }
        ensures known { IsKnown (W.written self.old.sink) → IsKnown (W.written self.new.sink) }
        ensures ok { IsKnown (W.written self.old.sink)
            → OnOk result (bytes_of (W.written self.new.sink) ≡ bytes_of (W.written self.old.sink) ++ painted_first piece.now) }
        ensures err { IsKnown (W.written self.old.sink)
            → OnErr result (BeginsWith (bytes_of (W.written self.old.sink)) (painted_first piece.now) (bytes_of (W.written self.new.sink))) }
    {
        let count = put_first(&mut self.sink, piece)?;
        self.passed = self.passed.with(&Passing {
            bytes: &piece[..count],
        });
        Ok(count)
    }

    fn flush(&mut self) -> Result<(), Failed>
        requires { W.failures self.old.sink < 2 ^ 64 - 1 }
        ensures count { W.failures self.new.sink ≡ W.failures self.old.sink + (if is_err result then 1 else 0) }
        ensures passed { OnOk result (W.buffered self.new.sink ≡ []) }
        ensures bytes { Keeps (Some self.old.passed.bytes) (Some self.new.passed.bytes) }

        // So is what was held back below.
        ensures below { Keeps (W.written self.old.sink) (W.written self.new.sink) }
    {
        self.sink.flush()
    }
}
