//! Devices that bytes are written to.
ghost use Rattle.std.specs.Prelude.{◌≡◌, ◌+◌, ◌-◌, ◌^◌, ◌<◌, ◌≤◌, ◌++◌, [], ℕ, List, Option, length, IfOk, OnOk, OnErr, is_err, if◌then◌else◌};
ghost use Rattle.std.specs.Io.KnownBytes.{Keeps, WriteAppends};
ghost use Rattle.fmp_run_devices.specs.Devices.{is_failed_write, BeginsWith, IsKnown, bytes_of};

use crate::source::Failed;

/// A device that bytes are written to.
pub trait Sink {
    // The bytes that were written, where they are known, as those in memory are. Those of a file are not.
    ghost written: { Self → Option (List ℕ) };

    // The bytes that were written to the device and are held back in it, to be passed on together.
    ghost buffered: { Self → List ℕ };

    ghost failures: { Self → ℕ };

    /// How many calls have failed.
    fn failures(&self) -> u64
        ensures { result ≡ failures self.now };

    /// Writes a prefix of the piece, and answers its length. An answer of 0 for a piece that is not empty is a failed call
    /// too. After a failed call the same bytes were written.
    fn write(&mut self, piece: &[u8]) -> Result<usize, Failed>
        requires { failures self.old < 2 ^ 64 - 1 }
        ensures fits { IfOk result (λ n. n ≤ length piece.now) }
        ensures count { failures self.new ≡ failures self.old + (if is_failed_write result piece.now then 1 else 0) }
        ensures bytes { WriteAppends (written self.old) (written self.new) result piece.now };

    /// Passes on what is held back. After a failed call some of it may still be.
    fn flush(&mut self) -> Result<(), Failed>
        requires { failures self.old < 2 ^ 64 - 1 }
        ensures count { failures self.new ≡ failures self.old + (if is_err result then 1 else 0) }
        ensures passed { OnOk result (buffered self.new ≡ []) }
        ensures bytes { Keeps (written self.old) (written self.new) };
}

/// Writes all of the bytes. After a failed call a prefix of them is out.
pub fn write_all<W: Sink>(sink: &mut W, bytes: &[u8]) -> Result<(), Failed>
    requires { W.failures sink.old < 2 ^ 64 - 1 }
    ensures count { W.failures sink.new ≡ W.failures sink.old + (if is_err result then 1 else 0) }
    ensures known { IsKnown (W.written sink.old) → IsKnown (W.written sink.new) }
    ensures ok { IsKnown (W.written sink.old) → OnOk result (bytes_of (W.written sink.new) ≡ bytes_of (W.written sink.old) ++ bytes.now) }
    ensures err { IsKnown (W.written sink.old) → OnErr result (BeginsWith (bytes_of (W.written sink.old)) bytes.now (bytes_of (W.written sink.new))) }
{
    let mut done = 0;
    while done < bytes.len() {
        match sink.write(&bytes[done..]) {
            Ok(0) => return Err(Failed),
            Ok(count) => done += count,
            Err(Failed) => return Err(Failed),
        }
    }
    Ok(())
}

/// Writes all of the bytes, and holds none back. After a failed call a prefix of them is written.
pub fn write_out<W: Sink>(sink: &mut W, bytes: &[u8]) -> Result<(), Failed>
    requires { W.failures sink.old < 2 ^ 64 - 1 }
    ensures count { W.failures sink.new ≡ W.failures sink.old + (if is_err result then 1 else 0) }
    ensures passed { OnOk result (W.buffered sink.new ≡ []) }
    ensures known { IsKnown (W.written sink.old) → IsKnown (W.written sink.new) }
    ensures ok { IsKnown (W.written sink.old) → OnOk result (bytes_of (W.written sink.new) ≡ bytes_of (W.written sink.old) ++ bytes.now) }
    ensures err { IsKnown (W.written sink.old) → OnErr result (BeginsWith (bytes_of (W.written sink.old)) bytes.now (bytes_of (W.written sink.new))) }
{
    write_all(sink, bytes)?;
    sink.flush()
}
