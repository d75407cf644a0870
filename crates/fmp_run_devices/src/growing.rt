//! A sink over memory that grows.
ghost use Rattle.std.specs.Prelude.{◌≡◌, ◌+◌, ◌-◌, ◌^◌, ◌<◌, ◌≤◌, [], Some, length, IfOk, if◌then◌else◌};
ghost use Rattle.std.specs.Io.KnownBytes.{WriteAppends};
ghost use Rattle.fmp_run_devices.specs.Devices.{is_failed_write};

use crate::sink::Sink;
use crate::source::Failed;
use std::alloc::Global;

/// Memory that a text is written to, as much as there is. A write fails where there is no memory for it.
#[derive(Drop)]
pub struct GrowingSink {
    text: Vec<u8>,
    failures: u64,
}

impl GrowingSink {
    /// Nothing is written yet.
    pub fn new(alloc: Global) -> GrowingSink
        ensures { (result.text.items ≡ []) × (result.failures ≡ 0) }
    {
        GrowingSink {
            text: Vec::new(alloc),
            failures: 0,
        }
    }

    /// What was written.
    pub fn text(&self) -> &[u8]
        ensures { result.now ≡ self.now.text.items }
    {
        self.text.as_slice()
    }

    /// What was written, to be kept.
    pub fn into_text(self) -> Vec<u8>
        ensures { result.items ≡ self.text.items }
    {
        self.text
    }
}

impl Sink for GrowingSink {
    ghost written = { λ s. Some s.text.items };

    ghost buffered = { λ _. [] };

    ghost failures = { λ s. s.failures };

    fn failures(&self) -> u64 {
        self.failures
    }

    fn write(&mut self, piece: &[u8]) -> Result<usize, Failed>
        requires { self.old.failures < 2 ^ 64 - 1 }
        ensures fits { IfOk result (λ n. n ≤ length piece.now) }
        ensures count { self.new.failures ≡ self.old.failures + (if is_failed_write result piece.now then 1 else 0) }
        ensures bytes { WriteAppends (Some self.old.text.items) (Some self.new.text.items) result piece.now }
    {
        match self.text.extend_from_slice(piece) {
            Ok(()) => Ok(piece.len()),
            Err(_) => {
                self.failures += 1;
                Err(Failed)
            }
        }
    }

    fn flush(&mut self) -> Result<(), Failed> {
        Ok(())
    }
}
