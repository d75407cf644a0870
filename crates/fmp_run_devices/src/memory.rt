//! Devices over memory, whose bytes are known, and which can be made to fail at a chosen call.
ghost use Rattle.std.specs.Prelude.{◌≡◌, ◌+◌, ◌-◌, ◌^◌, ◌<◌, ◌≤◌, [], false, true, length, min, take, vec_len, vec_capacity, IfOk, is_err, None, Some, if◌then◌else◌};
ghost use Rattle.std.specs.Io.KnownBytes.{Keeps, ReadConsumes, WriteAppends};
ghost use Rattle.fmp_run_devices.specs.Devices.{is_failed_write, is_turn, next_turn};
ghost use Rattle.fmp_run_devices.specs.Hearing.{Hands};

use crate::history::{History, Passing};
use crate::sink::Sink;
use crate::source::{Failed, Source};
use std::alloc::{AllocError, Global};

/// Bytes in memory, to be read.
#[derive(Drop)]
pub struct MemSource<'a> {
    rest: &'a [u8],
    /// How many reads go well before one fails.
    until_failure: Option<u64>,
    failures: u64,
    given: History,
    ended: bool,
    ghost over: { ended ≡ true → rest.now ≡ [] },
}

impl<'a> MemSource<'a> {
    /// These bytes, of which every read goes well.
    pub fn new(bytes: &'a [u8]) -> MemSource<'a>
        ensures bytes { (result.rest.now ≡ bytes.entry.now) × (result.until_failure ≡ None) × (result.failures ≡ 0) }
        ensures given { (result.given.bytes ≡ []) × (result.ended ≡ false) }
    {
        MemSource {
            rest: bytes,
            until_failure: None,
            failures: 0,
            given: History::new(),
            ended: false,
        }
    }

    /// The same bytes, where the read after `reads` others fails.
    pub fn failing_after(mut self, reads: u64) -> MemSource<'a>
        ensures fails { result.until_failure ≡ Some reads }
        ensures same { (result.rest.now ≡ self.entry.rest.now) × (result.failures ≡ self.entry.failures) × (result.given ≡ self.entry.given) × (result.ended ≡ self.entry.ended) }
    {
        self.until_failure = Some(reads);
        self
    }
}

/// Whether this call is to fail, and the count for the next one.
fn takes_turn(until_failure: &mut Option<u64>) -> bool
    ensures turn { result ≡ is_turn until_failure.old }
    ensures next { until_failure.new ≡ next_turn until_failure.old }
{
    match *until_failure {
        None => false,
        Some(0) => {
            *until_failure = None;
            true
        }
        Some(calls) => {
            *until_failure = Some(calls - 1);
            false
        }
    }
}

/// Copies as many of the first bytes as fit, and answers how many.
pub(crate) fn fill(buffer: &mut [u8], bytes: &[u8]) -> usize
    ensures most { result ≡ min (length bytes.now) (length buffer.old) }
    ensures copied { take result buffer.new ≡ take result bytes.now }
    ensures length { length buffer.new ≡ length buffer.old }
{
    let count = bytes.len().min(buffer.len());
    let (prefix, _) = bytes.split_at(count);
    buffer[..count].copy_from_slice(prefix);
    count
}

impl Source for MemSource<'_> {
    ghost left = { λ s. Some s.rest.now };

    ghost given = { λ s. s.given.bytes };

    ghost ended = { λ s. s.ended };

    ghost over = { λ s. s.over };

    ghost failures = { λ s. s.failures };

    fn failures(&self) -> u64 {
        self.failures
    }

    fn read(&mut self, buffer: &mut [u8]) -> Result<usize, Failed>
        requires { self.old.failures < 2 ^ 64 - 1 }
        ensures fits { IfOk result (λ n. n ≤ length buffer.old) }
        ensures count { self.new.failures ≡ self.old.failures + (if is_err result then 1 else 0) }
        ensures bytes { ReadConsumes (Some self.old.rest.now) (Some self.new.rest.now) result buffer.new }
        ensures hands { Hands self.old.given.bytes self.new.given.bytes self.new.ended result buffer.new }

        // It takes as much as fits, and fails at the chosen call.
        ensures most { IfOk result (λ n. n ≡ min (length self.old.rest.now) (length buffer.old)) }
        ensures turn { is_err result ≡ is_turn self.old.until_failure }
        ensures next { self.new.until_failure ≡ next_turn self.old.until_failure }
    {
        if takes_turn(&mut self.until_failure) {
            self.failures += 1;
            self.ended = false;
            return Err(Failed);
        }
        let count = fill(buffer, self.rest);
        let (_, rest) = self.rest.split_at(count);
        self.rest = rest;
        self.given = self.given.with(&Passing {
            bytes: &buffer[..count],
        });
        self.ended = count == 0 && !buffer.is_empty();
        Ok(count)
    }
}

/// Memory that is written to, of a room that it takes when it is made. A write takes what fits.
#[derive(Drop)]
pub struct MemSink {
    bytes: Vec<u8>,
    room: usize,
    until_failure: Option<u64>,
    failures: u64,
    ghost fits: { vec_len bytes ≤ room },
    ghost roomy: { room ≤ vec_capacity bytes },
}

impl MemSink {
    /// Nothing written yet, with room for so many bytes.
    pub fn with_room(alloc: Global, room: usize) -> Result<MemSink, AllocError>
        ensures { IfOk result (λ s. (s.bytes.items ≡ []) × (s.room ≡ room) × (s.until_failure ≡ None) × (s.failures ≡ 0)) }
    {
        Ok(MemSink {
            bytes: Vec::with_capacity(alloc, room)?,
            room,
            until_failure: None,
            failures: 0,
        })
    }

    /// The same room, where the call after `calls` others fails. Calls are writes and flushes.
    pub fn failing_after(mut self, calls: u64) -> MemSink
        ensures { (result.bytes.items ≡ self.bytes.items) × (result.room ≡ self.room) × (result.until_failure ≡ Some calls) × (result.failures ≡ self.failures) }
    {
        self.until_failure = Some(calls);
        self
    }

    /// What was written.
    pub fn bytes(&self) -> &[u8]
        ensures { result.now ≡ self.now.bytes.items }
    {
        self.bytes.as_slice()
    }
}

impl Sink for MemSink {
    ghost written = { λ s. Some s.bytes.items };

    ghost buffered = { λ _. [] };

    ghost failures = { λ s. s.failures };

    fn failures(&self) -> u64 {
        self.failures
    }

    fn write(&mut self, piece: &[u8]) -> Result<usize, Failed>
        requires { self.old.failures < 2 ^ 64 - 1 }
        ensures fits { IfOk result (λ n. n ≤ length piece.now) }
        ensures count { self.new.failures ≡ self.old.failures + (if is_failed_write result piece.now then 1 else 0) }
        ensures bytes { WriteAppends (Some self.old.bytes.items) (Some self.new.bytes.items) result piece.now }

        // It takes as much as fits, and fails at the chosen call.
        ensures most { IfOk result (λ n. n ≡ min (length piece.now) (self.old.room - vec_len self.old.bytes)) }
        ensures turn { is_err result ≡ is_turn self.old.until_failure }
        ensures next { self.new.until_failure ≡ next_turn self.old.until_failure }
        ensures room { self.new.room ≡ self.old.room }
    {
        if takes_turn(&mut self.until_failure) {
            self.failures += 1;
            return Err(Failed);
        }
        let count = piece.len().min(self.room - self.bytes.len());
        if count == 0 && !piece.is_empty() {
            self.failures += 1;
            return Ok(0);
        }
        self.bytes.extend_from_slice(&piece[..count]).unwrap();
        Ok(count)
    }

    fn flush(&mut self) -> Result<(), Failed>
        requires { self.old.failures < 2 ^ 64 - 1 }
        ensures count { self.new.failures ≡ self.old.failures + (if is_err result then 1 else 0) }
        ensures bytes { Keeps (Some self.old.bytes.items) (Some self.new.bytes.items) }

        // It has nothing to do, and fails at the chosen call.
        ensures turn { is_err result ≡ is_turn self.old.until_failure }
        ensures next { self.new.until_failure ≡ next_turn self.old.until_failure }
        ensures room { self.new.room ≡ self.old.room }
    {
        if takes_turn(&mut self.until_failure) {
            self.failures += 1;
            return Err(Failed);
        }
        Ok(())
    }
}
