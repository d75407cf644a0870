//! Readers and writers of std as devices.
ghost use Rattle.std.specs.Prelude.{◌≡◌, ◌+◌, ◌-◌, ◌^◌, ◌<◌, ◌≤◌, [], false, true, length, IfOk, OnOk, is_err, if◌then◌else◌};
ghost use Rattle.std.specs.Bool.{Decides};
ghost use Rattle.std.specs.Io.Buffered.{writer_buffer, writer_inner};
ghost use Rattle.std.specs.Io.KnownBytes.{Keeps, ReadConsumes, WriteAppends};
ghost use Rattle.std.specs.IoError.{error_kind};
ghost use Rattle.std.specs.declared.io.ErrorKind.TheVariants as kind;
ghost use Rattle.fmp_run_devices.specs.Devices.{bytes_of, is_failed_write};
ghost use Rattle.fmp_run_devices.specs.Hearing.{Hands};
ghost use Rattle.fmp_run_devices.specs.Written.{written_through};

use crate::history::{History, Passing};
use crate::sink::Sink;
use crate::source::{Failed, Source};
use crate::taking::KnownWriter;
use std::alloc::{AllocError, Global};
use std::io;
use std::io::{BufWriter, ErrorKind, Read, Write};

/// How many bytes a sink holds back before it passes them on.
const ROOM: usize = 65536;

/// A reader of std as a source. What is left is known where the reader's bytes are, as those of a slice are and those of a file are not. What it handed over
/// is known of each.
#[derive(Drop)]
pub struct ReadSource<R: Read> {
    reader: R,
    failures: u64,
    given: History,
    ended: bool,
    ghost over: { ended ≡ true → bytes_of (R.remaining reader) ≡ [] },
}

impl<R: Read> ReadSource<R> {
    /// A source over a reader, of which no call has failed.
    pub fn new(reader: R) -> ReadSource<R>
        ensures failures { result.failures ≡ 0 }
        ensures reader { result.reader ≡ reader }
        ensures given { (result.given.bytes ≡ []) × (result.ended ≡ false) }
    {
        ReadSource {
            reader,
            failures: 0,
            given: History::new(),
            ended: false,
        }
    }
}

impl<R: Read> Source for ReadSource<R> {
    ghost left = { λ s. R.remaining s.reader };

    ghost given = { λ s. s.given.bytes };

    ghost ended = { λ s. s.ended };

    ghost over = { λ s. s.over };

    ghost failures = { λ s. s.failures };

    fn failures(&self) -> u64 {
        self.failures
    }

    fn read(&mut self, buffer: &mut [u8]) -> Result<usize, Failed>
        requires { self.old.failures < 2 ^ 64 - 1 }
        ensures fits { IfOk result (λ n. n ≤ length buffer.old) }
        ensures count { self.new.failures ≡ self.old.failures + (if is_err result then 1 else 0) }
        ensures bytes { ReadConsumes (R.remaining self.old.reader) (R.remaining self.new.reader) result buffer.new }
        ensures hands { Hands self.old.given.bytes self.new.given.bytes self.new.ended result buffer.new }
    {
        match self.reader.read(buffer) {
            Ok(count) => {
                self.given = self.given.with(&Passing {
                    bytes: &buffer[..count],
                });
                self.ended = count == 0 && !buffer.is_empty();
                Ok(count)
            }
            Err(_) => {
                self.failures += 1;
                self.ended = false;
                Err(Failed)
            }
        }
    }
}

/// A writer of std after a buffer as a sink. What was written is known, whatever it is over: what the writer took, and what is held back.
#[derive(Drop)]
pub struct WriteSink<W: Write + Drop> {
    writer: BufWriter<KnownWriter<W>>,
    failures: u64,
    /// The last call that failed did so since nobody reads the pipe any more.
    is_closed: bool,
}

impl<W: Write + Drop> WriteSink<W> {
    /// A sink over a writer, of which no call has failed.
    pub fn new(alloc: Global, writer: W) -> Result<WriteSink<W>, AllocError>
        ensures failures { IfOk result (λ sink. sink.failures ≡ 0) }
        ensures writer { IfOk result (λ sink. (writer_inner sink.writer).writer ≡ writer) }
        ensures taken { IfOk result (λ sink. (writer_inner sink.writer).taken.bytes ≡ []) }
        ensures buffer { IfOk result (λ sink. writer_buffer sink.writer ≡ []) }
        ensures closed { IfOk result (λ sink. sink.is_closed ≡ false) }
    {
        let writer = BufWriter::with_capacity(alloc, ROOM, KnownWriter::new(writer)).map_err(
            |_| AllocError,
        )?;
        Ok(WriteSink {
            writer,
            failures: 0,
            is_closed: false,
        })
    }

    /// Whether the last call that failed did so since nobody reads the pipe any more, as after `head`.
    pub fn is_closed(&self) -> bool
        ensures { result ≡ self.now.is_closed }
    {
        self.is_closed
    }

    /// Counts a call that failed, and keeps whether that was for want of a reader.
    fn fail(&mut self, error: &io::Error)
        requires { self.old.failures < 2 ^ 64 - 1 }
        ensures failures { self.new.failures ≡ self.old.failures + 1 }
        ensures writer { self.new.writer ≡ self.old.writer }
        ensures closed { Decides self.new.is_closed (error_kind error.now ≡ kind.BrokenPipe) }
    {
        self.failures += 1;
        self.is_closed = matches!(error.kind(), ErrorKind::BrokenPipe);
    }
}

impl<W: Write + Drop> Sink for WriteSink<W> {
    ghost written = { λ s. written_through s.writer };

    ghost buffered = { λ s. writer_buffer s.writer };

    ghost failures = { λ s. s.failures };

    fn failures(&self) -> u64 {
        self.failures
    }

    fn write(&mut self, piece: &[u8]) -> Result<usize, Failed>
        requires { self.old.failures < 2 ^ 64 - 1 }
        ensures fits { IfOk result (λ n. n ≤ length piece.now) }
        ensures count { self.new.failures ≡ self.old.failures + (if is_failed_write result piece.now then 1 else 0) }
        ensures bytes { WriteAppends (written_through self.old.writer) (written_through self.new.writer) result piece.now }

        // A call that did not fail tells nothing of the reader.
        ensures closed { OnOk result (self.new.is_closed ≡ self.old.is_closed) }
    {
        match self.writer.write(piece) {
            Ok(count) => {
                if count == 0 && !piece.is_empty() {
                    self.failures += 1;
                }
                Ok(count)
            }
            Err(error) => {
                self.fail(&error);
                Err(Failed)
            }
        }
    }

    fn flush(&mut self) -> Result<(), Failed>
        requires { self.old.failures < 2 ^ 64 - 1 }
        ensures count { self.new.failures ≡ self.old.failures + (if is_err result then 1 else 0) }
        ensures passed { OnOk result (writer_buffer self.new.writer ≡ []) }
        ensures bytes { Keeps (written_through self.old.writer) (written_through self.new.writer) }
        ensures closed { OnOk result (self.new.is_closed ≡ self.old.is_closed) }
    {
        match self.writer.flush() {
            Ok(()) => Ok(()),
            Err(error) => {
                self.fail(&error);
                Err(Failed)
            }
        }
    }
}
