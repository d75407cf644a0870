//! Writers whose bytes are known, whatever they are over.
ghost use Rattle.std.specs.Prelude.{◌≡◌, [], Some};
ghost use Rattle.std.specs.Io.{WritesAtMost};
ghost use Rattle.std.specs.Io.KnownBytes.{Keeps, WriteAppends};

use crate::history::{History, Passing};
use std::io;
use std::io::Write;

/// A writer of which proofs see what it took. What it holds is that, and no more is said of a file or of standard output.
#[derive(Drop)]
pub(crate) struct KnownWriter<W> {
    writer: W,
    taken: History,
}

impl<W> KnownWriter<W> {
    /// Over a writer that has taken nothing yet.
    pub(crate) fn new(writer: W) -> KnownWriter<W>
        ensures writer { result.writer ≡ writer }
        ensures taken { result.taken.bytes ≡ [] }
    {
        KnownWriter {
            writer,
            taken: History::new(),
        }
    }
}

impl<W: Write> Write for KnownWriter<W> {
    ghost contents = { λ s. Some s.taken.bytes };

    // What is kept in mind is what the writer below took: at each writer whose bytes are known it has these bytes.
    fn write(&mut self, buf: &[u8]) -> io::Result<usize>
        ensures bound { WritesAtMost result buf.now }
        ensures bytes { WriteAppends (Some self.old.taken.bytes) (Some self.new.taken.bytes) result buf.now }
        ensures below { WriteAppends (W.contents self.old.writer) (W.contents self.new.writer) result buf.now }
    {
        let count = self.writer.write(buf)?;
        self.taken = self.taken.with(&Passing {
            bytes: &buf[..count],
        });
        Ok(count)
    }

    fn flush(&mut self) -> io::Result<()>
        ensures bytes { Keeps (Some self.old.taken.bytes) (Some self.new.taken.bytes) }
        ensures below { Keeps (W.contents self.old.writer) (W.contents self.new.writer) }
    {
        self.writer.flush()
    }
}
