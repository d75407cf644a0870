//! What is kept of the texts of a run, for what is reported of a fault: the lines in which it may be, as the run read them, and why a text cannot be read.
//! So no text is opened or read a second time for it.
ghost use Rattle.std.specs.Prelude.{◌≡◌, ◌≤◌, length, true};
ghost use Rattle.fmp_cli_desk.specs.Places.{KeepsWhole};

use fmp_cli_faults::Lines;
use std::alloc::Global;
use std::io;
use std::io::{ErrorKind, Read};

/// What is kept of the texts of a run.
#[derive(Drop)]
pub struct Kept {
    pub config: Vec<u8>,
    pub text: KeptText,
}

/// What is kept of the other text.
#[derive(Drop)]
pub enum KeptText {
    /// Nothing: there is none, no place in it is to be shown, or memory was wanting.
    Nothing,
    Lines(KeptLines),
    /// It cannot be read, for this cause.
    Unreadable(io::Error),
}

/// All of a text, or the lines of it that were read last.
#[derive(Drop)]
pub struct KeptLines {
    text: Vec<u8>,
    /// How many lines come before them.
    before: u32,
}

impl KeptText {
    /// All of a text.
    pub fn whole(text: Vec<u8>) -> KeptText
        ensures { KeepsWhole true text.items result }
    {
        KeptText::Lines(KeptLines { text, before: 0 })
    }

    /// What is kept of a text that a run reads whole: a copy of it, where a place in it is to be shown, and memory is there.
    pub fn of_whole(alloc: Global, text: &[u8], shows_place: bool) -> KeptText
        ensures { KeepsWhole shows_place text.now result }
    {
        if !shows_place {
            return KeptText::Nothing;
        }
        match Vec::from_slice(alloc, text) {
            Ok(text) => KeptText::Lines(KeptLines { text, before: 0 }),
            Err(_) => KeptText::Nothing,
        }
    }

    /// The lines that are kept.
    pub fn lines(&self) -> Option<Lines<'_>> {
        match self {
            KeptText::Lines(lines) => Some(Lines {
                text: lines.text.as_slice(),
                before: lines.before,
            }),
            KeptText::Nothing | KeptText::Unreadable(_) => None,
        }
    }
}

/// A reader that keeps why its last read failed.
#[derive(Drop)]
pub struct ErrorKeeper<T> {
    text: T,
    error: Option<io::Error>,
}

impl<T: Read + Drop> ErrorKeeper<T> {
    /// A reader that has read nothing.
    pub fn new(text: T) -> ErrorKeeper<T>
        ensures { result.text ≡ text }
    {
        ErrorKeeper { text, error: None }
    }

    /// Why its last read failed, if one did.
    pub fn into_error(self) -> Option<io::Error> {
        self.error
    }
}

impl<T: Read> Read for ErrorKeeper<T> {
    ghost remaining = { λ k. T.remaining k.text };

    fn read(&mut self, buffer: &mut [u8]) -> io::Result<usize> {
        match self.text.read(buffer) {
            Ok(count) => Ok(count),
            Err(error) => {
                let kind = error.kind();
                self.error = Some(error);
                Err(io::Error::from(kind))
            }
        }
    }
}

/// A reader of lines that are judged as they come, each before more is read. It keeps those of which one may be at fault: what was read last, from the
/// beginning of its first line on.
#[derive(Drop)]
pub struct LineKeeper<T> {
    text: ErrorKeeper<T>,
    /// There are none where no place is to be shown, or memory was wanting.
    last: Option<KeptLines>,
    /// How many bytes of them were read last. Before these there is no end of a line.
    piece: usize,
}

impl<T: Read + Drop> LineKeeper<T> {
    /// A reader that has read nothing, and keeps lines where a place in them is to be shown.
    pub fn new(alloc: Global, text: T, shows_place: bool) -> LineKeeper<T>
        ensures { result.text.text ≡ text }
    {
        let lines = KeptLines {
            text: Vec::new(alloc),
            before: 0,
        };
        LineKeeper {
            text: ErrorKeeper::new(text),
            last: if shows_place { Some(lines) } else { None },
            piece: 0,
        }
    }

    /// What it keeps.
    pub fn into_kept(self) -> KeptText {
        match (self.text.into_error(), self.last) {
            (Some(error), _) => KeptText::Unreadable(error),
            (None, Some(lines)) => KeptText::Lines(lines),
            (None, None) => KeptText::Nothing,
        }
    }
}

/// Where the line begins that is not at its end yet, of a text with line ends in its last bytes alone, which are so many.
fn last_line(text: &[u8], piece: usize) -> usize
    ensures { result ≤ length text.now }
{
    let from = text.len().saturating_sub(piece);
    match text[from..].iter().rev().position(|byte| *byte == b'\n') {
        Some(after) => text.len().saturating_sub(after),
        None => 0,
    }
}

/// How many lines end in a text.
fn line_ends(text: &[u8]) -> u32 {
    let mut count = 0u32;
    for byte in text {
        if *byte == b'\n' {
            count = count.saturating_add(1);
        }
    }
    count
}

/// The line that is not at its end yet, and what was read after it. Of what was there before so many bytes were read last. There are none where memory is
/// wanting.
fn with_piece(lines: KeptLines, last_piece: usize, piece: &[u8]) -> Option<KeptLines> {
    let before = lines.before;
    let mut text = lines.text;
    let begun = last_line(text.as_slice(), last_piece);
    let gone = line_ends(&text[..begun]);
    if begun > 0 {
        let rest = text.len().saturating_sub(begun);
        text.copy_within(begun.., 0);
        text.truncate(rest);
    }
    text.extend_from_slice(piece).ok()?;
    Some(KeptLines {
        text,
        before: before.saturating_add(gone),
    })
}

impl<T: Read> Read for LineKeeper<T> {
    ghost remaining = { λ k. T.remaining k.text.text };

    fn read(&mut self, buffer: &mut [u8]) -> io::Result<usize> {
        let count = self.text.read(buffer)?;
        if let Some(lines) = self.last.take() {
            self.last = with_piece(lines, self.piece, &buffer[..count]);
        }
        self.piece = count;
        Ok(count)
    }
}
