//! A fault line that tells its place as compilers do.
use std::fmt;

/// Where a fault is in its text, as far as that is known. Lines and columns count from 1, and a column counts bytes.
#[derive(Clone, Copy)]
pub enum Spot {
    /// The fault is in no line.
    Nowhere,
    /// In this line.
    Line(usize),
    /// At this line and column.
    Column(usize, usize),
}

impl Spot {
    /// The place of a fault of which the line alone is known, or 0 where it has none.
    pub fn of_line(line: u32) -> Spot {
        if line == 0 {
            Spot::Nowhere
        } else {
            Spot::Line(line as usize)
        }
    }
}

/// What stands after the path: `:4:3`, `:4`, or nothing.
impl fmt::Display for Spot {
    fn fmt<W: fmt::Write>(&self, f: &mut fmt::Formatter<W>) -> fmt::Result {
        match *self {
            Spot::Nowhere => Ok(()),
            Spot::Line(line) => write!(f, ":{line}"),
            Spot::Column(line, column) => write!(f, ":{line}:{column}"),
        }
    }
}

/// The first fault of a text, told as compilers tell theirs: `events.txt:2:13: error: E3 unknown name`.
#[derive(Clone, Copy)]
pub struct Diagnostic<'a> {
    /// The path of the text.
    pub path: &'a str,
    pub spot: Spot,
    /// The fault's number.
    pub code: &'a str,
    /// The fault in words.
    pub words: &'a str,
    /// The word at fault, empty where none is told.
    pub word: &'a str,
}

impl fmt::Display for Diagnostic<'_> {
    fn fmt<W: fmt::Write>(&self, f: &mut fmt::Formatter<W>) -> fmt::Result {
        let (path, spot, code, words) = (self.path, self.spot, self.code, self.words);
        write!(f, "{path}{spot}: error: {code} {words}")?;
        if !self.word.is_empty() {
            write!(f, " {}", self.word)?;
        }
        Ok(())
    }
}
