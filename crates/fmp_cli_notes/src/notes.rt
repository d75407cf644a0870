//! Who is told what stands beside an answer, and how its lines begin.
ghost use Rattle.std.specs.Prelude.{◌≢◌, false};
ghost use Rattle.fmp_out.specs.Putting.{Adds, nothing};
ghost use Rattle.fmp_cli_notes.specs.Lines.{head};

use fmp_out::Text;
use std::alloc::{AllocError, Global};

/// One who is told lines that stand beside an answer.
pub trait Notes {
    ghost use Rattle.fmp_out.specs.Putting.{Putting};
    ghost use Rattle.fmp_cli_notes.specs.Lines.{Tells};

    // What was told so far, and whether memory was wanting for a line of it.
    ghost told: { Self → Putting };

    /// Takes a line without its line feed, or leaves it out where memory was wanting for it.
    fn note(&mut self, line: Text)
        ensures { Tells line (told self.old) (told self.new) };
}

/// What the lines are about.
#[derive(Clone, Copy)]
pub struct About<'a> {
    pub alloc: Global,
    /// `question`, or the name of one of several.
    pub asked: &'a str,
}

impl About<'_> {
    /// The beginning of a line.
    pub(crate) fn line(self) -> Text
        ensures { Adds (head self.entry.asked.now) nothing result }
    {
        let mut line = Text::new(self.alloc);
        line.put(b"fmpsim: ");
        line.put(self.asked.as_bytes());
        line.put(b": ");
        line
    }
}

/// Tells nothing, for want of memory.
pub(crate) fn tell_wanting<N: Notes>(notes: &mut N, about: About<'_>)
    ensures { (N.told notes.new).wanting ≢ false }
{
    let mut line = about.line();
    line.note(Err(AllocError));
    notes.note(line);
}
