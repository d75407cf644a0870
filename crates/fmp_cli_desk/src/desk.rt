//! All that the program has of the system that it runs on.
ghost use Rattle.std.specs.Prelude.{◌≡◌};
ghost use Rattle.fmp_cli_desk.specs.Places.{shows_place};

use fmp_cli::Paths;
use fmp_cli_diagnostics::LineForm;
use fmp_cli_hints::TextForm;
use fmp_out::Text;
use std::alloc::Global;
use std::fmt::Display;
use std::io;
use std::io::{Read, Write};

/// The devices of the program: its texts, standard output and standard error, the files that it makes, and a clock. Any call
/// may fail. Nothing else is promised of them but what a text has, where that is known before it is read.
pub trait Desk {
    ghost use Rattle.std.specs.Prelude.{◌≡◌, ℕ, List, Option, None, IfOk};

    /// A text that is read as it comes.
    type Text: Read + Drop;
    /// Standard output, to be written.
    type Output: Write + Drop;

    // What the text at a path has, where that is known. It is not of a file.
    ghost text_at: { Self → List ℕ → Option (List ℕ) } = { λ _ _. None };

    /// Where memory comes from.
    fn alloc(&self) -> Global;

    /// Opens the text at a path, or standard input where the path is [`STANDARD_INPUT`](crate::STANDARD_INPUT).
    fn open(&self, path: &str) -> io::Result<Self::Text>
        ensures { IfOk result (λ text. Self.Text.remaining text ≡ text_at self.now path.now) };

    /// Whether there is a file of bytes at a path, and no pipe or device.
    fn is_file(&self, path: &str) -> bool;

    /// Standard output. What was written to another of them comes before what is written to this one.
    fn output(&self) -> Self::Output;

    /// Writes a text of UTF-8 to standard error. Where that fails nothing can be reported.
    fn note(&self, text: &[u8]);

    /// Writes a line to standard error, with its line feed. It takes no memory. Where that fails nothing can be reported.
    fn put_line<L: Display + Drop>(&self, line: L);

    /// Writes help to standard output, or what is wrong with a command line to standard error.
    fn put_help(&self, help: &clap::Error) -> io::Result<()>;

    /// Makes the folder at a path with those above it, where there is none.
    fn make_folder(&self, path: &str) -> io::Result<()>;

    /// Writes a text into the file at a path, which is made where there is none, and has nothing else afterwards.
    fn put_file(&self, path: &str, text: &[u8]) -> io::Result<()>;

    /// Whether standard output is a terminal.
    fn is_output_terminal(&self) -> bool;

    /// Whether standard error is a terminal.
    fn is_error_terminal(&self) -> bool;

    /// Whether the user wants no colours where none are asked for.
    fn refuses_colours(&self) -> bool;

    /// The time since some moment, in thousandths of a second. There is none where the clock says nothing.
    fn thousandths(&self) -> Option<u64>;

    /// How many bytes of memory are free. None where that is not known.
    fn free_memory(&self) -> Option<u64>;
}

/// How a fault is reported.
#[derive(Clone, Copy)]
pub struct FaultForm {
    /// The form of its line.
    pub line: LineForm,
    /// What the other text is.
    pub text: TextForm,
}

impl FaultForm {
    /// Whether the place of a fault in a text at these paths is shown: in its line, or below that.
    pub fn shows_place(self, paths: &Paths<'_>) -> bool
        ensures { result ≡ shows_place self.line paths.now.context }
    {
        matches!(self.line, LineForm::Gcc) || paths.context.is_some()
    }
}

/// Reports whole lines on standard error, unless memory was wanting for them.
pub fn put_lines<D: Desk>(desk: &D, lines: Text) {
    if let Ok(lines) = lines.finish() {
        desk.note(lines.as_slice());
    }
}
