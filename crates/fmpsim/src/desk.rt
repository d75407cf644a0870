//! The desk of the program: files, standard input, standard output, standard error and the clock of the system.
use fmp_cli_desk::{Desk, STANDARD_INPUT, available_in, text_read};
use std::alloc::Global;
use std::env::VarError;
use std::fmt::Display;
use std::io::{Input, Read, Write};
use std::rt::{Clock, Env, Files};
use std::{env, fs, io};

/// Where Linux says how much memory is free.
const MEMORY: &str = "/proc/meminfo";

/// A text that is read as it comes: from a file, or from standard input.
#[derive(Drop)]
pub enum SystemText<F, I> {
    File(F),
    Input(I),
}

impl<F: Read, I: Read> Read for SystemText<F, I> {
    fn read(&mut self, buffer: &mut [u8]) -> io::Result<usize> {
        match self {
            SystemText::File(file) => file.read(buffer),
            SystemText::Input(input) => input.read(buffer),
        }
    }
}

/// A desk of the system.
#[derive(Clone, Copy)]
pub struct SystemDesk<'a, R> {
    pub rt: &'a R,
    /// Whether standard output is a terminal.
    pub is_output_terminal: bool,
    /// Whether standard error is a terminal.
    pub is_error_terminal: bool,
}

impl<'a, R> Desk for SystemDesk<'a, R>
where
    R: Env + Files + Input + Print + Eprint + Clock + AllocGlobal,
{
    type Text = SystemText<R::File, R::Reader>;

    type Output = io::Printer<'a, R>;

    fn alloc(&self) -> Global {
        self.rt.alloc()
    }

    fn open(&self, path: &str) -> io::Result<SystemText<R::File, R::Reader>> {
        if path == STANDARD_INPUT {
            return Ok(SystemText::Input(self.rt.reader()));
        }
        let file = fs::open(self.rt, path)?;
        Ok(SystemText::File(file))
    }

    fn is_file(&self, path: &str) -> bool {
        match fs::metadata(self.rt, path) {
            Ok(kind) => kind.is_file(),
            Err(_) => false,
        }
    }

    fn output(&self) -> io::Printer<'a, R> {
        io::writer(self.rt)
    }

    fn note(&self, text: &[u8]) {
        if let Ok(text) = str::from_utf8(text) {
            let _ = self.rt.eprint(text);
        }
    }

    fn put_line<L: Display + Drop>(&self, line: L) {
        let _ = self.rt.eprintln(line);
    }

    fn put_help(&self, help: &clap::Error) -> io::Result<()> {
        help.print(self.rt)
    }

    fn make_folder(&self, path: &str) -> io::Result<()> {
        fs::create_dir_all(self.rt, path)
    }

    fn put_file(&self, path: &str, text: &[u8]) -> io::Result<()> {
        fs::create(self.rt, path)?.write_all(text)
    }

    fn is_output_terminal(&self) -> bool {
        self.is_output_terminal
    }

    fn is_error_terminal(&self) -> bool {
        self.is_error_terminal
    }

    fn refuses_colours(&self) -> bool {
        match env::var(self.rt, "NO_COLOR") {
            Ok(value) => !value.is_empty(),
            Err(VarError::NotPresent) => false,
            Err(VarError::NotUnicode | VarError::OutOfMemory) => true,
        }
    }

    fn thousandths(&self) -> Option<u64> {
        let now = self.rt.monotonic().ok()?;
        let seconds = now.as_secs().saturating_mul(1000);
        Some(seconds.saturating_add(u64::from(now.subsec_millis())))
    }

    fn free_memory(&self) -> Option<u64> {
        let text = text_read(self.alloc(), self.open(MEMORY).ok()?).ok()?;
        available_in(text.as_slice())
    }
}
