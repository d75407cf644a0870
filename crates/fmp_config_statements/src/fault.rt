//! What is wrong with a configuration.
ghost use Rattle.std.specs.Prelude.{◌≡◌};
ghost use Rattle.fmp_config_statements.specs.declared.fault.ReadError.TheVariants as errors;
ghost use Rattle.fmp_config_statements.specs.Faults as spec;

use crate::word::Word;
use std::alloc::{AllocError, AllocFailed};
use std::marker::Model;

/// The kinds of faults.
#[derive(Clone, Copy, Debug)]
pub enum ConfigKind {
    /// A byte or a token that may not stand where it stands.
    Syntax,
    /// The text ends within a comment, a string, a statement or a class.
    CutShort,
    /// A statement or a directive of another name than those that are read.
    Unsupported,
    /// A statement that may only stand in a class.
    OutsideClass,
    /// A class that no statement before it defines.
    UnknownClass,
    /// A name that another class, object or number has, or that is reserved.
    NameTaken,
    /// A number outside its range, or what is no number.
    OutOfRange,
    /// An attribute that the statement does not allow.
    BadAttribute,
    /// More than a configuration may have.
    TooMany,
    /// The first statement is not the number of processors.
    NoProcessors,
    /// A class with a processor that the machine has not, or without its initial processor.
    BadClass,
    /// Memory ran out.
    Memory,
    /// A handler in a class that has other processors than the one whose ticks count.
    ForeignHandler,
}

impl ConfigKind {
    ghost use Rattle.std.specs.Prelude.{◌≡◌};
    ghost use Rattle.fmp_config_statements.specs.Faults.{code_of, words_of};

    /// The fault's number, from `F1` to `F13`.
    pub const fn code(self) -> &'static str
        ensures { result.now ≡ code_of self }
    {
        match self {
            ConfigKind::Syntax => "F1",
            ConfigKind::CutShort => "F2",
            ConfigKind::Unsupported => "F3",
            ConfigKind::OutsideClass => "F4",
            ConfigKind::UnknownClass => "F5",
            ConfigKind::NameTaken => "F6",
            ConfigKind::OutOfRange => "F7",
            ConfigKind::BadAttribute => "F8",
            ConfigKind::TooMany => "F9",
            ConfigKind::NoProcessors => "F10",
            ConfigKind::BadClass => "F11",
            ConfigKind::Memory => "F12",
            ConfigKind::ForeignHandler => "F13",
        }
    }

    /// The fault in words, as it is printed after its number.
    pub const fn words(self) -> &'static str
        ensures { result.now ≡ words_of self }
    {
        match self {
            ConfigKind::Syntax => "syntax",
            ConfigKind::CutShort => "cut short",
            ConfigKind::Unsupported => "unsupported API",
            ConfigKind::OutsideClass => "outside a class",
            ConfigKind::UnknownClass => "unknown class",
            ConfigKind::NameTaken => "name taken",
            ConfigKind::OutOfRange => "value out of range",
            ConfigKind::BadAttribute => "attribute not allowed",
            ConfigKind::TooMany => "too many",
            ConfigKind::NoProcessors => "no PROCESSORS line",
            ConfigKind::BadClass => "bad class",
            ConfigKind::Memory => "want of memory",
            ConfigKind::ForeignHandler => "handler outside the time master",
        }
    }
}

/// A fault: its kind, its line, and the bytes of the token at fault, none where no token is.
#[derive(Drop)]
pub struct Fault<'a> {
    kind: ConfigKind,
    line: u32,
    /// The token is the name of a directive.
    marked: bool,
    text: &'a [u8],
    left: usize,
}

impl<'a> Model for Fault<'a> {
    ghost use Rattle.fmp_config_statements.specs.Faults.{Fault as Found};

    ghost Value = { Found };

    ghost view = { λ f. record { kind = f.kind; line = f.line; marked = f.marked; word = f.text.now } };
}

impl<'a> Fault<'a> {
    ghost use Rattle.std.specs.Prelude.{◌≡◌};
    ghost use Rattle.fmp_config_statements.specs.Faults as spec;

    /// A fault of a word, in the word's line.
    pub fn at(kind: ConfigKind, word: &Word<'a>) -> Self
        ensures { result ≡ spec.fault_at kind word.now }
    {
        Fault::within(kind, word.line(), word)
    }

    /// A fault of a word, in the line of its statement or directive.
    pub fn within(kind: ConfigKind, line: u32, word: &Word<'a>) -> Self
        ensures { result ≡ spec.fault_in kind line word.now }
    {
        let marked = false;
        let text = word.text();
        let left = word.left();
        Fault {
            kind,
            line,
            marked,
            text,
            left,
        }
    }

    /// A fault in a line, of no word.
    pub fn of_line(kind: ConfigKind, line: u32) -> Self
        ensures { result ≡ spec.fault_of_line kind line }
    {
        let marked = false;
        let text: &[u8] = &[];
        let left = 0;
        Fault {
            kind,
            line,
            marked,
            text,
            left,
        }
    }

    /// A directive of another name than those that are read.
    pub fn of_directive(line: u32, name: &Word<'a>) -> Self
        ensures { result ≡ spec.unknown_directive line name.now.text }
    {
        let kind = ConfigKind::Unsupported;
        let marked = true;
        let text = name.text();
        let left = name.left();
        Fault {
            kind,
            line,
            marked,
            text,
            left,
        }
    }

    /// The fault's kind.
    pub fn kind(&self) -> ConfigKind
        ensures { result ≡ self.now.kind }
    {
        self.kind
    }

    /// The fault's line.
    pub fn line(&self) -> u32
        ensures { result ≡ self.now.line }
    {
        self.line
    }

    /// Whether the word is the name of a directive, which is told with its `#`.
    pub fn is_marked(&self) -> bool
        ensures { result ≡ self.now.marked }
    {
        self.marked
    }

    /// The bytes of the token at fault.
    pub fn word(&self) -> &'a [u8]
        ensures { result.now ≡ self.now.word }
    {
        self.text
    }

    /// A hint where the token at fault stands, which no contract rests on: how many bytes of the text are left from its first one on,
    /// and 0 where no token is at fault.
    pub fn left(&self) -> usize {
        self.left
    }
}

/// Want of memory, or a fault of the text.
#[derive(Drop)]
pub enum ReadError<'a> {
    Memory,
    Fault(Fault<'a>),
}

impl<'a> From<AllocError> for ReadError<'a> {
    ghost from_gives = { λ _ e. e ≡ errors.Memory };

    fn from(_e: AllocError) -> ReadError<'a> {
        ReadError::Memory
    }
}

impl<'a, T: Drop> From<AllocFailed<T>> for ReadError<'a> {
    ghost from_gives = { λ _ e. e ≡ errors.Memory };

    fn from(_e: AllocFailed<T>) -> ReadError<'a> {
        ReadError::Memory
    }
}

impl<'a> From<Fault<'a>> for ReadError<'a> {
    ghost from_gives = { λ fault e. e ≡ errors.Fault fault };

    fn from(fault: Fault<'a>) -> ReadError<'a> {
        ReadError::Fault(fault)
    }
}
