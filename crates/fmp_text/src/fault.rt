//! What is wrong with a text.
ghost use Rattle.std.specs.Prelude.{◌≡◌};
ghost use Rattle.fmp_text.specs.declared.fault.TextKind.TheVariants.{Memory};

use std::alloc::{AllocError, AllocFailed};
use std::fmt;

/// The kinds of faults.
#[derive(Clone, Copy, PartialEq, Eq, Debug)]
pub enum TextKind {
    /// A byte that may not stand in an event's line.
    BadByte,
    /// A word that is not the one that has to stand there.
    BadWord,
    /// A word that is neither a constant nor the name of an object.
    UnknownName,
    /// Arguments of another form, number or kind than the call has.
    WrongArguments,
    /// A number with a leading zero, or outside its range.
    NumberOutOfRange,
    /// The last line has no line feed.
    CutShort,
    /// More events or bytes than a text may have.
    TooMany,
    /// Memory ran out.
    Memory,
}

impl TextKind {
    ghost use Rattle.std.specs.Prelude.{◌≡◌};
    ghost use Rattle.fmp_text.specs.Faults.{code_of, words_of};

    /// The fault's number, from `E1` to `E8`.
    pub const fn code(self) -> &'static str
        ensures { result.now ≡ code_of self }
    {
        match self {
            TextKind::BadByte => "E1",
            TextKind::BadWord => "E2",
            TextKind::UnknownName => "E3",
            TextKind::WrongArguments => "E4",
            TextKind::NumberOutOfRange => "E5",
            TextKind::CutShort => "E6",
            TextKind::TooMany => "E7",
            TextKind::Memory => "E8",
        }
    }

    /// The fault in words, as it is printed after its number.
    pub const fn words(self) -> &'static str
        ensures { result.now ≡ words_of self }
    {
        match self {
            TextKind::BadByte => "bad byte",
            TextKind::BadWord => "bad word",
            TextKind::UnknownName => "unknown name",
            TextKind::WrongArguments => "wrong arguments",
            TextKind::NumberOutOfRange => "number out of range",
            TextKind::CutShort => "cut short",
            TextKind::TooMany => "too many",
            TextKind::Memory => "want of memory",
        }
    }
}

/// The first fault of a text, with its line from 1. Want of memory and a text that is too long have line 0.
#[derive(Clone, Copy, PartialEq, Eq, Debug)]
pub struct TextFault {
    pub kind: TextKind,
    pub line: u32,
}

/// As it is told to a user: `line 4: E2 bad word`.
impl fmt::Display for TextFault {
    ghost use Rattle.std.specs.Prelude.{Some};
    ghost use Rattle.fmp_text.specs.Faults.{text_of};

    ghost output = { λ fault. Some (text_of fault) };

    fn fmt<W: fmt::Write>(&self, f: &mut fmt::Formatter<W>) -> fmt::Result {
        let (line, code, words) = (self.line, self.kind.code(), self.kind.words());
        write!(f, "line {line}: {code} {words}")
    }
}

impl From<AllocError> for TextFault {
    ghost from_gives = { λ _ e. (e.kind ≡ Memory) × (e.line ≡ 0) };

    fn from(_e: AllocError) -> TextFault {
        TextFault {
            kind: TextKind::Memory,
            line: 0,
        }
    }
}

impl<T: Drop> From<AllocFailed<T>> for TextFault {
    ghost from_gives = { λ _ e. (e.kind ≡ Memory) × (e.line ≡ 0) };

    fn from(_e: AllocFailed<T>) -> TextFault {
        TextFault {
            kind: TextKind::Memory,
            line: 0,
        }
    }
}
