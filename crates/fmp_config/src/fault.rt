//! Why there is no configuration.
ghost use Rattle.std.specs.Prelude.{◌≡◌};
ghost use Rattle.fmp_config.specs.Faults as spec;
ghost use Rattle.fmp_config_statements.specs.declared.fault.ReadError.TheVariants as errors;

use arrayvec::ArrayString;
use fmp_bytes::is_identifier;
use fmp_config_statements::{ConfigKind, Fault, ReadError};
use fmp_names::MOST_NAME_BYTES;
use std::fmt;

/// The first fault of a configuration text: its kind, its line from 1, and the word at fault.
///
/// Want of memory and a text that is too long have line 0. The word is empty where no identifier of at most 64 bytes is at
/// fault; the name of a directive has its `#` before it, which counts.
#[derive(Debug, Drop)]
pub struct ConfigFault {
    pub kind: ConfigKind,
    pub line: u32,
    pub word: ArrayString<MOST_NAME_BYTES>,
    /// A hint where the token at fault stands, which no contract rests on: how many bytes of the text are left from its first one
    /// on, and 0 where no token is at fault.
    pub left: usize,
}

/// As it is told to a user, with the word where there is one: `line 4: F3 unsupported API CRE_MTX`.
impl fmt::Display for ConfigFault {
    ghost use Rattle.std.specs.Prelude.{Some};
    ghost use Rattle.fmp_config.specs.Faults.{text_of};

    ghost output = { λ fault. Some (text_of fault) };

    fn fmt<W: fmt::Write>(&self, f: &mut fmt::Formatter<W>) -> fmt::Result {
        let (line, code, words) = (self.line, self.kind.code(), self.kind.words());
        write!(f, "line {line}: {code} {words}")?;
        if !self.word.is_empty() {
            write!(f, " {}", self.word.as_str())?;
        }
        Ok(())
    }
}

/// The word, or none where it is too long.
fn fitting(marked: bool, word: &str) -> ArrayString<MOST_NAME_BYTES>
    ensures { result.bytes ≡ spec.fitting marked word.now }
{
    let mut shown = ArrayString::new();
    if marked {
        shown.push('#');
    }
    match shown.try_push_str(word) {
        Ok(()) => shown,
        Err(_) => ArrayString::new(),
    }
}

/// The bytes as a word, empty where they are no identifier or too long.
#[tactic(auto, using(crate::proofs::Words::is_text, crate::proofs::Words::is_no_text))]
fn word_of(marked: bool, text: &[u8]) -> ArrayString<MOST_NAME_BYTES>
    ensures { result.bytes ≡ spec.shown marked text.now }
{
    if !is_identifier(text) {
        return ArrayString::new();
    }
    match str::from_utf8(text) {
        Ok(word) => fitting(marked, word),
        Err(_) => ArrayString::new(),
    }
}

impl ConfigFault {
    ghost use Rattle.std.specs.Prelude.{◌≡◌};
    ghost use Rattle.fmp_config.specs.Faults as spec;
    ghost use Rattle.fmp_config_statements.specs.declared.fault.ReadError.TheVariants as errors;

    /// The fault of a reading.
    pub fn of(error: ReadError<'_>) -> Self
        ensures { spec.Tells result error.entry }
    {
        match error {
            ReadError::Memory => ConfigFault {
                kind: ConfigKind::Memory,
                line: 0,
                word: ArrayString::new(),
                left: 0,
            },
            ReadError::Fault(fault) => ConfigFault {
                kind: fault.kind(),
                line: fault.line(),
                word: word_of(fault.is_marked(), fault.word()),
                left: fault.left(),
            },
        }
    }
}
