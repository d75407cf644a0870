//! The words that stand for values in the arguments of calls.
ghost use Rattle.std.specs.Prelude.{◌≡◌};
ghost use Rattle.fmp_names.specs.Constants as spec;

use fmp_codes::{ArgumentKind, Mode, ObjectKind, Value};

/// A word that stands for a value in the places of one kind.
#[derive(Clone, Copy)]
pub enum Constant {
    TskSelf,
    TpriSelf,
    TpriIni,
    TprcIni,
    TmoPol,
    TmoFevr,
    TwfAndw,
    TwfOrw,
}

impl Constant {
    ghost use Rattle.std.specs.Prelude.{◌≡◌};
    ghost use Rattle.fmp_names.specs.Constants.{value_of, word_of};

    /// All constants, in the order in which they are declared.
    const ALL: [Constant; 8] = [
        Constant::TskSelf,
        Constant::TpriSelf,
        Constant::TpriIni,
        Constant::TprcIni,
        Constant::TmoPol,
        Constant::TmoFevr,
        Constant::TwfAndw,
        Constant::TwfOrw,
    ];

    /// The word, as in C.
    const fn word(self) -> &'static str
        ensures { result.now ≡ word_of self }
    {
        match self {
            Constant::TskSelf => "TSK_SELF",
            Constant::TpriSelf => "TPRI_SELF",
            Constant::TpriIni => "TPRI_INI",
            Constant::TprcIni => "TPRC_INI",
            Constant::TmoPol => "TMO_POL",
            Constant::TmoFevr => "TMO_FEVR",
            Constant::TwfAndw => "TWF_ANDW",
            Constant::TwfOrw => "TWF_ORW",
        }
    }

    /// What it stands for in a place of this kind, where it is a constant of that kind.
    pub fn value(self, kind: ArgumentKind) -> Option<Value>
        ensures { result ≡ value_of self kind }
    {
        match (self, kind) {
            (Constant::TskSelf, ArgumentKind::Object(ObjectKind::Task)) => Some(Value::Number(0)),
            (Constant::TpriSelf, ArgumentKind::Priority) => Some(Value::Number(0)),
            (Constant::TpriIni, ArgumentKind::Priority) => Some(Value::Number(0)),
            (Constant::TprcIni, ArgumentKind::Processor) => Some(Value::Number(0)),
            (Constant::TmoPol, ArgumentKind::Timeout) => Some(Value::Number(0)),
            (Constant::TmoFevr, ArgumentKind::Timeout) => Some(Value::Number(-1)),
            (Constant::TwfAndw, ArgumentKind::Mode) => Some(Value::Mode(Mode::Andw)),
            (Constant::TwfOrw, ArgumentKind::Mode) => Some(Value::Mode(Mode::Orw)),
            _ => None,
        }
    }
}

/// The constant with this word.
pub fn constant_in(word: &[u8]) -> Option<Constant>
    ensures { result ≡ spec.constant_in word.now }
{
    Constant::ALL
        .iter()
        .copied()
        .find(|constant| constant.word().as_bytes() == word)
}
