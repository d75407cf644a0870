//! The attributes of objects.
ghost use Rattle.std.specs.Prelude.{◌≡◌, find};
ghost use Rattle.std.specs.Str.{bytes_eq};
ghost use Rattle.fmp_config_statements.specs.Attributes as spec;

use crate::fault::{ConfigKind, Fault};
use crate::word::Word;

/// An attribute.
#[derive(Clone, Copy)]
pub enum Attribute {
    /// `TA_NULL`: nothing.
    Null,
    /// `TA_ACT`: the task is started at boot.
    Activate,
    /// `TA_STA`: the cyclic handler is started at boot.
    Start,
    /// `TA_TFIFO`: tasks wait first come first, as they do without an attribute.
    InOrder,
    /// `TA_TPRI`: tasks wait by priority.
    ByPriority,
    /// `TA_WSGL`: at most one task waits, as is so without an attribute.
    Single,
    /// `TA_WMUL`: several tasks may wait.
    Many,
    /// `TA_CLR`: a release clears the eventflag.
    Clear,
}

/// What the attributes of an object say together.
#[derive(Clone, Copy)]
pub struct Attributes {
    /// It is started at boot.
    pub starts: bool,
    /// Tasks wait by priority.
    pub by_priority: bool,
    /// Several tasks may wait.
    pub many: bool,
    /// A release clears it.
    pub clears: bool,
}

const NONE: Attributes = Attributes {
    starts: false,
    by_priority: false,
    many: false,
    clears: false,
};

impl Attribute {
    ghost use Rattle.std.specs.Prelude.{◌≡◌};
    ghost use Rattle.fmp_config_statements.specs.Attributes.{text_of};

    /// The attribute as it is written.
    pub fn text(self) -> &'static [u8]
        ensures { result.now ≡ text_of self }
    {
        match self {
            Attribute::Null => b"TA_NULL",
            Attribute::Activate => b"TA_ACT",
            Attribute::Start => b"TA_STA",
            Attribute::InOrder => b"TA_TFIFO",
            Attribute::ByPriority => b"TA_TPRI",
            Attribute::Single => b"TA_WSGL",
            Attribute::Many => b"TA_WMUL",
            Attribute::Clear => b"TA_CLR",
        }
    }
}

impl Attributes {
    ghost use Rattle.std.specs.Prelude.{◌≡◌};
    ghost use Rattle.fmp_config_statements.specs.Attributes.{with_attribute};

    /// What the attributes say with one more.
    fn with(self, attribute: Attribute) -> Self
        ensures { result ≡ with_attribute self attribute }
    {
        match attribute {
            Attribute::Null | Attribute::InOrder | Attribute::Single => self,
            Attribute::Activate | Attribute::Start => Attributes {
                starts: true,
                ..self
            },
            Attribute::ByPriority => Attributes {
                by_priority: true,
                ..self
            },
            Attribute::Many => Attributes { many: true, ..self },
            Attribute::Clear => Attributes {
                clears: true,
                ..self
            },
        }
    }
}

/// The allowed attribute that is written so.
fn attribute_of(allowed: &[Attribute], text: &[u8]) -> Option<Attribute>
    ensures { result ≡ find (λ a. bytes_eq (spec.text_of a) text.now) allowed.now }
{
    allowed
        .iter()
        .copied()
        .find(|attribute| attribute.text() == text)
}

/// The allowed attribute of a word, or its fault.
#[tactic(auto, unfolding(crate::specs::Attributes::attribute_in))]
fn attribute_in<'a>(allowed: &[Attribute], word: &Word<'a>) -> Result<Attribute, Fault<'a>>
    ensures { result ≡ spec.attribute_in allowed.now word.now }
{
    attribute_of(allowed, word.text()).ok_or(Fault::at(ConfigKind::BadAttribute, word))
}

/// What the attributes say with those of one word more.
#[tactic(auto, unfolding(crate::specs::Attributes::attribute_step))]
fn attribute_step<'a>(
    allowed: &[Attribute],
    found: Attributes,
    word: &Word<'a>,
) -> Result<Attributes, Fault<'a>>
    ensures { result ≡ spec.attribute_step allowed.now found word.now }
{
    Ok(found.with(attribute_in(allowed, word)?))
}

/// What the attributes of some words say together, or the first that is not allowed.
#[tactic(auto, unfolding(crate::specs::Attributes::attributes_in))]
pub fn attributes_in<'a>(allowed: &[Attribute], words: &[Word<'a>]) -> Result<Attributes, Fault<'a>>
    ensures { result ≡ spec.attributes_in allowed.now words.now }
{
    let mut found = NONE;
    for word in words {
        found = attribute_step(allowed, found, word)?;
    }
    Ok(found)
}
