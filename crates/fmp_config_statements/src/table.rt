//! The table of the statements. A statement is one line in each of `STATEMENT_NAMES`, `text`, `parts`, `allowed` and the ranges of its numbers.
ghost use Rattle.std.specs.Prelude.{◌≡◌, find};
ghost use Rattle.std.specs.Str.{bytes_eq};
ghost use Rattle.fmp_config_statements.specs.Table as spec;

use crate::attributes::Attribute;
use crate::parts::{Item, Part};
use fmp_codes::ObjectKind;

/// The statements.
#[derive(Clone, Copy)]
pub enum StatementName {
    Include,
    Processors,
    Timer,
    Limits,
    DefClass,
    Class,
    /// One that creates an object.
    Create(ObjectKind),
}

/// All of them.
pub const STATEMENT_NAMES: [StatementName; 14] = [
    StatementName::Include,
    StatementName::Processors,
    StatementName::Timer,
    StatementName::Limits,
    StatementName::DefClass,
    StatementName::Class,
    StatementName::Create(ObjectKind::Task),
    StatementName::Create(ObjectKind::Semaphore),
    StatementName::Create(ObjectKind::Eventflag),
    StatementName::Create(ObjectKind::DataQueue),
    StatementName::Create(ObjectKind::Pool),
    StatementName::Create(ObjectKind::Cyclic),
    StatementName::Create(ObjectKind::Alarm),
    StatementName::Create(ObjectKind::SpinLock),
];

/// The numbers from a least to a greatest.
#[derive(Clone, Copy)]
pub struct Range {
    pub least: u64,
    pub most: u64,
}

const OPEN: Part = Part::Mark(b'(');

const CLOSE: Part = Part::Mark(b')');

const BEGIN: Part = Part::Mark(b'{');

const FINISH: Part = Part::Mark(b'}');

const COMMA: Part = Part::Mark(b',');

const STOP: Part = Part::Mark(b';');

const NAME: Part = Part::One(Item::Name);

const FUNCTION: Part = Part::One(Item::Function);

const FIRST: Part = Part::One(Item::First);

const SECOND: Part = Part::One(Item::Second);

const TEXT: Part = Part::One(Item::Text);

const MEMBERS: Part = Part::Series(b',', Item::Member);

const ATTRIBUTES: Part = Part::Series(b'|', Item::Attribute);

const FREE: Part = Part::Free;

pub const INCLUDE: [Part; 4] = [OPEN, TEXT, CLOSE, STOP];

pub const PROCESSORS: [Part; 4] = [OPEN, FIRST, CLOSE, STOP];

pub const TIMER: [Part; 4] = [OPEN, Part::Method, CLOSE, STOP];

pub const LIMITS: [Part; 6] = [OPEN, FIRST, COMMA, SECOND, CLOSE, STOP];

pub const DEF_CLASS: [Part; 10] = [
    OPEN, NAME, COMMA, FIRST, COMMA, BEGIN, MEMBERS, FINISH, CLOSE, STOP,
];

pub const CLASS: [Part; 4] = [OPEN, NAME, CLOSE, BEGIN];

pub const TASK: [Part; 18] = [
    OPEN, NAME, COMMA, BEGIN, ATTRIBUTES, COMMA, FREE, COMMA, FUNCTION, COMMA, FIRST, COMMA, FREE,
    COMMA, FREE, FINISH, CLOSE, STOP,
];

pub const SEMAPHORE: [Part; 12] = [
    OPEN, NAME, COMMA, BEGIN, ATTRIBUTES, COMMA, FIRST, COMMA, SECOND, FINISH, CLOSE, STOP,
];

pub const EVENTFLAG: [Part; 10] = [
    OPEN, NAME, COMMA, BEGIN, ATTRIBUTES, COMMA, FIRST, FINISH, CLOSE, STOP,
];

pub const DATA_QUEUE: [Part; 12] = [
    OPEN, NAME, COMMA, BEGIN, ATTRIBUTES, COMMA, FIRST, COMMA, FREE, FINISH, CLOSE, STOP,
];

pub const POOL: [Part; 16] = [
    OPEN, NAME, COMMA, BEGIN, ATTRIBUTES, COMMA, FIRST, COMMA, FREE, COMMA, FREE, COMMA, FREE,
    FINISH, CLOSE, STOP,
];

pub const CYCLIC: [Part; 16] = [
    OPEN, NAME, COMMA, BEGIN, ATTRIBUTES, COMMA, FREE, COMMA, FUNCTION, COMMA, FIRST, COMMA,
    SECOND, FINISH, CLOSE, STOP,
];

pub const ALARM: [Part; 12] = [
    OPEN, NAME, COMMA, BEGIN, ATTRIBUTES, COMMA, FREE, COMMA, FUNCTION, FINISH, CLOSE, STOP,
];

pub const SPIN_LOCK: [Part; 8] = [OPEN, NAME, COMMA, BEGIN, ATTRIBUTES, FINISH, CLOSE, STOP];

pub const STARTED_TASK: [Attribute; 2] = [Attribute::Null, Attribute::Activate];

pub const ORDERED: [Attribute; 3] = [Attribute::Null, Attribute::InOrder, Attribute::ByPriority];

pub const FLAGGED: [Attribute; 6] = [
    Attribute::Null,
    Attribute::InOrder,
    Attribute::ByPriority,
    Attribute::Single,
    Attribute::Many,
    Attribute::Clear,
];

pub const STARTED_CYCLIC: [Attribute; 2] = [Attribute::Null, Attribute::Start];

pub const PLAIN: [Attribute; 1] = [Attribute::Null];

impl StatementName {
    ghost use Rattle.std.specs.Prelude.{◌≡◌};
    ghost use Rattle.fmp_config_statements.specs.Table as spec;

    /// The statement's word.
    pub fn text(self) -> &'static [u8]
        ensures { result.now ≡ spec.text_of self }
    {
        match self {
            StatementName::Include => b"INCLUDE",
            StatementName::Processors => b"PROCESSORS",
            StatementName::Timer => b"TIMER",
            StatementName::Limits => b"LIMITS",
            StatementName::DefClass => b"DEF_CLASS",
            StatementName::Class => b"CLASS",
            StatementName::Create(ObjectKind::Task) => b"CRE_TSK",
            StatementName::Create(ObjectKind::Semaphore) => b"CRE_SEM",
            StatementName::Create(ObjectKind::Eventflag) => b"CRE_FLG",
            StatementName::Create(ObjectKind::DataQueue) => b"CRE_DTQ",
            StatementName::Create(ObjectKind::Pool) => b"CRE_MPF",
            StatementName::Create(ObjectKind::Cyclic) => b"CRE_CYC",
            StatementName::Create(ObjectKind::Alarm) => b"CRE_ALM",
            StatementName::Create(ObjectKind::SpinLock) => b"CRE_SPN",
        }
    }

    /// The parts that follow the word.
    pub fn parts(self) -> &'static [Part]
        ensures { result.now ≡ spec.parts_of self }
    {
        match self {
            StatementName::Include => &INCLUDE,
            StatementName::Processors => &PROCESSORS,
            StatementName::Timer => &TIMER,
            StatementName::Limits => &LIMITS,
            StatementName::DefClass => &DEF_CLASS,
            StatementName::Class => &CLASS,
            StatementName::Create(ObjectKind::Task) => &TASK,
            StatementName::Create(ObjectKind::Semaphore) => &SEMAPHORE,
            StatementName::Create(ObjectKind::Eventflag) => &EVENTFLAG,
            StatementName::Create(ObjectKind::DataQueue) => &DATA_QUEUE,
            StatementName::Create(ObjectKind::Pool) => &POOL,
            StatementName::Create(ObjectKind::Cyclic) => &CYCLIC,
            StatementName::Create(ObjectKind::Alarm) => &ALARM,
            StatementName::Create(ObjectKind::SpinLock) => &SPIN_LOCK,
        }
    }

    /// The range of the first number, where the statement has one, on so many processors and with so many priorities.
    pub fn first_range(self, processors: u8, priorities: u8) -> Option<Range>
        ensures { result ≡ spec.first_range self processors priorities }
    {
        match self {
            StatementName::Include | StatementName::Class => None,
            StatementName::Processors => from_to(1, 8),
            StatementName::Timer => from_to(1, u64::from(processors)),
            StatementName::Limits => from_to(1, 255),
            StatementName::DefClass => from_to(0, u64::MAX),
            StatementName::Create(ObjectKind::Task) => from_to(1, u64::from(priorities)),
            StatementName::Create(ObjectKind::Semaphore) => from_to(0, u64::MAX),
            StatementName::Create(ObjectKind::Eventflag) => from_to(0, 4_294_967_295),
            StatementName::Create(ObjectKind::DataQueue) => from_to(0, 1024),
            StatementName::Create(ObjectKind::Pool) => from_to(1, 64),
            StatementName::Create(ObjectKind::Cyclic) => from_to(1, 2_147_483_647),
            StatementName::Create(ObjectKind::Alarm | ObjectKind::SpinLock) => None,
        }
    }

    /// The range of the second number, where the statement has one.
    pub fn second_range(self) -> Option<Range>
        ensures { result ≡ spec.second_range self }
    {
        match self {
            StatementName::Limits => from_to(16, 32),
            StatementName::Create(ObjectKind::Semaphore) => from_to(1, 65_535),
            StatementName::Create(ObjectKind::Cyclic) => from_to(0, 2_147_483_647),
            _ => None,
        }
    }
}

/// The range with these two bounds, which belong to it. It is never `None`, as the answer of a statement that has the number.
fn from_to(least: u64, most: u64) -> Option<Range>
    ensures { result ≡ spec.from_to least most }
{
    Some(Range { least, most })
}

/// The attributes that a statement allows which creates such an object.
pub fn allowed(kind: ObjectKind) -> &'static [Attribute]
    ensures { result.now ≡ spec.allowed_of kind }
{
    match kind {
        ObjectKind::Task => &STARTED_TASK,
        ObjectKind::Semaphore | ObjectKind::DataQueue | ObjectKind::Pool => &ORDERED,
        ObjectKind::Eventflag => &FLAGGED,
        ObjectKind::Cyclic => &STARTED_CYCLIC,
        ObjectKind::Alarm | ObjectKind::SpinLock => &PLAIN,
    }
}

/// The statement of this word.
#[tactic(auto, unfolding(crate::specs::Table::statement_of))]
pub fn find_statement(word: &[u8]) -> Option<StatementName>
    ensures { result ≡ spec.statement_of word.now }
{
    STATEMENT_NAMES
        .iter()
        .copied()
        .find(|name| name.text() == word)
}
