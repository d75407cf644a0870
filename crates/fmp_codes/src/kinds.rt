//! The kinds of names, of arguments and of their values.
use crate::calls::Mode;

/// The kinds of objects.
#[derive(Clone, Copy)]
pub enum ObjectKind {
    Task,
    Semaphore,
    Eventflag,
    DataQueue,
    /// A fixed-sized memory pool.
    Pool,
    Cyclic,
    Alarm,
    SpinLock,
}

impl ObjectKind {
    ghost use Rattle.std.specs.Prelude.{◌≡◌, ◌<◌, ◌≤◌};
    ghost use Rattle.fmp_codes.specs.Kinds.{place_of, most_of};

    /// Its place among the kinds, from 0.
    pub const fn place(self) -> usize
        ensures value { result ≡ place_of self }
        ensures within { result < 8 }
    {
        match self {
            ObjectKind::Task => 0,
            ObjectKind::Semaphore => 1,
            ObjectKind::Eventflag => 2,
            ObjectKind::DataQueue => 3,
            ObjectKind::Pool => 4,
            ObjectKind::Cyclic => 5,
            ObjectKind::Alarm => 6,
            ObjectKind::SpinLock => 7,
        }
    }

    /// How many objects of this kind there may be.
    pub const fn limit(self) -> usize
        ensures value { result ≡ most_of self }
        ensures few { result ≤ 64 }
    {
        match self {
            ObjectKind::Task => 64,
            _ => 32,
        }
    }
}

/// What a name is a name of. Functions have a name space of their own.
#[derive(Clone, Copy)]
pub enum NameKind {
    Object(ObjectKind),
    Function,
}

/// What an argument of a call stands for.
#[derive(Clone, Copy)]
pub enum ArgumentKind {
    /// The number of an object.
    Object(ObjectKind),
    Priority,
    Processor,
    /// A number of ticks.
    Time,
    /// A number of ticks to wait at most.
    Timeout,
    /// The bits of an eventflag.
    Pattern,
    /// What is sent to a data queue.
    Data,
    /// How the bits of a pattern are waited for.
    Mode,
    /// A block of a pool.
    Block,
}

/// An argument's value.
#[derive(Clone, Copy, PartialEq, Eq)]
pub enum Value {
    Number(i32),
    Pattern(u32),
    Data(i64),
    Mode(Mode),
}

impl Default for Value {
    ghost use Rattle.std.specs.Prelude.{◌≡◌, pos};
    ghost use Rattle.fmp_codes.specs.declared.kinds.Value.TheVariants.{Number};

    /// What stands where there is no argument.
    fn default() -> Self
        ensures { result ≡ Number (pos 0) }
    {
        Value::Number(0)
    }
}

impl Value {
    ghost use Rattle.std.specs.Prelude.{◌≡◌};
    ghost use Rattle.fmp_codes.specs.Kinds.{number_in, pattern_in, data_in, mode_in};

    /// The number, or 0 where it is none.
    pub fn number(self) -> i32
        ensures { result ≡ number_in self }
    {
        match self {
            Value::Number(number) => number,
            _ => 0,
        }
    }

    /// The pattern, or 0 where it is none.
    pub fn pattern(self) -> u32
        ensures { result ≡ pattern_in self }
    {
        match self {
            Value::Pattern(bits) => bits,
            _ => 0,
        }
    }

    /// The data, or 0 where it is none.
    pub fn data(self) -> i64
        ensures { result ≡ data_in self }
    {
        match self {
            Value::Data(data) => data,
            _ => 0,
        }
    }

    /// The mode, or that of all bits where it is none.
    pub fn mode(self) -> Mode
        ensures { result ≡ mode_in self }
    {
        match self {
            Value::Mode(mode) => mode,
            _ => Mode::Andw,
        }
    }
}
