//! Why something was not done.
ghost use Rattle.std.specs.Prelude.{◌≡◌};
ghost use Rattle.fmp_session.specs.Refusals.{number_of};

/// Why something was not done. What was asked then changed nothing, except where a function says so.
#[derive(Clone, Copy, Debug, PartialEq, Eq)]
pub enum Refused {
    /// Memory ran out.
    Memory,
    /// There is no configuration: the text has a fault.
    Text,
    /// There is no machine.
    NoMachine,
    /// The processor is none of the machine.
    Processor,
    /// The number is that of no call.
    Call,
    /// An argument is outside the bits of its kind.
    Argument,
    /// The line is no event.
    Line,
    /// The machine has answered as many events as it counts.
    Full,
    /// There is too little room.
    Room,
    /// There is none of the kind.
    Nothing,
    /// The other machine is that of another configuration.
    Different,
}

impl Refused {
    /// Its number, from 1.
    pub const fn number(self) -> i32
        ensures { result ≡ number_of self }
    {
        match self {
            Refused::Memory => 1,
            Refused::Text => 2,
            Refused::NoMachine => 3,
            Refused::Processor => 4,
            Refused::Call => 5,
            Refused::Argument => 6,
            Refused::Line => 7,
            Refused::Full => 8,
            Refused::Room => 9,
            Refused::Nothing => 10,
            Refused::Different => 11,
        }
    }
}
