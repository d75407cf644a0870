//! Where a line of a script text stops to fit, and what is wanted there.
ghost use Rattle.std.specs.Prelude.{◌≡◌};
ghost use Rattle.fmp_text_scripts.specs.Places as spec;
ghost use Rattle.fmp_text_scripts.specs.Places.{place_of};

use fmp_text::{TextKind, Wanted as CallWanted};

/// What is wanted at a place of a line.
#[derive(Clone, Copy)]
pub enum Wanted {
    /// A byte that may stand there.
    LineByte,
    /// What may stand in a line of a script text.
    Step,
    /// The end of the script before a line that begins another one.
    ScriptEnd,
    /// A call before a jump.
    JumpPlace,
    /// A function that has no script.
    Function,
    /// Nothing more in the line.
    LineEnd,
    /// The answers of an `on`.
    Answered,
    /// The value of such an answer.
    AnsweredValue,
    /// `goto` and a label.
    Goal,
    /// The name of a label.
    LabelName,
    /// A label that the script does not have.
    NewLabel,
    /// A label for each jump of a script.
    Labels,
    /// What is wanted in a call.
    Call(CallWanted),
}

/// Why a line is refused: the fault, the line from the first byte at fault on, and what is wanted there.
#[derive(Clone, Copy)]
pub struct Misfit<'t> {
    pub kind: TextKind,
    pub rest: &'t [u8],
    pub wanted: Wanted,
}

/// A fault of what begins this text, in place of which this is wanted.
pub fn fault_at<'t>(kind: TextKind, rest: &'t [u8], wanted: Wanted) -> Misfit<'t>
    ensures { place_of result ≡ spec.fault_at kind rest.now wanted }
{
    Misfit { kind, rest, wanted }
}
