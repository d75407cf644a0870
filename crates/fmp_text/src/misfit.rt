//! Where a line stops to fit, and what is wanted there.

use crate::fault::TextKind;
use fmp_codes::{ArgumentKind, Call};

/// What is wanted at a place of a line.
#[derive(Clone, Copy)]
pub enum Wanted {
    /// A byte that may stand in a line.
    LineByte,
    /// A processor of the machine.
    Processor,
    /// What happens on a processor.
    Happening,
    /// Nothing more in the line.
    LineEnd,
    /// This byte of a call.
    Mark(Call, u8),
    /// An argument of a call.
    Argument(Call, ArgumentKind),
    /// Nothing more in the line of a call.
    CallEnd(Call),
}

/// Why a line is refused: the fault, the line from the first byte at fault on, and what is wanted there.
#[derive(Clone, Copy)]
pub struct Misfit<'a> {
    pub kind: TextKind,
    pub rest: &'a [u8],
    pub wanted: Wanted,
}
