//! What tasks want of an eventflag.
ghost use Rattle.std.specs.Prelude.{◌≡◌};
ghost use Rattle.fmp_rules.specs.Objects.{holds};
ghost use Rattle.fmp_flag.specs.Eventflags.{wanted_by, is_met, no_bits};

use fmp_codes::{Mode, Task};

/// The bits that a task waits for, and whether it waits for all of them or for one.
#[derive(Clone, Copy)]
pub struct Wanted {
    pub pattern: u32,
    pub mode: Mode,
}

impl Default for Wanted {
    /// No bit, so that nothing meets it.
    fn default() -> Self
        ensures { result ≡ no_bits }
    {
        Wanted {
            pattern: 0,
            mode: Mode::Orw,
        }
    }
}

/// Whether the bits of a pattern are set: all of them, or one.
pub(crate) fn holds(bits: u32, pattern: u32, mode: Mode) -> bool
    ensures { result ≡ holds bits pattern mode }
{
    match mode {
        Mode::Andw => bits & pattern == pattern,
        Mode::Orw => bits & pattern != 0,
    }
}

/// What a task wants, by a list in the order of the numbers of the tasks. A task past its end wants no bit.
fn wanted_by(wanted: &[Wanted], task: Task) -> Wanted
    ensures { result ≡ wanted_by wanted.now task }
{
    let wanted = wanted.get(task.index()).copied();
    wanted.unwrap_or(Wanted::default())
}

/// Whether these bits have what a task wants.
pub(crate) fn is_met(bits: u32, wanted: &[Wanted], task: Task) -> bool
    ensures { result ≡ is_met bits wanted.now task }
{
    let wanted = wanted_by(wanted, task);
    holds(bits, wanted.pattern, wanted.mode)
}
