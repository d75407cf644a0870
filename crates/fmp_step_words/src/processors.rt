//! Locks and flags of a processor.
ghost use Rattle.std.specs.Prelude.{◌≡◌};
ghost use Rattle.fmp_rules.specs.Processors.{opened, with_dispatching_disabled, with_lock};

use crate::words::Words;
use fmp_codes::Proc;
use fmp_rules::Processor;

/// Lets a processor enter the CPU-locked state, or leave it with any spin lock still held. In TOPPERS/FMP: t_lock_cpu, t_unlock_cpu.
pub fn set_locked<M: Words>(machine: &mut M, p: Proc, locked: bool)
    ensures state { M.world machine.new ≡ with_lock (M.world machine.old) p locked }
    ensures room { M.room machine.new ≡ M.room machine.old }
{
    let processor = machine.processor(p);
    machine.set_processor(
        p,
        Processor {
            locked,
            ..processor
        },
    );
}

/// Disables the dispatching of a processor, or enables it. In TOPPERS/FMP: disdsp, dspflg.
pub fn set_dispatching_disabled<M: Words>(machine: &mut M, p: Proc, disabled: bool)
    ensures state { M.world machine.new ≡ with_dispatching_disabled (M.world machine.old) p disabled }
    ensures room { M.room machine.new ≡ M.room machine.old }
{
    let processor = machine.processor(p);
    machine.set_processor(
        p,
        Processor {
            disabled,
            ..processor
        },
    );
}

/// Lets a processor leave the CPU-locked state, frees the spin lock that it holds, and enables its dispatching.
#[tactic(auto, unfolding(fmp_rules::specs::Processors::opened))]
pub fn open<M: Words>(machine: &mut M, p: Proc)
    ensures state { M.world machine.new ≡ opened (M.world machine.old) p }
    ensures room { M.room machine.new ≡ M.room machine.old }
{
    machine.unlock(p);
    set_dispatching_disabled(machine, p, false);
}
