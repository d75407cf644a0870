//! The answers of the kernel to a list of events.
ghost use Rattle.std.specs.Prelude.{◌≡◌, length, IfOk};
ghost use Rattle.fmp_codes.specs.Records.{AreOn};
ghost use Rattle.fmp_rules.specs.Boot.{booted};
ghost use Rattle.fmp_rules.specs.Arrivals.{numbered};
ghost use Rattle.fmp_rules.specs.Step.{answers};
ghost use Rattle.fmp_law_safety.specs.Runs.{IsSafeThroughout};
ghost use Rattle.fmp_law_balance.specs.Balance.{IsBalancedThroughout};

use crate::kernel::Kernel;
use fmp_codes::{Event, Record};
use fmp_rules::Config;
use std::alloc::{AllocError, Global};

/// The records of a list of events on processors of the machine, which are those of the model. Each prefix of the list leads to
/// a safe state, and the records of a prefix account for every unit of a semaphore, every block and every value. The room for
/// all records is asked for before the first event.
pub fn simulate(alloc: Global, config: &Config, events: &[Event]) -> Result<Vec<Record>, AllocError>
    requires { AreOn config.now.processors events.now }
    ensures answers { IfOk result (λ v. v.items ≡ answers numbered (booted config.now) events.now) }
    ensures safe { IfOk result (λ v. IsSafeThroughout (booted config.now) events.now) }
    ensures balanced { IfOk result (λ v. IsBalancedThroughout config.now events.now v.items) }
    ensures count { IfOk result (λ v. length v.items ≡ length events.now) }
{
    let mut records = Vec::with_capacity(alloc, events.len())?;
    let mut kernel = Kernel::boot(config)?;
    for event in events {
        records.push_reserved(kernel.step(*event));
    }
    Ok(records)
}
