//! What watches the machine while it plays the lines of a trace.
ghost use Rattle.std.specs.Prelude.{◌≡◌, ℕ, OnOk};
ghost use Rattle.fmp_codes.specs.declared.records.Record.{Record as AnyRecord};
ghost use Rattle.fmp_rules.specs.Arrivals.{State};
ghost use Rattle.fmp_names.specs.Names.{NameLists};

use fmp_codes::Record;
use fmp_plain_machine::PlainMachine;
use fmp_text::Names;
use std::alloc::AllocError;

/// What watches a machine that plays the lines of a trace.
pub trait Watcher {
    // What it is once it saw the nth event, of which this record tells, and which led to this state.
    ghost watched: { Self → NameLists → ℕ → AnyRecord → State → Self };

    /// Sees what event n did, after which the machine stands now.
    fn watch(
        &mut self,
        names: &Names,
        n: u32,
        report: &Record,
        machine: &PlainMachine,
    ) -> Result<(), AllocError>
        ensures { OnOk result (self.new ≡ watched self.old names.now n report.now machine.now) };
}

/// Sees nothing.
#[derive(Drop)]
pub(crate) struct Nobody {}

impl Watcher for Nobody {
    ghost watched = { λ s names n r w. s };

    fn watch(
        &mut self,
        _names: &Names,
        _n: u32,
        _report: &Record,
        _machine: &PlainMachine,
    ) -> Result<(), AllocError> {
        Ok(())
    }
}
