//! Laws of what the machine answers, as texts.
ghost use Rattle.std.specs.Prelude.{◌≡◌, List, All};
ghost use Rattle.fmp_calls.specs.Arguments.{EventInBits};
ghost use Rattle.fmp_codes.specs.Records.{AreOn};
ghost use Rattle.fmp_codes.specs.declared.records.Event.{Event};
ghost use Rattle.fmp_codes.specs.declared.records.Record.{Record};
ghost use Rattle.fmp_rules.specs.Boot.{booted};
ghost use Rattle.fmp_rules.specs.Arrivals.{numbered};
ghost use Rattle.fmp_setup.specs.Setup.{Setup};
ghost use Rattle.fmp_rules.specs.Step as machine;
ghost use Rattle.fmp_setup.specs.Valid.{IsValid};
ghost use Rattle.fmp_trace_check.specs.Checking.{cores_from, own_lines};
ghost use Rattle.fmp_trace_check.specs.Differences.{differences, patched_from};
ghost use Rattle.fmp_trace.specs.Fits.{AllFit};

/// What the machine of a valid configuration answers fits its names.
pub fn answers_fit_the_names()
    ensures { (c : Setup) (events : List Event) → IsValid c → AreOn c.processors events → All EventInBits events
        → AllFit c.names (machine.answers numbered (booted c) events) }
{}

/// A text whose lines that differ are replaced by the machine's own has the machine's lines. A unified diff has these lines
/// with their numbers, so `patch` makes of a trace the one that the machine answers to its events.
pub fn differences_patch()
    ensures { (c : Setup) (records : List Record) → patched_from 1 (differences c records) (cores_from c.names 1 records) ≡ own_lines c records }
{}
