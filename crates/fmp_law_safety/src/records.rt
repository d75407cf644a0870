//! Laws of what the machine tells of its steps.
ghost use Rattle.std.specs.Prelude.{◌≤◌, List, All};
ghost use Rattle.fmp_codes.specs.Records.{processor_of, AreOn};
ghost use Rattle.fmp_codes.specs.declared.records.Event.{Event};
ghost use Rattle.fmp_calls.specs.Arguments.{EventInBits};
ghost use Rattle.fmp_setup.specs.Setup.{Setup};
ghost use Rattle.fmp_setup.specs.Valid.{IsValid};
ghost use Rattle.fmp_rules.specs.Arrivals.{State, numbered};
ghost use Rattle.fmp_rules.specs.Step as machine;
ghost use Rattle.fmp_rules.specs.Boot.{booted};
ghost use Rattle.fmp_law_safety.specs.Counts.{Counts, counts_of, HasCounts, NamesOnly};
ghost use Rattle.fmp_law_safety.specs.Safe.{Safe};

/// A step keeps how many there are of each, and its record names only those and tells values of 64 bits, where the arguments of
/// its event are within the bits of their kinds. So the records of every run name only what the configuration has.
pub fn records_name_what_there_is()
    ensures boot { (c : Setup) → IsValid c → HasCounts (counts_of c) (booted c) }
    ensures step { (n : Counts) (m : State) (event : Event)
        → Safe numbered m → HasCounts n m → (processor_of event).number ≤ n.processors → EventInBits event
        → HasCounts n (machine.step numbered m event).0 × NamesOnly n (machine.step numbered m event).1 }
    ensures runs { (c : Setup) (events : List Event)
        → IsValid c → AreOn c.processors events → All EventInBits events → All (NamesOnly (counts_of c)) (machine.answers numbered (booted c) events) }
{}
