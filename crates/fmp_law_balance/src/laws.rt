//! The law of what came in and went out.
ghost use Rattle.std.specs.Prelude.{List};
ghost use Rattle.fmp_codes.specs.declared.records.Event.{Event};
ghost use Rattle.fmp_setup.specs.Setup.{Setup};
ghost use Rattle.fmp_setup.specs.Valid.{IsValid};
ghost use Rattle.fmp_rules.specs.Arrivals.{numbered};
ghost use Rattle.fmp_rules.specs.Step.{answers};
ghost use Rattle.fmp_rules.specs.Boot.{booted};
ghost use Rattle.fmp_law_safety.specs.Runs.{AreOn};
ghost use Rattle.fmp_law_balance.specs.Balance.{IsBalancedThroughout};

/// At every prefix of every list of events on the processors of a valid configuration, what the records say came in and went
/// out agrees with what is there: the count of each semaphore, each block of each pool, and the values of each data queue in
/// their order.
pub fn nothing_is_lost_or_doubled()
    ensures { (c : Setup) (events : List Event) → IsValid c → AreOn c.processors events → IsBalancedThroughout c events (answers numbered (booted c) events) }
{}
