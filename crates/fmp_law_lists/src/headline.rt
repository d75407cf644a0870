//! The headline as a law.
ghost use Rattle.std.specs.Prelude.{List};
ghost use Rattle.fmp_codes.specs.declared.records.Event.{Event};
ghost use Rattle.fmp_setup.specs.Setup.{Setup};
ghost use Rattle.fmp_setup.specs.Valid.{IsValid};
ghost use Rattle.fmp_rules.specs.Arrivals.{numbered};
ghost use Rattle.fmp_rules.specs.Step.{answers};
ghost use Rattle.fmp_rules.specs.Boot.{booted};
ghost use Rattle.fmp_law_safety.specs.Runs.{AreOn};
ghost use Rattle.fmp_law_lists.specs.Headline.{HeadlineThroughout};

/// Over every valid configuration and every list of events on its processors, the headline holds after every prefix of the list.
pub fn the_headline_holds()
    ensures { (c : Setup) (events : List Event) → IsValid c → AreOn c.processors events → HeadlineThroughout c events (answers numbered (booted c) events) }
{}
