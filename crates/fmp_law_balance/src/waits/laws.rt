//! The laws of waits and releases.
ghost use Rattle.std.specs.Prelude.{◌≤◌, List, length};
ghost use Rattle.std.specs.List.{sum_by};
ghost use Rattle.fmp_codes.specs.declared.records.Event.{Event};
ghost use Rattle.fmp_setup.specs.Setup.{Setup};
ghost use Rattle.fmp_setup.specs.Valid.{IsValid};
ghost use Rattle.fmp_rules.specs.Arrivals.{numbered};
ghost use Rattle.fmp_rules.specs.Step.{answers};
ghost use Rattle.fmp_rules.specs.Boot.{booted};
ghost use Rattle.fmp_law_safety.specs.Runs.{AreOn};
ghost use Rattle.fmp_law_balance.specs.Waits.Waits.{nobody_waits};
ghost use Rattle.fmp_law_balance.specs.Waits.Releases.{EachReleaseFits};
ghost use Rattle.fmp_law_balance.specs.Waits.Laws.{AreWaitsReported};

/// At every prefix of every list of events on the processors of a valid configuration, a task waits exactly where the records
/// tell of a wait that it began and that was not ended since: for what its call asked, and with as many ticks left as its
/// timeout had, but for the ticks that were taken since and counted for it.
pub fn waits_are_reported()
    ensures { (c : Setup) (events : List Event) → IsValid c → AreOn c.processors events → AreWaitsReported c events (answers numbered (booted c) events) }
{}

/// Each release that the records of such a run tell of ends the wait that its task began last and that was not ended since, and
/// its event, its code and its value are such as may end that wait: what the task waited for was given, its wait was broken
/// off, or the last of its ticks was taken. No wait ends twice, none outlasts its timeout, and an accepted call that wakes a
/// task up or breaks off its wait releases it.
pub fn releases_end_waits()
    ensures { (c : Setup) (events : List Event) → IsValid c → AreOn c.processors events → EachReleaseFits c nobody_waits (answers numbered (booted c) events) }
{}

/// All releases that the records of such a run tell of are no more than its events: each ends a wait that an event of its own began.
pub fn releases_are_few()
    ensures { (c : Setup) (events : List Event) → IsValid c → AreOn c.processors events
        → sum_by (λ r. length r.releases) (answers numbered (booted c) events) ≤ length events }
{}
