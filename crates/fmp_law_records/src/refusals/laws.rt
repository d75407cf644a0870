//! The laws of what is refused.
ghost use Rattle.std.specs.Prelude.{◌≤◌, List};
ghost use Rattle.fmp_codes.specs.declared.records.Event.{Event};
ghost use Rattle.fmp_setup.specs.Setup.{Setup};
ghost use Rattle.fmp_setup.specs.Valid.{IsValid};
ghost use Rattle.fmp_rules.specs.Arrivals.{numbered};
ghost use Rattle.fmp_rules.specs.Step.{step, replay, answers};
ghost use Rattle.fmp_rules.specs.Boot.{booted};
ghost use Rattle.fmp_law_safety.specs.Runs.{processor_of, AreOn};
ghost use Rattle.fmp_law_records.specs.Requests.{report_processor};
ghost use Rattle.fmp_law_records.specs.Refusals.Callers.{IsCallerReported};
ghost use Rattle.fmp_law_records.specs.Refusals.Misplaced.{CallIsPlaced};
ghost use Rattle.fmp_law_records.specs.Refusals.Arguments.{ArgumentsAreJudged};
ghost use Rattle.fmp_law_records.specs.Refusals.Refusals.{IsRefusalReported};
ghost use Rattle.fmp_law_records.specs.Refusals.Outcomes.{IsAnswerReported};

/// After every list of events on the processors of a valid configuration, whoever can make calls from the processor of an event, as its
/// record has it, is told by the records before: the first handler that is due there, or else the task that the last of them on this
/// processor that tells of a change says, or the top at boot if none does.
pub fn callers_are_reported()
    ensures { (c : Setup) (events : List Event) → IsValid c → AreOn c.processors events → (event : Event) → (processor_of event).number ≤ c.processors
        → IsCallerReported c (answers numbered (booted c) events) (step numbered (replay numbered (booted c) events) event).1 }
{}

/// After every list of events on the processors of a valid configuration, a call answers `idle` just where nobody makes it, and
/// E_CTX just where it is misplaced: a handler makes it that only a task may make, or a task one that only a handler may; its
/// processor is CPU-locked, by the records before it, and it is not one for that state; or its processor is held, by these
/// records, and it can make its caller wait, or suspends it or takes it elsewhere.
pub fn calls_are_made_in_place()
    ensures { (c : Setup) (events : List Event) → IsValid c → AreOn c.processors events → (event : Event) → (processor_of event).number ≤ c.processors
        → CallIsPlaced (report_processor c (processor_of event) (answers numbered (booted c) events)) (step numbered (replay numbered (booted c) events) event).1 }
{}

/// So it is of the arguments of a call that is in place: it answers E_ID just where an ID is that of no object of the configuration,
/// and E_PAR just where all its IDs are those of objects, and another argument is out of its range: a processor that is none of the
/// class of its task or handler, a priority, a time or a timeout past its limits, a pattern without a bit, or a block that is none of
/// the pool or, by the records before the call, was not handed out since it was given back last.
pub fn arguments_are_judged()
    ensures { (c : Setup) (events : List Event) → IsValid c → AreOn c.processors events → (event : Event) → (processor_of event).number ≤ c.processors
        → ArgumentsAreJudged c (answers numbered (booted c) events) (step numbered (replay numbered (booted c) events) event).1 }
{}

/// After every list of events on the processors of a valid configuration, each call that somebody makes is refused with the code of
/// the first error of its row that the records before it tell, and is not refused if they tell none: it is misplaced, an ID is
/// unknown, another argument is out of its range, and then the errors on the state in the order of the row. No tick and no interrupt
/// answers a code.
pub fn refusals_are_reported()
    ensures { (c : Setup) (events : List Event) → IsValid c → AreOn c.processors events → (event : Event) → (processor_of event).number ≤ c.processors
        → IsRefusalReported c (answers numbered (booted c) events) (step numbered (replay numbered (booted c) events) event).1 }
{}

/// So is every answer, whole: with which code a call is refused, whether it is done at once, waits, finds its spin lock taken or ends its
/// caller, and with which value it is done; and whether a tick or an interrupt is taken, held back or finds nothing. The only thing
/// that this law does not tell is the value that a call receives from a data queue, which `nothing_is_lost_or_doubled` tells.
pub fn answers_are_reported()
    ensures { (c : Setup) (events : List Event) → IsValid c → AreOn c.processors events → (event : Event) → (processor_of event).number ≤ c.processors
        → IsAnswerReported c (answers numbered (booted c) events) (step numbered (replay numbered (booted c) events) event).1 }
{}
