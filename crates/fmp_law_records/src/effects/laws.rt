//! The laws of what events do.
ghost use Rattle.std.specs.Prelude.{◌≡◌, ◌↔◌, ◌≤◌, List, []};
ghost use Rattle.fmp_codes.specs.declared.records.Event.{Event};
ghost use Rattle.fmp_codes.specs.declared.records.Record.{Record};
ghost use Rattle.fmp_setup.specs.Setup.{Setup};
ghost use Rattle.fmp_setup.specs.Valid.{IsValid};
ghost use Rattle.fmp_rules.specs.Arrivals.{numbered};
ghost use Rattle.fmp_rules.specs.Step.{step, replay, answers};
ghost use Rattle.fmp_rules.specs.Boot.{booted};
ghost use Rattle.fmp_law_safety.specs.Runs.{processor_of, AreOn};
ghost use Rattle.fmp_law_records.specs.Effects.RunChanges.{IsRunChangeReported};
ghost use Rattle.fmp_law_records.specs.Effects.Losses.{IsLossReported};
ghost use Rattle.fmp_law_records.specs.Effects.Releases.{AreReleasesReported};
ghost use Rattle.fmp_law_records.specs.Effects.Received.{IsReceivedReported};
ghost use Rattle.fmp_law_records.specs.Effects.Records.{IsReported, IsReportedRun};
ghost use Rattle.fmp_law_records.specs.Effects.Told.{record_told, run_told};

/// After every list of events on the processors of a valid configuration, the record of an event tells a change of the running task just
/// where the event comes to its end, its processor is not held after it, and its top then is another than the task that it ran, or none:
/// then it runs this top from then on. It tells requests to just those other processors whose top changes, in ascending order. Who
/// ran, what is held and who is a top is told by the records before it and by the event, its answer and its releases.
pub fn run_changes_are_reported()
    ensures { (c : Setup) (events : List Event) → IsValid c → AreOn c.processors events → (event : Event) → (processor_of event).number ≤ c.processors
        → IsRunChangeReported c (answers numbered (booted c) events) (step numbered (replay numbered (booted c) events) event).1 }
{}

/// After every list of events on the processors of a valid configuration, an event loses a value just where it is an accepted `fsnd_dtq` or
/// `ifsnd_dtq` of a data queue that takes no value then: nobody waits to receive from it, and each of its places has a value, by the
/// records before it. What it loses is the oldest of the values that these records put into the queue and did not take out.
pub fn losses_are_reported()
    ensures { (c : Setup) (events : List Event) → IsValid c → AreOn c.processors events → (event : Event) → (processor_of event).number ≤ c.processors
        → IsLossReported c (answers numbered (booted c) events) (step numbered (replay numbered (booted c) events) event).1 }
{}

/// After every list of events on the processors of a valid configuration, an event releases just those tasks that the records before it
/// tell, in this order, with these codes and values. An accepted call gives what it brings to the first in the queue for it: a unit,
/// a value, a place or a block. An accepted `set_flg` or `iset_flg` goes through the queue of its flag, and who waits for what is set
/// gets the pattern, which the flag may clear then. A wakeup releases the task that sleeps, `rel_wai` and `irel_wai` whoever waits, with
/// E_RLWAI. A tick releases those of whose wait it takes the last tick, in the order in which these waits began, with E_OK from a
/// delay and else with E_TMOUT. No other event releases a task.
pub fn releases_are_reported()
    ensures { (c : Setup) (events : List Event) → IsValid c → AreOn c.processors events → (event : Event) → (processor_of event).number ≤ c.processors
        → AreReleasesReported c (answers numbered (booted c) events) (step numbered (replay numbered (booted c) events) event).1 }
{}

/// After every list of events on the processors of a valid configuration, an `rcv_dtq`, `trcv_dtq` or `prcv_dtq` that is done at once with
/// E_OK answers the oldest of the values that the records before it put into the data queue and did not take out. Where there is
/// none, it answers the value that the first in the queue to send there waits to send, by these records.
pub fn received_values_are_reported()
    ensures { (c : Setup) (events : List Event) → IsValid c → AreOn c.processors events → (event : Event) → (processor_of event).number ≤ c.processors
        → IsReceivedReported c (answers numbered (booted c) events) (step numbered (replay numbered (booted c) events) event).1 }
{}

/// After every list of events on the processors of a valid configuration, the whole record of an event is what the records before it tell:
/// who could make a call, the answer with its value, the releases, the value that is lost, the change of the running task and the requests.
/// And they tell one record: two records of one event that are both as they tell are the same. So nothing of a record is left open: it is
/// as they tell just where it is the record that is made of what they tell.
pub fn records_are_reported()
    ensures report { (c : Setup) (events : List Event) → IsValid c → AreOn c.processors events → (event : Event) → (processor_of event).number ≤ c.processors
        → IsReported c (answers numbered (booted c) events) (step numbered (replay numbered (booted c) events) event).1 }
    ensures one { (c : Setup) (records : List Record) (r s : Record) → IsReported c records r → IsReported c records s → r.event ≡ s.event → r ≡ s }
    ensures made { (c : Setup) (records : List Record) (r : Record) → IsReported c records r ↔ (r ≡ record_told c records r.event) }
{}

/// Over every valid configuration and every list of events on its processors, the machine's records are the one list of records of these
/// events of which each is as the records before it tell. They are the list that is made so, record after record, by a function that
/// knows no machine. So who wants to believe an answer may read the machine, or what records tell: each describes every answer, and
/// they are the same. What is told of events is one list, of any configuration.
pub fn reported_runs_are_answers()
    ensures same { (c : Setup) (events : List Event) (records : List Record) → IsValid c → AreOn c.processors events
        → IsReportedRun c events records ↔ (records ≡ answers numbered (booted c) events) }
    ensures made { (c : Setup) (events : List Event) → IsValid c → AreOn c.processors events → run_told c [] events ≡ answers numbered (booted c) events }
    ensures one { (c : Setup) (events : List Event) (records others : List Record) → IsReportedRun c events records → IsReportedRun c events others → records ≡ others }
{}
