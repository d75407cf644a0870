//! The laws of what is queued for a task, and of the time of waits and alarms.
ghost use Rattle.std.specs.Prelude.{ℕ, ◌≤◌, List, ◌∷◌, ◌++◌, length, take};
ghost use Rattle.fmp_codes.specs.declared.numbers.Proc.{Proc};
ghost use Rattle.fmp_codes.specs.declared.numbers.Task.{Task};
ghost use Rattle.fmp_codes.specs.declared.numbers.Object.{Object};
ghost use Rattle.fmp_codes.specs.declared.records.Event.{Event};
ghost use Rattle.fmp_setup.specs.Setup.{Setup};
ghost use Rattle.fmp_setup.specs.Valid.{IsValid};
ghost use Rattle.fmp_rules.specs.Arrivals.{numbered};
ghost use Rattle.fmp_rules.specs.Step.{step, replay, answers};
ghost use Rattle.fmp_rules.specs.Boot.{booted};
ghost use Rattle.fmp_law_safety.specs.Runs.{AreOn};
ghost use Rattle.fmp_law_records.specs.Counts.Lives.{ActivationBalance};
ghost use Rattle.fmp_law_records.specs.Counts.Wakeups.{queued_by, WakeupBalance, TakesWhatIsQueued};
ghost use Rattle.fmp_law_records.specs.Counts.Waits.{EndsInTime, EndsAtLastTick};
ghost use Rattle.fmp_law_records.specs.Counts.Alarms.{IsAlarmTimed, RingsAtLastTick};
ghost use Rattle.fmp_law_records.specs.Counts.Cyclics.{IsCyclicTimed};
ghost use Rattle.fmp_law_records.specs.Counts.Due.{FallDue};

/// At every prefix of every list of events on the processors of a valid configuration, the activations of each task, its start
/// at boot among them, are its lives that go on or ended, those that are queued, and those that were taken back.
pub fn activations_are_counted()
    ensures { (c : Setup) (events : List Event) → IsValid c → AreOn c.processors events → (n : ℕ) (t : Task) → t.number ≤ length c.tasks
        → ActivationBalance c (take n (answers numbered (booted c) events)) (replay numbered (booted c) (take n events)) t }
{}

/// After every list of events on the processors of a valid configuration, a tick that is taken releases just those tasks of
/// whose wait the records leave one tick, as `waits_are_reported` says, and for which it counts. So a wait of n ticks ends by time at
/// the tick number n + 1 that counts for the task, neither before nor after.
pub fn timed_waits_end_in_time()
    ensures released { (c : Setup) (events : List Event) → IsValid c → AreOn c.processors events → (p : Proc) (t : Task)
        → t.number ≤ length c.tasks → EndsInTime c events p t }
    ensures last { (c : Setup) (earlier : List Event) (event : Event) (later : List Event) → IsValid c → AreOn c.processors (earlier ++ event ∷ later)
        → (p : Proc) (t : Task) (n : ℕ) → t.number ≤ length c.tasks → EndsAtLastTick c earlier event later p t n }
{}

/// At every prefix of every list of events on the processors of a valid configuration, the wakeups that are queued for each
/// active task are those that the records say: one more by each accepted wakeup that released nobody, one less by each that the
/// task took, none after its end or after they were taken back. A task takes a wakeup only where the records before say that one
/// is queued, and who takes them back is told how many there were.
pub fn wakeups_are_counted()
    ensures counted { (c : Setup) (events : List Event) → IsValid c → AreOn c.processors events → (n : ℕ) (t : Task) → t.number ≤ length c.tasks
        → WakeupBalance (take n (answers numbered (booted c) events)) (replay numbered (booted c) (take n events)) t }
    ensures taken { (c : Setup) (events : List Event) → IsValid c → AreOn c.processors events → (event : Event) (t : Task) → t.number ≤ length c.tasks
        → TakesWhatIsQueued t (queued_by t (answers numbered (booted c) events) 0) (step numbered (replay numbered (booted c) events) event).1 }
{}

/// After every list of events on the processors of a valid configuration, the ticks left of each alarm and of each cyclic handler
/// are what the records say: where it was started last one tick and the time of the alarm, or the phase of the cyclic handler,
/// one less by each tick that counted for it since, none where it was stopped or the alarm became due, and a period where the
/// cyclic handler did. A tick that is taken makes due just those of which one tick is left and for which it counts, after those
/// that are due already, first the alarms and then the cyclic handlers, each by number. So an alarm that is started with a time of
/// n ticks becomes due at the tick number n + 1 that counts for it, unless it is started again or stopped before.
pub fn handlers_become_due_in_time()
    ensures alarms { (c : Setup) (events : List Event) → IsValid c → AreOn c.processors events → (a : Object) → a.number ≤ length c.alarms → IsAlarmTimed c events a }
    ensures cyclics { (c : Setup) (events : List Event) → IsValid c → AreOn c.processors events → (o : Object) → o.number ≤ length c.cyclics → IsCyclicTimed c events o }
    ensures due { (c : Setup) (events : List Event) → IsValid c → AreOn c.processors events → (p : Proc) → p.number ≤ c.processors → FallDue c events p }
    ensures last { (c : Setup) (earlier : List Event) (event : Event) (later : List Event) (a : Object) (n : ℕ) → RingsAtLastTick c earlier event later a n }
{}
