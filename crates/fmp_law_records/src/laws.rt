//! The laws of what records tell.
ghost use Rattle.std.specs.Prelude.{ℕ, ◌≤◌, false, None, List, length, take};
ghost use Rattle.fmp_codes.specs.declared.numbers.Proc.{Proc};
ghost use Rattle.fmp_codes.specs.declared.numbers.Task.{Task};
ghost use Rattle.fmp_codes.specs.declared.numbers.Object.{Object};
ghost use Rattle.fmp_codes.specs.declared.records.Event.{Event};
ghost use Rattle.fmp_setup.specs.Setup.{Setup};
ghost use Rattle.fmp_setup.specs.Valid.{IsValid};
ghost use Rattle.fmp_rules.specs.Arrivals.{numbered};
ghost use Rattle.fmp_rules.specs.Step.{step, replay, answers};
ghost use Rattle.fmp_rules.specs.Boot.{booted};
ghost use Rattle.fmp_law_safety.specs.Runs.{processor_of, AreOn};
ghost use Rattle.fmp_law_records.specs.Suspensions.{suspended_by, IsSuspensionReported, SuspensionFits};
ghost use Rattle.fmp_law_records.specs.Lives.{IsLifeReported};
ghost use Rattle.fmp_law_records.specs.Accepting.{report_task, TaskCallFits};
ghost use Rattle.fmp_law_records.specs.Priorities.{report_priority, IsPriorityReported, TellsPriority};
ghost use Rattle.fmp_law_records.specs.Flags.{locked_by, disabled_by, AreFlagsReported, TellsFlags};
ghost use Rattle.fmp_law_records.specs.Locks.{holder_by, IsHolderReported, LocksFit};
ghost use Rattle.fmp_law_records.specs.Patterns.{clears_of, report_pattern, IsPatternReported, PatternFits};
ghost use Rattle.fmp_law_records.specs.Handlers.{IsAlarmReported, IsCyclicReported};
ghost use Rattle.fmp_law_records.specs.Due.{handlers_by, handlers_at_boot, AreDueReported, RunsFirst};
ghost use Rattle.fmp_law_records.specs.Requests.{report_processor, IsRequestReported, SignalsFit};
ghost use Rattle.fmp_law_records.specs.Quiet.{ChangesNothing};
ghost use Rattle.fmp_law_records.specs.Standing.{report_standing, AreReadyReported};
ghost use Rattle.fmp_law_records.specs.Tops.{RequestsAreDue};
ghost use Rattle.fmp_law_records.specs.Served.{places_by, places_at_boot, ServesInOrder};

/// At every prefix of every list of events on the processors of a valid configuration, a task is suspended just where the records
/// say: since an accepted `sus_tsk` of it, until an accepted `rsm_tsk` or its end. So it is with each answer, and no task that the
/// records call suspended begins to run.
pub fn suspensions_are_reported()
    ensures report { (c : Setup) (events : List Event) → IsValid c → AreOn c.processors events → (n : ℕ) (t : Task) → t.number ≤ length c.tasks
        → IsSuspensionReported (take n (answers numbered (booted c) events)) (replay numbered (booted c) (take n events)) t }
    ensures fits { (c : Setup) (events : List Event) → IsValid c → AreOn c.processors events → (event : Event) (t : Task) → (processor_of event).number ≤ c.processors
        → t.number ≤ length c.tasks
        → SuspensionFits t (suspended_by t (answers numbered (booted c) events) false) (step numbered (replay numbered (booted c) events) event).1 }
{}

/// At every prefix of every list of events on the processors of a valid configuration, a task is active, an activation of it is
/// queued, and it is assigned to a processor, just as the records say. An accepted activation begins the life of a dormant task, on
/// the processor that the call names if it names one, and of an active task it is queued; an end begins the next life by the queued
/// activation, if there is one; and a migration takes the task to another processor.
pub fn lives_are_reported()
    ensures { (c : Setup) (events : List Event) → IsValid c → AreOn c.processors events → (n : ℕ) (t : Task) → t.number ≤ length c.tasks
        → IsLifeReported c (take n (answers numbered (booted c) events)) (replay numbered (booted c) (take n events)) t }
{}

/// After every list of events on the processors of a valid configuration, each call on a task is answered as the records before it say
/// of this task. It is accepted only of a task whose state suits it: an active one for `chg_pri`, `wup_tsk` and others, a waiting one
/// for `rel_wai`, a suspended one for `rsm_tsk`, one of the processor of the call for `mig_tsk` and `ter_tsk`; and only where no
/// activation is queued yet, or the task is not suspended yet. It answers E_OBJ only where the state does not suit it, and E_QOVR
/// only where it does and an activation is queued already or the task is suspended already, or for wakeups.
pub fn calls_on_tasks_were_due()
    ensures { (c : Setup) (events : List Event) → IsValid c → AreOn c.processors events → (event : Event) (t : Task) → t.number ≤ length c.tasks
        → TaskCallFits t (report_task c t (answers numbered (booted c) events)) (step numbered (replay numbered (booted c) events) event).1 }
{}

/// At every prefix of every list of events on the processors of a valid configuration, each active task has the priority that the
/// records say: that of the last accepted `chg_pri` of it since its last end, or else its initial one. `get_pri` answers it.
pub fn priorities_are_reported()
    ensures report { (c : Setup) (events : List Event) → IsValid c → AreOn c.processors events → (n : ℕ) (t : Task) → t.number ≤ length c.tasks
        → IsPriorityReported c (take n (answers numbered (booted c) events)) (replay numbered (booted c) (take n events)) t }
    ensures answered { (c : Setup) (events : List Event) → IsValid c → AreOn c.processors events → (event : Event) (t : Task) → t.number ≤ length c.tasks
        → TellsPriority t (report_priority c t (answers numbered (booted c) events)) (step numbered (replay numbered (booted c) events) event).1 }
{}

/// At every prefix of every list of events on the processors of a valid configuration, each processor is CPU-locked, and its
/// dispatching disabled, just where the records say: locked since a call that locks it or takes a spin lock there, until one that
/// unlocks it or gives a spin lock back, the return of a handler or the end of a task there. `sns_loc` and `sns_dsp` tell it.
pub fn flags_are_reported()
    ensures report { (c : Setup) (events : List Event) → IsValid c → AreOn c.processors events → (n : ℕ) (p : Proc)
        → AreFlagsReported (take n (answers numbered (booted c) events)) (replay numbered (booted c) (take n events)) p }
    ensures answered { (c : Setup) (events : List Event) → IsValid c → AreOn c.processors events → (event : Event) (p : Proc)
        → TellsFlags p (locked_by p (answers numbered (booted c) events) false) (disabled_by p (answers numbered (booted c) events) false)
        (step numbered (replay numbered (booted c) events) event).1 }
{}

/// At every prefix of every list of events on the processors of a valid configuration, each spin lock is held by the processor that
/// the records say: the one that took it, until it gives it back, or a task there ends or a handler returns. A lock is taken only
/// where nobody holds it, and given back only by the processor that does.
pub fn locks_are_reported()
    ensures report { (c : Setup) (events : List Event) → IsValid c → AreOn c.processors events → (n : ℕ) (l : Object)
        → IsHolderReported (take n (answers numbered (booted c) events)) (replay numbered (booted c) (take n events)) l }
    ensures fits { (c : Setup) (events : List Event) → IsValid c → AreOn c.processors events → (event : Event) (l : Object)
        → LocksFit l (holder_by l (answers numbered (booted c) events) None) (step numbered (replay numbered (booted c) events) event).1 }
{}

/// At every prefix of every list of events on the processors of a valid configuration, the pattern of each eventflag is what the
/// records say: the initial one, with the bits that were set and without those that were cleared, or none once it was handed to a
/// task and the flag clears it then. A call gets the pattern only where what it asks for is there, and each task that a call
/// releases is told the pattern that it left there for this task.
pub fn patterns_are_reported()
    ensures report { (c : Setup) (events : List Event) → IsValid c → AreOn c.processors events → (n : ℕ) (f : Object)
        → IsPatternReported c (take n (answers numbered (booted c) events)) (replay numbered (booted c) (take n events)) f }
    ensures fits { (c : Setup) (events : List Event) → IsValid c → AreOn c.processors events → (event : Event) (f : Object)
        → PatternFits (clears_of c f) f (report_pattern c f (answers numbered (booted c) events)) (step numbered (replay numbered (booted c) events) event).1 }
{}

/// At every prefix of every list of events on the processors of a valid configuration, each alarm is assigned to the processor that
/// the records say, the one to which a call took it last or else the initial one of its class, and so much of its time is left as
/// they say. `handlers_become_due_in_time` asks the machine where an alarm is assigned; this law does not.
pub fn alarms_are_reported()
    ensures { (c : Setup) (events : List Event) → IsValid c → AreOn c.processors events → (n : ℕ) (a : Object) → a.number ≤ length c.alarms
        → IsAlarmReported c (take n (answers numbered (booted c) events)) (replay numbered (booted c) (take n events)) a }
{}

/// So it is of each cyclic handler: where it is assigned, and how many ticks are left of its phase or its period.
pub fn cyclics_are_reported()
    ensures { (c : Setup) (events : List Event) → IsValid c → AreOn c.processors events → (n : ℕ) (o : Object) → o.number ≤ length c.cyclics
        → IsCyclicReported c (take n (answers numbered (booted c) events)) (replay numbered (booted c) (take n events)) o }
{}

/// At every prefix of every list of events on the processors of a valid configuration, the handlers that are due on each processor
/// are those that the records say, in their order: each tick that is taken there puts after them the alarms and then the cyclic
/// handlers that it takes the last tick from, each by number, and each return takes the first one away. The first of them runs on
/// its processor, and where none is due no handler does.
pub fn handlers_due_are_reported()
    ensures report { (c : Setup) (events : List Event) → IsValid c → AreOn c.processors events → (n : ℕ) (p : Proc) → p.number ≤ c.processors
        → AreDueReported c (take n (answers numbered (booted c) events)) (replay numbered (booted c) (take n events)) p }
    ensures runs { (c : Setup) (events : List Event) → IsValid c → AreOn c.processors events → (event : Event) → (processor_of event).number ≤ c.processors
        → RunsFirst (handlers_by c (processor_of event) (answers numbered (booted c) events) (handlers_at_boot c)).due
        (step numbered (replay numbered (booted c) events) event).1.runner }
{}

/// At every prefix of every list of events on the processors of a valid configuration, a request is pending on each processor just
/// where the records say: since a record that sends it there, until an event on that processor that comes to its end and leaves its
/// dispatching not held. An interrupt takes a request just where one is pending and dispatching is not held, and is held back just
/// where it is. A tick that counts is held back just where its processor is locked or a handler is due there, or else taken.
pub fn requests_are_reported()
    ensures report { (c : Setup) (events : List Event) → IsValid c → AreOn c.processors events → (n : ℕ) (p : Proc) → p.number ≤ c.processors
        → IsRequestReported c (take n (answers numbered (booted c) events)) (replay numbered (booted c) (take n events)) p }
    ensures fits { (c : Setup) (events : List Event) → IsValid c → AreOn c.processors events → (event : Event) (p : Proc) → p.number ≤ c.processors
        → SignalsFit c p (report_processor c p (answers numbered (booted c) events)) (step numbered (replay numbered (booted c) events) event).1 }
{}

/// At every prefix of every list of events on the processors of a valid configuration, the ready tasks of each processor and priority
/// stand in the order that the records tell, and the top of each processor is the first of the most urgent ones. A task is ready
/// that is active, waits for nothing and is not suspended. It stands after those of its priority since it was put last: it was
/// released, its life began or ended, it got a priority, went to another processor, was resumed, or was the first of a priority that
/// was rotated. At boot the tasks stand by number.
pub fn ready_order_is_reported()
    ensures { (c : Setup) (events : List Event) → IsValid c → AreOn c.processors events → (n : ℕ) (p : Proc)
        → AreReadyReported c (report_standing c (take n (answers numbered (booted c) events))) (replay numbered (booted c) (take n events)) p }
{}

/// After every list of events on the processors of a valid configuration, each event sends a request to just those processors, but its
/// own, whose top changes by what its record says. A task begins to run on the processor of the event, or nothing is to run there from
/// then on, only if that is what the records tell to be its top.
pub fn requests_are_due()
    ensures { (c : Setup) (events : List Event) → IsValid c → AreOn c.processors events → (event : Event) → (processor_of event).number ≤ c.processors
        → RequestsAreDue c (report_standing c (answers numbered (booted c) events)) (step numbered (replay numbered (booted c) events) event).1 }
{}

/// After every list of events on the processors of a valid configuration, each event serves the waiting tasks in the order that the
/// records tell. A task that a call gives something is the next in its queue: in a queue by priority the most urgent one, and among
/// equals, as in every other queue, the one whose wait began first. All that a call on an eventflag releases come in the order of
/// its queue, and those whose time is over in the order in which their waits began. A task that is given a priority while it waits
/// in a queue by priority begins its wait anew.
pub fn served_in_order()
    ensures { (c : Setup) (events : List Event) → IsValid c → AreOn c.processors events → (event : Event)
        → ServesInOrder c (places_by c (answers numbered (booted c) events) (places_at_boot c)) (step numbered (replay numbered (booted c) events) event).1 }
{}

/// After every list of events on the processors of a valid configuration, an event whose record says that nothing happened changes nothing: a call that
/// nobody is there to make answers `idle`, a tick or an interrupt is held back, a tick does not count, an interrupt finds no request.
pub fn quiet_events_change_nothing()
    ensures { (c : Setup) (events : List Event) → IsValid c → AreOn c.processors events → (event : Event) → (processor_of event).number ≤ c.processors
        → ChangesNothing (replay numbered (booted c) events) event (step numbered (replay numbered (booted c) events) event).1
        (step numbered (replay numbered (booted c) events) event).0 }
{}
