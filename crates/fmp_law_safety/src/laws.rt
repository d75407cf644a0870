//! Laws of the machine: what comes first, that every run stays safe, and what interrupts do.
ghost use Rattle.std.specs.Prelude.{ℕ, ◌≤◌, Bool, List, length};
ghost use Rattle.fmp_codes.specs.declared.numbers.Proc.{Proc};
ghost use Rattle.fmp_codes.specs.declared.numbers.Task.{Task};
ghost use Rattle.fmp_codes.specs.declared.numbers.Object.{Object};
ghost use Rattle.fmp_codes.specs.declared.records.Event.{Event};
ghost use Rattle.fmp_setup.specs.Setup.{Setup};
ghost use Rattle.fmp_setup.specs.Valid.{IsValid};
ghost use Rattle.fmp_rules.specs.World as world;
ghost use Rattle.fmp_rules.specs.Ordering as ordering;
ghost use Rattle.fmp_rules.specs.Arrivals.{State, numbered, in_order, comes_before, priority_in, is_ready_on, rank_in};
ghost use Rattle.fmp_rules.specs.declared.machine.QueueKind.{QueueKind};
ghost use Rattle.fmp_rules.specs.Step as machine;
ghost use Rattle.fmp_rules.specs.Boot.{booted};
ghost use Rattle.fmp_law_safety.specs.First.{IsStrict, IsFirst, waits_at};
ghost use Rattle.fmp_law_safety.specs.Safe.{Safe};
ghost use Rattle.fmp_law_safety.specs.Runs.{processor_of, AreOn, IsSafeThroughout};
ghost use Rattle.fmp_law_safety.specs.Laws.{FindsNothing, TakesRequest, RunsTop, ServesItsOwn, OnlyDispatches};

/// The first of some tasks is one of them that none of them comes before. So the top of a processor is a ready task there,
/// no ready task there has a lower priority number, or the same one and a lower number in `order.ready`, and there is no top
/// only where no task is ready. Likewise the first in the queue of an object waits there, and no task that does has a lower
/// priority number, where the queue is by priority, or else a lower number in `order.begun`. That these numbers put first who
/// was ready earlier and who waits longer is not said here: `ready_order_is_reported` and `served_in_order` say it of the records.
pub fn first_means_least()
    ensures first { (qualifies : Task → Bool) (before : Task → Task → Bool) (n : ℕ)
        → IsStrict before → IsFirst qualifies before n (world.first (in_order qualifies before n)) }
    ensures strict { (rank : Task → ℕ) (numbers : List ℕ) → IsStrict (comes_before rank numbers) }
    ensures top { (m : State) (p : Proc)
        → IsFirst (is_ready_on m.tasks p) (comes_before (priority_in m.tasks) m.order.ready) (length m.tasks) (ordering.top numbered m p) }
    ensures queue { (m : State) (kind : QueueKind) (o : Object)
        → IsFirst (waits_at m kind o) (comes_before (rank_in (ordering.order_in m kind o) m.tasks) m.order.begun) (length m.tasks)
        (world.first (ordering.queue numbered m kind o)) }
{}

/// The state at boot of a valid configuration is safe, each event on a processor of the machine leads from a safe state to
/// a safe one, and so every prefix of every list of events does.
pub fn runs_stay_safe()
    ensures boot { (c : Setup) → IsValid c → Safe numbered (booted c) }
    ensures step { (m : State) (event : Event)
        → Safe numbered m → (processor_of event).number ≤ length m.processors → Safe numbered (machine.step numbered m event).0 }
    ensures runs { (c : Setup) (events : List Event)
        → IsValid c → AreOn c.processors events → IsSafeThroughout (booted c) events }
{}

/// An interrupt that finds no request changes nothing, one that takes a request leaves none pending, and a processor that
/// is not held at the end of its event runs its top.
pub fn interrupts_dispatch()
    ensures nothing { (m : State) (event : Event) → FindsNothing numbered m event (machine.step numbered m event).1 (machine.step numbered m event).0 }
    ensures taken { (m : State) (event : Event) → TakesRequest m event (machine.step numbered m event).1 (machine.step numbered m event).0 }
    ensures top { (m : State) (event : Event) → RunsTop numbered m event (machine.step numbered m event).1 (machine.step numbered m event).0 }
{}

/// A call that is refused with a code, or that has to be made again for a spin lock, changes nothing but what the end of every
/// event does: its processor dispatches.
pub fn refusals_only_dispatch()
    ensures { (m : State) (event : Event) → OnlyDispatches numbered m event (machine.step numbered m event).1 (machine.step numbered m event).0 }
{}

/// What reaches 0 at a tick on a processor are waits for which its ticks count, and handlers that are assigned to it. So the
/// handlers that become due there are its own, also under a global timer.
pub fn ticks_serve_their_own()
    ensures { (m : State) (p : Proc) → Safe numbered m → ServesItsOwn m p }
{}
