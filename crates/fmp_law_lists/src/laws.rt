//! Laws of the machine with lists.
ghost use Rattle.std.specs.Prelude.{◌≡◌, ◌≤◌, length};
ghost use Rattle.fmp_codes.specs.declared.records.Event.{Event};
ghost use Rattle.fmp_setup.specs.Setup.{Setup};
ghost use Rattle.fmp_setup.specs.Valid.{IsValid};
ghost use Rattle.fmp_rules.specs.World.{World};
ghost use Rattle.fmp_rules.specs.Arrivals.{State, numbered};
ghost use Rattle.fmp_rules.specs.Step as machine;
ghost use Rattle.fmp_rules.specs.Boot as boot;
ghost use Rattle.fmp_law_safety.specs.Safe.{Safe};
ghost use Rattle.fmp_law_safety.specs.Runs.{processor_of};
ghost use Rattle.fmp_kernel_order.specs.Queues.{Queues, listed, no_queues};
ghost use Rattle.fmp_law_lists.specs.Stands.{Stands, StepsMatch};
ghost use Rattle.fmp_law_lists.specs.Laws.{TellsAlike, ListsAreRight};

/// The lists at boot stand for the state at boot, and each event on a processor of the machine leads from lists that stand for
/// a safe state to lists that stand for the state after it, with the same record. Lists that stand for a state tell what its
/// numbers tell, each task stands in exactly the lists that its fields name, and the one state is safe where the other is.
pub fn lists_refine_numbers()
    ensures boot { (c : Setup) → IsValid c → Stands (boot.boot listed (no_queues c) c) (boot.booted c) }
    ensures step { (k : World Queues) (m : State) (event : Event)
        → Stands k m → Safe numbered m → (processor_of event).number ≤ length m.processors
        → StepsMatch (machine.step listed k event) (machine.step numbered m event) }
    ensures tells { (k : World Queues) (m : State) → Stands k m → TellsAlike k m }
    ensures stands { (k : World Queues) (m : State) → Stands k m → ListsAreRight k }
    ensures safe { (k : World Queues) (m : State) → Stands k m → Safe numbered m → Safe listed k }
    ensures safe_numbers { (k : World Queues) (m : State) → Stands k m → Safe listed k → Safe numbered m }
{}
