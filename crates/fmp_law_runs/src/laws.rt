//! Runs as orders, and seeds.
ghost use Rattle.std.specs.Prelude.{ℕ, List};
ghost use Rattle.fmp_codes.specs.declared.records.Record.{Record};
ghost use Rattle.fmp_setup.specs.Setup.{Setup};
ghost use Rattle.fmp_setup.specs.Valid.{IsValid};
ghost use Rattle.fmp_text_scripts.specs.Scripts.{Steps};
ghost use Rattle.fmp_world.specs.declared.finishing.Ended.{Ended};
ghost use Rattle.fmp_world.specs.declared.seats.Receipt.{Receipt};
ghost use Rattle.fmp_world.specs.Ends.{IsSmpRun};
ghost use Rattle.fmp_smp.specs.Rounds.{TicksInTurn};
ghost use Rattle.fmp_search_orders.specs.Orders.{IsOrder};
ghost use Rattle.fmp_law_runs.specs.Runs.{AreOne, IsSeeded, promptly};

/// A run of processors by scripts, whose ticks come in turn, is one of the orders with as many ticks in which each request is taken before its
/// processor's next call.
pub fn smp_runs_are_orders()
    ensures { (c : Setup) (scripts : List Steps) (ticks turns : ℕ) (h : List Record) (receipts : List (List Receipt)) (ended : Ended) → IsValid c
        → IsSmpRun c scripts ticks turns h receipts ended → TicksInTurn c ticks h → IsOrder c scripts (promptly ticks) h }
{}

/// Two runs by one seed, of the same machine, scripts, ticks and turns, have the same records and end in the same way.
pub fn a_seed_makes_one_run()
    ensures { (seed : ℕ) (c : Setup) (scripts : List Steps) (ticks turns : ℕ) (h others : List Record) (ended other : Ended) → IsValid c
        → IsSeeded seed c scripts ticks turns h ended → IsSeeded seed c scripts ticks turns others other → AreOne h others ended other }
{}
