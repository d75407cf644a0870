//! Laws of lines that a machine plays.
ghost use Rattle.std.specs.Prelude.{ℕ, ◌≤◌, List, length};
ghost use Rattle.fmp_names.specs.Names.{AreValid};
ghost use Rattle.fmp_setup.specs.Setup.{Setup};
ghost use Rattle.fmp_setup.specs.Valid.{IsValid};
ghost use Rattle.fmp_text.specs.Limits.{most_events};
ghost use Rattle.fmp_trace_orders.specs.Matching.{OrdersMatch};

/// From boot on, lines are right one after the other for the machine with lists exactly where they are for the machine with numbers.
pub fn orders_match()
    ensures { (c : Setup) → IsValid c → AreValid c.names → (lines : List (List ℕ)) → length lines ≤ most_events → OrdersMatch c lines }
{}
