//! The laws of what events leave as it is.
ghost use Rattle.std.specs.Prelude.{◌≡◌, Bool, false, None};
ghost use Rattle.fmp_codes.specs.declared.numbers.Proc.{Proc};
ghost use Rattle.fmp_codes.specs.declared.calls.Call.{Call};
ghost use Rattle.fmp_codes.specs.declared.records.Event.{Event};
ghost use Rattle.fmp_rules.specs.Arrivals.{State, numbered};
ghost use Rattle.fmp_rules.specs.Rows.{check, called};
ghost use Rattle.fmp_rules.specs.Step.{row_of, step};
ghost use Rattle.fmp_rules.specs.Tick.{tick};
ghost use Rattle.fmp_law_footprint.specs.Cells.{Cell, value};
ghost use Rattle.fmp_law_footprint.specs.Footprints.{Moves, Within};
ghost use Rattle.fmp_law_footprint.specs.Numbers.{Numbers, numbers, Anywhere, Spotted};
ghost use Rattle.fmp_law_footprint.specs.CoversCalls.{CoversCall};
ghost use Rattle.fmp_law_footprint.specs.Covers.{Covers};
ghost use Rattle.fmp_law_footprint.specs.Kinds.{may_change, of_tick};

/// A call changes, before its end, only cells of any set that covers it.
pub fn calls_change_what_covers_them()
    ensures { (f : Cell → Bool) (w : State) (p : Proc) (c : Call) → Spotted (Within f)
        → (check w p (row_of numbered w p c) ≡ None → CoversCall numbered (Within f) w p c)
        → Moves Numbers numbers (Within f) Anywhere w (called w p (row_of numbered w p c)).0 }
{}

/// An event changes only cells of any set that covers it.
pub fn events_change_what_covers_them()
    ensures { (f : Cell → Bool) (w : State) (e : Event) → Spotted (Within f) → Covers numbered (Within f) w e
        → Moves Numbers numbers (Within f) Anywhere w (step numbered w e).0 }
{}

/// Whatever the state, a call and a tick leave, before their end, all cells of the kinds that they do not change.
pub fn other_kinds_stay()
    ensures calls { (w : State) (p : Proc) (c : Call) (x : Cell) → may_change c x ≡ false → value (called w p (row_of numbered w p c)).0 x ≡ value w x }
    ensures ticks { (w : State) (p : Proc) (x : Cell) → of_tick x ≡ false → value (tick numbered w p).0 x ≡ value w x }
{}
