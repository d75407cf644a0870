//! The laws of what events change and read.
ghost use Rattle.std.specs.Prelude.{◌≡◌, Bool, None};
ghost use Rattle.fmp_codes.specs.declared.numbers.Proc.{Proc};
ghost use Rattle.fmp_codes.specs.declared.calls.Call.{Call};
ghost use Rattle.fmp_codes.specs.declared.records.Event.{Event};
ghost use Rattle.fmp_codes.specs.declared.records.Event.TheVariants as event;
ghost use Rattle.fmp_rules.specs.Arrivals.{State};
ghost use Rattle.fmp_rules.specs.Rows.{check, called};
ghost use Rattle.fmp_rules.specs.Step.{row_of, step};
ghost use Rattle.fmp_rules.specs.World.{World};
ghost use Rattle.fmp_kernel_order.specs.Queues.{Queues, listed};
ghost use Rattle.fmp_law_lists.specs.Stands.{Stands};
ghost use Rattle.fmp_law_footprint.specs.Cells.{Cell, Shape};
ghost use Rattle.fmp_law_footprint.specs.Footprints.{Closed, Within};
ghost use Rattle.fmp_law_footprint.specs.CoversCalls.{CoversCall};
ghost use Rattle.fmp_law_footprint.specs.Covers.{Covers, CoversTick, Settles};
ghost use Rattle.fmp_law_lists.specs.Reads.{DoAlike, Own, StepsAlike};
ghost use Rattle.fmp_law_lists.specs.ReadsCalls.{ReadsCall, ReadsTick};
ghost use Rattle.fmp_law_lists.specs.About.{About, is_about};
ghost use Rattle.fmp_law_lists.specs.AboutCalls.{about_call, about_tick};
ghost use Rattle.fmp_law_lists.specs.Lists.{Lists, lists};
ghost use Rattle.fmp_law_lists.specs.Alike.{AgreeOn, AreAlike, ChangesOnly, GoodFor};
ghost use Rattle.fmp_law_lists.specs.Apart.{after, Apart, AreEnough, Commute};

/// An event changes only cells of any set that covers it.
pub fn events_change_what_covers_them()
    ensures { (f : Cell → Bool) (w : World Queues) (e : Event) → (Within f Shape → ⊥) → Covers listed (Within f) w e
        → ChangesOnly f w (step listed w e).0 }
{}

/// A call does the same, before its end, in states that have the same in what it reads.
pub fn calls_do_what_they_read()
    ensures { (f : Cell → Bool) (v w : World Queues) (p : Proc) (c : Call) → Own (Within f) p → AgreeOn f v w → ReadsCall listed (Within f) w p c
        → DoAlike Lists lists (Within f) (called v p (row_of listed v p c)) (called w p (row_of listed w p c)) }
{}

/// An event has the same record in states that have the same in what it reads, if this also covers it in both, and they have the same after it.
pub fn events_do_what_they_read()
    ensures calls { (f : Cell → Bool) (v w : World Queues) (p : Proc) (c : Call) → AreAlike f v w p → ReadsCall listed (Within f) w p c
        → (check v p (row_of listed v p c) ≡ None → CoversCall listed (Within f) v p c)
        → (check w p (row_of listed w p c) ≡ None → CoversCall listed (Within f) w p c)
        → StepsAlike Lists lists (Within f) (step listed v (event.Call p c)) (step listed w (event.Call p c)) }
    ensures ticks { (f : Cell → Bool) (v w : World Queues) (p : Proc) → AreAlike f v w p → ReadsTick listed (Within f) w p
        → CoversTick listed (Within f) v p → CoversTick listed (Within f) w p
        → StepsAlike Lists lists (Within f) (step listed v (event.Tick p)) (step listed w (event.Tick p)) }
    ensures interrupts { (f : Cell → Bool) (v w : World Queues) (p : Proc) → AreAlike f v w p
        → StepsAlike Lists lists (Within f) (step listed v (event.Ipi p)) (step listed w (event.Ipi p)) }
{}

/// Two events commute where cells are enough for one and others for the other, before it and after the other.
pub fn events_commute()
    ensures { (f g : Cell → Bool) (w : World Queues) (d e : Event) → Apart f g → AreEnough f w d → AreEnough g w e
        → AreEnough f (after w e) d → AreEnough g (after w d) e → Commute w d e }
{}

/// The cells of what an event is about are closed, cover it, and are all that it reads.
pub fn cells_of_events_are_enough()
    ensures closed { (w : World Queues) (p : Proc) (a : About) → Closed (Within (is_about w p a)) w.tasks w.waits_left }
    ensures own { (w : World Queues) (p : Proc) (a : About) → Own (Within (is_about w p a)) p }
    ensures settles { (w : World Queues) (p : Proc) (a : About) → Settles (Within (is_about w p a)) p }
    ensures covers { (w : World Queues) (p : Proc) (c : Call) → CoversCall listed (Within (is_about w p (about_call listed w p c))) w p c }
    ensures reads { (w : World Queues) (p : Proc) (c : Call) → ReadsCall listed (Within (is_about w p (about_call listed w p c))) w p c }
    ensures tick_covers { (w : World Queues) (p : Proc) → CoversTick listed (Within (is_about w p (about_tick listed w p))) w p }
    ensures tick_reads { (w : World Queues) (p : Proc) → ReadsTick listed (Within (is_about w p (about_tick listed w p))) w p }
{}

/// In a state that stands for one of the model, cells that are closed are enough for all places of their tasks.
pub fn standing_lists_are_good()
    ensures { (f : Cell → Bool) (k : World Queues) (m : State) → Stands k m → Closed (Within f) k.tasks k.waits_left → GoodFor f k }
{}
