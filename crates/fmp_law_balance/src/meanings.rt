//! The words of the records' laws mean what those of the machine mean.
ghost use Rattle.std.specs.Prelude.{◌≡◌, ℕ, ℤ, Bool};
ghost use Rattle.fmp_codes.specs.declared.numbers.Proc.{Proc};
ghost use Rattle.fmp_codes.specs.declared.numbers.Task.{Task};
ghost use Rattle.fmp_setup.specs.declared.setup.Class.{Class};
ghost use Rattle.fmp_setup.specs.declared.setup.Timer.{Timer};
ghost use Rattle.fmp_setup.specs.Setup.{has_time, counts_for, has_member};
ghost use Rattle.fmp_rules.specs.Arguments.{number_within, is_zero};
ghost use Rattle.fmp_rules.specs.Arrivals.{in_order};
ghost use Rattle.fmp_law_balance.specs.Turns.{in_turn};
ghost use Rattle.fmp_law_balance.specs.Words.{is_clock, is_clocked_by, is_member, one_up_to, says_nothing};

/// The tasks that are chosen one after the other, each time the foremost of those that are left, stand as the machine puts them in.
pub fn turns_are_right()
    ensures { (qualifies : Task → Bool) (before : Task → Task → Bool) (n : ℕ) → in_turn qualifies before n ≡ in_order qualifies before n }
{}

/// Ticks of a processor's clock count for it, and those of no other; a processor has time where it is a clock.
pub fn clocks_are_right()
    ensures counts { (timer : Timer) (p q : Proc) → is_clocked_by timer p q ≡ counts_for timer p q }
    ensures time { (timer : Timer) (p : Proc) → is_clock timer p ≡ has_time timer p }
{}

/// The members of a class are those that it has.
pub fn members_are_right()
    ensures { (class : Class) (p : Proc) → is_member class p ≡ has_member class p }
{}

/// What an argument says: a number from 1 to the last one, or nothing.
pub fn names_are_right()
    ensures number { (last : ℕ) (id : ℤ) → one_up_to last id ≡ number_within last id }
    ensures nothing { (id : ℤ) → says_nothing id ≡ is_zero id }
{}
