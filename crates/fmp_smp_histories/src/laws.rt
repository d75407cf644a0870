//! A law of positions.
ghost use Rattle.std.specs.Prelude.{List};
ghost use Rattle.fmp_text_scripts.specs.Scripts.{Steps, AreStraight};
ghost use Rattle.fmp_setup.specs.Setup.{Setup};
ghost use Rattle.fmp_smp_histories.specs.Straight.{AreCounts};

/// Where no script has a way, the position of each is how many calls were made since it began, along each history.
#[tactic(auto, using(crate::proofs::Straight::are_counts))]
pub fn straight_scripts_are_counted()
    ensures { (c : Setup) (scripts : List Steps) → AreStraight scripts → AreCounts c scripts }
{}
