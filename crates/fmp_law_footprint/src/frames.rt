//! The law of what events leave as it is.
ghost use Rattle.fmp_codes.specs.declared.records.Event.{Event};
ghost use Rattle.fmp_rules.specs.Arrivals.{State, numbered};
ghost use Rattle.fmp_rules.specs.Step.{step};
ghost use Rattle.fmp_law_footprint.specs.Frames.{Frame};

/// Each event leaves as it is what its record does not say that it may change, in every state.
pub fn frames_are_reported()
    ensures { (w : State) (event : Event) → Frame w (step numbered w event).1 (step numbered w event).0 }
{}
