//! What the changes that a page tells come to.
ghost use Rattle.std.specs.Prelude.{List};
ghost use Rattle.fmp_codes.specs.declared.records.Event.{Event as AnyEvent};
ghost use Rattle.fmp_setup.specs.Setup.{Setup};
ghost use Rattle.fmp_run_view.specs.Tables.{AreReported};

/// Nothing is lost by telling changes only: put in their places, those at boot and those of any events are all values of the
/// model's state after these events.
pub fn states_are_reported()
    ensures { (c : Setup) (es : List AnyEvent) → AreReported c es }
{}
