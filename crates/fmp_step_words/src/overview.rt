//! What a step asks of a machine as a whole.
ghost use Rattle.std.specs.Prelude.{◌≡◌, false, []};
ghost use Rattle.fmp_rules.specs.Step.{tops};
ghost use Rattle.fmp_rules.specs.Tick.{expired, tasks_expired};

use crate::objects::Objects;
use crate::tops::Tops;

/// A machine that also tells at once what a step asks of all its processors, and of all that counts ticks.
pub trait Overview: Objects {
    /// The tops of all processors.
    fn tops(&self) -> Tops
        ensures { result ≡ tops Self.ordering (Self.world self.now) };

    /// Whether anything may have 0 ticks left. A machine that would have to look at all that counts may say so always.
    fn may_have_expired(&self) -> bool
        ensures waits { let w = Self.world self.now in result ≡ false → tasks_expired w.waits_left (Self.ordering.timed w.order w.waits_left) ≡ [] }
        ensures alarms { let w = Self.world self.now in result ≡ false → expired w.alarms_left w.alarms ≡ [] }
        ensures cyclics { let w = Self.world self.now in result ≡ false → expired w.cyclics_left w.cyclics ≡ [] };
}
