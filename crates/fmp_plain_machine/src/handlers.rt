//! The time event handlers and the timer.
use crate::counts::{Counts, lower};
use crate::kept::each;
use arrayvec::ArrayVec;
use fmp_codes::Proc;
use fmp_rules::{Alarm, Config, Cyclic, Timer};

/// The timer, and the cyclic handlers and alarms in the order of their numbers, with the ticks left of those that are started.
#[derive(Drop)]
pub(crate) struct Handlers {
    pub(crate) timer: Timer,
    pub(crate) cyclics: ArrayVec<Cyclic, 32>,
    pub(crate) cyclics_left: Counts<32>,
    pub(crate) alarms: ArrayVec<Alarm, 32>,
    pub(crate) alarms_left: Counts<32>,
}

impl Handlers {
    ghost use Rattle.std.specs.Prelude.{◌≡◌, false, None, map};
    ghost use Rattle.std.specs.List.{list_any};
    ghost use Rattle.fmp_rules.specs.Boot.{phase_left};
    ghost use Rattle.fmp_setup.specs.Setup.{counts_for};
    ghost use Rattle.fmp_rules.specs.Tick.{is_over, lowered};

    /// Those of a configuration, before any tick.
    pub(crate) fn of(config: &Config) -> Handlers
        ensures timer { result.timer ≡ config.now.timer }
        ensures cyclics { result.cyclics.items ≡ map (λ s. record { setup = s; assigned = s.class.initial }) config.now.cyclics }
        ensures cyclics_left { result.cyclics_left ≡ map phase_left config.now.cyclics }
        ensures alarms { result.alarms.items ≡ map (λ s. record { setup = s; assigned = s.class.initial }) config.now.alarms }
        ensures alarms_left { result.alarms_left ≡ map (λ s. None) config.now.alarms }
    {
        Handlers {
            timer: config.timer(),
            cyclics: each(config.cyclics()),
            cyclics_left: Counts::new(each(config.cyclics())),
            alarms: each(config.alarms()),
            alarms_left: Counts::new(each(config.alarms())),
        }
    }

    /// Lowers the counts of ticks of the handlers that a tick on a processor counts for.
    pub(crate) fn count_down(&mut self, p: Proc)
        ensures timer { self.new.timer ≡ self.old.timer }
        ensures cyclics { self.new.cyclics ≡ self.old.cyclics }
        ensures cyclics_left { self.new.cyclics_left ≡ lowered (λ c. counts_for self.old.timer p c.assigned) self.old.cyclics.items self.old.cyclics_left }
        ensures alarms { self.new.alarms ≡ self.old.alarms }
        ensures alarms_left { self.new.alarms_left ≡ lowered (λ a. counts_for self.old.timer p a.assigned) self.old.alarms.items self.old.alarms_left }
    {
        lower(
            self.timer,
            p,
            self.cyclics.as_slice(),
            &mut self.cyclics_left,
        );
        lower(self.timer, p, self.alarms.as_slice(), &mut self.alarms_left);
    }

    /// Whether a handler may have 0 ticks left.
    pub(crate) fn may_be_over(&self) -> bool
        ensures cyclics { result ≡ false → list_any is_over self.now.cyclics_left ≡ false }
        ensures alarms { result ≡ false → list_any is_over self.now.alarms_left ≡ false }
    {
        self.cyclics_left.may_be_over() || self.alarms_left.may_be_over()
    }
}
