//! The plain machine, and how many steps it made.
ghost use Rattle.std.specs.Prelude.{◌≡◌, ◌+◌, ◌<◌, IfOk};
ghost use Rattle.fmp_rules.specs.Boot.{booted};
ghost use Rattle.fmp_setup.specs.Valid.{IsValid};
ghost use Rattle.fmp_rules.specs.Arrivals.{numbered};
ghost use Rattle.fmp_rules.specs.Step.{step};
ghost use Rattle.fmp_law_safety.specs.Safe.{Safe};
ghost use Rattle.fmp_law_safety.specs.Laws.{FindsNothing, TakesRequest, RunsTop};

use fmp_codes::{Answer, Event, Record};
use fmp_plain_machine::PlainMachine;
use fmp_rules::Config;
use fmp_step::{boot, step_recorded};
use std::alloc::AllocError;
use std::marker::Model;

/// The plain machine. Contracts see its state, which is that of the model, and the number of its steps.
#[derive(Drop)]
pub struct Plain {
    machine: PlainMachine,
    steps: u32,
}

impl Model for Plain {
    ghost use Rattle.std.specs.Prelude.{◌+◌, ◌*◌, ◌≤◌};
    ghost use Rattle.fmp_plain.specs.Run.{Run};

    ghost Value = { Run };

    ghost view = { λ a. record { state = a.machine; steps = a.steps } };

    ghost invariant = { λ a. a.machine.order.next ≤ 64 * (a.steps + 1) };
}

impl Plain {
    /// The machine at boot. It takes all of its memory here, where it may be refused; a step takes none.
    pub fn boot(config: &Config) -> Result<Plain, AllocError>
        ensures state { IfOk result (λ m. m ≡ record { state = booted config.now; steps = 0 }) }
        ensures safe { IfOk result (λ m. Safe numbered m.state) }
        ensures valid { IfOk result (λ m. IsValid config.now) }
    {
        let mut machine = PlainMachine::blank(config)?;
        boot(&mut machine, config);
        Ok(Plain { machine, steps: 0 })
    }

    /// Plays one event, and tells what it answers and did.
    pub fn step(&mut self, event: Event) -> Record
        requires { self.old.steps < 4294967295 }
        ensures step { (self.new.state, result) ≡ step numbered self.old.state event }
        ensures steps { self.new.steps ≡ self.old.steps + 1 }

        // What interrupts do, and that a processor which is not held in the end runs its top.
        ensures nothing { FindsNothing numbered self.old.state event result self.new.state }
        ensures taken { TakesRequest self.old.state event result self.new.state }
        ensures top { RunsTop numbered self.old.state event result self.new.state }
    {
        let mut report = Record::answer(event, None, Answer::Nothing);
        self.step_into(event, &mut report);
        report
    }

    /// Plays one event, and makes a record tell what it answers and did, whatever it told before.
    pub fn step_into(&mut self, event: Event, report: &mut Record)
        requires { self.old.steps < 4294967295 }
        ensures step { (self.new.state, report.new) ≡ step numbered self.old.state event }
        ensures steps { self.new.steps ≡ self.old.steps + 1 }

        // As of `step`.
        ensures nothing { FindsNothing numbered self.old.state event report.new self.new.state }
        ensures taken { TakesRequest self.old.state event report.new self.new.state }
        ensures top { RunsTop numbered self.old.state event report.new self.new.state }
    {
        report.event = event;
        self.step_recorded(report);
    }

    /// Plays the event that a record tells, and makes it tell what the event answers and did, whatever it told of that before.
    pub fn step_recorded(&mut self, report: &mut Record)
        requires { self.old.steps < 4294967295 }
        ensures step { (self.new.state, report.new) ≡ step numbered self.old.state report.old.event }
        ensures steps { self.new.steps ≡ self.old.steps + 1 }

        // As of `step`.
        ensures nothing { FindsNothing numbered self.old.state report.old.event report.new self.new.state }
        ensures taken { TakesRequest self.old.state report.old.event report.new self.new.state }
        ensures top { RunsTop numbered self.old.state report.old.event report.new self.new.state }
    {
        self.steps += 1;
        step_recorded(&mut self.machine, report);
    }

    /// Its state between two events.
    pub fn machine(&self) -> &PlainMachine
        ensures { result.now ≡ self.now.state }
    {
        &self.machine
    }

    /// How many steps it made.
    pub fn steps(&self) -> u64
        ensures { result ≡ self.now.steps }
    {
        u64::from(self.steps)
    }
}
