//! A machine that plays events, and the ticks that it took.
ghost use Rattle.std.specs.Prelude.{◌≡◌, ◌+◌, ◌-◌, ◌<◌, ◌≤◌, ◌^◌, ℕ, length, slice_index_or, None, IfOk, IfSome};
ghost use Rattle.fmp_rules.specs.World.{item};
ghost use Rattle.fmp_law_safety.specs.Runs.{processor_of};
ghost use Rattle.fmp_setup.specs.Valid.{IsValid};
ghost use Rattle.fmp_rules.specs.Arrivals.{numbered};
ghost use Rattle.fmp_rules.specs.Step.{step};
ghost use Rattle.fmp_run_view.specs.Moments as spec;

use fmp_codes::{Answer, Event, Object, Proc, Record, Task};
use fmp_plain::Plain;
use fmp_plain_machine::PlainMachine;
use fmp_rules::{Config, Timer};
use fmp_step_words::Objects;
use std::alloc::AllocError;
use std::marker::Model;

/// Counts a tick that was taken.
fn count_tick(ticks: &mut [u32; 8], event: Event, answer: Answer)
    requires { (k : ℕ) → slice_index_or ticks.old k 0 < 2 ^ 32 - 1 }
    ensures { ticks.new ≡ spec.ticked ticks.old event answer }
{
    if let (Event::Tick(p), Answer::Taken) = (event, answer) {
        ticks[p.index()] += 1;
    }
}

/// The plain machine, and how many ticks each processor took so far.
#[derive(Drop)]
pub(crate) struct Player {
    plain: Plain,
    ticks: [u32; 8],
}

impl Model for Player {
    ghost use Rattle.fmp_run_view.specs.Moments.{Moment};
    ghost use Rattle.fmp_run_view.specs.Kept.{Kept};

    ghost Value = { Moment };

    ghost view = { λ a. record { state = a.plain.state; events = a.plain.steps; ticks = a.ticks } };

    ghost invariant = { λ a. Kept a.plain.state a.plain.steps a.ticks };
}

/// The processor whose ticks count for what is assigned to this one.
fn clock_of(timer: Timer, p: Proc) -> Proc
    ensures { result ≡ spec.clock_of timer p }
{
    match timer {
        Timer::Local => p,
        Timer::Global(master) => master,
    }
}

impl Player {
    /// The machine at boot.
    pub(crate) fn boot(config: &Config) -> Result<Player, AllocError>
        ensures moment { IfOk result (λ a. a ≡ spec.at_boot config.now) }
        ensures processors { IfOk result (λ a. length a.state.processors ≡ config.now.processors) }
        ensures valid { IfOk result (λ a. IsValid config.now) }
    {
        Ok(Player {
            plain: Plain::boot(config)?,
            ticks: [0; 8],
        })
    }

    /// Plays an event, and makes a record tell what it answered and did.
    pub(crate) fn play(&mut self, event: Event, report: &mut Record)
        requires on { (processor_of event).number ≤ length self.old.state.processors }
        requires room { self.old.events < 2 ^ 32 - 1 }
        ensures moment { self.new ≡ spec.following self.old event }
        ensures report { report.new ≡ (step numbered self.old.state event).1 }
        ensures processors { length self.new.state.processors ≡ length self.old.state.processors }
    {
        self.plain.step_into(event, report);
        count_tick(&mut self.ticks, event, report.answer);
    }

    /// The machine in its state now.
    pub(crate) fn machine(&self) -> &PlainMachine
        ensures { result.now ≡ self.now.state }
    {
        self.plain.machine()
    }

    /// How many events were played.
    pub(crate) fn events(&self) -> u64
        ensures { result ≡ self.now.events }
    {
        self.plain.steps()
    }

    /// The ticks so far that counted for what is assigned to a processor.
    pub(crate) fn ticks_for(&self, p: Proc) -> u64
        ensures value { result ≡ spec.ticks_for self.now p }
        ensures few { result < 2 ^ 32 }
    {
        let clock = clock_of(self.plain.machine().timer(), p);
        u64::from(self.ticks[clock.index()])
    }

    /// The ticks left of a task's wait, if it is timed.
    pub(crate) fn wait_left(&self, t: Task) -> Option<u64>
        ensures value { result ≡ item None self.now.state.waits_left t.number }
        ensures few { IfSome result (λ left. left ≤ 2 ^ 31) }
    {
        self.plain.machine().wait_left(t)
    }

    /// The ticks left of a cyclic handler, if it is started.
    pub(crate) fn cyclic_left(&self, c: Object) -> Option<u64>
        ensures value { result ≡ item None self.now.state.cyclics_left c.number }
        ensures few { IfSome result (λ left. left ≤ 2 ^ 31) }
    {
        self.plain.machine().cyclic_left(c)
    }

    /// The ticks left of an alarm, if it is started.
    pub(crate) fn alarm_left(&self, a: Object) -> Option<u64>
        ensures value { result ≡ item None self.now.state.alarms_left a.number }
        ensures few { IfSome result (λ left. left ≤ 2 ^ 31) }
    {
        self.plain.machine().alarm_left(a)
    }
}
