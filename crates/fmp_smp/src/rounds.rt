//! The order in which the clock gives its ticks.
ghost use Rattle.std.specs.Prelude.{◌≡◌, ◌≤◌, ◌+◌};
ghost use Rattle.fmp_smp.specs.Rounds as spec;

use fmp_codes::{Answer, Proc};
use fmp_rules::{Config, Timer};
use fmp_world::{Clock, Cpu, Turn, World};
use std::marker::Model;

/// The ticks that a clock has to give, round by round: in each round one taken tick to each processor in order, or under a global
/// timer to the master alone.
#[derive(Drop)]
pub struct Rounds {
    first: Proc,
    /// How many processors a round has.
    count: u8,
    /// How many taken ticks there are to be.
    total: u32,
    /// How many there were.
    given: u32,
}

impl Model for Rounds {
    ghost use Rattle.std.specs.Prelude.{◌≤◌, ◌+◌};
    ghost use Rattle.fmp_smp.specs.Rounds as spec;

    ghost Value = { spec.Rounds };

    ghost view = { λ r. record { first = r.first.number; count = r.count; total = r.total; given = r.given } };

    ghost invariant = { λ r. (1 ≤ r.count) × (r.first.number + r.count ≤ 9) × (r.given ≤ r.total) };
}

/// The first processor whose ticks count, and how many there are.
fn ticked(config: &Config) -> (Proc, u8)
    ensures first { result.0.number ≡ spec.first_ticked config.now.timer }
    ensures count { result.1 ≡ spec.ticked config.now.timer config.now.processors }
    ensures some { 1 ≤ result.1 }
    ensures fits { result.0.number + result.1 ≤ 9 }
{
    match config.timer() {
        Timer::Local => (Proc::new(1), config.processors()),
        Timer::Global(master) => (master, 1),
    }
}

impl Rounds {
    ghost use Rattle.std.specs.Prelude.{◌≡◌, ◌≤◌};
    ghost use Rattle.fmp_smp.specs.Rounds as spec;

    /// So many rounds.
    pub fn new(config: &Config, rounds: u32) -> Rounds
        requires { rounds ≤ 1000000 }
        ensures { result ≡ spec.rounds_of config.now rounds 0 }
    {
        let (first, count) = ticked(config);
        Rounds {
            first,
            count,
            total: rounds * u32::from(count),
            given: 0,
        }
    }

    /// Whether no tick is left to give.
    pub fn are_over(&self) -> bool
        ensures { result ≡ spec.is_over self.now }
    {
        self.given >= self.total
    }

    /// The processor that is given the next tick.
    fn next(&self) -> Proc
        ensures { result ≡ spec.next_of self.now }
    {
        Proc::new(self.first.number + (self.given % u32::from(self.count)) as u8)
    }

    /// Gives the next tick. A held one stays the next until it is taken. `Nothing` where no tick is left.
    pub fn give(&mut self, world: &mut World<'_>, clock: &mut Clock) -> Turn
        ensures { spec.Gives self.old world.old clock.old result self.new world.new clock.new }
    {
        if self.are_over() {
            return Turn::Nothing;
        }
        let next = self.next();
        if next.number > world.processors() {
            return Turn::Full;
        }
        let turn = world.tick(clock, next);
        if is_taken(turn) {
            self.given += 1;
        }
        turn
    }
}

/// Whether a turn made a record that says that it was taken.
fn is_taken(turn: Turn) -> bool
    ensures { result ≡ spec.is_taken_turn turn }
{
    match turn {
        Turn::Made(receipt) => receipt.answer == Answer::Taken,
        Turn::Nothing | Turn::Full => false,
    }
}

/// A turn of a seat. One that is of none of the world's processors ends the run, as a full history does.
pub fn take_turn(world: &mut World<'_>, cpu: &mut Cpu) -> Turn
    ensures { spec.Takes world.old cpu.old result world.new cpu.new }
{
    if cpu.processor().number > world.processors() {
        return Turn::Full;
    }
    world.turn(cpu)
}
