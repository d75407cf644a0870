//! A world and the clock's ticks in it.
ghost use Rattle.std.specs.Prelude.{◌≡◌, ◌≤◌, ◌↔◌, [], map, IfSome, IsSome};
ghost use Rattle.fmp_smp.specs.Rounds.{Gives, Takes, TicksInTurn, rounds_of};
ghost use Rattle.fmp_world.specs.Ends.{IsSmpRun, IsWhole};

use crate::rounds::{Rounds, take_turn};
use fmp_rules::Config;
use fmp_text_scripts::Scripts;
use fmp_world::{Clock, Cpu, Seats, SmpRun, Turn, World};
use std::marker::Model;

/// A world, and the ticks that its clock has yet to give. All its ticks were given in their turn.
#[derive(Drop)]
pub struct Clocked<'a> {
    world: World<'a>,
    /// How many rounds of ticks there are to be.
    ticks: u32,
    rounds: Rounds,
}

impl<'a> Model for Clocked<'a> {
    ghost use Rattle.fmp_smp.specs.Rounds as spec;

    ghost Value = { spec.Clocked };

    ghost view = { λ c. record { world = c.world; ticks = c.ticks; rounds = c.rounds } };

    ghost invariant = { λ c. spec.AreInTurn c.ticks c.world c.rounds };
}

impl<'a> Clocked<'a> {
    /// A world of this configuration, without records, and so many rounds of ticks.
    pub fn new(world: World<'a>, config: &Config, ticks: u32) -> Clocked<'a>
        requires few { ticks ≤ 1000000 }
        requires configured { world.config ≡ config.now }
        requires fresh { world.records ≡ [] }
        ensures { result ≡ record { world = world.entry; ticks = ticks; rounds = rounds_of config.now ticks 0 } }
    {
        Clocked {
            world,
            ticks,
            rounds: Rounds::new(config, ticks),
        }
    }

    /// The world as it is.
    pub fn world(&self) -> &World<'a>
        ensures { result.now ≡ self.now.world }
    {
        &self.world
    }

    /// A turn of a seat.
    pub fn turn(&mut self, cpu: &mut Cpu) -> Turn
        ensures takes { Takes self.old.world cpu.old result self.new.world cpu.new }
        ensures rest { self.new ≡ record self.old { world = self.new.world } }
    {
        take_turn(&mut self.world, cpu)
    }

    /// The next tick.
    pub fn tick(&mut self, clock: &mut Clock) -> Turn
        ensures gives { Gives self.old.rounds self.old.world clock.old result self.new.rounds self.new.world clock.new }
        ensures ticks { self.new.ticks ≡ self.old.ticks }
    {
        self.rounds.give(&mut self.world, clock)
    }

    /// Judges a run with so many rounds of ticks, as [`World::finish`] does. None also where there were to be more or fewer.
    pub fn finish(
        self,
        seats: Seats,
        config: &Config,
        scripts: &Scripts,
        ticks: u32,
        turns: u32,
    ) -> Option<SmpRun<'a>>
        ensures whole { IsSome result ↔ ((self.entry.ticks ≡ ticks) × IsWhole self.entry.world seats.cpus.items seats.clock config.now scripts.now ticks turns) }
        ensures history { IfSome result (λ r. r.history ≡ self.entry.world) }
        ensures configured { IfSome result (λ r. r.history.config ≡ config.now) }
        ensures run { IfSome result (λ r. IsSmpRun config.now scripts.now ticks turns r.history.records (map (λ v. v.items) r.receipts.items) r.ended) }
        ensures ticked { IfSome result (λ r. TicksInTurn config.now ticks r.history.records) }
    {
        if self.ticks != ticks {
            return None;
        }
        self.world.finish(seats, config, scripts, ticks, turns)
    }
}
