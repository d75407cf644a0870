//! The world: a history whose turns and ticks are told to seats.
ghost use Rattle.std.specs.Prelude.{◌≡◌, ◌+◌, ◌≤◌, ◌<◌, ◌^◌, [], ◌∷◌, ◌++◌, length, IfOk, Some, None, List, MatchOption, IsTrue, ◌↔◌, is_some};
ghost use Rattle.fmp_codes.specs.declared.records.Record.{Record};
ghost use Rattle.fmp_smp_histories.specs.Histories.{state_after, IsQuiet};
ghost use Rattle.fmp_smp_histories.specs.Scripted as scripted;
ghost use Rattle.fmp_world.specs.Views.{Seat, ClockSeat};
ghost use Rattle.fmp_world.specs.Turns.{Turns, Ticks, opening, IsOpening};

use crate::history::{History, Move};
use crate::replay::Replay;
use crate::seats::{Clock, Cpu, Seats, Turn};
use arrayvec::ArrayVec;
use fmp_codes::{Answer, Event, Proc, Record};
use fmp_rules::Config;
use fmp_text_scripts::Scripts;
use std::alloc::{AllocError, Global};
use std::marker::Model;

/// A history that is made by the turns and ticks of seats, and a second one without records, on which the judge makes its records
/// again.
#[derive(Drop)]
pub struct World<'a> {
    pub(crate) history: History<'a>,
    pub(crate) spare: History<'a>,
    last: Record,
}

impl<'a> Model for World<'a> {
    ghost use Rattle.std.specs.Prelude.{◌≡◌};
    ghost use Rattle.fmp_world.specs.Views as views;
    ghost use Rattle.fmp_world.specs.Kept.{IsLast};
    ghost use Rattle.fmp_world.specs.Turns.{opening};

    ghost Value = { views.History };

    ghost view = { λ w. w.history };

    ghost invariant = { λ w.
        (w.spare ≡ opening w.history.config w.history.scripts w.history.turns) × IsLast w.history.records w.last };
}

impl<'a> World<'a> {
    /// A world without records, with room for so many moves.
    fn new(
        alloc: Global,
        config: &'a Config,
        scripts: &'a Scripts,
        turns: u32,
    ) -> Result<World<'a>, AllocError>
        requires { turns ≤ 2 ^ 31 }
        ensures { IfOk result (λ w. w ≡ opening config.entry.now scripts.entry.now turns) }
    {
        let history = History::new(alloc, config, scripts, turns)?;
        let spare = History::new(alloc, config, scripts, turns)?;
        Ok(World {
            history,
            spare,
            last: Record::answer(Event::Tick(Proc::new(1)), None, Answer::Nothing),
        })
    }

    /// A world without records, and the seats of a run, with room for so many moves and receipts. It takes all memory of the
    /// run and of its judge, and is refused where there is not so much.
    pub fn boot(
        alloc: Global,
        config: &'a Config,
        scripts: &'a Scripts,
        turns: u32,
    ) -> Result<(World<'a>, Seats), AllocError>
        requires { turns ≤ 2 ^ 31 }
        ensures world { IfOk result (λ r. r.0 ≡ opening config.entry.now scripts.entry.now turns) }
        ensures cpus { IfOk result (λ r. IsOpening turns r.1.cpus.items config.entry.now.processors) }
        ensures clock { IfOk result (λ r. r.1.clock ≡ record { room = turns; receipts = [] }) }
    {
        let world = World::new(alloc, config, scripts, turns)?;
        let seats = boot_seats(alloc, config.processors(), turns)?;
        Ok((world, seats))
    }

    /// The number of processors.
    pub fn processors(&self) -> u8
        ensures is { result ≡ self.now.config.processors }
        ensures least { 1 ≤ result }
        ensures most { result ≤ 8 }
    {
        self.history.processors()
    }

    /// One turn of the seat's processor. It takes a pending request that nothing holds back, or makes the call that is next in
    /// the script of its due handler or else of its running task; after the last step a task ends, and a handler returns. A
    /// call that spins is made again at the next turn.
    pub fn turn(&mut self, seat: &mut Cpu) -> Turn
        requires { seat.old.processor.number ≤ self.old.config.processors }
        ensures { Turns self.old seat.old result self.new seat.new }
    {
        if self.history.is_full() || !seat.has_room() {
            return Turn::Full;
        }
        let p = seat.processor();
        let Some(event) = self.history.choose(p) else {
            return Turn::Nothing;
        };
        let receipt = self.history.make(Move::Turn(p), event, &mut self.last);
        seat.keep(receipt);
        Turn::Made(receipt)
    }

    /// Whether a processor has something to do, so that its turn makes a record where there is room.
    pub fn has_turn(&self, p: Proc) -> bool
        ensures { result ≡ is_some (scripted.choice self.now.config self.now.scripts self.now.records p) }
    {
        self.history.has_choice(p)
    }

    /// One tick of a processor. Where it is held, it is recorded so, and has to be given again.
    pub fn tick(&mut self, seat: &mut Clock, p: Proc) -> Turn
        requires { p.number ≤ self.old.config.processors }
        ensures { Ticks self.old seat.old p result self.new seat.new }
    {
        if self.history.is_full() || !seat.has_room() {
            return Turn::Full;
        }
        let receipt = self
            .history
            .make(Move::Tick(p), Event::Tick(p), &mut self.last);
        seat.keep(receipt);
        Turn::Made(receipt)
    }

    /// The records of what happened so far, to be made again one after the other. The error is want of memory for another kernel.
    pub fn records(&self, alloc: Global) -> Result<Replay<'_, 'a>, AllocError>
        ensures { IfOk result (λ r. r ≡ self.entry.now.records) }
    {
        self.history.replay(alloc)
    }

    /// Whether on no processor a handler is due, a task runs or a request is pending.
    pub fn quiet(&self) -> bool
        ensures { IsTrue result ↔ IsQuiet self.now.config.processors (state_after self.now.config self.now.records) }
    {
        self.history.quiet()
    }

    /// The record of the last turn or tick, if there was one.
    pub fn last(&self) -> Option<&Record>
        ensures { MatchOption result (self.now.records ≡ []) (λ made. (h : List Record) × (self.now.records ≡ h ++ made.now ∷ [])) }
    {
        let last = &self.last;
        if self.history.count() == 0 {
            None
        } else {
            Some(last)
        }
    }
}

/// The seats of so many processors, in order, and the clock's.
fn boot_seats(alloc: Global, processors: u8, turns: u32) -> Result<Seats, AllocError>
    requires { processors ≤ 8 }
    ensures cpus { IfOk result (λ s. IsOpening turns s.cpus.items processors) }
    ensures clock { IfOk result (λ s. s.clock ≡ record { room = turns; receipts = [] }) }
{
    let cpus = boot_cpus(alloc, processors, turns)?;
    let clock = Clock::new(alloc, turns)?;
    Ok(Seats { cpus, clock })
}

/// The seats of so many processors, in order.
fn boot_cpus(
    alloc: Global,
    processors: u8,
    turns: u32,
) -> Result<ArrayVec<Cpu, 8, Global>, AllocError>
    requires { processors ≤ 8 }
    ensures { IfOk result (λ cpus. IsOpening turns cpus.items processors) }
{
    let mut cpus = ArrayVec::new_in(alloc);
    for at in 0..processors {
        cpus.push(Cpu::new(alloc, Proc::new(at + 1), turns)?);
    }
    Ok(cpus)
}
