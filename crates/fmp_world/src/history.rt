//! A history that is a run of the machine, kept as the moves that made it.
ghost use Rattle.std.specs.Prelude.{◌≡◌, ◌+◌, ◌≤◌, ◌<◌, ◌^◌, [], length, IfOk, Some, None, ℕ, IsTrue, true, ◌↔◌, is_some};
ghost use Rattle.fmp_smp_histories.specs.Histories.{state_after, is_idle, IsQuiet};
ghost use Rattle.fmp_law_lists.specs.Stands.{Stands};
ghost use Rattle.fmp_world.specs.Kept.{IsKnown};
ghost use Rattle.fmp_smp_histories.specs.Scripted as scripted;
ghost use Rattle.fmp_world.specs.Moves as moves;
ghost use Rattle.fmp_world.specs.Turns.{AddsRecord, opening, is_full, report_after};

use crate::replay::Replay;
use crate::seats::Receipt;
use fmp_codes::{Event, Proc, Record, Runner};
use fmp_kernel::Kernel;
use fmp_rules::{Config, Timer};
use fmp_smp_histories::{advance_handler, advance_task, asked_at};
use fmp_text_scripts::Scripts;
use std::alloc::{AllocError, Global};
use std::marker::Model;

/// Who makes a record: a processor by its turn, or the clock by a tick of one.
#[derive(Clone, Copy)]
pub enum Move {
    Turn(Proc),
    Tick(Proc),
}

/// A history of at most `turns` records, which is a run of the machine from its configuration by its scripts.
///
/// It keeps who moved, and no records: the kernel answers the same again, so [`History::replay`] makes them again. The kernel
/// stands for the state at its end, and the arrays have the positions in the scripts there.
#[derive(Drop)]
pub struct History<'a> {
    config: &'a Config,
    scripts: &'a Scripts,
    turns: u32,
    kernel: Kernel,
    moves: Vec<Move>,
    tasks: [u32; 64],
    handlers: [u32; 8],
}

impl<'a> Model for History<'a> {
    ghost use Rattle.std.specs.Prelude.{◌≡◌, ◌≤◌, [], length};
    ghost use Rattle.fmp_world.specs.Views as views;
    ghost use Rattle.fmp_world.specs.Moves.{played, AreMade};
    ghost use Rattle.fmp_world.specs.Kept.{KeepsHistory, IsSized};

    ghost Value = { views.History };

    ghost view = { λ w. record { config = w.config.now; scripts = w.scripts.now; turns = w.turns; records = played w.config.now w.scripts.now w.moves.items } };

    ghost invariant = { λ w.
        KeepsHistory w.config.now w.scripts.now w.kernel w.tasks w.handlers (played w.config.now w.scripts.now w.moves.items)
        × AreMade w.config.now w.scripts.now [] w.moves.items
        × IsSized w.turns w.tasks w.handlers w.moves };
}

impl<'a> History<'a> {
    /// A history without records, with room for `turns` moves. The error is want of memory.
    pub(crate) fn new(
        alloc: Global,
        config: &'a Config,
        scripts: &'a Scripts,
        turns: u32,
    ) -> Result<History<'a>, AllocError>
        requires { turns ≤ 2 ^ 31 }
        ensures { IfOk result (λ w. w ≡ opening config.entry.now scripts.entry.now turns) }
    {
        Ok(History {
            config,
            scripts,
            turns,
            kernel: Kernel::boot(config)?,
            moves: Vec::with_capacity(alloc, turns as usize)?,
            tasks: [0; 64],
            handlers: [0; 8],
        })
    }

    /// Its records, to be made again one after the other. The error is want of memory for another kernel.
    pub fn replay(&self, alloc: Global) -> Result<Replay<'_, 'a>, AllocError>
        ensures { IfOk result (λ r. r ≡ self.entry.now.records) }
    {
        let again = History::new(alloc, self.config, self.scripts, self.turns)?;
        Ok(self.replay_on(again))
    }

    /// The same, on a history that has none yet.
    pub(crate) fn replay_on(&self, again: History<'a>) -> Replay<'_, 'a>
        requires { again ≡ opening self.now.config self.now.scripts self.now.turns }
        ensures { result ≡ self.entry.now.records }
    {
        Replay::new(&self.moves, again)
    }

    /// The kernel at its end.
    pub fn last(&self) -> &Kernel
        ensures { Stands result.now (state_after self.now.config self.now.records) }
    {
        &self.kernel
    }

    /// How many processors there are.
    pub(crate) fn processors(&self) -> u8
        ensures is { result ≡ self.now.config.processors }
        ensures least { 1 ≤ result }
        ensures most { result ≤ 8 }
    {
        self.config.processors()
    }

    /// The timer of the machine.
    pub(crate) fn timer(&self) -> Timer
        ensures { result ≡ self.now.config.timer }
    {
        self.config.timer()
    }

    /// How many records there are, and what is known of them.
    pub(crate) fn count(&self) -> u32
        ensures is { result ≡ length self.now.records }
        ensures known { IsKnown self.now }
    {
        let _turns = self.turns;
        self.moves.len() as u32
    }

    /// Whether there is no room for another record.
    pub(crate) fn is_full(&self) -> bool
        ensures { result ≡ is_full self.now }
    {
        self.moves.len() >= self.turns as usize
    }

    /// Whether on no processor a handler is due, a task runs or a request is pending.
    pub(crate) fn quiet(&self) -> bool
        ensures { IsTrue result ↔ IsQuiet self.now.config.processors (state_after self.now.config self.now.records) }
    {
        for at in 0..self.processors() {
            if !self.is_idle(Proc::new(at + 1)) {
                return false;
            }
        }
        true
    }

    /// Whether on a processor no handler is due, no task runs and no request is pending.
    fn is_idle(&self, p: Proc) -> bool
        ensures { result ≡ is_idle (state_after self.now.config self.now.records) p }
    {
        self.kernel.runner(p).is_none() && !self.kernel.pending(p)
    }

    /// Whether it is of this configuration, these scripts and this many turns.
    pub(crate) fn is_of(&self, config: &Config, scripts: &Scripts, turns: u32) -> bool
        ensures { IsTrue result ↔ ((self.now.config ≡ config.now) × (self.now.scripts ≡ scripts.now) × (self.now.turns ≡ turns)) }
    {
        self.config.is_same(config) && self.scripts.is_same(scripts) && self.turns == turns
    }

    /// Whether a processor has something to do.
    pub(crate) fn has_choice(&self, p: Proc) -> bool
        ensures { result ≡ is_some (scripted.choice self.now.config self.now.scripts self.now.records p) }
    {
        (self.kernel.pending(p) && !self.kernel.held(p)) || self.kernel.runner(p).is_some()
    }

    /// What a processor does next. None where it has nothing to do.
    pub(crate) fn choose(&self, p: Proc) -> Option<Event>
        ensures { result ≡ scripted.choice self.now.config self.now.scripts self.now.records p }
    {
        if self.kernel.pending(p) && !self.kernel.held(p) {
            return Some(Event::Ipi(p));
        }
        let runner = self.kernel.runner(p)?;
        let position = self.position(runner, p);
        Some(Event::Call(p, asked_at(self.config, self.scripts, runner, position)))
    }

    /// The position of a runner on a processor in its script.
    fn position(&self, runner: Runner, p: Proc) -> u32
        ensures { result ≡ scripted.position_of self.now.config self.now.scripts runner p self.now.records }
    {
        match runner {
            Runner::Task(t) => self.tasks[t.index()],
            Runner::Alarm(_) => self.handlers[p.index()],
            Runner::Cyclic(_) => self.handlers[p.index()],
        }
    }

    /// The event of a move. None for a turn of a processor that has nothing to do.
    fn event_of(&self, by: Move) -> Option<Event>
        ensures { result ≡ moves.moved self.now.config self.now.scripts self.now.records by }
    {
        match by {
            Move::Turn(p) => self.choose(p),
            Move::Tick(p) => Some(Event::Tick(p)),
        }
    }

    /// A move and its event, with its record at the end of the history, which is told.
    pub(crate) fn make(&mut self, by: Move, event: Event, report: &mut Record) -> Receipt
        requires room { length self.old.records < self.old.turns }
        requires place { (moves.mover_of by).number ≤ self.old.config.processors }
        requires picks { moves.moved self.old.config self.old.scripts self.old.records by ≡ Some event }
        ensures adds { AddsRecord self.old event result self.new }
        ensures report { report.new ≡ report_after self.old event }
    {
        self.kernel.step_into(event, report);
        advance_task(self.config, self.scripts, &mut self.tasks, report);
        advance_handler(self.config, self.scripts, &mut self.handlers, report);
        let receipt = Receipt {
            number: self.moves.len() as u32 + 1,
            event,
            answer: report.answer,
        };
        self.moves.push_reserved(by);
        receipt
    }

    /// Makes the record of a move, which is told.
    pub(crate) fn play(&mut self, by: Move, report: &mut Record)
        requires room { length self.old.records < self.old.turns }
        requires place { (moves.mover_of by).number ≤ self.old.config.processors }
        requires some { is_some (moves.moved self.old.config self.old.scripts self.old.records by) ≡ true }
        ensures plays { self.new ≡ moves.played_on self.old by }
        ensures report { moves.moved self.old.config self.old.scripts self.old.records by ≡ Some report.new.event }
        ensures is { report.new ≡ report_after self.old report.new.event }
    {
        if let Some(event) = self.event_of(by) {
            let _receipt = self.make(by, event, report);
        }
    }
}
